//! What field words give the fields of a data set.
ghost use Rattle.std.specs.Prelude.{◌≡◌, ◌<◌, ◌≤◌, [], length, Option, Some, option_map, is_none, IfSome};
ghost use Rattle.std.specs.List.{list_any, HoldsAt};
ghost use Rattle.ua_values.specs.Values.{Fits};
ghost use Rattle.dataset_meta.specs.DataValues.{IsStatus};
ghost use Rattle.dataset_meta.specs.Rows.{FitsAt};
ghost use Rattle.row_words.specs.Patches.{IsPatchOf, patch_in, spelled_patch};
ghost use Rattle.ps_script.specs.Fields.{field_name, value_text, status_text, field_named, status_by, status_spelled, change_of, has_bad_field, patch_with};
ghost use Rattle.ps_script.specs.Faults.{field_words, has_bad_field_in, has_bad_value_in};
ghost use Rattle.ps_script.specs.Values.{ValueReader};
ghost use Rattle.ps_script.specs.Changes.{change_by};
ghost use Rattle.ps_script.specs.Acts.{patch_of};

use crate::laws::a_patch_is_the_words_of_what_it_stands_for;
use crate::shapes::has_byte;
use crate::texts::{behind_words, cut, first_word};
use crate::values::value_said;
use dataset_meta::{Field, Meta};
use row_words::Patch;
use ua_values::{Kind, Value};
use value_texts::parse_value;

/// What a field word gives a field.
#[derive(Clone, Copy, Debug)]
pub(crate) struct Change {
    /// The field's place.
    pub(crate) index: u8,
    pub(crate) value: Value,
    /// A StatusCode.
    pub(crate) status: u32,
}

/// The field of a field word, with the value and the status that the word gives it.
#[tactic(auto, unfolding(crate::specs::Fields::change_of))]
pub(crate) fn change_of(meta: &Meta, word: &[u8]) -> Option<Change>
    ensures change { (reader : ValueReader) → option_map change_by result
        ≡ change_of reader meta.now.quality meta.now.fields word.now }
    ensures fits { IfSome result (λ change.
        FitsAt meta.now change.index change.value change.status) }
    ensures place { IfSome result (λ change.
        field_named meta.now.fields (field_name word.now) ≡ Some change.index) }
{
    let index = field_named(meta.fields(), field_name(word))?;
    let field = &meta.fields()[index];
    let value = value_said(field.kind, field.cap, value_text(word))?;
    let status = status_of(meta.quality(), word)?;
    Some(Change {
        index: index as u8,
        value,
        status,
    })
}

/// A field word's field: what stands in front of its first `=`, and there of its first `!`.
fn field_name(word: &[u8]) -> &[u8]
    ensures { result.now ≡ field_name word.now }
{
    let (side, _) = cut(word, b'=');
    let (name, _) = cut(side, b'!');
    name
}

fn value_text(word: &[u8]) -> &[u8]
    ensures { result.now ≡ value_text word.now }
{
    let (_, value) = cut(word, b'=');
    value
}

/// The place of the field with this name.
fn field_named(fields: &[Field], name: &[u8]) -> Option<usize>
    ensures place { result ≡ field_named fields.now name.now }
    ensures bound { IfSome result (λ index. index < length fields.now) }
{
    fields
        .iter()
        .position(|field| field.name.as_bytes() == name)
}

/// The status of a field word, 0 where it names none.
fn status_of(quality: bool, word: &[u8]) -> Option<u32>
    ensures status { (reader : ValueReader)
        → result ≡ status_by reader quality (status_text word.now) }
    ensures fits { IfSome result (IsStatus quality) }
{
    let (side, _) = cut(word, b'=');
    if !has_byte(side, b'!') {
        return Some(0);
    }
    let (_, text) = cut(side, b'!');
    status_spelled(quality, text)
}

fn status_spelled(quality: bool, text: &[u8]) -> Option<u32>
    ensures status { (reader : ValueReader) → result ≡ status_spelled reader quality text.now }
    ensures fits { IfSome result (IsStatus quality) }
{
    match parse_value(Kind::StatusCode, 0, text) {
        Some(Value::StatusCode(status)) if quality || status == 0 => Some(status),
        _ => None,
    }
}

/// A field word's field isn't there, or is that of an earlier word.
#[tactic(auto, using(crate::proofs::Taken::leaves_first, crate::proofs::Taken::leaves_next, crate::proofs::Taken::none_named, crate::proofs::Taken::one_taken, crate::proofs::Taken::leaves_none))]
pub(crate) fn has_bad_field(meta: &Meta, line: &[u8]) -> bool
    ensures { result ≡ has_bad_field_in line.now meta.now }
{
    let mut taken = [false; 64];
    let mut rest = behind_words(line, 3);
    'words: while let Some((word, behind)) = first_word(rest) {
        let Some(index) = field_named(meta.fields(), field_name(word)) else {
            return true;
        };
        if taken[index] {
            return true;
        }
        taken[index] = true;
        rest = behind;
    }
    false
}

/// A field word gives its field no value or no status.
#[tactic(auto, using(crate::proofs::Said::value_next, crate::proofs::Said::value_bad, crate::proofs::Said::value_end))]
pub(crate) fn has_bad_value(meta: &Meta, line: &[u8]) -> bool
    ensures { (reader : ValueReader) → result ≡ has_bad_value_in reader line.now meta.now }
{
    let mut rest = behind_words(line, 3);
    'words: while let Some((word, behind)) = first_word(rest) {
        if gives_nothing(meta, word) {
            return true;
        }
        rest = behind;
    }
    false
}

fn gives_nothing(meta: &Meta, word: &[u8]) -> bool
    ensures { (reader : ValueReader) → result
        ≡ is_none (change_of reader meta.now.quality meta.now.fields word.now) }
{
    match change_of(meta, word) {
        Some(_) => false,
        None => true,
    }
}

/// What the field words of a line give their fields.
#[tactic(auto, using(crate::proofs::Said::patch_more, crate::proofs::Said::patch_end))]
pub(crate) fn patch_of(meta: &Meta, line: &[u8]) -> Patch
    ensures { (reader : ValueReader) → result ≡ patch_of reader line.now meta.now }
{
    let mut patch = Patch::empty();
    prove!(!meta.fields().is_empty());
    let mut rest = behind_words(line, 3);
    'words: while let Some((word, behind)) = first_word(rest) {
        if let Some(change) = change_of(meta, word) {
            patch.put(meta, change.index, &change.value, change.status);
        }
        rest = behind;
    }
    a_patch_is_the_words_of_what_it_stands_for();
    patch
}
