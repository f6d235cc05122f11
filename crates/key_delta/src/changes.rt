//! Changes between rows.
ghost use Rattle.std.specs.Prelude.{◌≡◌, ◌≢◌, ◌<◌, ◌≤◌, ◌+◌, [], true, false, not, length};
ghost use Rattle.std.specs.List.{HoldsAt};
ghost use Rattle.dataset_meta.specs.Rows.{patched, differs};
ghost use Rattle.dataset_meta.specs.SameValues.{same_value, same_data_value};
ghost use Rattle.row_words.specs.Belonging.{Belongs, row_in};
ghost use Rattle.row_words.specs.Patches.{IsPatchOf, patch_in, patched_words};
ghost use Rattle.key_delta.specs.Changes.{changes_upto};

use crate::copying::used_words;
use crate::passing::{are_apart, passed};
use dataset_meta::Meta;
use row_words::{Patch, Row, is_scalar};

/// The fields in which two rows differ, in value or in status, with those of the new one.
pub fn changed(meta: &Meta, old: &Row, new: &Row) -> Patch
    requires old { Belongs meta.now old.now.words }
    requires new { Belongs meta.now new.now.words }
    ensures of { IsPatchOf meta.now result }
    ensures differ { patch_in meta.now.fields result
        ≡ differs (row_in meta.now.fields old.now.words) (row_in meta.now.fields new.now.words) }
{
    prove!(!meta.fields().is_empty());
    let mut patch = Patch::empty();
    mark_changes(meta, old, new, &mut patch);
    patch
}

/// Makes an empty patch the one that `changed` answers.
pub fn mark_changes(meta: &Meta, old: &Row, new: &Row, patch: &mut Patch)
    requires old { Belongs meta.now old.now.words }
    requires new { Belongs meta.now new.now.words }
    requires of { IsPatchOf meta.now patch.old }
    requires empty { patch_in meta.now.fields patch.old ≡ [] }
    ensures of { IsPatchOf meta.now patch.new }
    ensures differ { patch_in meta.now.fields patch.new
        ≡ differs (row_in meta.now.fields old.now.words) (row_in meta.now.fields new.now.words) }
{
    let count = meta.fields().len();
    let mut index = 0;
    while index < count {
        let next = passed(meta, old, new, index);
        if next == count {
            return;
        }
        mark_changed(meta, next as u8, old, new, patch);
        index = next + 1;
    }
}

/// Marks the field at this index, where it differs.
#[inline(always)]
fn mark_changed(meta: &Meta, index: u8, old: &Row, new: &Row, patch: &mut Patch)
    requires old { Belongs meta.now old.now.words }
    requires new { Belongs meta.now new.now.words }
    requires index { index < length meta.now.fields }
    requires of { IsPatchOf meta.now patch.old }
    requires marked { patch_in meta.now.fields patch.old
        ≡ changes_upto index
        (row_in meta.now.fields old.now.words) (row_in meta.now.fields new.now.words) }
    ensures of { IsPatchOf meta.now patch.new }
    ensures marked { patch_in meta.now.fields patch.new
        ≡ changes_upto (index + 1)
        (row_in meta.now.fields old.now.words) (row_in meta.now.fields new.now.words) }
{
    if differs_at(meta, index, old, new) {
        patch.mark(meta, index, new);
    }
}

/// Gives each field that the patch marks its new value and status, and leaves the others.
pub fn apply(meta: &Meta, row: &mut Row, patch: &Patch)
    requires belongs { Belongs meta.now row.old.words }
    requires of { IsPatchOf meta.now patch.now }
    ensures belongs { Belongs meta.now row.new.words }
    ensures patched { row_in meta.now.fields row.new.words
        ≡ patched (row_in meta.now.fields row.old.words) (patch_in meta.now.fields patch.now) }
    ensures words { row.new.words ≡ patched_words meta.now.fields patch.now row.old.words }
{
    patch.lay(meta, row);
}

/// Whether two rows differ in any field. Behind the words that are compared both have zeros.
pub fn is_changed(meta: &Meta, old: &Row, new: &Row) -> bool
    requires old { Belongs meta.now old.now.words }
    requires new { Belongs meta.now new.now.words }
    ensures changed { result ≡ true → old.now.words ≢ new.now.words }
    ensures same { result ≡ false → old.now.words ≡ new.now.words }
{
    let count = used_words(meta) as usize;
    are_apart(&old.words[..count], &new.words[..count])
}

#[inline(always)]
fn differs_at(meta: &Meta, index: u8, old: &Row, new: &Row) -> bool
    requires old { Belongs meta.now old.now.words }
    requires new { Belongs meta.now new.now.words }
    requires index { index < length meta.now.fields }
    ensures { HoldsAt (λ before. HoldsAt (λ after. result ≡ not (same_data_value before after))
        (row_in meta.now.fields new.now.words) index) (row_in meta.now.fields old.now.words) index }
{
    if value_differs(meta, index, old, new) {
        return true;
    }
    meta.quality() && old.status(meta, index) != new.status(meta, index)
}

/// Of scalars their words are compared.
#[inline(always)]
fn value_differs(meta: &Meta, index: u8, old: &Row, new: &Row) -> bool
    requires old { Belongs meta.now old.now.words }
    requires new { Belongs meta.now new.now.words }
    requires index { index < length meta.now.fields }
    ensures { HoldsAt (λ before. HoldsAt (λ after. result
        ≡ not (same_value before.value after.value))
        (row_in meta.now.fields new.now.words) index) (row_in meta.now.fields old.now.words) index }
{
    if is_scalar(meta.fields()[usize::from(index)].kind) {
        return old.word(meta, index) != new.word(meta, index);
    }
    words_differ(meta, index, old, new)
}

fn words_differ(meta: &Meta, index: u8, old: &Row, new: &Row) -> bool
    requires old { Belongs meta.now old.now.words }
    requires new { Belongs meta.now new.now.words }
    requires index { index < length meta.now.fields }
    ensures { HoldsAt (λ before. HoldsAt (λ after. result
        ≡ not (same_value before.value after.value))
        (row_in meta.now.fields new.now.words) index) (row_in meta.now.fields old.now.words) index }
{
    let start = usize::from(meta.start(index));
    let end = start + meta.fields()[usize::from(index)].words() as usize;
    old.words[start..end] != new.words[start..end]
}
