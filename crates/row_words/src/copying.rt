//! One field copied from row to row.
ghost use Rattle.std.specs.Prelude.{◌≡◌, ◌<◌, false, length, slice_set};
ghost use Rattle.std.specs.List.{HoldsAt};
ghost use Rattle.row_words.specs.Words.{is_scalar};
ghost use Rattle.row_words.specs.Belonging.{Belongs, row_in};
ghost use Rattle.row_words.specs.Setting.{with_value};

use crate::row::Row;
use crate::scalar::is_scalar;
use dataset_meta::Meta;

/// Gives the field at this index the value and the status that it has in another row, and leaves the other fields.
#[inline(always)]
pub(crate) fn copy_field(meta: &Meta, index: u8, from: &Row, to: &mut Row)
    requires from { Belongs meta.now from.now.words }
    requires to { Belongs meta.now to.old.words }
    requires index { index < length meta.now.fields }
    ensures belongs { Belongs meta.now to.new.words }
    ensures copied { HoldsAt (λ x. row_in meta.now.fields to.new.words
        ≡ slice_set (row_in meta.now.fields to.old.words) index x)
        (row_in meta.now.fields from.now.words) index }
{
    copy_value(meta, index, from, to);
    if meta.quality() {
        to.set_status(meta, index, from.status(meta, index));
    }
}

/// Of a scalar its word is copied.
#[inline(always)]
fn copy_value(meta: &Meta, index: u8, from: &Row, to: &mut Row)
    requires from { Belongs meta.now from.now.words }
    requires to { Belongs meta.now to.old.words }
    requires index { index < length meta.now.fields }
    ensures belongs { Belongs meta.now to.new.words }
    ensures copied { HoldsAt (λ x. row_in meta.now.fields to.new.words
        ≡ with_value (row_in meta.now.fields to.old.words) index x.value)
        (row_in meta.now.fields from.now.words) index }
{
    if is_scalar(meta.fields()[usize::from(index)].kind) {
        to.set_word(meta, index, from.word(meta, index));
    } else {
        copy_words(meta, index, from, to);
    }
}

/// The same of all the words of a value. It is a function of its own, so that a loop over scalars stays short.
#[inline(never)]
fn copy_words(meta: &Meta, index: u8, from: &Row, to: &mut Row)
    requires from { Belongs meta.now from.now.words }
    requires to { Belongs meta.now to.old.words }
    requires index { index < length meta.now.fields }
    ensures belongs { Belongs meta.now to.new.words }
    ensures copied { HoldsAt (λ x. row_in meta.now.fields to.new.words
        ≡ with_value (row_in meta.now.fields to.old.words) index x.value)
        (row_in meta.now.fields from.now.words) index }
{
    let start = usize::from(meta.start(index));
    let end = start + meta.fields()[usize::from(index)].words() as usize;
    to.words[start..end].copy_from_slice(&from.words[start..end]);
}
