//! The rows of data sets, set field by field.
ghost use Rattle.std.specs.Prelude.{◌≡◌, ◌≤◌, IfNone, IfSome, length, slice_set};
ghost use Rattle.std.specs.Bool.{OnTrue, OnFalse};
ghost use Rattle.dataset_meta.specs.Rows.{FitsAt};
ghost use Rattle.row_words.specs.Belonging.{Belongs, row_in};
ghost use Rattle.row_words.specs.Setting.{HasStatus, HasValue, with_status, with_value};
ghost use Rattle.row_words.specs.Words.{scalar_in};
ghost use Rattle.writer_group.specs.Standing.{AreRowsOf};
ghost use Rattle.device.specs.Sides.{HasNoField, HasNoScalar, HasRowSet, HasRowStatus, HasWordSet, IsMisfit, IsScalarAt, IsSetAgain, IsStatusMisfit, IsWordMisfit, MayHaveStatus, MayHaveWord, RowIs};

use crate::words::{has_field_at, is_scalar_at, is_word_of};
use dataset_meta::Meta;
use row_words::Row;
use ua_values::{Kind, Value};
use writer_group::Sampled;

/// Sets a field of the row of the data set with this index, and counts it.
pub fn set_in(
    metas: &[Meta],
    rows: &mut [Sampled],
    set: u8,
    field: u8,
    value: &Value,
    status: u32,
) -> bool
    requires rows { AreRowsOf metas.now rows.old }
    requires count { length rows.old ≡ length metas.now }
    ensures rows { AreRowsOf metas.now rows.new }
    ensures set { OnTrue result (HasRowSet metas.now set field value.now status rows.old rows.new) }
    ensures unset { OnFalse result (rows.new ≡ rows.old) }
    ensures misfit { OnFalse result (IsMisfit metas.now set field value.now status) }
{
    let index = usize::from(set);
    if index >= metas.len() {
        return false;
    }
    set_row(&metas[index], &mut rows[index], field, value, status)
}

/// Sets a scalar field of the row of the data set with this index, and counts it.
pub fn set_word_in(
    metas: &[Meta],
    rows: &mut [Sampled],
    set: u8,
    field: u8,
    kind: Kind,
    word: u64,
) -> bool
    requires rows { AreRowsOf metas.now rows.old }
    requires count { length rows.old ≡ length metas.now }
    ensures rows { AreRowsOf metas.now rows.new }
    ensures set { OnTrue result (HasWordSet metas.now set field kind word rows.old rows.new) }
    ensures unset { OnFalse result (rows.new ≡ rows.old) }
    ensures misfit { OnFalse result (IsWordMisfit metas.now set field kind word) }
{
    let index = usize::from(set);
    if index >= metas.len() {
        return false;
    }
    set_word_row(&metas[index], &mut rows[index], field, kind, word)
}

/// Sets the status of a field of the row of the data set with this index, and counts it.
pub fn set_status_in(metas: &[Meta], rows: &mut [Sampled], set: u8, field: u8, status: u32) -> bool
    requires rows { AreRowsOf metas.now rows.old }
    requires count { length rows.old ≡ length metas.now }
    ensures rows { AreRowsOf metas.now rows.new }
    ensures set { OnTrue result (HasRowStatus metas.now set field status rows.old rows.new) }
    ensures unset { OnFalse result (rows.new ≡ rows.old) }
    ensures misfit { OnFalse result (IsStatusMisfit metas.now set field status) }
{
    let index = usize::from(set);
    if index >= metas.len() {
        return false;
    }
    set_status_row(&metas[index], &mut rows[index], field, status)
}

/// The value and the status of a field of the row of the data set with this index.
pub fn field_in(metas: &[Meta], rows: &[Sampled], set: u8, field: u8) -> Option<(Value, u32)>
    requires rows { AreRowsOf metas.now rows.now }
    requires count { length rows.now ≡ length metas.now }
    ensures value { IfSome result (λ x.
        RowIs set (λ row. HasValue row field x.0) metas.now rows.now) }
    ensures status { IfSome result (λ x.
        RowIs set (λ row. HasStatus row field x.1) metas.now rows.now) }
    ensures none { IfNone result (HasNoField metas.now set field) }
{
    let index = usize::from(set);
    if index >= metas.len() {
        return None;
    }
    field_of(&metas[index], &rows[index].row, field)
}

/// The word of a scalar field of this kind of the row of the data set with this index.
pub fn word_in(metas: &[Meta], rows: &[Sampled], set: u8, field: u8, kind: Kind) -> Option<u64>
    requires rows { AreRowsOf metas.now rows.now }
    requires count { length rows.now ≡ length metas.now }
    ensures word { IfSome result (λ word.
        RowIs set (λ row. HasValue row field (scalar_in kind word)) metas.now rows.now) }
    ensures none { IfNone result (HasNoScalar metas.now set field kind) }
{
    let index = usize::from(set);
    if index >= metas.len() {
        return None;
    }
    word_of(&metas[index], &rows[index].row, field, kind)
}

/// The value and the status of a field of the row, if the field is there.
fn field_of(meta: &Meta, row: &Row, field: u8) -> Option<(Value, u32)>
    requires { Belongs meta.now row.now.words }
    ensures value { IfSome result (λ x.
        HasValue (row_in meta.now.fields row.now.words) field x.0) }
    ensures status { IfSome result (λ x.
        HasStatus (row_in meta.now.fields row.now.words) field x.1) }
    ensures none { IfNone result (length meta.now.fields ≤ field) }
{
    if !has_field_at(meta, field) {
        return None;
    }
    Some((row.field(meta, field), row.status(meta, field)))
}

/// The word of a field of the row, if the field is there and of this kind, which is a scalar's.
fn word_of(meta: &Meta, row: &Row, field: u8, kind: Kind) -> Option<u64>
    requires { Belongs meta.now row.now.words }
    ensures word { IfSome result (λ word.
        HasValue (row_in meta.now.fields row.now.words) field (scalar_in kind word)) }
    ensures none { IfNone result (¬ IsScalarAt meta.now field kind) }
{
    if !is_scalar_at(meta, field, kind) {
        return None;
    }
    Some(row.word(meta, field))
}

/// Sets a field of the row, and counts it.
fn set_row(meta: &Meta, sampled: &mut Sampled, field: u8, value: &Value, status: u32) -> bool
    requires { Belongs meta.now sampled.old.row.words }
    ensures belongs { Belongs meta.now sampled.new.row.words }
    ensures set { OnTrue result (row_in meta.now.fields sampled.new.row.words
        ≡ slice_set (row_in meta.now.fields sampled.old.row.words) field
        (record { value = value.now; status = status })) }
    ensures counted { OnTrue result (IsSetAgain sampled.old sampled.new) }
    ensures unset { OnFalse result (sampled.new ≡ sampled.old) }
    ensures misfit { OnFalse result (¬ FitsAt meta.now field value.now status) }
{
    let is_set = sampled.row.try_set(meta, field, value, status);
    if is_set {
        sampled.version = sampled.version.wrapping_add(1);
    }
    is_set
}

/// Sets a scalar field of the row, and counts it.
fn set_word_row(meta: &Meta, sampled: &mut Sampled, field: u8, kind: Kind, word: u64) -> bool
    requires { Belongs meta.now sampled.old.row.words }
    ensures belongs { Belongs meta.now sampled.new.row.words }
    ensures set { OnTrue result (row_in meta.now.fields sampled.new.row.words
        ≡ with_value (row_in meta.now.fields sampled.old.row.words) field (scalar_in kind word)) }
    ensures kind { OnTrue result (IsScalarAt meta.now field kind) }
    ensures counted { OnTrue result (IsSetAgain sampled.old sampled.new) }
    ensures unset { OnFalse result (sampled.new ≡ sampled.old) }
    ensures misfit { OnFalse result (¬ MayHaveWord meta.now field kind word) }
{
    if !is_scalar_at(meta, field, kind) {
        return false;
    }
    if !is_word_of(kind, word) {
        return false;
    }
    sampled.row.set_word(meta, field, word);
    sampled.version = sampled.version.wrapping_add(1);
    true
}

/// Sets the status of a field of the row, and counts it.
fn set_status_row(meta: &Meta, sampled: &mut Sampled, field: u8, status: u32) -> bool
    requires { Belongs meta.now sampled.old.row.words }
    ensures belongs { Belongs meta.now sampled.new.row.words }
    ensures set { OnTrue result (row_in meta.now.fields sampled.new.row.words
        ≡ with_status (row_in meta.now.fields sampled.old.row.words) field status) }
    ensures counted { OnTrue result (IsSetAgain sampled.old sampled.new) }
    ensures unset { OnFalse result (sampled.new ≡ sampled.old) }
    ensures misfit { OnFalse result (¬ MayHaveStatus meta.now field status) }
{
    if !may_have_status(meta, field, status) {
        return false;
    }
    sampled.row.set_status(meta, field, status);
    sampled.version = sampled.version.wrapping_add(1);
    true
}

/// Whether the field is there, and may have this status: without quality it is Good (OPC 10000-14 6.2.4.2, DataSetFieldContentMask).
fn may_have_status(meta: &Meta, field: u8, status: u32) -> bool
    ensures may { OnTrue result (MayHaveStatus meta.now field status) }
    ensures not { OnFalse result (¬ MayHaveStatus meta.now field status) }
{
    if !has_field_at(meta, field) {
        return false;
    }
    if meta.quality() {
        return true;
    }
    status == 0
}
