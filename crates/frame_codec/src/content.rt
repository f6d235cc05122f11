//! The fields of a DataSetMessage, read.
ghost use Rattle.std.specs.Prelude.{◌≡◌, ◌≢◌, ◌<◌, ℕ, Bool, true, false, Some, length, slice_set, [], IfOk, if◌then◌else◌};
ghost use Rattle.std.specs.List.{HoldsAt};
ghost use Rattle.ua_values.specs.Values.{Fits};
ghost use Rattle.ua_binary.specs.Reading.{ReadsAhead};
ghost use Rattle.dataset_meta.specs.DataValues.{IsStatus};
ghost use Rattle.dataset_meta.specs.Rows.{put_in};
ghost use Rattle.row_words.specs.Words.{IsWordOf, scalar_in};
ghost use Rattle.row_words.specs.Belonging.{Belongs, row_in};
ghost use Rattle.row_words.specs.Patches.{IsPatchOf, patch_in};
ghost use Rattle.frame_codec.specs.Calls.{ReadsChange, ReadsField, leaving, meaning, patch_meaning, kept_if};
ghost use Rattle.frame_codec.specs.Contents.{kept, given, value_at, surplus_at, row_at, surpluses_at, is_count, counted_at, whole_at, put_at, change_at, changes_at, patch_at, content_at};
ghost use Rattle.frame_codec.specs.Words.{IsKindOf, content_in};

use crate::fault::FrameFault;
use crate::flags::{DATA_VALUE, DELTA, KEY, VARIANT};
use crate::frame::FrameKind;
use crate::front::Front;
use crate::length::field_count;
use crate::scalar::{Own, read_own};
use dataset_meta::{Field, Meta};
use row_words::{Patch, Row, is_scalar};
use ua_binary::{Cursor, Measured, read_data_value, read_variant};
use ua_values::{Value, fits};

/// All that stands behind the front, in place of other content of the same meta. Content of the same kind is filled where it
/// stands.
#[inline(always)]
#[tactic(auto, unfolding(crate::specs::Contents::content_at))]
pub(crate) fn read_content_into(
    cursor: &mut Cursor<'_>,
    meta: &Meta,
    newer: bool,
    front: &Front,
    kind: &mut FrameKind,
) -> Result<(), FrameFault>
    requires { IsKindOf meta.now kind.old }
    ensures of { IsKindOf meta.now kind.new }
    ensures answer { ReadsAhead (leaving result (content_in meta.now.fields kind.new))
        cursor.old cursor.new (content_at meta.now newer front.now.encoding front.now.kind) }
{
    match kind {
        FrameKind::Whole(row) if front.kind == KEY => {
            read_whole_apart(cursor, meta, newer, front.encoding, row)
        }
        FrameKind::Change(patch) if front.kind == DELTA => {
            read_patch_apart(cursor, meta, newer, front.encoding, patch)
        }
        _ => replace_apart(cursor, meta, newer, front, kind),
    }
}

/// The same in place of content of other words, by copies of the cursor and the front, so that neither need stand in memory.
#[inline(always)]
fn replace_apart(
    cursor: &mut Cursor<'_>,
    meta: &Meta,
    newer: bool,
    front: &Front,
    kind: &mut FrameKind,
) -> Result<(), FrameFault>
    requires { IsKindOf meta.now kind.old }
    ensures of { IsKindOf meta.now kind.new }
    ensures answer { ReadsAhead (leaving result (content_in meta.now.fields kind.new))
        cursor.old cursor.new (content_at meta.now newer front.now.encoding front.now.kind) }
{
    let mut lent = *cursor;
    let front = *front;
    replace_content(&mut lent, meta, newer, &front, kind)?;
    *cursor = lent;
    Ok(())
}

/// The same by a cursor and a front that are lent.
#[inline(never)]
fn replace_content(
    cursor: &mut Cursor<'_>,
    meta: &Meta,
    newer: bool,
    front: &Front,
    kind: &mut FrameKind,
) -> Result<(), FrameFault>
    requires { IsKindOf meta.now kind.old }
    ensures of { IsKindOf meta.now kind.new }
    ensures answer { ReadsAhead (leaving result (content_in meta.now.fields kind.new))
        cursor.old cursor.new (content_at meta.now newer front.now.encoding front.now.kind) }
{
    *kind = read_content(cursor, meta, newer, front)?;
    Ok(())
}

#[inline(always)]
#[tactic(auto, unfolding(crate::specs::Contents::content_at))]
fn read_content(
    cursor: &mut Cursor<'_>,
    meta: &Meta,
    newer: bool,
    front: &Front,
) -> Result<FrameKind, FrameFault>
    ensures of { IfOk result (IsKindOf meta.now) }
    ensures answer { ReadsAhead (meaning meta.now.fields result)
        cursor.old cursor.new (content_at meta.now newer front.now.encoding front.now.kind) }
{
    match front.kind {
        KEY => {
            prove!(meta.fields().len() <= 64);
            let mut row = Row::opening();
            read_whole(cursor, meta, newer, front.encoding, &mut row)?;
            Ok(FrameKind::Whole(row))
        }
        DELTA => Ok(FrameKind::Change(read_patch(cursor, meta, newer, front.encoding)?)),
        _ => Ok(FrameKind::Alive),
    }
}

/// The fields of a key frame, by a copy of the cursor, so that the cursor itself need not stand in memory.
#[inline(always)]
fn read_whole_apart(
    cursor: &mut Cursor<'_>,
    meta: &Meta,
    newer: bool,
    encoding: u8,
    row: &mut Row,
) -> Result<(), FrameFault>
    requires { Belongs meta.now row.old.words }
    ensures belongs { Belongs meta.now row.new.words }
    ensures answer { ReadsAhead (leaving result (row_in meta.now.fields row.new.words))
        cursor.old cursor.new (whole_at meta.now newer encoding) }
{
    let mut lent = *cursor;
    read_whole(&mut lent, meta, newer, encoding, row)?;
    *cursor = lent;
    Ok(())
}

/// The fields of a key frame: their count, and each.
#[inline(always)]
#[tactic(auto, unfolding(crate::specs::Contents::whole_at))]
fn read_whole(
    cursor: &mut Cursor<'_>,
    meta: &Meta,
    newer: bool,
    encoding: u8,
    row: &mut Row,
) -> Result<(), FrameFault>
    requires { Belongs meta.now row.old.words }
    ensures belongs { Belongs meta.now row.new.words }
    ensures answer { ReadsAhead (leaving result (row_in meta.now.fields row.new.words))
        cursor.old cursor.new (whole_at meta.now newer encoding) }
{
    let count = cursor.read_u16()?;
    if !is_count(meta, newer, count) {
        return Err(FrameFault::WrongCount { got: count });
    }
    read_counted(cursor, meta, encoding, count, row)
}

#[inline(always)]
pub(crate) fn is_count(meta: &Meta, newer: bool, count: u16) -> bool
    ensures { result ≡ is_count newer (length meta.now.fields) count }
{
    let fields = meta.fields().len();
    usize::from(count) == fields || (newer && fields < usize::from(count))
}

/// The values of the fields, and then the surplus ones.
#[inline(always)]
fn read_counted(
    cursor: &mut Cursor<'_>,
    meta: &Meta,
    encoding: u8,
    count: u16,
    row: &mut Row,
) -> Result<(), FrameFault>
    requires { Belongs meta.now row.old.words }
    ensures belongs { Belongs meta.now row.new.words }
    ensures answer { ReadsAhead (leaving result (row_in meta.now.fields row.new.words))
        cursor.old cursor.new (counted_at meta.now.quality encoding meta.now.fields count) }
{
    read_row(cursor, meta, encoding, row)?;
    let surplus = usize::from(count).saturating_sub(meta.fields().len());
    read_surpluses(cursor, encoding, surplus)
}

/// The values of the fields. DataValues for a data set with statuses, and Variants for one without, have a loop each.
#[inline(always)]
fn read_row(
    cursor: &mut Cursor<'_>,
    meta: &Meta,
    encoding: u8,
    row: &mut Row,
) -> Result<(), FrameFault>
    requires row { Belongs meta.now row.old.words }
    ensures belongs { Belongs meta.now row.new.words }
    ensures answer { ReadsAhead (leaving result (row_in meta.now.fields row.new.words))
        cursor.old cursor.new (row_at meta.now.quality encoding meta.now.fields) }
{
    if meta.quality() {
        if encoding == DATA_VALUE {
            read_data_values(cursor, meta, row)
        } else {
            read_others(cursor, meta, encoding, row)
        }
    } else if encoding == VARIANT {
        read_variants(cursor, meta, row)
    } else {
        read_others(cursor, meta, encoding, row)
    }
}

/// The same of DataValues, for a data set with statuses. Each loop is a function of its own, which keeps it short.
#[inline(never)]
fn read_data_values(cursor: &mut Cursor<'_>, meta: &Meta, row: &mut Row) -> Result<(), FrameFault>
    requires quality { meta.now.quality ≡ true }
    requires row { Belongs meta.now row.old.words }
    ensures belongs { Belongs meta.now row.new.words }
    ensures answer { ReadsAhead (leaving result (row_in meta.now.fields row.new.words))
        cursor.old cursor.new (row_at meta.now.quality DATA_VALUE meta.now.fields) }
{
    read_apart(cursor, meta, DATA_VALUE, true, row)
}

/// The same of Variants, for a data set without statuses.
#[inline(never)]
fn read_variants(cursor: &mut Cursor<'_>, meta: &Meta, row: &mut Row) -> Result<(), FrameFault>
    requires plain { meta.now.quality ≡ false }
    requires row { Belongs meta.now row.old.words }
    ensures belongs { Belongs meta.now row.new.words }
    ensures answer { ReadsAhead (leaving result (row_in meta.now.fields row.new.words))
        cursor.old cursor.new (row_at meta.now.quality VARIANT meta.now.fields) }
{
    read_apart(cursor, meta, VARIANT, false, row)
}

/// The same of values that come otherwise than a writer with this meta sends them.
#[inline(never)]
fn read_others(
    cursor: &mut Cursor<'_>,
    meta: &Meta,
    encoding: u8,
    row: &mut Row,
) -> Result<(), FrameFault>
    requires row { Belongs meta.now row.old.words }
    ensures belongs { Belongs meta.now row.new.words }
    ensures answer { ReadsAhead (leaving result (row_in meta.now.fields row.new.words))
        cursor.old cursor.new (row_at meta.now.quality encoding meta.now.fields) }
{
    read_apart(cursor, meta, encoding, meta.quality(), row)
}

/// The same where it is known whether the data set has statuses. The cursor is kept apart until the last value is read, so that
/// it need not be stored for each.
#[inline(always)]
fn read_apart(
    cursor: &mut Cursor<'_>,
    meta: &Meta,
    encoding: u8,
    quality: bool,
    row: &mut Row,
) -> Result<(), FrameFault>
    requires quality { quality ≡ meta.now.quality }
    requires row { Belongs meta.now row.old.words }
    ensures belongs { Belongs meta.now row.new.words }
    ensures answer { ReadsAhead (leaving result (row_in meta.now.fields row.new.words))
        cursor.old cursor.new (row_at meta.now.quality encoding meta.now.fields) }
{
    let mut lent = *cursor;
    read_values(&mut lent, meta, encoding, quality, row)?;
    *cursor = lent;
    Ok(())
}

/// The values of the fields, one after another.
#[inline(always)]
fn read_values(
    cursor: &mut Cursor<'_>,
    meta: &Meta,
    encoding: u8,
    quality: bool,
    row: &mut Row,
) -> Result<(), FrameFault>
    requires quality { quality ≡ meta.now.quality }
    requires row { Belongs meta.now row.old.words }
    ensures belongs { Belongs meta.now row.new.words }
    ensures answer { ReadsAhead (leaving result (row_in meta.now.fields row.new.words))
        cursor.old cursor.new (row_at meta.now.quality encoding meta.now.fields) }
{
    for index in 0..field_count(meta) {
        read_into(cursor, meta, index, encoding, quality, row)?;
    }
    Ok(())
}

/// Reads a value that fits its field, and sets it in the row. Of a scalar of the field's own kind no more than its word is
/// copied; every other value is read by a call, so that a loop over fields stays short.
#[inline(always)]
fn read_into(
    cursor: &mut Cursor<'_>,
    meta: &Meta,
    index: u8,
    encoding: u8,
    quality: bool,
    row: &mut Row,
) -> Result<(), FrameFault>
    requires quality { quality ≡ meta.now.quality }
    requires row { Belongs meta.now row.old.words }
    requires index { index < length meta.now.fields }
    ensures belongs { Belongs meta.now row.new.words }
    ensures answer { ReadsField meta.now encoding index
        row.old.words row.new.words cursor.old cursor.new result }
{
    let field = &meta.fields()[usize::from(index)];
    match read_own(cursor, field, encoding) {
        Some(own) => {
            set_word(meta, row, index, own, quality);
            Ok(())
        }
        None => read_lent_into(cursor, meta, index, encoding, row),
    }
}

/// The same by a copy of the cursor, so that the cursor itself need not stand in memory.
#[inline(always)]
fn read_lent_into(
    cursor: &mut Cursor<'_>,
    meta: &Meta,
    index: u8,
    encoding: u8,
    row: &mut Row,
) -> Result<(), FrameFault>
    requires row { Belongs meta.now row.old.words }
    requires index { index < length meta.now.fields }
    ensures belongs { Belongs meta.now row.new.words }
    ensures answer { ReadsField meta.now encoding index
        row.old.words row.new.words cursor.old cursor.new result }
{
    let mut lent = *cursor;
    read_any_into(&mut lent, meta, index, encoding, row)?;
    *cursor = lent;
    Ok(())
}

/// The same of any value. It is a function of its own for the room that a value takes.
#[inline(never)]
#[tactic(auto, unfolding(crate::specs::Calls::set_at, crate::specs::Contents::field_at))]
fn read_any_into(
    cursor: &mut Cursor<'_>,
    meta: &Meta,
    index: u8,
    encoding: u8,
    row: &mut Row,
) -> Result<(), FrameFault>
    requires row { Belongs meta.now row.old.words }
    requires index { index < length meta.now.fields }
    ensures belongs { Belongs meta.now row.new.words }
    ensures answer { ReadsField meta.now encoding index
        row.old.words row.new.words cursor.old cursor.new result }
{
    let field = &meta.fields()[usize::from(index)];
    let measured = read_value(cursor, encoding)?;
    let value = suited(measured.value, field)?;
    set_value(meta, row, index, &value, measured.status);
    Ok(())
}

/// A Variant, whose status is Good, or a DataValue.
#[inline(always)]
pub(crate) fn read_value(cursor: &mut Cursor<'_>, encoding: u8) -> Result<Measured, FrameFault>
    ensures { ReadsAhead result cursor.old cursor.new (value_at encoding) }
{
    if encoding == VARIANT {
        return Ok(Measured {
            value: Some(read_variant(cursor)?),
            status: 0,
        });
    }
    Ok(read_data_value(cursor)?)
}

/// A value that is there, and fits its field.
#[inline(always)]
pub(crate) fn suited(value: Option<Value>, field: &Field) -> Result<Value, FrameFault>
    ensures fits { IfOk result (λ value. Fits value field.now.kind field.now.cap) }
    ensures given { (quality : Bool) (status : ℕ)
        → given quality field.now value status ≡ kept_if quality result status }
{
    match value {
        Some(value) if fits(&value, field.kind, field.cap) => Ok(value),
        _ => Err(FrameFault::BadValue),
    }
}

/// Sets a field. Where the data set has no statuses, the status is dropped.
#[inline(always)]
fn set_value(meta: &Meta, row: &mut Row, index: u8, value: &Value, status: u32)
    requires row { Belongs meta.now row.old.words }
    requires index { index < length meta.now.fields }
    requires fits { HoldsAt (λ field. Fits value.now field.kind field.cap) meta.now.fields index }
    ensures belongs { Belongs meta.now row.new.words }
    ensures set { row_in meta.now.fields row.new.words
        ≡ slice_set (row_in meta.now.fields row.old.words) index
        (kept meta.now.quality value.now status) }
{
    row.set(meta, index, value);
    if meta.quality() {
        row.set_status(meta, index, status);
    }
}

/// The same of a scalar of the field's own kind.
#[inline(always)]
fn set_word(meta: &Meta, row: &mut Row, index: u8, own: Own, quality: bool)
    requires quality { quality ≡ meta.now.quality }
    requires row { Belongs meta.now row.old.words }
    requires index { index < length meta.now.fields }
    requires word { HoldsAt (λ field. IsWordOf field.kind own.word) meta.now.fields index }
    ensures belongs { Belongs meta.now row.new.words }
    ensures set { HoldsAt (λ field. row_in meta.now.fields row.new.words
        ≡ slice_set (row_in meta.now.fields row.old.words) index (kept meta.now.quality
        (scalar_in field.kind own.word) own.status)) meta.now.fields index }
{
    row.set_word(meta, index, own.word);
    if quality {
        row.set_status(meta, index, own.status);
    }
}

/// So many surplus values, which are judged by their own bytes and dropped.
#[tactic(auto, using(crate::proofs::RowReading::surpluses_refused, crate::proofs::RowReading::surpluses_more))]
fn read_surpluses(cursor: &mut Cursor<'_>, encoding: u8, count: usize) -> Result<(), FrameFault>
    ensures { ReadsAhead result cursor.old cursor.new (surpluses_at encoding count) }
{
    for _ in 0..count {
        read_surplus(cursor, encoding)?;
    }
    Ok(())
}

/// One surplus value, by a copy of the cursor.
#[inline(always)]
pub(crate) fn read_surplus(cursor: &mut Cursor<'_>, encoding: u8) -> Result<(), FrameFault>
    ensures { ReadsAhead result cursor.old cursor.new (surplus_at encoding) }
{
    let mut lent = *cursor;
    read_lent_surplus(&mut lent, encoding)?;
    *cursor = lent;
    Ok(())
}

/// The same with a cursor that is lent.
#[inline(never)]
#[tactic(auto, unfolding(crate::specs::Contents::surplus_at))]
fn read_lent_surplus(cursor: &mut Cursor<'_>, encoding: u8) -> Result<(), FrameFault>
    ensures { ReadsAhead result cursor.old cursor.new (surplus_at encoding) }
{
    let measured = read_value(cursor, encoding)?;
    if measured.value.is_none() {
        return Err(FrameFault::BadValue);
    }
    Ok(())
}

/// The fields of a delta frame: a count, and so many changes.
#[tactic(auto, unfolding(crate::specs::Contents::patch_at))]
fn read_patch(
    cursor: &mut Cursor<'_>,
    meta: &Meta,
    newer: bool,
    encoding: u8,
) -> Result<Patch, FrameFault>
    ensures of { IfOk result (IsPatchOf meta.now) }
    ensures answer { ReadsAhead (patch_meaning meta.now.fields result)
        cursor.old cursor.new (patch_at meta.now newer encoding) }
{
    prove!(meta.fields().len() <= 64);
    let mut patch = Patch::empty();
    read_patch_into(cursor, meta, newer, encoding, &mut patch)?;
    Ok(patch)
}

/// The same in place of another patch of this meta. The cursor is kept apart until the last change is read, so that it need not
/// be stored for each.
#[inline(always)]
fn read_patch_apart(
    cursor: &mut Cursor<'_>,
    meta: &Meta,
    newer: bool,
    encoding: u8,
    patch: &mut Patch,
) -> Result<(), FrameFault>
    requires { IsPatchOf meta.now patch.old }
    ensures of { IsPatchOf meta.now patch.new }
    ensures answer { ReadsAhead (leaving result (patch_in meta.now.fields patch.new))
        cursor.old cursor.new (patch_at meta.now newer encoding) }
{
    let mut lent = *cursor;
    read_patch_into(&mut lent, meta, newer, encoding, patch)?;
    *cursor = lent;
    Ok(())
}

/// The same with a cursor that stands apart.
#[inline(always)]
#[tactic(auto, unfolding(crate::specs::Contents::patch_at))]
fn read_patch_into(
    cursor: &mut Cursor<'_>,
    meta: &Meta,
    newer: bool,
    encoding: u8,
    patch: &mut Patch,
) -> Result<(), FrameFault>
    requires { IsPatchOf meta.now patch.old }
    ensures of { IsPatchOf meta.now patch.new }
    ensures answer { ReadsAhead (leaving result (patch_in meta.now.fields patch.new))
        cursor.old cursor.new (patch_at meta.now newer encoding) }
{
    let count = cursor.read_u16()?;
    clear_patch(meta, patch);
    read_changes(cursor, meta, newer, encoding, count, patch)
}

/// So many changes are taken out of a patch one by one, and more at once.
const FEW_CHANGES: u32 = 4;

/// Takes all changes out of a patch.
#[inline(always)]
fn clear_patch(meta: &Meta, patch: &mut Patch)
    requires { IsPatchOf meta.now patch.old }
    ensures of { IsPatchOf meta.now patch.new }
    ensures empty { patch_in meta.now.fields patch.new ≡ [] }
{
    if patch.mask.count_ones() <= FEW_CHANGES {
        clear_changes(meta, patch);
    } else {
        clear_words(meta, patch);
    }
}

/// Takes the changes out one by one.
#[inline(always)]
fn clear_changes(meta: &Meta, patch: &mut Patch)
    requires { IsPatchOf meta.now patch.old }
    ensures of { IsPatchOf meta.now patch.new }
    ensures empty { patch_in meta.now.fields patch.new ≡ [] }
{
    while patch.mask != 0 {
        clear_first(meta, patch);
    }
}

/// Takes the first change out, or all where its value takes more than a word.
#[inline(always)]
fn clear_first(meta: &Meta, patch: &mut Patch)
    requires of { IsPatchOf meta.now patch.old }
    requires some { patch.old.mask ≢ 0 }
    ensures of { IsPatchOf meta.now patch.new }
    ensures fewer { patch.new.mask < patch.old.mask }
{
    let index = patch.mask.trailing_zeros();
    if is_scalar(meta.fields()[index as usize].kind) {
        let none = Own { word: 0, status: 0 };
        set_word(meta, &mut patch.row, index as u8, none, meta.quality());
        patch.mask &= !(1 << index);
    } else {
        clear_words(meta, patch);
    }
}

/// Takes all changes out at once. Behind the words of the meta's rows stand zeros already.
#[inline(never)]
fn clear_words(meta: &Meta, patch: &mut Patch)
    requires { IsPatchOf meta.now patch.old }
    ensures of { IsPatchOf meta.now patch.new }
    ensures empty { patch_in meta.now.fields patch.new ≡ [] }
    ensures none { patch.new.mask ≡ 0 }
{
    prove!(meta.fields().len() <= 64);
    let _zeros = Row::opening();
    patch.row.words[..meta.words() as usize].fill(0);
    patch.mask = 0;
}

/// So many changes, one after another. Of two of one field the later counts.
#[inline(always)]
#[tactic(auto, using(crate::proofs::RowReading::changes_refused))]
fn read_changes(
    cursor: &mut Cursor<'_>,
    meta: &Meta,
    newer: bool,
    encoding: u8,
    count: u16,
    patch: &mut Patch,
) -> Result<(), FrameFault>
    requires { IsPatchOf meta.now patch.old }
    ensures of { IsPatchOf meta.now patch.new }
    ensures answer { ReadsAhead (leaving result (patch_in meta.now.fields patch.new))
        cursor.old cursor.new (changes_at meta.now newer encoding count
        (patch_in meta.now.fields patch.old)) }
{
    for _ in 0..count {
        read_change(cursor, meta, newer, encoding, patch)?;
    }
    Ok(())
}

/// A field's index and its value, which is put into the patch.
#[inline(always)]
#[tactic(auto, unfolding(crate::specs::Contents::change_at))]
fn read_change(
    cursor: &mut Cursor<'_>,
    meta: &Meta,
    newer: bool,
    encoding: u8,
    patch: &mut Patch,
) -> Result<(), FrameFault>
    requires { IsPatchOf meta.now patch.old }
    ensures of { IsPatchOf meta.now patch.new }
    ensures answer { ReadsAhead (leaving result (patch_in meta.now.fields patch.new))
        cursor.old cursor.new (change_at meta.now newer encoding
        (patch_in meta.now.fields patch.old)) }
{
    let index = cursor.read_u16()?;
    match meta.fields().get(usize::from(index)) {
        Some(_) => read_put(cursor, meta, index as u8, encoding, patch),
        None if newer => read_surplus(cursor, encoding),
        None => Err(FrameFault::BadIndex { got: index }),
    }
}

/// Reads a value that fits its field, and puts it into the patch. Of a scalar of the field's own kind no more than its word is
/// copied.
#[inline(always)]
fn read_put(
    cursor: &mut Cursor<'_>,
    meta: &Meta,
    index: u8,
    encoding: u8,
    patch: &mut Patch,
) -> Result<(), FrameFault>
    requires patch { IsPatchOf meta.now patch.old }
    requires index { index < length meta.now.fields }
    ensures of { IsPatchOf meta.now patch.new }
    ensures answer { ReadsChange meta.now encoding index
        patch.old patch.new cursor.old cursor.new result }
{
    let field = &meta.fields()[usize::from(index)];
    match read_own(cursor, field, encoding) {
        Some(own) => {
            put_word(meta, patch, index, own);
            Ok(())
        }
        None => read_lent_put(cursor, meta, index, encoding, patch),
    }
}

/// The same by a copy of the cursor, so that the cursor itself need not stand in memory.
#[inline(always)]
fn read_lent_put(
    cursor: &mut Cursor<'_>,
    meta: &Meta,
    index: u8,
    encoding: u8,
    patch: &mut Patch,
) -> Result<(), FrameFault>
    requires patch { IsPatchOf meta.now patch.old }
    requires index { index < length meta.now.fields }
    ensures of { IsPatchOf meta.now patch.new }
    ensures answer { ReadsChange meta.now encoding index
        patch.old patch.new cursor.old cursor.new result }
{
    let mut lent = *cursor;
    read_any_put(&mut lent, meta, index, encoding, patch)?;
    *cursor = lent;
    Ok(())
}

/// The same of any value. It is a function of its own for the room that a value takes.
#[inline(never)]
#[tactic(auto, unfolding(crate::specs::Contents::field_at))]
fn read_any_put(
    cursor: &mut Cursor<'_>,
    meta: &Meta,
    index: u8,
    encoding: u8,
    patch: &mut Patch,
) -> Result<(), FrameFault>
    requires patch { IsPatchOf meta.now patch.old }
    requires index { index < length meta.now.fields }
    ensures of { IsPatchOf meta.now patch.new }
    ensures answer { ReadsChange meta.now encoding index
        patch.old patch.new cursor.old cursor.new result }
{
    let field = &meta.fields()[usize::from(index)];
    let measured = read_value(cursor, encoding)?;
    let value = suited(measured.value, field)?;
    patch.put(meta, index, &value, kept_status(meta, measured.status));
    Ok(())
}

/// Puts a scalar of the field's own kind into the patch, whose words and mask it sets.
#[inline(always)]
fn put_word(meta: &Meta, patch: &mut Patch, index: u8, own: Own)
    requires patch { IsPatchOf meta.now patch.old }
    requires index { index < length meta.now.fields }
    requires word { HoldsAt (λ field. IsWordOf field.kind own.word) meta.now.fields index }
    ensures of { IsPatchOf meta.now patch.new }
    ensures put { HoldsAt (λ field. patch_in meta.now.fields patch.new
        ≡ put_in (patch_in meta.now.fields patch.old) index (kept meta.now.quality
        (scalar_in field.kind own.word) own.status)) meta.now.fields index }
{
    prove!(usize::from(index) < meta.fields().len());
    set_word(meta, &mut patch.row, index, own, meta.quality());
    patch.mask |= 1 << index;
}

/// The status of a value, or Good where the data set has none.
#[inline(always)]
fn kept_status(meta: &Meta, status: u32) -> u32
    ensures kept { result ≡ (if meta.now.quality then status else 0) }
    ensures is { IsStatus meta.now.quality result }
{
    if meta.quality() { status } else { 0 }
}
