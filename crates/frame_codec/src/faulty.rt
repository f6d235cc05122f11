//! Which field of a frame can't be read.
ghost use Rattle.std.specs.Prelude.{◌≡◌, ◌-◌, Bool, length, slice_get};
ghost use Rattle.ua_binary.specs.Reading.{ReadsAhead, skipped};
ghost use Rattle.frame_codec.specs.Contents.{field_at};
ghost use Rattle.frame_codec.specs.FieldFaults.{type_behind_mask, type_byte_at, fault_at, judged_at, value_past, values_past, surpluses_past, counted_past, whole_past, change_past, changes_past, patch_past, message_past, field_fault};

use crate::content::{is_count, read_surplus, read_value, suited};
use crate::fault::FrameFault;
use crate::flags::{DELTA, KEY, MASK_RESERVED, VALUE, VARIANT};
use crate::front::read_front_in;
use crate::length::field_count;
use crate::reading::is_newer;
use dataset_meta::{Field, Meta};
use ua_binary::Cursor;

/// A field of a frame whose value can't be read.
#[derive(Clone, Copy, Debug, PartialEq, Eq)]
pub struct FieldFault {
    /// Of a key frame the position of the value, of a delta frame the index that stands before it.
    pub index: u16,
    /// The type byte of the value (OPC 10000-6 section 5.2.2.16). There is none where the bytes end before it, and where a
    /// DataValue has no value or a reserved bit in its mask.
    pub type_byte: Option<u8>,
}

/// The field that a frame is refused for: the first whose value can't be read. None where the frame can be read, and where it
/// is refused for its flags, a count, an index or what stands after it. It reads the bytes once more, as `read_frame` does.
#[inline(never)]
#[tactic(auto, unfolding(crate::specs::FieldFaults::field_fault))]
pub fn field_fault(meta: &Meta, bytes: &[u8]) -> Option<FieldFault>
    ensures { result ≡ field_fault meta.now bytes.now }
{
    let mut cursor = Cursor { bytes, at: 0 };
    match pass_message(&mut cursor, meta) {
        Ok(()) => None,
        Err(field) => field,
    }
}

/// Reads past a message.
#[tactic(auto, unfolding(crate::specs::FieldFaults::message_past, crate::specs::FieldFaults::content_past))]
fn pass_message(cursor: &mut Cursor<'_>, meta: &Meta) -> Result<(), Option<FieldFault>>
    ensures { ReadsAhead result cursor.old cursor.new (message_past meta.now) }
{
    let Ok(front) = read_front_in(cursor, false) else {
        return Err(None);
    };
    let newer = is_newer(meta, front.minor);
    match front.kind {
        KEY => pass_whole(cursor, meta, newer, front.encoding),
        DELTA => pass_patch(cursor, meta, newer, front.encoding),
        _ => Ok(()),
    }
}

/// The same of the count and the values of a key frame.
#[tactic(auto, unfolding(crate::specs::FieldFaults::whole_past))]
fn pass_whole(
    cursor: &mut Cursor<'_>,
    meta: &Meta,
    newer: bool,
    encoding: u8,
) -> Result<(), Option<FieldFault>>
    ensures { ReadsAhead result cursor.old cursor.new (whole_past meta.now newer encoding) }
{
    let Ok(count) = cursor.read_u16() else {
        return Err(None);
    };
    if !is_count(meta, newer, count) {
        return Err(None);
    }
    pass_counted(cursor, meta, encoding, count)
}

/// The same of the values of the fields, and then of the surplus ones.
fn pass_counted(
    cursor: &mut Cursor<'_>,
    meta: &Meta,
    encoding: u8,
    count: u16,
) -> Result<(), Option<FieldFault>>
    ensures { ReadsAhead result cursor.old cursor.new (counted_past meta.now encoding count) }
{
    pass_values(cursor, meta, encoding)?;
    pass_surpluses(cursor, meta, encoding, count)
}

/// The same of the values of the fields.
#[tactic(auto, using(crate::proofs::Passing::values_refused, crate::proofs::Passing::values_more))]
fn pass_values(cursor: &mut Cursor<'_>, meta: &Meta, encoding: u8) -> Result<(), Option<FieldFault>>
    ensures { ReadsAhead result cursor.old cursor.new
        (values_past meta.now.quality encoding 0 meta.now.fields) }
{
    for index in 0..field_count(meta) {
        pass_value(cursor, meta, encoding, u16::from(index))?;
    }
    Ok(())
}

/// The same of the surplus values of a key frame with so many values.
#[tactic(auto, using(crate::proofs::Passing::surpluses_refused, crate::proofs::Passing::surpluses_more))]
fn pass_surpluses(
    cursor: &mut Cursor<'_>,
    meta: &Meta,
    encoding: u8,
    count: u16,
) -> Result<(), Option<FieldFault>>
    ensures { ReadsAhead result cursor.old cursor.new (surpluses_past meta.now.quality encoding
        (length meta.now.fields) (count - length meta.now.fields)) }
{
    for index in u16::from(field_count(meta))..count {
        pass_value(cursor, meta, encoding, index)?;
    }
    Ok(())
}

/// The same of the count and the changes of a delta frame.
#[tactic(auto, unfolding(crate::specs::FieldFaults::patch_past))]
fn pass_patch(
    cursor: &mut Cursor<'_>,
    meta: &Meta,
    newer: bool,
    encoding: u8,
) -> Result<(), Option<FieldFault>>
    ensures { ReadsAhead result cursor.old cursor.new (patch_past meta.now newer encoding) }
{
    let Ok(count) = cursor.read_u16() else {
        return Err(None);
    };
    pass_changes(cursor, meta, newer, encoding, count)
}

/// The same of so many changes.
#[tactic(auto, using(crate::proofs::Passing::changes_refused, crate::proofs::Passing::changes_more))]
fn pass_changes(
    cursor: &mut Cursor<'_>,
    meta: &Meta,
    newer: bool,
    encoding: u8,
    count: u16,
) -> Result<(), Option<FieldFault>>
    ensures { ReadsAhead result cursor.old cursor.new (changes_past meta.now newer encoding count) }
{
    for _ in 0..count {
        pass_change(cursor, meta, newer, encoding)?;
    }
    Ok(())
}

/// The same of an index and its value.
#[tactic(auto, unfolding(crate::specs::FieldFaults::change_past))]
fn pass_change(
    cursor: &mut Cursor<'_>,
    meta: &Meta,
    newer: bool,
    encoding: u8,
) -> Result<(), Option<FieldFault>>
    ensures { ReadsAhead result cursor.old cursor.new (change_past meta.now newer encoding) }
{
    let Ok(index) = cursor.read_u16() else {
        return Err(None);
    };
    if !newer && meta.fields().len() <= usize::from(index) {
        return Err(None);
    }
    pass_value(cursor, meta, encoding, index)
}

/// The same of the value with this index. A copy of the cursor reads it, so that the type byte can be told after a refusal.
fn pass_value(
    cursor: &mut Cursor<'_>,
    meta: &Meta,
    encoding: u8,
    index: u16,
) -> Result<(), Option<FieldFault>>
    ensures { ReadsAhead result cursor.old cursor.new (value_past meta.now.quality encoding index
        (slice_get meta.now.fields index)) }
{
    let mut ahead = *cursor;
    if judge_value(&mut ahead, meta, encoding, index).is_err() {
        return Err(Some(fault_at(&cursor.bytes[cursor.at..], encoding, index)));
    }
    *cursor = ahead;
    Ok(())
}

/// Reads the value of a field of the data set, or one that is no field's.
fn judge_value(
    cursor: &mut Cursor<'_>,
    meta: &Meta,
    encoding: u8,
    index: u16,
) -> Result<(), FrameFault>
    ensures { ReadsAhead result cursor.old cursor.new (judged_at meta.now.quality encoding
        (slice_get meta.now.fields index)) }
{
    if usize::from(index) < meta.fields().len() {
        return judge_field(cursor, encoding, &meta.fields()[usize::from(index)]);
    }
    read_surplus(cursor, encoding)
}

/// Reads the value of a field, which is dropped.
#[tactic(auto, unfolding(crate::specs::Contents::field_at))]
fn judge_field(cursor: &mut Cursor<'_>, encoding: u8, field: &Field) -> Result<(), FrameFault>
    ensures { (quality : Bool) → ReadsAhead result cursor.old cursor.new
        (skipped (field_at quality encoding field.now)) }
{
    let measured = read_value(cursor, encoding)?;
    suited(measured.value, field)?;
    Ok(())
}

/// What is told of the field with this index, whose value begins with these bytes.
fn fault_at(bytes: &[u8], encoding: u8, index: u16) -> FieldFault
    ensures { result ≡ fault_at encoding index bytes.now }
{
    let type_byte = if encoding == VARIANT {
        bytes.first().copied()
    } else {
        type_behind_mask(bytes)
    };
    FieldFault { index, type_byte }
}

/// The type byte of the value of a DataValue.
fn type_behind_mask(bytes: &[u8]) -> Option<u8>
    ensures { result ≡ type_behind_mask bytes.now }
{
    let (mask, rest) = bytes.split_first()?;
    if mask & VALUE == 0 || mask & MASK_RESERVED != 0 {
        return None;
    }
    rest.first().copied()
}
