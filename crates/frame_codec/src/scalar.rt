//! Scalars, read as words.
ghost use Rattle.std.specs.Prelude.{◌≡◌, IfSome};
ghost use Rattle.std.specs.Option.{IfNone};
ghost use Rattle.ua_binary.specs.Reading.{HasRead, rest_of};
ghost use Rattle.ua_binary.specs.ReadingValues.{plain_at, variant_at, data_value_at};
ghost use Rattle.row_words.specs.Words.{IsWordOf, scalar_in};
ghost use Rattle.frame_codec.specs.Calls.{has_four_bytes, has_eight_bytes, measured_in, EndsDataValue};
ghost use Rattle.frame_codec.specs.Contents.{value_at};

use crate::flags::{VALUE, VALUE_AND_STATUS, VARIANT};
use dataset_meta::Field;
use ua_binary::{Cursor, number_of};
use ua_values::Kind;

/// A scalar of a field's own kind, as its word, with its status.
#[derive(Clone, Copy)]
pub(crate) struct Own {
    pub(crate) word: u64,
    pub(crate) status: u32,
}

/// A scalar of the field's own kind, where one follows whole, without times; else nothing is read. It tells no faults: they
/// are for the call that reads any value.
#[inline(always)]
pub(crate) fn read_own(cursor: &mut Cursor<'_>, field: &Field, encoding: u8) -> Option<Own>
    ensures word { IfSome result (λ own. IsWordOf field.now.kind own.word) }
    ensures read { IfSome result (λ own. HasRead (measured_in field.now.kind own.word own.status)
        cursor.old cursor.new (value_at encoding)) }
    ensures not_read { IfNone result (cursor.new ≡ cursor.old) }
{
    if encoding == VARIANT {
        let word = read_own_variant(cursor, field.kind)?;
        return Some(Own { word, status: 0 });
    }
    read_own_data_value(cursor, field.kind)
}

/// The same of a DataValue.
#[inline(always)]
fn read_own_data_value(cursor: &mut Cursor<'_>, kind: Kind) -> Option<Own>
    ensures word { IfSome result (λ own. IsWordOf kind own.word) }
    ensures read { IfSome result (λ own. HasRead (measured_in kind own.word own.status)
        cursor.old cursor.new data_value_at) }
    ensures not_read { IfNone result (cursor.new ≡ cursor.old) }
{
    let mut ahead = *cursor;
    let mask = ahead.read_u8().ok()?;
    let word = read_own_variant(&mut ahead, kind)?;
    let status = read_status(&mut ahead, mask)?;
    *cursor = ahead;
    Some(Own { word, status })
}

/// The status behind the value of a DataValue with this mask, which tells of nothing else.
#[inline(always)]
fn read_status(cursor: &mut Cursor<'_>, mask: u8) -> Option<u32>
    ensures read { IfSome result (λ status. EndsDataValue mask status (rest_of cursor.old)
        (rest_of cursor.new)) }
    ensures same_bytes { cursor.new.bytes ≡ cursor.old.bytes }
{
    match mask {
        VALUE => Some(0),
        VALUE_AND_STATUS => cursor.read_u32().ok(),
        _ => None,
    }
}

/// The word of a Variant of this kind, where one follows whole. Those of four bytes, the most common, and of eight are judged
/// first and at once.
#[inline(always)]
fn read_own_variant(cursor: &mut Cursor<'_>, kind: Kind) -> Option<u64>
    ensures word { IfSome result (IsWordOf kind) }
    ensures read { IfSome result (λ word. HasRead (scalar_in kind word)
        cursor.old cursor.new variant_at) }
    ensures not_read { IfNone result (cursor.new ≡ cursor.old) }
{
    if let Some(word) = read_own_four(cursor, kind) {
        return Some(word);
    }
    if let Some(word) = read_own_eight(cursor, kind) {
        return Some(word);
    }
    read_own_small(cursor, kind)
}

/// The same of one of four bytes.
#[inline(always)]
fn read_own_four(cursor: &mut Cursor<'_>, kind: Kind) -> Option<u64>
    ensures word { IfSome result (IsWordOf kind) }
    ensures read { IfSome result (λ word. HasRead (scalar_in kind word)
        cursor.old cursor.new variant_at) }
    ensures not_read { IfNone result (cursor.new ≡ cursor.old) }
{
    let mut ahead = *cursor;
    let Ok(bytes) = ahead.read_array::<5>() else {
        return None;
    };
    if bytes[0] != number_of(kind) || !has_four_bytes(kind) {
        return None;
    }
    *cursor = ahead;
    let word = u32::from_le_bytes([bytes[1], bytes[2], bytes[3], bytes[4]]);
    Some(u64::from(word))
}

/// The same of one of eight bytes.
#[inline(always)]
fn read_own_eight(cursor: &mut Cursor<'_>, kind: Kind) -> Option<u64>
    ensures word { IfSome result (IsWordOf kind) }
    ensures read { IfSome result (λ word. HasRead (scalar_in kind word)
        cursor.old cursor.new variant_at) }
    ensures not_read { IfNone result (cursor.new ≡ cursor.old) }
{
    let mut ahead = *cursor;
    let Ok(bytes) = ahead.read_array::<9>() else {
        return None;
    };
    if bytes[0] != number_of(kind) || !has_eight_bytes(kind) {
        return None;
    }
    *cursor = ahead;
    Some(u64::from_le_bytes([
        bytes[1], bytes[2], bytes[3], bytes[4], bytes[5], bytes[6], bytes[7], bytes[8],
    ]))
}

/// The same of one of a byte or two.
#[inline(always)]
fn read_own_small(cursor: &mut Cursor<'_>, kind: Kind) -> Option<u64>
    ensures word { IfSome result (IsWordOf kind) }
    ensures read { IfSome result (λ word. HasRead (scalar_in kind word)
        cursor.old cursor.new variant_at) }
    ensures not_read { IfNone result (cursor.new ≡ cursor.old) }
{
    let mut ahead = *cursor;
    let number = ahead.read_u8().ok()?;
    if number != number_of(kind) {
        return None;
    }
    let word = read_small(&mut ahead, kind)?;
    *cursor = ahead;
    Some(word)
}

/// The word of a scalar of a byte or two, without its type.
#[inline(always)]
fn read_small(cursor: &mut Cursor<'_>, kind: Kind) -> Option<u64>
    ensures word { IfSome result (IsWordOf kind) }
    ensures read { IfSome result (λ word. HasRead (scalar_in kind word)
        cursor.old cursor.new (plain_at kind)) }
{
    match kind {
        Kind::Boolean => Some(u64::from(cursor.read_u8().ok()? != 0)),
        Kind::SByte | Kind::Byte => Some(u64::from(cursor.read_u8().ok()?)),
        Kind::Int16 | Kind::UInt16 => Some(u64::from(cursor.read_u16().ok()?)),
        _ => None,
    }
}

/// Whether a value of this kind is a scalar of four bytes.
#[inline(always)]
pub(crate) fn has_four_bytes(kind: Kind) -> bool
    ensures { result ≡ has_four_bytes kind }
{
    match kind {
        Kind::Int32 | Kind::UInt32 | Kind::Float | Kind::StatusCode => true,
        _ => false,
    }
}

/// Whether a value of this kind is a scalar of eight bytes.
#[inline(always)]
pub(crate) fn has_eight_bytes(kind: Kind) -> bool
    ensures { result ≡ has_eight_bytes kind }
{
    match kind {
        Kind::Int64 | Kind::UInt64 | Kind::Double | Kind::DateTime => true,
        _ => false,
    }
}
