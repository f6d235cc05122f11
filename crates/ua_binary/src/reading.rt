//! Reading Variants.
ghost use Rattle.std.specs.Prelude.{◌≤◌, length, IfOk};
ghost use Rattle.ua_binary.specs.Reading.{Reads, ReadsAhead, lent};
ghost use Rattle.ua_binary.specs.ReadingValues.{block_at, text_at, plain_at, kind_at, variant_at};

use crate::cursor::Cursor;
use crate::fault::ValueFault;
use crate::types::kind_with_number;
use ua_values::{Blob, Kind, Text, TextFault, Value};

#[inline(always)]
#[tactic(auto, unfolding(crate::specs::ReadingValues::kind_at))]
fn read_kind(cursor: &mut Cursor<'_>) -> Result<Kind, ValueFault>
    ensures { ReadsAhead result cursor.old cursor.new kind_at }
{
    kind_with_number(cursor.read_u8()?).ok_or(ValueFault::KindOut)
}

/// The bytes behind an Int32 length, of a String (OPC 10000-6 section 5.2.2.4) or a ByteString (section 5.2.2.7). The
/// length -1 stands for null, which is read as no bytes.
#[inline(always)]
#[tactic(auto, unfolding(crate::specs::ReadingValues::block_at))]
fn read_block<'a>(cursor: &mut Cursor<'a>) -> Result<&'a [u8], ValueFault>
    ensures answer { ReadsAhead (lent result) cursor.old cursor.new block_at }
    ensures short { IfOk result (λ block. length block.now ≤ 256) }
{
    let len = match cursor.read_u32()?.cast_signed() {
        -1 => 0,
        len @ 0..=256 => len as usize,
        _ => return Err(ValueFault::BadLength),
    };
    Ok(cursor.read_bytes(len)?)
}

#[tactic(auto, unfolding(crate::specs::ReadingValues::text_at))]
fn read_text(cursor: &mut Cursor<'_>) -> Result<Text, ValueFault>
    ensures { ReadsAhead result cursor.old cursor.new text_at }
{
    match Text::from_bytes(read_block(cursor)?) {
        Ok(text) => Ok(text),
        Err(TextFault::BadUtf8) => Err(ValueFault::BadUtf8),
        // a block has at most 256 bytes
        Err(TextFault::TooLong) => unreachable!(),
    }
}

fn read_blob(cursor: &mut Cursor<'_>) -> Result<Blob, ValueFault>
    ensures { ReadsAhead result cursor.old cursor.new block_at }
{
    match Blob::from_bytes(read_block(cursor)?) {
        Ok(blob) => Ok(blob),
        // a block has at most 256 bytes
        Err(_) => unreachable!(),
    }
}

#[inline(always)]
fn read_plain(cursor: &mut Cursor<'_>, kind: Kind) -> Result<Value, ValueFault>
    ensures { ReadsAhead result cursor.old cursor.new (plain_at kind) }
{
    Ok(match kind {
        Kind::Boolean => Value::Boolean(cursor.read_u8()? != 0),
        Kind::SByte => Value::SByte(cursor.read_u8()?.cast_signed()),
        Kind::Byte => Value::Byte(cursor.read_u8()?),
        Kind::Int16 => Value::Int16(cursor.read_u16()?.cast_signed()),
        Kind::UInt16 => Value::UInt16(cursor.read_u16()?),
        Kind::Int32 => Value::Int32(cursor.read_u32()?.cast_signed()),
        Kind::UInt32 => Value::UInt32(cursor.read_u32()?),
        Kind::Int64 => Value::Int64(cursor.read_u64()?.cast_signed()),
        Kind::UInt64 => Value::UInt64(cursor.read_u64()?),
        Kind::Float => Value::Float(cursor.read_u32()?),
        Kind::Double => Value::Double(cursor.read_u64()?),
        Kind::String => Value::String(read_text(cursor)?),
        Kind::DateTime => Value::DateTime(cursor.read_u64()?.cast_signed()),
        Kind::Guid => Value::Guid(cursor.read_array()?),
        Kind::ByteString => Value::ByteString(read_blob(cursor)?),
        Kind::StatusCode => Value::StatusCode(cursor.read_u32()?),
    })
}

/// A Variant; a refusal leaves the cursor anywhere.
#[inline(always)]
#[tactic(auto, unfolding(crate::specs::ReadingValues::variant_at))]
pub fn read_typed(cursor: &mut Cursor<'_>) -> Result<Value, ValueFault>
    ensures { ReadsAhead result cursor.old cursor.new variant_at }
{
    let kind = read_kind(cursor)?;
    read_plain(cursor, kind)
}

/// A Variant (OPC 10000-6 section 5.2.2.16): a type byte and a value of that kind. A refusal leaves the cursor.
#[inline(always)]
pub fn read_variant(cursor: &mut Cursor<'_>) -> Result<Value, ValueFault>
    ensures { Reads result cursor.old cursor.new variant_at }
{
    let mut ahead = *cursor;
    let value = read_typed(&mut ahead)?;
    *cursor = ahead;
    Ok(value)
}
