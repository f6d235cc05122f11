//! Writing Variants and DataValues.
ghost use Rattle.std.specs.Prelude.{◌≡◌, ◌+◌, ◌≤◌, length};
ghost use Rattle.ua_binary.specs.Spelling.{block, plain, variant, data_value};
ghost use Rattle.ua_binary.specs.Writing.{Puts, Writes};

use crate::pen::{Pen, Room};
use crate::types::number_of;
use ua_values::Value;

/// How many bytes a Variant of this value takes.
#[inline(always)]
pub fn variant_len(value: &Value) -> usize
    ensures len { result ≡ length (variant value.now) }
    ensures small { result ≤ 261 }
{
    match value {
        Value::Boolean(_) | Value::SByte(_) | Value::Byte(_) => 2,
        Value::Int16(_) | Value::UInt16(_) => 3,
        Value::Int32(_) | Value::UInt32(_) | Value::Float(_) | Value::StatusCode(_) => 5,
        Value::Int64(_) | Value::UInt64(_) | Value::Double(_) | Value::DateTime(_) => 9,
        Value::String(text) => 5 + text.as_bytes().len(),
        Value::Guid(guid) => 1 + guid_len(guid),
        Value::ByteString(blob) => 5 + blob.as_bytes().len(),
    }
}

#[inline(always)]
fn guid_len(guid: &[u8; 16]) -> usize
    ensures len { result ≡ length guid.now }
    ensures same { result ≡ 16 }
{
    guid.len()
}

/// An Int32 length and the bytes: a String (OPC 10000-6 section 5.2.2.4) or a ByteString (section 5.2.2.7).
#[inline(always)]
fn put_block(pen: &mut Pen<'_>, bytes: &[u8])
    requires short { length bytes.now ≤ 256 }
    requires room { pen.old.at + length (block bytes.now) ≤ length pen.old.bytes.now }
    ensures { Puts pen.old pen.new (block bytes.now) }
{
    pen.put_u32(bytes.len() as u32);
    pen.put_bytes(bytes);
}

#[inline(always)]
fn put_plain(pen: &mut Pen<'_>, value: &Value)
    requires { pen.old.at + length (plain value.now) ≤ length pen.old.bytes.now }
    ensures { Puts pen.old pen.new (plain value.now) }
{
    match value {
        Value::Boolean(flag) => pen.put_u8(u8::from(*flag)),
        Value::SByte(number) => pen.put_u8(number.cast_unsigned()),
        Value::Byte(number) => pen.put_u8(*number),
        Value::Int16(number) => pen.put_u16(number.cast_unsigned()),
        Value::UInt16(number) => pen.put_u16(*number),
        Value::Int32(number) => pen.put_u32(number.cast_unsigned()),
        Value::UInt32(number) => pen.put_u32(*number),
        Value::Int64(number) => pen.put_u64(number.cast_unsigned()),
        Value::UInt64(number) => pen.put_u64(*number),
        Value::Float(bits) => pen.put_u32(*bits),
        Value::Double(bits) => pen.put_u64(*bits),
        Value::String(text) => put_block(pen, text.as_bytes()),
        Value::DateTime(steps) => pen.put_u64(steps.cast_unsigned()),
        Value::Guid(bytes) => pen.put_bytes(bytes),
        Value::ByteString(blob) => put_block(pen, blob.as_bytes()),
        Value::StatusCode(code) => pen.put_u32(*code),
    }
}

/// Writes a Variant that there is room for.
#[inline(always)]
pub fn put_variant(pen: &mut Pen<'_>, value: &Value)
    requires { pen.old.at + length (variant value.now) ≤ length pen.old.bytes.now }
    ensures { Puts pen.old pen.new (variant value.now) }
{
    pen.put_u8(number_of(value.kind()));
    put_plain(pen, value);
}

/// Writes a Variant (OPC 10000-6 section 5.2.2.16).
#[inline(always)]
pub fn write_variant(pen: &mut Pen<'_>, value: &Value) -> Result<(), Room>
    ensures { Writes result pen.old pen.new (variant value.now) }
{
    if pen.room() < variant_len(value) {
        return Err(Room);
    }
    put_variant(pen, value);
    Ok(())
}
