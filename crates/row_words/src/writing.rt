//! Values written into words.
ghost use Rattle.std.specs.Prelude.{◌≡◌, ◌-◌, ◌<◌, ◌≤◌, true, ◌∷◌, length, All};
ghost use Rattle.ua_values.specs.Values.{kind_of, IsValue};
ghost use Rattle.dataset_meta.specs.Fields.{width};
ghost use Rattle.row_words.specs.Words.{spelled_value, is_scalar, scalar_word, packed};

use crate::digits::pack;
use ua_values::Value;

/// Fills the words of a field of this cap with a value.
#[inline(always)]
pub(crate) fn write_value(words: &mut [u64], cap: u16, value: &Value)
    requires { length words.old ≡ width (kind_of value.now) cap }
    ensures words { words.new ≡ spelled_value cap value.now }
    ensures value { IsValue value.now }
{
    match value {
        Value::String(text) => write_bytes(words, text.as_bytes()),
        Value::ByteString(blob) => write_bytes(words, blob.as_bytes()),
        Value::Guid(bytes) => write_guid(words, bytes),
        _ => words[0] = scalar_word(value),
    }
}

fn write_bytes(words: &mut [u64], bytes: &[u8])
    requires { 1 ≤ length words.old }
    ensures { words.new ≡ length bytes.now ∷ packed (length words.old - 1) bytes.now }
{
    words[0] = bytes.len() as u64;
    pack(&mut words[1..], bytes);
}

fn write_guid(words: &mut [u64], bytes: &[u8; 16])
    requires { length words.old ≡ 2 }
    ensures words { words.new ≡ packed 2 bytes.now }
    ensures guid { (length bytes.now ≡ 16) × All (λ byte. byte < 256) bytes.now }
{
    pack(words, bytes);
}

#[inline(always)]
fn scalar_word(value: &Value) -> u64
    requires { is_scalar (kind_of value.now) ≡ true }
    ensures word { result ≡ scalar_word value.now }
    ensures value { IsValue value.now }
{
    match value {
        Value::Boolean(true) => 1,
        Value::SByte(n) => u64::from(n.cast_unsigned()),
        Value::Byte(n) => u64::from(*n),
        Value::Int16(n) => u64::from(n.cast_unsigned()),
        Value::UInt16(n) => u64::from(*n),
        Value::Int32(n) => u64::from(n.cast_unsigned()),
        Value::UInt32(n) | Value::Float(n) | Value::StatusCode(n) => u64::from(*n),
        Value::Int64(n) | Value::DateTime(n) => n.cast_unsigned(),
        Value::UInt64(n) | Value::Double(n) => *n,
        Value::Boolean(false) => 0,
        Value::String(_) | Value::Guid(_) | Value::ByteString(_) => unreachable!(),
    }
}
