//! The text of a value.
ghost use Rattle.std.specs.Prelude.{◌≡◌, ◌<◌, ◌≤◌, ◌+◌, [], ◌++◌, ◌∷◌, flat_map, length, OnOk, OnErr};
ghost use Rattle.std.specs.List.{All};
ghost use Rattle.ua_values.specs.Values.{IsValue};
ghost use Rattle.value_texts.specs.Texts.{hex_text, hex_text_32, guid_text, byte_text, value_text_of};

use crate::spelling::push_escaped;
use arrayvec::ArrayVec;
use itoa::{Buffer, Integer};
use ua_base::NoMemory;
use ua_values::Value;
use uuid::Uuid;

/// Appends the text of the value.
pub fn value_text(value: &Value, out: &mut Vec<u8>) -> Result<(), NoMemory>
    ensures ok { OnOk result (out.new.items ≡ out.old.items ++ value_text_of value.now) }
    ensures err { OnErr result (out.new.items ≡ out.old.items) }
{
    let mut text = ArrayVec::new();
    print(value, &mut text);
    out.extend_from_slice(text.as_slice())?;
    Ok(())
}

/// Appends the text of a StatusCode.
pub fn status_text(status: u32, out: &mut Vec<u8>) -> Result<(), NoMemory>
    ensures ok { OnOk result (out.new.items ≡ out.old.items ++ hex_text_32 status) }
    ensures err { OnErr result (out.new.items ≡ out.old.items) }
{
    let mut text = ArrayVec::new();
    put_digits(&mut text, &status.to_be_bytes());
    out.extend_from_slice(text.as_slice())?;
    Ok(())
}

/// The longest text is that of a String of 256 bytes that are all escaped.
#[tactic(auto, unfolding(crate::specs::Texts::value_text_of))]
pub fn print(value: &Value, text: &mut ArrayVec<u8, 768>)
    requires { text.old.items ≡ [] }
    ensures text { text.new.items ≡ value_text_of value.now }
    ensures value { IsValue value.now }
{
    match value {
        Value::Boolean(true) => put(text, b"true"),
        Value::Boolean(false) => put(text, b"false"),
        Value::SByte(n) => put_number(text, *n),
        Value::Byte(n) => put_number(text, *n),
        Value::Int16(n) => put_number(text, *n),
        Value::UInt16(n) => put_number(text, *n),
        Value::Int32(n) => put_number(text, *n),
        Value::UInt32(n) => put_number(text, *n),
        Value::Int64(n) => put_number(text, *n),
        Value::UInt64(n) => put_number(text, *n),
        Value::Float(bits) => put_digits(text, &bits.to_be_bytes()),
        Value::Double(bits) => put_digits(text, &bits.to_be_bytes()),
        Value::String(value) => put_escaped(text, value.as_bytes()),
        Value::DateTime(steps) => put_number(text, *steps),
        Value::Guid(bytes) => put_guid(text, bytes),
        Value::ByteString(blob) => put_digits(text, blob.as_bytes()),
        Value::StatusCode(code) => put_digits(text, &code.to_be_bytes()),
    }
}

fn put(text: &mut ArrayVec<u8, 768>, piece: &[u8])
    requires { length text.old.items + length piece.now ≤ 768 }
    ensures { text.new.items ≡ text.old.items ++ piece.now }
{
    let _ = text.try_extend_from_slice(piece);
}

fn put_number<N: Integer>(text: &mut ArrayVec<u8, 768>, number: N)
    requires { text.old.items ≡ [] }
    ensures { text.new.items ≡ N.text number }
{
    let mut buffer = Buffer::new();
    put(text, buffer.format(number).as_bytes());
}

fn put_digits(text: &mut ArrayVec<u8, 768>, bytes: &[u8])
    requires empty { text.old.items ≡ [] }
    requires short { length bytes.now ≤ 256 }
    ensures { text.new.items ≡ hex_text bytes.now }
{
    let mut digits = [0; 512];
    let end = 2 * bytes.len();
    let _ = hex::encode_to_slice(bytes, &mut digits[..end]);
    put(text, b"0x");
    put(text, &digits[..end]);
}

fn put_guid(text: &mut ArrayVec<u8, 768>, bytes: &[u8; 16])
    requires { text.old.items ≡ [] }
    ensures text { text.new.items ≡ guid_text bytes.now }
    ensures guid { (length bytes.now ≡ 16) × All (λ byte. byte < 256) bytes.now }
{
    let mut room = [0; 36];
    put(
        text,
        Uuid::from_bytes_le(*bytes)
            .hyphenated()
            .encode_lower(&mut room)
            .as_bytes(),
    );
}

fn put_escaped(text: &mut ArrayVec<u8, 768>, bytes: &[u8])
    requires empty { text.old.items ≡ [] }
    requires short { length bytes.now ≤ 256 }
    ensures { text.new.items ≡ flat_map byte_text bytes.now }
{
    for byte in bytes {
        push_escaped(text, *byte);
    }
}
