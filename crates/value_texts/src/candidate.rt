//! The one value of a kind that a word may be the printed text of. Whether it is, is left to whoever
//! prints it again.
ghost use Rattle.std.specs.Prelude.{◌≡◌, ◌≢◌, ◌<◌, ◌^◌, ℕ, Bool, IsTrue, List, length, Some, Result};
ghost use Rattle.std.specs.Result.{result_ok};
ghost use Rattle.std.specs.Str.{IsUtf8};
ghost use Rattle.std.specs.List.{All};
ghost use Rattle.hex.specs.Hex.{encode_lower};
ghost use Rattle.ua_values.specs.declared.value.Value.{Value};
ghost use Rattle.ua_values.specs.InPlace.{IsShort};
ghost use Rattle.ua_values.specs.Values.{kind_of, IsValue};
ghost use Rattle.value_texts.specs.Texts.{truth_text, hex_text, hex_text_32, hex_text_64, guid_text, value_text_of};

use hex::FromHex;
use std::str;
use std::str::FromStr;
use ua_values::{Blob, Kind, Value};
use uuid::Uuid;

/// The value, where the word is the printed text of one.
pub fn candidate(kind: Kind, word: &[u8]) -> Option<Value>
    requires { kind ≢ Kind.String }
    ensures { (value : Value) → IsValue value → kind_of value ≡ kind
        → word.now ≡ value_text_of value → result ≡ Some value }
{
    match kind {
        Kind::Boolean => truth(word).map(Value::Boolean),
        Kind::SByte => number::<i8>(word).map(Value::SByte),
        Kind::Byte => number::<u8>(word).map(Value::Byte),
        Kind::Int16 => number::<i16>(word).map(Value::Int16),
        Kind::UInt16 => number::<u16>(word).map(Value::UInt16),
        Kind::Int32 => number::<i32>(word).map(Value::Int32),
        Kind::UInt32 => number::<u32>(word).map(Value::UInt32),
        Kind::Int64 => number::<i64>(word).map(Value::Int64),
        Kind::UInt64 => number::<u64>(word).map(Value::UInt64),
        Kind::Float => bits_32(word).map(Value::Float),
        Kind::Double => bits_64(word).map(Value::Double),
        Kind::String => None,
        Kind::DateTime => number::<i64>(word).map(Value::DateTime),
        Kind::Guid => guid(word).map(Value::Guid),
        Kind::ByteString => blob(word).map(Value::ByteString),
        Kind::StatusCode => bits_32(word).map(Value::StatusCode),
    }
}

fn truth(word: &[u8]) -> Option<bool>
    ensures { (b : Bool) → word.now ≡ truth_text b → result ≡ Some b }
{
    match word {
        b"true" => Some(true),
        b"false" => Some(false),
        _ => None,
    }
}

/// What `parse` reads, where the word is UTF-8.
fn number<N: FromStr>(word: &[u8]) -> Option<N>
where
    N::Err: Drop,
    ensures { IsUtf8 word.now
        → (read : Result N N.Err) × (N.from_str_gives word.now read × (result ≡ result_ok read)) }
{
    match str::from_utf8(word) {
        Ok(text) => text.parse::<N>().ok(),
        Err(_) => None,
    }
}

/// The number that the 8 digits behind `0x` stand for.
pub fn bits_32(word: &[u8]) -> Option<u32>
    ensures { (bits : ℕ) → bits < 2 ^ 32 → word.now ≡ hex_text_32 bits → result ≡ Some bits }
{
    let bytes = fixed_bytes::<4>(word)?;
    Some(u32::from_be_bytes(bytes))
}

fn bits_64(word: &[u8]) -> Option<u64>
    ensures { (bits : ℕ) → bits < 2 ^ 64 → word.now ≡ hex_text_64 bits → result ≡ Some bits }
{
    let bytes = fixed_bytes::<8>(word)?;
    Some(u64::from_be_bytes(bytes))
}

/// The bytes that the digits behind `0x` stand for.
fn fixed_bytes<const N: usize>(word: &[u8]) -> Option<[u8; N]>
    ensures { (bytes : List ℕ) → length bytes ≡ N → All (λ byte. byte < 256) bytes
        → word.now ≡ hex_text bytes → result ≡ Some bytes }
{
    let digits = word.strip_prefix(b"0x")?;
    <[u8; N] as FromHex>::from_hex(digits).ok()
}

fn blob(word: &[u8]) -> Option<Blob>
    ensures { (bytes : List ℕ) → IsShort bytes → word.now ≡ hex_text bytes → result ≡ Some bytes }
{
    let digits = word.strip_prefix(b"0x")?;
    let count = digits.len() / 2;
    if count > 256 {
        return None;
    }
    let mut room = [0; 256];
    let bytes = &mut room[..count];
    if decoded(digits, bytes) {
        Blob::from_bytes(bytes).ok()
    } else {
        None
    }
}

/// Whether the digits stand for so many bytes.
fn decoded(digits: &[u8], bytes: &mut [u8]) -> bool
    ensures { (list : List ℕ) → length list ≡ length bytes.old → All (λ byte. byte < 256) list
        → digits.now ≡ encode_lower list → IsTrue result × (bytes.new ≡ list) }
{
    hex::decode_to_slice(digits, bytes).is_ok()
}

/// The 16 bytes as they stand on the wire.
fn guid(word: &[u8]) -> Option<[u8; 16]>
    ensures { (bytes : List ℕ) → length bytes ≡ 16 → All (λ byte. byte < 256) bytes
        → word.now ≡ guid_text bytes → result ≡ Some bytes }
{
    let id = Uuid::try_parse_ascii(word).ok()?;
    Some(id.to_bytes_le())
}
