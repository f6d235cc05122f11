//! Values read out of words.
ghost use Rattle.std.specs.Prelude.{◌≡◌, length};
ghost use Rattle.ua_values.specs.Texts.{IsText};
ghost use Rattle.row_words.specs.Words.{Spells, HasBytes, IsWordOf, value_in, scalar_in, bytes_in, unpacked};

use crate::digits::unpack;
use ua_values::{Blob, Kind, Text, Value};

/// The value of this kind whose words these are.
#[inline(always)]
pub(crate) fn value_at(kind: Kind, words: &[u64]) -> Value
    requires { Spells kind words.now }
    ensures { result ≡ value_in kind words.now }
{
    match kind {
        Kind::String => Value::String(text_at(words)),
        Kind::ByteString => Value::ByteString(blob_at(words)),
        Kind::Guid => Value::Guid(guid_at(words)),
        _ => scalar_at(kind, words[0]),
    }
}

fn text_at(words: &[u64]) -> Text
    requires words { HasBytes words.now }
    requires text { IsText (bytes_in words.now) }
    ensures { result ≡ bytes_in words.now }
{
    let mut bytes = [0; 256];
    unpack(&mut bytes, &words[1..]);
    let Ok(text) = Text::from_bytes(&bytes[..words[0] as usize]) else {
        unreachable!()
    };
    text
}

fn blob_at(words: &[u64]) -> Blob
    requires { HasBytes words.now }
    ensures { result ≡ bytes_in words.now }
{
    let mut bytes = [0; 256];
    unpack(&mut bytes, &words[1..]);
    let Ok(blob) = Blob::from_bytes(&bytes[..words[0] as usize]) else {
        unreachable!()
    };
    blob
}

fn guid_at(words: &[u64]) -> [u8; 16]
    requires { length words.now ≡ 2 }
    ensures { result ≡ unpacked words.now }
{
    let mut bytes = [0; 16];
    unpack(&mut bytes, words);
    bytes
}

#[inline(always)]
fn scalar_at(kind: Kind, word: u64) -> Value
    requires { IsWordOf kind word }
    ensures { result ≡ scalar_in kind word }
{
    match kind {
        Kind::Boolean => Value::Boolean(word == 1),
        Kind::SByte => Value::SByte((word as u8).cast_signed()),
        Kind::Byte => Value::Byte(word as u8),
        Kind::Int16 => Value::Int16((word as u16).cast_signed()),
        Kind::UInt16 => Value::UInt16(word as u16),
        Kind::Int32 => Value::Int32((word as u32).cast_signed()),
        Kind::UInt32 => Value::UInt32(word as u32),
        Kind::Int64 => Value::Int64(word.cast_signed()),
        Kind::UInt64 => Value::UInt64(word),
        Kind::Float => Value::Float(word as u32),
        Kind::Double => Value::Double(word),
        Kind::DateTime => Value::DateTime(word.cast_signed()),
        Kind::StatusCode => Value::StatusCode(word as u32),
        Kind::String | Kind::ByteString | Kind::Guid => unreachable!(),
    }
}
