//! Kinds and values from words.
use crate::fault::LineFault;
use crate::line::Line;
use crate::tables::named;
use std::alloc::Global;
use std::str::FromStr;
use ua_values::{Blob, Kind, Text, Value};

static KINDS: [(&str, Kind); 16] = [
    ("Boolean", Kind::Boolean),
    ("SByte", Kind::SByte),
    ("Byte", Kind::Byte),
    ("Int16", Kind::Int16),
    ("UInt16", Kind::UInt16),
    ("Int32", Kind::Int32),
    ("UInt32", Kind::UInt32),
    ("Int64", Kind::Int64),
    ("UInt64", Kind::UInt64),
    ("Float", Kind::Float),
    ("Double", Kind::Double),
    ("String", Kind::String),
    ("DateTime", Kind::DateTime),
    ("Guid", Kind::Guid),
    ("ByteString", Kind::ByteString),
    ("StatusCode", Kind::StatusCode),
];

/// The kind of this name.
pub fn kind_of(word: &str) -> Result<Kind, LineFault> {
    named(&KINDS, word).ok_or(LineFault::Missing)
}

/// A value: its kind, and then its value.
pub fn value_of(alloc: Global, line: &mut Line) -> Result<Value, LineFault> {
    let kind = kind_of(line.word()?)?;
    value_in(alloc, kind, line)
}

/// A value of this kind: a truth value, a decimal number, `0x` and hexadecimal digits, or its bytes.
pub fn value_in(alloc: Global, kind: Kind, line: &mut Line) -> Result<Value, LineFault> {
    match kind {
        Kind::Boolean => Ok(Value::Boolean(line.word()? == "true")),
        Kind::Float => Ok(Value::Float(line.hex32()?)),
        Kind::StatusCode => Ok(Value::StatusCode(line.hex32()?)),
        Kind::Double => Ok(Value::Double(line.hex64()?)),
        Kind::String => text_of(alloc, line),
        Kind::ByteString => blob_of(alloc, line),
        Kind::Guid => guid_of(alloc, line),
        kind => number_of(kind, line.word()?),
    }
}

/// A whole number of this kind.
fn number_of(kind: Kind, word: &str) -> Result<Value, LineFault> {
    match kind {
        Kind::SByte => Ok(Value::SByte(number(word)?)),
        Kind::Byte => Ok(Value::Byte(number(word)?)),
        Kind::Int16 => Ok(Value::Int16(number(word)?)),
        Kind::UInt16 => Ok(Value::UInt16(number(word)?)),
        Kind::Int32 => Ok(Value::Int32(number(word)?)),
        Kind::UInt32 => Ok(Value::UInt32(number(word)?)),
        Kind::Int64 => Ok(Value::Int64(number(word)?)),
        Kind::DateTime => Ok(Value::DateTime(number(word)?)),
        _ => Ok(Value::UInt64(number(word)?)),
    }
}

/// The number that a word spells.
pub fn number<T: FromStr>(word: &str) -> Result<T, LineFault>
where
    <T as FromStr>::Err: Drop,
{
    match word.parse::<T>() {
        Ok(number) => Ok(number),
        Err(_) => Err(LineFault::Number),
    }
}

/// What stands before the first mark in a word, and what stands behind it.
pub fn parted(word: &str, mark: char) -> Result<(&str, &str), LineFault> {
    match word.split_once(mark) {
        Some(parts) => Ok(parts),
        None => Err(LineFault::Missing),
    }
}

/// The bytes of these hexadecimal digits.
pub(crate) fn decoded(alloc: Global, digits: &str) -> Result<Vec<u8>, LineFault> {
    match hex::decode(alloc, digits) {
        Ok(bytes) => Ok(bytes),
        Err(_) => Err(LineFault::Hex),
    }
}

/// The text of these bytes.
pub fn string_of(bytes: Vec<u8>) -> Result<String, LineFault> {
    match String::from_utf8(bytes) {
        Ok(text) => Ok(text),
        Err(_) => Err(LineFault::Text),
    }
}

fn text_of(alloc: Global, line: &mut Line) -> Result<Value, LineFault> {
    match Text::from_bytes(&line.bytes(alloc)?) {
        Ok(text) => Ok(Value::String(text)),
        Err(_) => Err(LineFault::Condition),
    }
}

fn blob_of(alloc: Global, line: &mut Line) -> Result<Value, LineFault> {
    match Blob::from_bytes(&line.bytes(alloc)?) {
        Ok(blob) => Ok(Value::ByteString(blob)),
        Err(_) => Err(LineFault::Condition),
    }
}

fn guid_of(alloc: Global, line: &mut Line) -> Result<Value, LineFault> {
    let bytes = line.bytes(alloc)?;
    let Some(guid) = bytes.first_chunk::<16>() else {
        return Err(LineFault::Condition);
    };
    Ok(Value::Guid(*guid))
}
