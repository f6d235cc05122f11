//! Values read from JSON.
ghost use Rattle.std.specs.Prelude.{◌≡◌, ◌≢◌, ◌^◌, ◌<◌, ℕ, ℤ, List, true, IfSome, MatchOption, Some, codes, option_map, option_and_then};
ghost use Rattle.serde_json.specs.Find.{get, as_str};
ghost use Rattle.serde_json.specs.View.{view};
ghost use Rattle.ua_values.specs.declared.value.Value.{Value};
ghost use Rattle.ua_values.specs.InPlace.{IsShort};
ghost use Rattle.ua_values.specs.Values.{kind_of, Fits, IsValue};
ghost use Rattle.dataset_meta.specs.DataValues.{DataValue};
ghost use Rattle.json_values.specs.Numbers.{integer_in, natural_in, fitting, number_at, text_at};
ghost use Rattle.json_values.specs.Spelled.{base64_text};
ghost use Rattle.json_values.specs.Reading.{is_spelled, StandsFor, IsStatusAt, ReadsField};

use base64::engine::general_purpose::STANDARD;
use dataset_meta::Field;
use serde_json::Value as Json;
use ua_values::{Blob, Kind, Text, Value, fits};
use value_texts::parse_value;

/// The base64 of 256 bytes.
const MAX_BASE64_LEN: usize = 344;

/// The value of a field that a JSON value stands for, with its status (OPC 10000-6 section 5.4.2). None
/// exactly where it stands for none that fits the field.
pub fn read_field(quality: bool, field: &Field, json: &Json) -> Option<(Value, u32)>
    ensures { MatchOption result
        ((x : DataValue) → ¬ ReadsField quality field.now (view json.now) x)
        (λ found. ReadsField quality field.now (view json.now)
        (record { value = found.0; status = found.1 })) }
{
    if !quality {
        let value = read_value(field.kind, field.cap, json)?;
        return Some((value, 0));
    }
    let inner = json.get("Value")?;
    let value = read_value(field.kind, field.cap, inner)?;
    let status = read_status(json)?;
    Some((value, status))
}

/// The value of a kind that the JSON value stands for, where it fits.
fn read_value(kind: Kind, cap: u16, json: &Json) -> Option<Value>
    ensures found { IfSome result (StandsFor (view json.now)) }
    ensures fits { IfSome result (λ value. Fits value kind cap) }
    ensures valid { IfSome result IsValue }
    ensures every { (value : Value) → IsValue value → Fits value kind cap
        → StandsFor (view json.now) value → result ≡ Some value }
{
    let value = candidate(kind, cap, json)?;
    if fits(&value, kind, cap) {
        Some(value)
    } else {
        None
    }
}

/// The one value of a kind that the JSON value may stand for in a field of this cap.
fn candidate(kind: Kind, cap: u16, json: &Json) -> Option<Value>
    ensures found { IfSome result (StandsFor (view json.now)) }
    ensures valid { IfSome result IsValue }
    ensures every { (value : Value) → IsValue value → Fits value kind cap
        → StandsFor (view json.now) value → result ≡ Some value }
{
    match kind {
        Kind::Boolean => Some(Value::Boolean(json.as_bool()?)),
        Kind::SByte => Some(Value::SByte(i8::try_from(integer(json)?).ok()?)),
        Kind::Byte => Some(Value::Byte(u8::try_from(json.as_u64()?).ok()?)),
        Kind::Int16 => Some(Value::Int16(i16::try_from(integer(json)?).ok()?)),
        Kind::UInt16 => Some(Value::UInt16(u16::try_from(json.as_u64()?).ok()?)),
        Kind::Int32 => Some(Value::Int32(i32::try_from(integer(json)?).ok()?)),
        Kind::UInt32 => Some(Value::UInt32(natural(json)?)),
        Kind::String => text(json),
        Kind::ByteString => blob(json),
        Kind::StatusCode => Some(Value::StatusCode(natural(json)?)),
        _ => spelled(kind, cap, json),
    }
}

/// The value of a kind that is spelled in JSON as scripts and reports spell it.
fn spelled(kind: Kind, cap: u16, json: &Json) -> Option<Value>
    requires { is_spelled kind ≡ true }
    ensures found { IfSome result (StandsFor (view json.now)) }
    ensures valid { IfSome result IsValue }
    ensures every { (value : Value) → IsValue value → Fits value kind cap
        → StandsFor (view json.now) value → result ≡ Some value }
{
    let word = json.as_str()?;
    parse_value(kind, cap, word.as_bytes())
}

/// The whole number that the value is.
fn integer(json: &Json) -> Option<i128>
    ensures { result ≡ integer_in (view json.now) }
{
    json.as_number()?.as_i128()
}

/// The whole number of 32 bits that the value is.
fn natural(json: &Json) -> Option<u32>
    ensures { result ≡ option_and_then (fitting 32) (natural_in (view json.now)) }
{
    u32::try_from(json.as_u64()?).ok()
}

fn text(json: &Json) -> Option<Value>
    ensures found { IfSome result (StandsFor (view json.now)) }
    ensures valid { IfSome result IsValue }
    ensures every { (text : List ℕ) → IsValue (Value.String text)
        → as_str (view json.now) ≡ Some text → result ≡ Some (Value.String text) }
{
    let text = json.as_str()?;
    match Text::from_bytes(text.as_bytes()) {
        Ok(text) => Some(Value::String(text)),
        Err(_) => None,
    }
}

fn blob(json: &Json) -> Option<Value>
    ensures found { IfSome result (StandsFor (view json.now)) }
    ensures valid { IfSome result IsValue }
    ensures every { (bytes : List ℕ) → IsValue (Value.ByteString bytes)
        → as_str (view json.now) ≡ Some (base64_text bytes)
        → result ≡ Some (Value.ByteString bytes) }
{
    let text = json.as_str()?;
    match blob_decoded(text.as_bytes()) {
        Some(blob) => Some(Value::ByteString(blob)),
        None => None,
    }
}

/// The bytes that a text is the base64 of.
fn blob_decoded(text: &[u8]) -> Option<Blob>
    ensures found { IfSome result (λ bytes. text.now ≡ base64_text bytes) }
    ensures every { (bytes : List ℕ) → IsShort bytes → text.now ≡ base64_text bytes
        → result ≡ Some bytes }
{
    if text.len() > MAX_BASE64_LEN {
        return None;
    }
    let mut room = [0; 258];
    let Ok(count) = STANDARD.decode_slice_unchecked(text, &mut room) else {
        return None;
    };
    match Blob::from_bytes(&room[..count]) {
        Ok(blob) => Some(blob),
        Err(_) => None,
    }
}

fn read_status(json: &Json) -> Option<u32>
    ensures found { IfSome result (IsStatusAt (get (codes "StatusCode") (view json.now))) }
    ensures every { (status : ℕ) → status < 2 ^ 32
        → IsStatusAt (get (codes "StatusCode") (view json.now)) status → result ≡ Some status }
{
    match json.get("StatusCode") {
        None => Some(0),
        Some(status) => natural(status),
    }
}

/// The whole number of at most 32 bits that a member is. None where there is no such member, or it is
/// something else.
pub fn number_at(json: &Json, name: &str) -> Option<u32>
    ensures { result ≡ number_at 32 name.now (view json.now) }
{
    let number = json.get(name)?.as_u64()?;
    u32::try_from(number).ok()
}

/// The text that a member is. None where there is no such member, or it is something else.
pub fn text_at<'a>(json: &'a Json, name: &str) -> Option<&'a str>
    ensures { option_map (λ text. text.now) result ≡ text_at name.now (view json.now) }
{
    json.get(name)?.as_str()
}
