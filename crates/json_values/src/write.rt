//! Values written in JSON.
ghost use Rattle.std.specs.Prelude.{◌≡◌, IfOk, IsUtf8};
ghost use Rattle.serde_json.specs.Data.{string};
ghost use Rattle.serde_json.specs.View.{view};
ghost use Rattle.value_texts.specs.Texts.{hex_text, guid_text};
ghost use Rattle.json_values.specs.Spelled.{base64_text, json_of, field_json};

use base64::engine::general_purpose::STANDARD;
use hex;
use itoa::{Buffer, Integer};
use serde_json::{Value as Json, json};
use std::alloc::{AllocError, Global};
use std::str;
use ua_values::Value;
use uuid::Uuid;

/// The JSON value of a field (OPC 10000-6 section 5.4.2), with its status where the data set has quality
/// and the status isn't Good.
pub fn field_json(
    alloc: Global,
    quality: bool,
    value: &Value,
    status: u32,
) -> Result<Json, AllocError>
    ensures { IfOk result (λ found. view found
        ≡ field_json quality (record { value = value.now; status = status })) }
{
    let plain = json_of(alloc, value)?;
    if !quality {
        return Ok(plain);
    }
    if status == 0 {
        return json!(in alloc; {"Value": plain});
    }
    json!(in alloc; {"StatusCode": status, "Value": plain})
}

fn json_of(alloc: Global, value: &Value) -> Result<Json, AllocError>
    ensures { IfOk result (λ found. view found ≡ json_of value.now) }
{
    match value {
        Value::Boolean(b) => Ok(Json::from(*b)),
        Value::SByte(n) => Ok(Json::from(*n)),
        Value::Byte(n) => Ok(Json::from(*n)),
        Value::Int16(n) => Ok(Json::from(*n)),
        Value::UInt16(n) => Ok(Json::from(*n)),
        Value::Int32(n) => Ok(Json::from(*n)),
        Value::UInt32(n) | Value::StatusCode(n) => Ok(Json::from(*n)),
        Value::Int64(n) | Value::DateTime(n) => decimal_json(alloc, *n),
        Value::UInt64(n) => decimal_json(alloc, *n),
        Value::Float(bits) => hex_json(alloc, &bits.to_be_bytes()),
        Value::Double(bits) => hex_json(alloc, &bits.to_be_bytes()),
        Value::String(text) => text_json(alloc, text.as_bytes()),
        Value::Guid(bytes) => guid_json(alloc, bytes),
        Value::ByteString(blob) => base64_json(alloc, blob.as_bytes()),
    }
}

fn decimal_json<N: Integer>(alloc: Global, number: N) -> Result<Json, AllocError>
    ensures { IfOk result (λ found. view found ≡ string (N.text number)) }
{
    let mut buffer = Buffer::new();
    Json::try_from_str(alloc, buffer.format(number))
}

fn hex_json(alloc: Global, bytes: &[u8]) -> Result<Json, AllocError>
    ensures { IfOk result (λ found. view found ≡ string (hex_text bytes.now)) }
{
    let digits = hex::encode(alloc, bytes)?;
    let text = format!(in alloc; "0x{digits}")?;
    Ok(Json::String(text))
}

fn text_json(alloc: Global, bytes: &[u8]) -> Result<Json, AllocError>
    requires { IsUtf8 bytes.now }
    ensures { IfOk result (λ found. view found ≡ string bytes.now) }
{
    match str::from_utf8(bytes) {
        Ok(text) => Json::try_from_str(alloc, text),
        Err(_) => unreachable!(),
    }
}

fn guid_json(alloc: Global, bytes: &[u8; 16]) -> Result<Json, AllocError>
    ensures { IfOk result (λ found. view found ≡ string (guid_text bytes.now)) }
{
    let mut room = [0; 36];
    Json::try_from_str(
        alloc,
        Uuid::from_bytes_le(*bytes)
            .hyphenated()
            .encode_lower(&mut room),
    )
}

fn base64_json(alloc: Global, bytes: &[u8]) -> Result<Json, AllocError>
    ensures { IfOk result (λ found. view found ≡ string (base64_text bytes.now)) }
{
    let text = STANDARD.encode(alloc, bytes)?;
    Ok(Json::String(text))
}
