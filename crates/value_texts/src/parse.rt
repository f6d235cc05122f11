//! Values read from their texts.
ghost use Rattle.std.specs.Prelude.{◌≡◌, ◌≢◌, ◌↔◌, ◌<◌, ◌^◌, ℕ, IsTrue, IfSome, Some};
ghost use Rattle.ua_values.specs.declared.value.Value.{Value};
ghost use Rattle.ua_values.specs.Values.{kind_of, Fits, IsValue};
ghost use Rattle.value_texts.specs.Texts.{hex_text_32, value_text_of};
ghost use Rattle.value_texts.specs.Spelling.{IsTextOf};

use crate::candidate::{bits_32, candidate};
use crate::print::print;
use crate::spelling::text_spelled;
use arrayvec::ArrayVec;
use ua_values::{Kind, Value, fits};

/// The value of a kind that the word is a text of. It may stand in a field of this cap, in bytes.
pub fn parse_value(kind: Kind, cap: u16, word: &[u8]) -> Option<Value>
    ensures found { IfSome result (IsTextOf word.now) }
    ensures fits { IfSome result (λ value. Fits value kind cap) }
    ensures valid { IfSome result IsValue }
    ensures every { (value : Value) → IsValue value → Fits value kind cap
        → IsTextOf word.now value → result ≡ Some value }
{
    let value = value_spelled(kind, word)?;
    if fits(&value, kind, cap) {
        Some(value)
    } else {
        None
    }
}

/// The StatusCode that the word is the text of.
#[tactic(auto, unfolding(crate::specs::Texts::value_text_of))]
pub fn parse_status(word: &[u8]) -> Option<u32>
    ensures found { IfSome result (λ status. word.now ≡ hex_text_32 status) }
    ensures every { (status : ℕ) → status < 2 ^ 32 → word.now ≡ hex_text_32 status
        → result ≡ Some status }
{
    let status = bits_32(word)?;
    if is_printed_as(&Value::StatusCode(status), word) {
        Some(status)
    } else {
        None
    }
}

/// A text may be spelled in several ways, every other value in one.
fn value_spelled(kind: Kind, word: &[u8]) -> Option<Value>
    ensures found { IfSome result (IsTextOf word.now) }
    ensures valid { IfSome result IsValue }
    ensures every { (value : Value) → IsValue value → kind_of value ≡ kind
        → IsTextOf word.now value → result ≡ Some value }
{
    match kind {
        Kind::String => string_spelled(word),
        _ => value_printed(kind, word),
    }
}

fn string_spelled(word: &[u8]) -> Option<Value>
    ensures found { IfSome result (IsTextOf word.now) }
    ensures valid { IfSome result IsValue }
    ensures every { (value : Value) → IsValue value → kind_of value ≡ Kind.String
        → IsTextOf word.now value → result ≡ Some value }
{
    let text = text_spelled(word)?;
    Some(Value::String(text))
}

fn value_printed(kind: Kind, word: &[u8]) -> Option<Value>
    requires { kind ≢ Kind.String }
    ensures found { IfSome result (IsTextOf word.now) }
    ensures valid { IfSome result IsValue }
    ensures every { (value : Value) → IsValue value → kind_of value ≡ kind
        → IsTextOf word.now value → result ≡ Some value }
{
    let value = candidate(kind, word)?;
    if is_printed_as(&value, word) {
        Some(value)
    } else {
        None
    }
}

fn is_printed_as(value: &Value, word: &[u8]) -> bool
    ensures printed { IsTrue result ↔ (word.now ≡ value_text_of value.now) }
    ensures valid { IsValue value.now }
{
    let mut text = ArrayVec::new();
    print(value, &mut text);
    text.as_slice() == word
}
