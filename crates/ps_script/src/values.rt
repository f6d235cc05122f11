//! Values that words say.
ghost use Rattle.std.specs.Prelude.{◌≡◌, ◌<◌, ◌^◌, IfSome, Some, true};
ghost use Rattle.ua_values.specs.declared.value.Value.{Value as ValueSpec};
ghost use Rattle.ua_values.specs.Values.{Fits, IsValue};
ghost use Rattle.value_texts.specs.Spelling.{IsTextOf};
ghost use Rattle.ps_script.specs.Whole.{is_whole, whole_value};

use config_tables::decimal_number;
use ua_values::{Kind, Value};
use value_texts::parse_value;

/// What `parse_value` answers. A number without a sign is read by its digits alone, while
/// `parse_value` prints what it has read, and compares.
pub(crate) fn value_said(kind: Kind, cap: u16, word: &[u8]) -> Option<Value>
    ensures found { IfSome result (IsTextOf word.now) }
    ensures fits { IfSome result (λ value. Fits value kind cap) }
    ensures valid { IfSome result IsValue }
    ensures every { (value : ValueSpec) → IsValue value → Fits value kind cap
        → IsTextOf word.now value → result ≡ Some value }
{
    if is_whole(kind) {
        whole_value(kind, decimal_number(word)?)
    } else {
        parse_value(kind, cap, word)
    }
}

/// A kind of numbers without a sign.
fn is_whole(kind: Kind) -> bool
    ensures { result ≡ is_whole kind }
{
    matches!(
        kind,
        Kind::Byte | Kind::UInt16 | Kind::UInt32 | Kind::UInt64
    )
}

/// The value of the kind with this number, where it is in the kind's range.
fn whole_value(kind: Kind, number: u64) -> Option<Value>
    requires { is_whole kind ≡ true }
    ensures { result ≡ whole_value kind number }
{
    match kind {
        Kind::Byte => u8::try_from(number).ok().map(Value::Byte),
        Kind::UInt16 => u16::try_from(number).ok().map(Value::UInt16),
        Kind::UInt32 => u32::try_from(number).ok().map(Value::UInt32),
        _ => Some(Value::UInt64(number)),
    }
}
