//! The numbers of the kinds.
ghost use Rattle.std.specs.Prelude.{◌≡◌};
ghost use Rattle.ua_binary.specs.Types.{type_of, kind_with};

use ua_values::Kind;

/// The built-in type's number, a Variant's type byte (OPC 10000-6 section 5.1.2).
#[inline(always)]
pub fn number_of(kind: Kind) -> u8
    ensures { result ≡ type_of kind }
{
    match kind {
        Kind::Boolean => 1,
        Kind::SByte => 2,
        Kind::Byte => 3,
        Kind::Int16 => 4,
        Kind::UInt16 => 5,
        Kind::Int32 => 6,
        Kind::UInt32 => 7,
        Kind::Int64 => 8,
        Kind::UInt64 => 9,
        Kind::Float => 10,
        Kind::Double => 11,
        Kind::String => 12,
        Kind::DateTime => 13,
        Kind::Guid => 14,
        Kind::ByteString => 15,
        Kind::StatusCode => 19,
    }
}

/// The kind with this number.
#[inline(always)]
pub fn kind_with_number(number: u8) -> Option<Kind>
    ensures { result ≡ kind_with number }
{
    Some(match number {
        1 => Kind::Boolean,
        2 => Kind::SByte,
        3 => Kind::Byte,
        4 => Kind::Int16,
        5 => Kind::UInt16,
        6 => Kind::Int32,
        7 => Kind::UInt32,
        8 => Kind::Int64,
        9 => Kind::UInt64,
        10 => Kind::Float,
        11 => Kind::Double,
        12 => Kind::String,
        13 => Kind::DateTime,
        14 => Kind::Guid,
        15 => Kind::ByteString,
        19 => Kind::StatusCode,
        _ => return None,
    })
}
