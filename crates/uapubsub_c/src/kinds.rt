//! Kinds by their numbers.
ghost use Rattle.std.specs.Prelude.{◌≡◌, IfSome};
ghost use Rattle.ua_binary.specs.Types.{kind_with, type_of};

use ua_values::Kind;

/// The kind of the built-in type with this number (OPC 10000-6 section 5.1.2).
pub fn kind_numbered(number: u32) -> Option<Kind>
    ensures number { IfSome result (λ kind. type_of kind ≡ number) }
    ensures kind { result ≡ kind_with number }
{
    match number {
        1 => Some(Kind::Boolean),
        2 => Some(Kind::SByte),
        3 => Some(Kind::Byte),
        4 => Some(Kind::Int16),
        5 => Some(Kind::UInt16),
        6 => Some(Kind::Int32),
        7 => Some(Kind::UInt32),
        8 => Some(Kind::Int64),
        9 => Some(Kind::UInt64),
        10 => Some(Kind::Float),
        11 => Some(Kind::Double),
        12 => Some(Kind::String),
        13 => Some(Kind::DateTime),
        14 => Some(Kind::Guid),
        15 => Some(Kind::ByteString),
        19 => Some(Kind::StatusCode),
        _ => None,
    }
}
