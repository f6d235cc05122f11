//! How many bytes rows take as RawData.
ghost use Rattle.std.specs.Prelude.{◌≡◌, ◌≤◌};
ghost use Rattle.fixed_layout.specs.Spelling.{raw_width_of, raw_size};

use dataset_meta::{Field, Meta};
use ua_values::Kind;

/// How many bytes each row of this meta takes as RawData (OPC 10000-14 7.2.4.5), whatever its values are.
pub fn raw_size(meta: &Meta) -> u32
    ensures size { result ≡ raw_size meta.now.fields }
    ensures small { result ≤ 1000 }
{
    let mut size = 0;
    for field in meta.fields() {
        size += raw_width(field);
    }
    size
}

/// How many bytes a value of this field takes as RawData: a text or a byte string its cap, behind a length.
#[inline(always)]
pub fn raw_width(field: &Field) -> u32
    ensures width { result ≡ raw_width_of field.now }
    ensures small { result ≤ 65539 }
{
    match field.kind {
        Kind::Boolean | Kind::SByte | Kind::Byte => 1,
        Kind::Int16 | Kind::UInt16 => 2,
        Kind::Int32 | Kind::UInt32 | Kind::Float | Kind::StatusCode => 4,
        Kind::Int64 | Kind::UInt64 | Kind::Double | Kind::DateTime => 8,
        Kind::Guid => 16,
        Kind::String | Kind::ByteString => 4 + u32::from(field.cap),
    }
}
