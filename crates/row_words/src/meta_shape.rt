//! Shapes of metas.
ghost use Rattle.std.specs.Prelude.{◌≡◌, ◌<◌, ◌≤◌, ◌^◌, true, length, map};
ghost use Rattle.dataset_meta.specs.Fields.{has_cap};
ghost use Rattle.dataset_meta.specs.Metas.{AreCapped};
ghost use Rattle.row_words.specs.Digits.{from_digits, grouped};
ghost use Rattle.row_words.specs.Shapes.{shape_of, code_of, number_of_kind};

use dataset_meta::{Field, Meta};
use ua_values::Kind;

/// What of a meta decides which words are its rows: 16 bits for each field, the first lowest. Bit 0 is set where the field is
/// there, bits 1 to 4 are its kind in the order of `Kind`, bits 5 to 13 its cap, and bit 14 is set where the meta has quality.
pub fn shape(meta: &Meta) -> [u64; 16]
    ensures { result ≡ shape_of meta.now }
{
    let mut words = [0; 16];
    write_codes(&mut words, meta.quality(), meta.fields());
    words
}

// Four fields to a word.
fn write_codes(words: &mut [u64], quality: bool, fields: &[Field])
    requires { AreCapped fields.now }
    ensures { words.new ≡ grouped 65536 4 (length words.old) (map (code_of quality) fields.now) }
{
    let mut rest = fields;
    for word in words.iter_mut() {
        let (front, back) = rest.split_at(rest.len().min(4));
        *word = codes_of(quality, front);
        rest = back;
    }
}

fn codes_of(quality: bool, fields: &[Field]) -> u64
    requires few { length fields.now ≤ 4 }
    requires capped { AreCapped fields.now }
    ensures codes { result ≡ from_digits 65536 (map (code_of quality) fields.now) }
    ensures small { result < 65536 ^ length fields.now }
{
    match fields {
        [] => 0,
        [first, rest @ ..] => code_of(quality, first) + 65536 * codes_of(quality, rest),
    }
}

fn code_of(quality: bool, field: &Field) -> u64
    requires { has_cap field.now ≡ true }
    ensures code { result ≡ code_of quality field.now }
    ensures small { result < 65536 }
{
    1 + 2 * number_of_kind(field.kind) + 32 * u64::from(field.cap) + if quality { 16384 } else { 0 }
}

fn number_of_kind(kind: Kind) -> u64
    ensures { result ≡ number_of_kind kind }
{
    match kind {
        Kind::Boolean => 0,
        Kind::SByte => 1,
        Kind::Byte => 2,
        Kind::Int16 => 3,
        Kind::UInt16 => 4,
        Kind::Int32 => 5,
        Kind::UInt32 => 6,
        Kind::Int64 => 7,
        Kind::UInt64 => 8,
        Kind::Float => 9,
        Kind::Double => 10,
        Kind::String => 11,
        Kind::DateTime => 12,
        Kind::Guid => 13,
        Kind::ByteString => 14,
        Kind::StatusCode => 15,
    }
}
