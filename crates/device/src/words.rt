//! Scalars as words.
ghost use Rattle.std.specs.Prelude.{◌≡◌, ◌≢◌, ◌<◌, ◌≤◌, length};
ghost use Rattle.std.specs.Bool.{OnFalse, OnTrue};
ghost use Rattle.std.specs.List.{HoldsAt};
ghost use Rattle.row_words.specs.Words.{IsWordOf};
ghost use Rattle.device.specs.Sides.{IsScalarAt};

use dataset_meta::Meta;
use row_words::is_scalar;
use ua_values::Kind;

/// Whether there is a field with this index.
pub fn has_field_at(meta: &Meta, field: u8) -> bool
    ensures there { OnTrue result (field < length meta.now.fields) }
    ensures not { OnFalse result (length meta.now.fields ≤ field) }
{
    usize::from(field) < meta.fields().len()
}

/// Whether the field is there, and of this kind, which is a scalar's.
pub fn is_scalar_at(meta: &Meta, field: u8, kind: Kind) -> bool
    ensures there { OnTrue result (IsScalarAt meta.now field kind) }
    ensures not { OnFalse result (¬ IsScalarAt meta.now field kind) }
{
    if !has_field_at(meta, field) {
        return false;
    }
    if !is_kind(kind_at(meta, field), kind) {
        return false;
    }
    is_scalar(kind)
}

/// The kind of the field with this index.
fn kind_at(meta: &Meta, field: u8) -> Kind
    requires { field < length meta.now.fields }
    ensures { HoldsAt (λ f. f.kind ≡ result) meta.now.fields field }
{
    meta.fields()[usize::from(field)].kind
}

fn is_kind(one: Kind, other: Kind) -> bool
    ensures yes { OnTrue result (one ≡ other) }
    ensures no { OnFalse result (one ≢ other) }
{
    one == other
}

/// Whether a scalar of this kind has this word.
pub fn is_word_of(kind: Kind, word: u64) -> bool
    ensures yes { OnTrue result (IsWordOf kind word) }
    ensures no { OnFalse result (¬ IsWordOf kind word) }
{
    match kind {
        Kind::Boolean => word < 2,
        Kind::SByte | Kind::Byte => word < 1 << 8,
        Kind::Int16 | Kind::UInt16 => word < 1 << 16,
        Kind::Int32 | Kind::UInt32 | Kind::Float | Kind::StatusCode => word < 1 << 32,
        Kind::Int64 | Kind::UInt64 | Kind::Double | Kind::DateTime => true,
        Kind::String | Kind::Guid | Kind::ByteString => false,
    }
}
