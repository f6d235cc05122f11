//! Kinds whose values are scalars.
ghost use Rattle.std.specs.Prelude.{◌≡◌};
ghost use Rattle.row_words.specs.Words.{is_scalar};

use ua_values::Kind;

/// Whether a value of this kind takes one word: all but texts, blobs and Guids.
#[inline(always)]
pub fn is_scalar(kind: Kind) -> bool
    ensures { result ≡ is_scalar kind }
{
    match kind {
        Kind::String | Kind::ByteString | Kind::Guid => false,
        _ => true,
    }
}
