//! Why a datagram or a message isn't taken.
use crate::text::{Piece, fill};
use example_parts::Fault;

/// Why a datagram or a message isn't taken: a word, and what is told of it.
#[derive(Clone, Copy)]
pub struct Cause {
    /// The word, as reports have it.
    pub word: &'static str,
    pattern: &'static str,
    pieces: [Piece<'static>; 2],
}

impl Cause {
    /// A cause of which nothing more is told.
    pub fn named(word: &'static str) -> Cause {
        Cause::told(word, "", 0, 0)
    }

    /// A cause of which these numbers are told: each stands for a `#`.
    pub fn told(word: &'static str, pattern: &'static str, first: u64, second: u64) -> Cause {
        Cause {
            word,
            pattern,
            pieces: [Piece::Number(first), Piece::Number(second)],
        }
    }

    /// A cause of which these words are told.
    pub fn worded(
        word: &'static str,
        pattern: &'static str,
        came: &'static str,
        wanted: &'static str,
    ) -> Cause {
        Cause {
            word,
            pattern,
            pieces: [Piece::Word(came), Piece::Word(wanted)],
        }
    }

    pub fn put(&self, out: &mut Vec<u8>) -> Result<(), Fault> {
        fill(out, self.word, &[])?;
        fill(out, self.pattern, &self.pieces)
    }
}
