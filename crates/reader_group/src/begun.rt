//! What is known of a datagram once its header is read.
ghost use Rattle.std.specs.Prelude.{◌≤◌};

use message_guard::Pass1;

/// What a payload header has. A list of ids is kept apart.
#[derive(Clone, Copy, Debug, PartialEq, Eq)]
pub(crate) enum Carried {
    /// It isn't there.
    None,
    List,
    /// The id of a chunk's writer.
    Chunk(u16),
}

/// A datagram whose header is read.
#[derive(Clone, Copy)]
pub(crate) struct Begun {
    /// Where the payload begins.
    pub payload: usize,
    /// What the guard found.
    pub pass: Pass1,
    pub carried: Carried,
    ghost order: { payload ≤ pass.end },
}
