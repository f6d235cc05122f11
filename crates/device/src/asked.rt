//! What the sides answer.

/// What a publisher has at a moment.
#[derive(Clone, Copy, Debug, PartialEq, Eq)]
pub enum Next {
    /// A datagram waits to be handed over.
    Datagram,
    /// No datagram waits, and no group is due.
    Nothing,
    /// No datagram waits, and a group that is due can have no turn: its token has fewer than 1,024 numbers left, or all turns of its
    /// life are over.
    Spent,
}

/// Why a subscriber has no value to tell.
#[derive(Clone, Copy, Debug, PartialEq, Eq)]
pub enum NoValue {
    /// There is no such read group, reader or field.
    NoField,
    /// The reader holds no row.
    NoRow,
    /// The field isn't of that kind.
    Misfit,
}
