//! What a call answers. `include/uapubsub.h` has the same numbers.
ghost use Rattle.std.specs.Prelude.{◌≡◌, ◌≢◌, IfErr, IfOk};
ghost use Rattle.uapubsub_c.specs.Numbers.{number_of, status_number};

use crate::refusals::refusal_number;
use reader_group::Refusal;

/// Why a call didn't do what it says.
#[derive(Clone, Copy)]
pub enum Status {
    /// There is nothing: no datagram is due, or no row is held.
    Nothing,
    /// The handle is closed.
    Closed,
    /// The handle is open, and may not be opened again.
    Opened,
    /// The handle is of the other side.
    OtherSide,
    /// Memory ran out.
    Memory,
    /// The configuration is refused.
    Refused,
    /// There is no such data set, field, key group, group, writer, read group or reader.
    Index,
    /// The field is there, and doesn't have this kind, this value or this status.
    Misfit,
    /// The buffer is too short.
    Room,
    /// A group that is due can have no turn: its token has fewer than 1,024 numbers left, or all turns of its life are over.
    Spent,
    /// The text isn't UTF-8, or text or bytes are longer than any field may have.
    BadText,
    /// There are more than 16 key sets.
    ManyKeys,
    /// The key sets make no ring: there is none, tokens and moments don't rise, or the first moment isn't 0.
    NoRing,
    /// The key set of the moment is of an earlier token, whose numbers aren't known.
    EarlierToken,
    /// Numbers would be used again: the token is lower than the one in use, or is that one with a greater number used.
    NumbersAgain,
    /// No kind, or no list, has this number.
    NoKind,
    /// The row that is held is older than that.
    Stale,
    /// A datagram waits until its number is in store.
    Unstored,
    /// The bytes aren't those of a state that was saved.
    Damaged,
    /// The state is of another configuration.
    OtherConfig,
    /// The state has a later token of a key group than its key sets have at the moment.
    LaterToken,
    /// The group had a turn before.
    Begun,
    /// The datagram is refused.
    Datagram(Refusal),
}

impl Status {
    /// The number by which C sees it.
    pub fn number(self) -> u32
        ensures { result ≡ status_number self }
    {
        match self {
            Status::Nothing => 1,
            Status::Closed => 3,
            Status::Opened => 4,
            Status::OtherSide => 5,
            Status::Memory => 6,
            Status::Refused => 7,
            Status::Index => 8,
            Status::Misfit => 9,
            Status::Room => 10,
            Status::Spent => 11,
            Status::BadText => 12,
            Status::ManyKeys => 13,
            Status::NoRing => 14,
            Status::EarlierToken => 15,
            Status::NumbersAgain => 16,
            Status::NoKind => 17,
            Status::Stale => 18,
            Status::Unstored => 19,
            Status::Damaged => 20,
            Status::OtherConfig => 21,
            Status::LaterToken => 22,
            Status::Begun => 23,
            Status::Datagram(refusal) => refusal_number(&refusal),
        }
    }
}

/// The number of an answer that tells nothing. 0 says that the call did what it says.
pub fn number_of(answer: Result<(), Status>) -> u32
    ensures { result ≡ number_of answer }
{
    match answer {
        Ok(()) => 0,
        Err(status) => status.number(),
    }
}

/// Tells C the value of an answer, and its number. An answer without a value leaves what stood there.
pub fn tell<T: Copy>(answer: Result<T, Status>, told: &mut T) -> u32
    ensures number { result ≡ number_of answer }
    ensures told { IfOk answer (λ value. told.new ≡ value) }
    ensures untold { IfErr answer (λ status. told.new ≡ told.old) }
{
    match answer {
        Ok(value) => {
            *told = value;
            0
        }
        Err(status) => status.number(),
    }
}
