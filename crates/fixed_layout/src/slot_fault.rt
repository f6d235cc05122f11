//! Why slots make no layout.
use std::error::Error;
use std::fmt;

/// Why slots make no layout of datagrams. The fault that stands first here is told, and of slots the first.
#[derive(Clone, Copy, Debug, PartialEq, Eq)]
pub enum SlotFault {
    /// The slot at this index shares a byte with the header or with an earlier slot. A slot of no bytes shares none.
    Clash { index: u8 },
    /// The slot at this index is smaller than what it is for.
    Small { index: u8 },
    /// The slot at this index ends past the limit.
    Past { index: u8 },
}

impl fmt::Display for SlotFault {
    ghost use Rattle.std.specs.Prelude.{Some};
    ghost use Rattle.fixed_layout.specs.FaultTexts.{slot_fault};

    ghost output = { λ fault. Some (slot_fault fault) };

    fn fmt<W: fmt::Write>(&self, f: &mut fmt::Formatter<W>) -> fmt::Result {
        match *self {
            SlotFault::Clash { index } => {
                write!(
                    f,
                    "slot {index} shares a byte with the header or an earlier slot: move it"
                )
            }
            SlotFault::Small { index } => {
                write!(f, "slot {index} is smaller than what it is for: enlarge it")
            }
            SlotFault::Past { index } => {
                write!(f, "slot {index} ends past the limit: move or shrink it")
            }
        }
    }
}

impl Error for SlotFault {}
