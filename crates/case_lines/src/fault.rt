//! Why a line is no case.
use std::alloc::{AllocError, AllocFailed};
use std::fmt;
use ua_base::NoMemory;

/// Why a line is no case.
#[derive(Clone, Copy, Debug, Drop)]
pub enum LineFault {
    /// No call of this name.
    Call,
    /// A word is missing.
    Missing,
    /// A word that is no number in the argument's range.
    Number,
    /// No hexadecimal digits, or an odd number of them.
    Hex,
    /// No text: an escape that isn't one, or bytes that aren't UTF-8.
    Text,
    /// What the call takes as given doesn't hold of the arguments.
    Condition,
    Memory,
}

impl From<AllocError> for LineFault {
    fn from(_: AllocError) -> LineFault {
        LineFault::Memory
    }
}

impl<T: Drop> From<AllocFailed<T>> for LineFault {
    fn from(_: AllocFailed<T>) -> LineFault {
        LineFault::Memory
    }
}

impl From<NoMemory> for LineFault {
    fn from(_: NoMemory) -> LineFault {
        LineFault::Memory
    }
}

impl From<fmt::Error> for LineFault {
    fn from(_: fmt::Error) -> LineFault {
        LineFault::Memory
    }
}
