//! Why nothing is measured.
use std::alloc::{AllocError, AllocFailed};
use ua_base::NoMemory;

/// Why nothing is measured: a text isn't accepted, or it is of another shape, a sender is spent, or there is no memory.
#[derive(Drop)]
pub struct Unmeasured;

impl From<AllocError> for Unmeasured {
    fn from(_: AllocError) -> Unmeasured {
        Unmeasured
    }
}

impl<T: Drop> From<AllocFailed<T>> for Unmeasured {
    fn from(_: AllocFailed<T>) -> Unmeasured {
        Unmeasured
    }
}

impl From<NoMemory> for Unmeasured {
    fn from(_: NoMemory) -> Unmeasured {
        Unmeasured
    }
}
