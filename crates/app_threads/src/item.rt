//! What a thread has to do.
use row_words::Patch;

/// An item of a thread's list.
#[derive(Clone, Copy, Debug)]
pub enum Item {
    /// One write of a data set.
    Write { set: u8, patch: Patch },
    /// So many looks at the target of a reader, which count its stores.
    Watch { reader: u8, times: u32 },
}
