//! Where a stored row comes from.

/// Of a reader's last store the message and the version that its row comes from, as far as they are known.
#[derive(Clone, Copy, Debug, PartialEq, Eq)]
pub struct Origin {
    /// How many stores of the reader there are.
    pub store: u64,
    /// The number of the message that the row came with, where there was one: its sequence number.
    pub number: Option<u16>,
    /// The version of the row in the history of its data set, where it is known; before the first store 0, which is the opening
    /// row.
    pub version: Option<u64>,
}
