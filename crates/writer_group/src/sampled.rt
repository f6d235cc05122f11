//! What a turn is given of a data set.
use row_words::Row;

/// The row that a data set has at a moment, and its version: how many rows it had before.
#[derive(Clone, Copy, Debug, PartialEq, Eq)]
pub struct Sampled {
    pub row: Row,
    pub version: u64,
}
