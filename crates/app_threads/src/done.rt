//! What a thread leaves.
use crate::series::Series;
use version_cell::Passes;

/// What the looks of one watch counted.
#[derive(Drop)]
pub struct Looked {
    pub reader: u8,
    /// How many stores of the reader there were at each look, in order.
    pub counts: Series<u64>,
}

/// What a thread leaves.
#[derive(Drop)]
pub struct Done {
    /// The number of its list, which is the thread's.
    pub list: u32,
    /// The data set and the version of each of its writes, in order.
    pub versions: Series<(u8, u64)>,
    /// What each of its watches counted, in order.
    pub looks: Series<Looked>,
    /// What it has seen of the data sets.
    pub passes: Passes,
    /// What it has seen of the readers' targets.
    pub watches: Passes,
}
