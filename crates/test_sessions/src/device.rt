//! A session on one thread.
use cell_bank::Bank;
use dataset_meta::Meta;
use pubsub_engine::Session;
use target_cells::Targets;
use version_cell::Passes;

/// A session, the cell of its only data set, the passes that may still write it once each, and the targets of its readers.
#[derive(Drop)]
pub struct Device<'c> {
    pub meta: &'c Meta,
    pub session: Session<'c>,
    pub bank: Bank,
    pub hands: Vec<Passes>,
    pub targets: Targets,
    /// How many ticks may come before the closing one.
    pub ticks: u64,
}
