//! What lanes work on.
use ps_config::Config;
use writer_group::Sampled;

/// What all lanes are given for a turn.
#[derive(Drop)]
pub struct TurnIn {
    /// Its moment, in milliseconds.
    pub now: u64,
    /// The row of each data set that was sampled for it, in the configuration's order.
    pub rows: Vec<Sampled>,
    /// Whether it is the closing turn, in which each group has its turn.
    pub closing: bool,
}

/// What all lanes have in common.
#[derive(Clone, Copy)]
pub struct Work<'a> {
    pub config: &'a Config,
    pub turns: &'a [TurnIn],
}
