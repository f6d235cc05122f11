//! The calls of this repository that bench/frames and bench/cadence measure from Rust. The data sets have so many fields of
//! the kind UInt32, with statuses or without.
#![tactic(auto)]

mod cadence;
mod frames;
mod metas;

pub use cadence::{bench_held, bench_quiet};
pub use frames::{bench_read, bench_write};
