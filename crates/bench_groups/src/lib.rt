//! The turns of a group of writers and the datagrams of a read group, which bench/groups measures from C, each made many
//! times. The configuration comes from there too; its first group, or its first read group, is the one that is measured.
#![tactic(auto)]

mod reading;
mod rows;
mod senders;
mod writing;

pub use reading::bench_datagrams;
pub use writing::bench_turns;
