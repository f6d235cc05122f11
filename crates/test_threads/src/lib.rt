//! Threads that write beside one another, and a crew at lists of writes and watches beside a job that stores. Lanes over small
//! makers, at a gate and at queues of one place and of many, and the command `lanes` past the same gate.
#![tactic(auto)]

#[cfg(test)]
mod cells;
mod counts;
#[cfg(test)]
mod crews;
mod few;
#[cfg(test)]
mod lanes;
#[cfg(test)]
mod meeting;
#[cfg(test)]
mod order;
#[cfg(test)]
mod runs;
#[cfg(test)]
mod sample;

pub use counts::Counts;
pub use few::{Few, Work};
