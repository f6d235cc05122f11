//! One cell for each data set, and sets of passes with one pass for each cell.
#![tactic(auto)]

mod bank;
mod making;

pub use bank::Bank;
