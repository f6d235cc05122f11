//! The command `run`: a script run with threads over a link, and the report of its session.
#![tactic(auto)]

mod command;

pub use command::run;
