//! The receive timeout of a reader.
#![tactic(auto)]

mod timer;

pub use timer::Timer;
