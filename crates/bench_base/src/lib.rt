//! What the benches that are called from C or from Rust share: why nothing is measured.
#![tactic(auto)]

mod unmeasured;

pub use unmeasured::Unmeasured;
