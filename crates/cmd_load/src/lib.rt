//! The command `load`: generated work, run with threads over a link, and the summary of its session.
#![tactic(auto)]

mod command;
mod laws;
mod number;

pub use command::load;
pub use laws::generated_work_ends_with_one_row;
pub use number::load_number;
