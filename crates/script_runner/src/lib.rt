//! A script run with threads: its writes and watches on a thread each, and its other lines over a session and a link beside them.
#![tactic(auto)]

mod conductor;
mod ending;
mod laws;
mod lists;
mod run;

pub use laws::{a_played_script_is_a_run, a_played_script_writes_legal_histories};
pub use run::run_script;
