//! The command `json`: a script played over a link, each data message of its session in the JSON mapping (OPC 10000-14 7.2.5), and
//! what its readers hold of these messages.
#![tactic(auto)]

mod command;
mod laws;
mod playing;

pub use command::json;
pub use laws::{lines_have_their_writers_frames, matched_readers_are_told};
