//! The command `lanes`: the writer groups of a script on threads of their own, and a text of what they sent.
#![tactic(auto)]

mod command;
mod course;
mod laws;
mod playing;
mod put;
mod refusal;
mod text;

pub use command::{lanes, lanes_by};
pub use laws::{a_text_of_lanes_tells_one_run, lanes_do_what_a_play_does};
pub use playing::play_lanes;
pub use refusal::refused;
