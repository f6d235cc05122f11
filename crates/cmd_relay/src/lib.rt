//! The command `relay`: a script played with one configuration, and what its readers hold published again by another.
#![tactic(auto)]

mod command;
mod held;
mod laws;
mod matching;
mod numbers;
mod put;
mod relaying;
mod sources;
mod text;

pub use command::relay;
pub use laws::{a_text_of_a_relay_tells_one_session, the_lines_of_a_gateway_tell_stores};
pub use matching::matched_writer;
pub use numbers::gateways_have_numbers;
pub use sources::unsourced;
