//! What is written of a session's messages in the JSON mapping (OPC 10000-14 7.2.5): a line for each message, and what the readers
//! hold of these lines, read back.
#![tactic(auto)]

mod laws;
mod matching;
mod put;
mod reading;
mod records;
mod sets;
mod text;
mod witness;

pub use laws::{lines_are_read_as_their_messages, readers_keep_records};
pub use text::text_of_lines;
pub use witness::a_small_message_meets_the_premises;
