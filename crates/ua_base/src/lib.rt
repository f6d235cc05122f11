//! The outside as the product sees it: a folder, a sink, a link and a gate, each a trait, and the journal of a link.
#![tactic(auto)]

mod folder;
mod gate;
mod laws;
mod link;
mod no_memory;
mod session_ends;
mod sink;

pub use folder::{Folder, ReadEnd};
pub use gate::Gate;
pub use laws::{
    an_honest_journal_begins_honestly, calls_in_a_row_keep_a_link, what_was_received_was_sent,
};
pub use link::{Fate, Link, Opened, Received, Sent};
pub use no_memory::NoMemory;
pub use session_ends::{Pumped, Ticked};
pub use sink::{Sink, WriteEnd};
