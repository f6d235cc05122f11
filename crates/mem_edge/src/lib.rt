//! The outside in memory: files, what is written, and a link whose datagrams are lost, repeated, held back or
//! injected as it is told.
#![tactic(auto)]

mod calls;
mod failing;
mod gate;
mod laws;
mod mark;
mod memory_folder;
mod memory_link;
mod memory_sink;
mod name;
mod plan;
mod timetable;
mod transit;

pub use gate::OpenGate;
pub use laws::{
    a_fated_journal_delivers_what_its_sends_queue, a_journal_is_determined_by_its_calls,
    a_memory_link_is_honest, a_memory_link_tells_its_fated_journal, fates_are_those_of_the_opening,
    fates_make_of_three_datagrams,
};
pub use memory_folder::MemoryFolder;
pub use memory_link::MemoryLink;
pub use memory_sink::MemorySink;
pub use name::Name;
