//! Groups of writers (OPC 10000-14 6.2.6, WriterGroup): what each turn's frames become, datagrams in memory that all groups use.
#![tactic(auto)]

mod answering;
mod datagrams;
mod front;
mod group;
mod header_parts;
mod laws;
mod laying;
mod lead;
mod leads;
mod load;
mod making;
mod need;
mod planning;
mod posting;
mod sampled;
mod settings;
mod setup;
mod slotting;
mod spelled;

pub use datagrams::Datagrams;
pub use group::Group;
pub use laws::{
    a_datagram_is_not_empty, a_late_turn_leaves_the_next_one_due,
    a_refreshed_writer_sends_a_key_frame, a_turn_makes_at_most_1024_datagrams,
    a_turn_with_a_frame_makes_a_datagram, each_answer_is_a_frame, headers_of_a_turn_can_be_written,
    no_datagram_is_longer_than_max_size, no_token_and_number_come_twice_in_groups,
};
pub use need::Need;
pub use sampled::Sampled;
