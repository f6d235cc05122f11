//! Laws of groups of writers and of readers together: what the one sends in a turn is what the other's readers are given.
#![tactic(auto)]

mod laws;
mod witness;

pub use laws::{
    a_datagram_has_nothing_for_readers_of_other_groups, a_dynamic_turn_has_its_writers_frames,
    a_dynamic_turn_has_nothing_for_readers_of_other_writers,
    a_dynamic_turn_is_read_as_it_was_answered, a_fixed_turn_has_its_writers_slot,
    a_fixed_turn_is_read_as_it_was_answered, a_matched_reader_reads_its_writer,
    a_part_adds_the_item_of_its_answer, a_ring_makes_senders_of_its_key_group,
    a_sender_stays_ahead, a_turn_of_tick_is_a_fixed_turn, a_turn_of_tick_is_a_group_turn,
    each_datagram_is_taken_as_it_was_sent, each_part_is_of_what_was_answered,
    what_a_turn_sends_is_what_a_reader_is_given,
};
pub use witness::{the_built_in_groups_are_matched, the_premises_of_turns_are_met};
