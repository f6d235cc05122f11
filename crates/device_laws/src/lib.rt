//! Laws of two devices, over all their calls. What a publisher sends is what its groups make of its rows. What a subscriber keeps
//! is the plain reading of what came. What a matched reader holds is what the publisher published.
#![tactic(auto)]

mod laws;
mod near;
mod restarts;
mod run;
mod signed;
mod witness;

pub use laws::{
    a_paired_reader_holds_what_was_published, a_publisher_sends_turns_of_its_groups,
    a_subscriber_reads_what_came, each_call_is_a_step_of_a_life,
};
pub use near::readers_hold_whole_rows_where_places_are_near;
pub use restarts::{
    no_number_is_given_again_after_a_restart,
    readers_hold_whole_rows_of_the_life_since_their_last_reset,
};
pub use run::{Pair, run_once};
pub use signed::{
    each_turn_of_a_publisher_has_its_sender,
    plain_readers_beside_pulled_keys_hold_what_was_published,
    readers_of_pulled_keys_hold_what_was_published, secured_readers_hold_whole_rows_at_any_length,
    what_came_signed_was_made_by_the_publisher,
};
pub use witness::{
    a_renewed_life_with_a_loss_meets_the_premises, a_small_life_meets_the_premises,
    a_small_secured_life_meets_the_premises,
};
