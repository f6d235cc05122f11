//! Laws of the one sender of a key group, over all turns of its groups, whichever rings renew it: what it gave their datagrams,
//! that it made what came signed, and that each new token begins with key frames. Also laws of readers of sessions that are longer
//! than a script's, and of what their cut logs tell.
#![tactic(auto)]

mod anew;
mod cut;
mod laws;
mod longer;
mod witness;

pub use anew::a_new_token_begins_with_key_frames_in_a_life;
pub use cut::a_cut_log_tells_no_other_version;
pub use laws::{
    numbers_of_a_group_rise_with_places, numbers_rise_with_places_over_all_turns,
    one_sender_makes_what_a_key_group_sends, what_came_signed_in_a_life_was_made_by_its_sender,
    what_came_signed_was_made_by_its_sender, what_is_taken_came_signed,
};
pub use longer::longer_sessions_are_read_by_records;
pub use witness::{a_renewed_life_meets_the_premises, signed_sessions_meet_the_premises};
