//! Laws of sessions: what the matched readers of a session hold, where their read groups take nothing but what was sent, is what
//! its writers published.
#![tactic(auto)]

mod laws;
mod noise;
mod premises;
mod printed;
mod readers;
mod renewals;
mod turning;
mod witness;

pub use laws::{
    a_closing_frame_that_came_is_held, a_journal_has_one_run, a_key_frame_that_comes_last_is_held,
    a_matched_reader_holds_what_was_sent, a_new_token_begins_with_key_frames,
    a_session_has_at_most_4097_ticks, data_messages_stand_for_versions,
    matched_readers_hold_published_versions, no_token_and_number_come_twice_in_a_session,
    refused_datagrams_leave_no_trace_in_a_session, what_the_laws_below_say,
};
pub use noise::readers_hold_on_in_noise;
pub use premises::{
    a_session_closes_once_with_its_newest_versions, an_honest_link_delivers_what_was_sent,
};
pub use printed::{a_closed_session_tells_the_headline, closed_sessions_tell_published_versions};
pub use readers::{a_sessions_sender_makes_what_is_signed, signed_readers_have_their_records};
pub use renewals::{
    a_ring_has_short_tokens, a_signed_life_meets_the_premises,
    data_messages_stand_for_versions_in_a_life, no_pair_is_taken_twice_in_a_life,
    no_token_and_number_come_twice_in_a_life, tokens_never_fall_in_a_life,
};
pub use turning::{each_turn_of_a_life_holds, each_turn_of_a_session_holds};
pub use witness::{
    readers_of_each_kind_get_closing_frames, sessions_of_each_kind_meet_the_premises,
    small_sessions_meet_the_premises, what_is_sent_can_come,
};
