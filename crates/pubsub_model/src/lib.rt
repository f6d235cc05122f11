//! Definitions of the publish-subscribe model over rows of any data set: its history, the frames that a writer sends of it, and what a reader holds of them; and how a reader's run of frames breaks.
#![tactic(auto)]

mod laws;
mod laws_of_answers;
mod reading;

pub use laws::{
    data_frames_are_numbered_in_a_row, entries_of_a_legal_history, frames_in_order_are_held,
    frames_publish_whole_rows, keep_alives_come_in_time, keep_alives_follow_data_frames,
    key_frames_alone, key_frames_come_in_time, legal_lists_have_a_place_for_each_patch,
    legal_rows_fit, one_thread_is_legal, records_are_held, turns_change_only_what_differs,
    versions_of_a_legal_history,
};
pub use laws_of_answers::{
    a_held_row_was_sent, a_number_names_its_version, answers_have_places_of_their_span,
    earlier_turns_had_rows_of_a_meta, logged_versions_never_fall,
};
pub use reading::{Break, Why};
