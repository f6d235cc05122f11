//! A report determines what it tells.
#![tactic(auto)]

mod laws;
mod names;
mod numbers;
mod reported;

pub use laws::{
    a_report_is_of_what_it_tells, a_report_tells_one_session, a_small_session_meets_what_is_asked,
    a_summary_tells_one_row, what_begins_with_a_report_tells_its_session,
    what_is_written_tells_one_session,
};
pub use names::readers_are_told_by_their_names;
pub use numbers::{closed_sessions_have_numbers, logs_have_numbers};
pub use reported::closed_sessions_are_reported;
