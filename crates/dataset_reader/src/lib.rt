//! The reader of a data set's messages: which row it holds, why it holds none, and where the run of messages broke
//! (OPC 10000-14 6.2.9, DataSetReader).
#![tactic(auto)]

mod held;
mod laws;
mod passed;
mod progress;
mod reader;
mod took;

pub use laws::{
    a_run_keeps_records, an_unnumbered_run_keeps_the_last_whole, answers_are_counted,
    answers_tell_each_break, each_answer_has_its_cause, each_list_has_arrivals,
    each_list_keeps_records, each_list_numbers_its_row, each_step_keeps_records,
    each_unnumbered_list_keeps_the_last_whole, each_unnumbered_step_keeps_the_last_whole,
    no_item_changes_nothing, what_is_passed_is_told,
};
pub use passed::Passed;
pub use pubsub_model::{Break, Why};
pub use reader::Reader;
pub use took::{Numbering, Outcome, Took};
