//! The fields in which two rows of a data set differ, and rows with such changes laid in.
#![tactic(auto)]

mod changes;
mod copying;
mod laws;
mod passing;

pub use changes::{apply, changed, is_changed, mark_changes};
pub use copying::{clear_front, copy_front, covering, wider};
pub use laws::changes_give_the_new_row;
