//! A cell that threads write and read at once: words under a rule, by which one history comes of all writes, and each pass has
//! seen a beginning of it. The rule speaks of 151 words. A cell keeps the first 34, 58 or 106 of them, or all, by how many words
//! a row of its meta needs; behind those all are 0.
//!
//! A thread has a pass, with a number of its own from 0 to 7. `Cell::try_write` lays a patch into the last row that the pass has
//! seen and exchanges the words of the cell, once. Where another thread was there before, the pass learns that thread's row, and
//! nothing is written. Where the exchange wins, the entry is the next of the history, and its version is its place there. So each
//! version has one author and one row, which is the row before it with the author's patch.
//!
//! Where number 0 is the only author, it has seen every entry: `Cell::store` puts a whole row in place and compares nothing.
#![tactic(auto)]

mod cell;
mod cut;
mod laws;
mod making;
mod pass;
mod passes;
mod places;
mod rule;
mod sets;
mod spelling;
mod steps;
mod storing;
mod strip;

pub use cell::{Cell, Placed, Wrote};
pub use laws::{
    full_authors_make_no_entry, histories_are_the_models, histories_go_on,
    new_passes_are_of_their_cells, own_entries_are_those_made, passes_see_on,
    quotas_bound_the_version, sole_authors_see_nothing_new, spellings_have_equal_parts,
    steps_keep_the_rule,
};
pub use pass::Pass;
pub use passes::Passes;
pub use rule::{Entry, View};
pub use sets::{join_each, split_each};
