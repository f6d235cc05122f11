//! Lists of writes and watches, each on a thread of its own, beside a job.
//!
//! `Crew::new` takes all memory, and `Crew::run` runs the lists and leaves a `Done` for each: the versions of its writes, what its
//! looks counted, and the passes with all that it has seen. Where passes are joined that have seen what each `Done` has seen, and
//! each thread's quota of a data set is its number of writes, the history is that of the lists, in the order of the versions.
#![tactic(auto)]

mod crew;
mod done;
mod hand;
mod item;
mod laws;
mod opening;
mod running;
mod series;

pub use crew::Crew;
pub use done::{Done, Looked};
pub use item::Item;
pub use laws::{
    closed_histories_are_legal, joined_passes_show_every_write, looks_never_fall, new_hands_can_run,
};
pub use series::Series;
