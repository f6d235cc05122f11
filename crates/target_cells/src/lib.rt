//! One cell for each reader, into which one keeper stores the rows that the reader holds, and which any thread may look at.
#![tactic(auto)]

mod keeper;
mod laws;
mod making;
mod origin;
mod storing;
mod targets;

pub use keeper::Keeper;
pub use laws::keepers_are_sole_authors;
pub use origin::Origin;
pub use targets::Targets;
