//! Writer groups on threads of their own (OPC 10000-14 6.2.6, WriterGroup). The groups of a key group run on one thread and share
//! its sender. Each group that isn't secured has a thread of its own. One thread sends what they make.
#![tactic(auto)]

mod lane;
mod laws;
mod making;
mod place;
mod running;
mod turn;

pub use lane::Lane;
pub use laws::turns_are_ticks_of_a_session;
pub use making::lanes_of;
pub use running::{Ran, run_lanes};
pub use turn::TurnIn;
