//! What the programs example_publisher and example_subscriber have in common: their words, how they end, their configuration,
//! their clock and their link.
#![tactic(auto)]

mod calling;
mod ending;
mod linking;
mod reading;
mod stopwatch;

pub use calling::{Program, Words, words_of};
pub use ending::Fault;
pub use linking::link_to;
pub use reading::configuration;
pub use stopwatch::Stopwatch;
