//! The two sides of a device, each with the configuration that it was opened with: a publisher that holds a row of each data set,
//! and a subscriber. They are what a program has that owns its sockets, its clock and its threads itself, and needs no session.
#![tactic(auto)]

mod asked;
mod due;
mod fingerprint;
mod laws;
mod listening;
mod looking;
mod making;
mod publisher;
mod restoring;
mod rows;
mod side;
mod sides;
mod store;
mod storing;
mod subscriber;
mod takings;
mod words;

pub use asked::{Next, NoValue};
pub use laws::{
    a_restored_life_gives_no_number_again, a_token_and_number_is_given_once,
    each_datagram_of_a_turn_is_given_its_number, no_sender_falls_back,
    what_is_saved_may_be_in_store,
};
pub use listening::Listening;
pub use publisher::Publisher;
pub use restoring::RestoreEnd;
pub use side::Side;
pub use store::{Saved, Store};
pub use subscriber::{MOST_BYTES, Subscriber};
pub use takings::Takings;
