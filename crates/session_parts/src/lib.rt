//! What a session and a gateway are made of: the groups of writers with their senders and sends, the read groups with their
//! tallies, and receives; and the round in which both go with them. Each keeps to the definition *Session run* of any past.
#![tactic(auto)]

mod making;
mod publisher;
mod receiving;
mod renewing;
mod round;
mod sends;
mod showing;
mod subscriber;
mod tally;

pub use making::sender_of;
pub use publisher::{Publisher, Told, group_part, turn_open, turn_secured};
pub use receiving::Receiving;
pub use round::Round;
pub use sends::{GroupSends, LinkSends};
pub use showing::link_end;
pub use subscriber::{Subscriber, read_group_part};
pub use tally::Tally;
