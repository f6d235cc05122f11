//! The keys of a security group: key sets by token and moment, and the ring that holds them.
#![tactic(auto)]

mod in_memory;
mod key_set;
mod laws;
mod ring;

pub use key_set::KeySet;
pub use laws::{a_set_is_found_by_its_token, tokens_rise_with_moments};
pub use ring::{Ring, RingFault};
