//! The window of message numbers that refuses each number a second time (OPC 10000-14 7.2.4.4, MessageNonce of AES-CTR).
#![tactic(auto)]

mod bits;
mod laws;
mod seen;
mod window;

pub use laws::{
    fresh_numbers_are_new_and_recent, fresh_numbers_are_taken_once,
    taken_numbers_are_never_fresh_again,
};
pub use seen::Seen;
pub use window::Window;
