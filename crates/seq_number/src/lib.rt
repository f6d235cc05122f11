//! Message numbers of 16 bits: which of two is newer, and the count that they are taken from.
#![tactic(auto)]

mod laws;
mod number;

pub use laws::{
    near_places_are_newer, numbers_give_places, places_give_numbers, silent_number_is_before,
    steps_are_newer,
};
pub use number::{Count, newer};
