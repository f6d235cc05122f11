//! What a publisher stores so that it goes on after a restart, as bytes.
#![tactic(auto)]

mod laws;
mod reading;
mod state;
mod writing;

pub use laws::{damaged_bytes_are_told, written_states_are_read};
pub use state::{Damaged, FINGERPRINT_BYTES, STATE_BYTES, STATE_WORDS, StoredState};
