//! AES-128 and AES-256 in counter mode (FIPS 197, NIST SP 800-38A 6.5).
#![tactic(auto)]

mod cipher;
mod expand;
mod keys;
mod laws;
mod planes;
mod sbox;
mod stream;

pub use keys::{Key128, Key256};
pub use laws::{inverses, stream_undoes_itself};
pub use stream::{Key, apply_stream};
