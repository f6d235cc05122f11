//! HMAC-SHA-256, the signature of a secured NetworkMessage (RFC 2104 over FIPS 180-4).
#![tactic(auto)]

mod hmac;
mod laws;

pub use hmac::{SigningKey, matches, sign};
pub use laws::a_signature_has_32_bytes;
