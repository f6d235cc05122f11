//! Keys that roll over, and rings that are renewed.
use crate::fault::Fault;
use arrayvec::ArrayVec;
use group_keys::{KeySet, Ring};

/// How long a key is used, in milliseconds: 100 turns.
const LIFETIME: u64 = 1_000;

/// How many keys a ring has.
const KEYS: u32 = 8;

/// The ring of this moment, in milliseconds: the keys of the token that is used then, and of the seven tokens behind it. Token 1 is
/// used from moment 0, and each further one a lifetime later than the one before.
pub fn ring_at(moment: u64) -> Result<Ring, Fault> {
    let past = u32::try_from(moment / LIFETIME).unwrap_or(u32::MAX);
    let mut sets = ArrayVec::new();
    for index in 0..KEYS {
        let token = past.saturating_add(index).saturating_add(1);
        let from = if index == 0 { 0 } else { begin_of(token) };
        if sets.try_push(key_set(token, from)).is_err() {
            return Err(Fault::Unlike);
        }
    }
    match Ring::new(false, sets) {
        Ok(ring) => Ok(ring),
        Err(_) => Err(Fault::Unlike),
    }
}

/// When the token begins to be used, in milliseconds.
fn begin_of(token: u32) -> u64 {
    u64::from(token).saturating_sub(1).saturating_mul(LIFETIME)
}

/// The keys of a token: its four bytes stand in each of them.
fn key_set(token: u32, from: u64) -> KeySet {
    let nonce = token.to_le_bytes();
    let mut signing = [0x5a; 32];
    signing[..4].copy_from_slice(&nonce);
    let mut encrypting = ArrayVec::new();
    let _ = encrypting.try_extend_from_slice(&signing[..16]);
    KeySet {
        token,
        from,
        signing,
        encrypting,
        nonce,
    }
}
