//! Rings of the keys of any tokens.
ghost use Rattle.std.specs.Prelude.{◌≡◌, IfOk, false};
ghost use Rattle.group_keys.specs.Ring.{is_long};

use arrayvec::ArrayVec;
use group_keys::{KeySet, Ring};
use std::test::Fail;

/// The ring of these tokens, each with the moment from which it is used.
pub(crate) fn ring_with(tokens: &[(u32, u64)]) -> Result<Ring, Fail>
    ensures { IfOk result (λ ring. is_long ring ≡ false) }
{
    let mut sets = ArrayVec::new();
    for (token, from) in tokens {
        if sets.try_push(key_set(*token, *from)).is_err() {
            return Err("too many keys".into());
        }
    }
    match Ring::new(false, sets) {
        Ok(ring) => Ok(ring),
        Err(_) => Err("no ring".into()),
    }
}

/// The keys of a token: its four bytes begin each of them, and 5a follows.
fn key_set(token: u32, from: u64) -> KeySet {
    let nonce = token.to_le_bytes();
    let mut signing = [0x5a; 32];
    signing[..4].copy_from_slice(&nonce);
    let mut encrypting = ArrayVec::new();
    let _ = encrypting.try_extend_from_slice(&signing[..16]);
    KeySet {
        token,
        from,
        signing,
        encrypting,
        nonce,
    }
}
