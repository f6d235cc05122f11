//! The state that bytes are laid out as.
ghost use Rattle.std.specs.Prelude.{◌≡◌, ◌≤◌, drop, length, take};
ghost use Rattle.stored_state.specs.States.{IsState, words_in};

use crate::state::StoredState;
use byteorder::{ByteOrder, LittleEndian};

/// What stands at the places of a state, whatever else does.
pub(crate) fn state_in(bytes: &[u8]) -> StoredState
    requires { length bytes.now ≡ 336 }
    ensures fingerprint { result.fingerprint ≡ take 32 (drop 8 bytes.now) }
    ensures words { result.words ≡ words_in 72 (drop 40 bytes.now) }
    ensures state { IsState result }
{
    let mut fingerprint = [0; 32];
    fingerprint.copy_from_slice(&bytes[8..40]);
    StoredState {
        fingerprint,
        words: words_in(&bytes[40..]),
    }
}

fn words_in(bytes: &[u8]) -> [u32; 72]
    requires { 288 ≤ length bytes.now }
    ensures { result ≡ words_in 72 bytes.now }
{
    let mut words = [0; 72];
    for i in 0..72 {
        words[i] = LittleEndian::read_u32(&bytes[4 * i..]);
    }
    words
}
