//! Key sets that C gives.
ghost use Rattle.std.specs.Prelude.{◌≡◌, ◌≤◌, IfErr, IfOk, length, take};
ghost use Rattle.group_keys.specs.KeySets.{encrypting_length};
ghost use Rattle.group_keys.specs.Ring.{is_long, key_sets};
ghost use Rattle.uapubsub_c.specs.Keys.{MakeNoRing, key_set_in, key_sets_in};

use crate::status::Status;
use arrayvec::ArrayVec;
use group_keys::{KeySet, Ring};
use ps_config::KeyBytes;

/// How many key sets a ring has at most.
const MOST_SETS: usize = 16;

/// The keys of one token, as C gives them (OPC 10000-14, PubSub-Aes128-CTR and PubSub-Aes256-CTR).
#[repr(C)]
pub struct KeySetWords {
    /// The SecurityTokenId.
    pub token: u32,
    /// The first four bytes of each counter block.
    pub nonce: [u8; 4],
    /// The moment from which the keys are used, in milliseconds.
    pub from: u64,
    /// The key of HMAC-SHA-256.
    pub signing: [u8; 32],
    /// The key of AES-128, which is the first 16 bytes, or of AES-256.
    pub encrypting: [u8; 32],
}

/// The ring of these sets, or why they make none. A long ring has keys of AES-256.
pub fn ring_of_words(long: bool, sets: &[KeySetWords]) -> Result<Ring, Status>
    ensures sets { IfOk result (λ ring. key_sets ring ≡ key_sets_in long sets.now) }
    ensures long { IfOk result (λ ring. is_long ring ≡ long) }
    ensures none { IfErr result (MakeNoRing long sets.now) }
{
    if sets.len() > MOST_SETS {
        return Err(Status::ManyKeys);
    }
    match Ring::new(long, key_sets_of(long, sets)) {
        Ok(ring) => Ok(ring),
        Err(_) => Err(Status::NoRing),
    }
}

fn key_sets_of(long: bool, words: &[KeySetWords]) -> ArrayVec<KeySet, 16>
    requires { length words.now ≤ MOST_SETS }
    ensures { result.items ≡ key_sets_in long words.now }
{
    let mut sets = ArrayVec::new();
    for set in words {
        sets.push(key_set_of(long, set));
    }
    sets
}

fn key_set_of(long: bool, words: &KeySetWords) -> KeySet
    ensures { result ≡ key_set_in long words.now }
{
    KeySet {
        token: words.token,
        from: words.from,
        signing: words.signing,
        encrypting: encrypting_of(long, words),
        nonce: words.nonce,
    }
}

/// The encrypting key: all bytes of a long one, else the first 16.
fn encrypting_of(long: bool, words: &KeySetWords) -> ArrayVec<u8, 32>
    ensures { result.items ≡ take (encrypting_length long) words.now.encrypting }
{
    let count = encrypting_length(long);
    KeyBytes::new(&words.encrypting[..count]).to_array()
}

/// How many bytes an encrypting key has.
fn encrypting_length(long: bool) -> usize
    ensures length { result ≡ encrypting_length long }
    ensures most { result ≤ 32 }
{
    if long { 32 } else { 16 }
}
