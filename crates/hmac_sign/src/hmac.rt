ghost use Rattle.std.specs.Prelude.{◌≡◌, ◌≤◌, ◌++◌, ◌↔◌, ℕ, List, IsTrue, bit_or, bit_xor, fold, length, replicate};
ghost use Rattle.std.specs.List.{zip};
ghost use Rattle.sha2.specs.Hashers.{Holds256};
ghost use Rattle.sha2.specs.Sha256.{sha256};
ghost use Rattle.hmac_sign.specs.Hmac.{block_length, hmac_sha256, ipad, opad, key_block, padded, xor_bytes};

use sha2::{Digest, Sha256};
use std::marker::Model;

const BLOCK_LENGTH: usize = 64;

const INNER_PAD: u8 = 0x36;

const OUTER_PAD: u8 = 0x5c;

/// The HMAC-SHA-256 of `text` under `key` (RFC 2104). A key longer than a block of 64 bytes is
/// hashed first, as the RFC says.
pub fn sign(key: &[u8], text: &[u8]) -> [u8; 32]
    ensures { result ≡ hmac_sha256 key.now text.now }
{
    finish(inner_hasher(key), outer_hasher(key), text)
}

/// Whether `signature` is the HMAC-SHA-256 of `bytes` under `key` (RFC 2104). All 32 bytes are
/// compared, whatever they are. Nothing is claimed about the time taken.
pub fn matches(key: &[u8], bytes: &[u8], signature: &[u8; 32]) -> bool
    ensures { IsTrue result ↔ (signature.now ≡ hmac_sha256 key.now bytes.now) }
{
    is_same(signature, &sign(key, bytes))
}

/// A key of 32 bytes with both pads hashed already, so that a signature hashes the text and the
/// inner hash alone (RFC 2104, section 4). A contract sees the key's bytes.
#[derive(Drop)]
pub struct SigningKey {
    key: [u8; 32],
    inner: Sha256,
    outer: Sha256,
}

impl Model for SigningKey {
    ghost Value = { List ℕ };

    ghost view = { λ a. a.key };

    ghost invariant = { λ a. Holds256 a.inner (xor_bytes (key_block a.key) ipad)
        × Holds256 a.outer (xor_bytes (key_block a.key) opad) };
}

impl SigningKey {
    /// The key of these bytes.
    pub fn new(key: &[u8; 32]) -> SigningKey
        ensures { result ≡ key.now }
    {
        SigningKey {
            key: *key,
            inner: inner_hasher(key),
            outer: outer_hasher(key),
        }
    }

    /// Whether it is the key of these bytes. All 32 bytes are compared, whatever they are.
    pub fn is_of(&self, key: &[u8; 32]) -> bool
        ensures { IsTrue result ↔ (self.now ≡ key.now) }
    {
        is_same(&self.key, key)
    }

    /// The HMAC-SHA-256 of `bytes`, as `sign` gives it.
    pub fn sign(&self, bytes: &[u8]) -> [u8; 32]
        ensures { result ≡ hmac_sha256 self.now bytes.now }
    {
        finish(copy_of(&self.inner), copy_of(&self.outer), bytes)
    }

    /// Whether `signature` is the HMAC-SHA-256 of `bytes`, as `matches` says it.
    pub fn matches(&self, bytes: &[u8], signature: &[u8; 32]) -> bool
        ensures { IsTrue result ↔ (signature.now ≡ hmac_sha256 self.now bytes.now) }
    {
        is_same(signature, &self.sign(bytes))
    }
}

// The hash that goes on from both pads.
fn finish(mut inner: Sha256, mut outer: Sha256, text: &[u8]) -> [u8; 32]
    ensures { (i o : List ℕ) → Holds256 inner i → Holds256 outer o
        → result ≡ sha256 (o ++ sha256 (i ++ text.now)) }
{
    inner.update(text);
    outer.update(&inner.finalize());
    outer.finalize()
}

// A hasher of the key's block with the inner pad.
fn inner_hasher(key: &[u8]) -> Sha256
    ensures { Holds256 result (xor_bytes (key_block key.now) ipad) }
{
    Sha256::new_with_prefix(&with_pad(&key_block(key), INNER_PAD))
}

// A hasher of the key's block with the outer pad.
fn outer_hasher(key: &[u8]) -> Sha256
    ensures { Holds256 result (xor_bytes (key_block key.now) opad) }
{
    Sha256::new_with_prefix(&with_pad(&key_block(key), OUTER_PAD))
}

fn copy_of(hasher: &Sha256) -> Sha256
    ensures { result ≡ hasher.now }
{
    match hasher.clone() {
        Ok(copy) => copy,
        Err(_) => unreachable!(),
    }
}

#[tactic(auto, unfolding(crate::specs::Hmac::key_block))]
fn key_block(key: &[u8]) -> [u8; BLOCK_LENGTH]
    ensures { result ≡ key_block key.now }
{
    if key.len() <= BLOCK_LENGTH {
        padded(key)
    } else {
        padded(&Sha256::digest(key))
    }
}

// The key, and zeros up to a block.
fn padded(key: &[u8]) -> [u8; BLOCK_LENGTH]
    requires { length key.now ≤ block_length }
    ensures { result ≡ padded key.now }
{
    let mut block = [0; BLOCK_LENGTH];
    block[..key.len()].copy_from_slice(key);
    block
}

// Each byte of the block XOR the pad's byte.
fn with_pad(block: &[u8; BLOCK_LENGTH], pad: u8) -> [u8; BLOCK_LENGTH]
    ensures { result ≡ xor_bytes block.now (replicate block_length pad) }
{
    let mut mixed = *block;
    for byte in &mut mixed {
        *byte ^= pad;
    }
    mixed
}

fn is_same(left: &[u8; 32], right: &[u8; 32]) -> bool
    ensures { IsTrue result ↔ (left.now ≡ right.now) }
{
    differing_bits(left, right) == 0
}

// The bits in which the bytes of the two differ, joined. Every byte is read, whatever the others are.
fn differing_bits(left: &[u8; 32], right: &[u8; 32]) -> u8
    ensures { result ≡ fold (λ bits pair. bit_or bits (bit_xor pair.0 pair.1)) 0
        (zip left.now right.now) }
{
    left.iter()
        .zip(right)
        .fold(0, |bits, (l, r)| bits | (l ^ r))
}
