// Keys of 16 and of 32 bytes.
ghost use Rattle.std.specs.Prelude.{◌≡◌, ◌↔◌, ◌<◌, ℕ, IsTrue, List, [], slice_index_or};
ghost use Rattle.aes_ctr.specs.Cipher.{aes128, aes256, expanded};
ghost use Rattle.aes_ctr.specs.InPlanes.{AreLanes, IsLanes};
ghost use Rattle.aes_ctr.specs.RoundKeys.{AreRoundKeys};

use crate::cipher::{RoundKey, encrypt_eight, fill_round_keys};
use crate::expand::expand;
use crate::planes::Planes;
use std::marker::Model;
use std::simd::prelude::*;

/// A key of 16 bytes (AES-128), expanded.
#[derive(Drop)]
pub struct Key128 {
    key: [u8; 16],
    round_keys: [RoundKey; 11],
}

impl Model for Key128 {
    ghost Value = { List ℕ };

    ghost view = { λ a. a.key };

    ghost invariant = { λ a. AreRoundKeys a.round_keys (expanded 4 a.key 40) 11 };
}

impl Key128 {
    /// The key of these bytes.
    pub fn new(key: &[u8; 16]) -> Key128
        ensures { result ≡ key.now }
    {
        let mut words = [[0; 4]; 44];
        expand(4, key, &mut words);
        let mut round_keys = [RoundKey::EMPTY; 11];
        fill_round_keys(&words, &mut round_keys);
        Key128 {
            key: *key,
            round_keys,
        }
    }

    /// Whether it is the key of these bytes.
    pub fn is_of(&self, key: &[u8]) -> bool
        ensures { IsTrue result ↔ (self.now ≡ key.now) }
    {
        self.key.as_slice() == key
    }

    /// The block under the key (FIPS 197, 5.1).
    pub fn encrypt_block(&self, block: &[u8; 16]) -> [u8; 16]
        ensures { result ≡ aes128 self.now block.now }
    {
        let all = self.encrypt_eight([u8x16::from_array(*block); 8]);
        all[0].to_array()
    }

    // Eight blocks under the key, a vector each.
    pub(crate) fn encrypt_eight(&self, blocks: Planes) -> Planes
        requires { AreLanes blocks }
        ensures lanes { AreLanes result }
        ensures blocks { (j : ℕ) → j < 8
            → slice_index_or result j [] ≡ aes128 self.now (slice_index_or blocks j []) }
    {
        encrypt_eight(&self.round_keys, blocks)
    }
}

/// A key of 32 bytes (AES-256), expanded.
#[derive(Drop)]
pub struct Key256 {
    key: [u8; 32],
    round_keys: [RoundKey; 15],
}

impl Model for Key256 {
    ghost Value = { List ℕ };

    ghost view = { λ a. a.key };

    ghost invariant = { λ a. AreRoundKeys a.round_keys (expanded 8 a.key 52) 15 };
}

impl Key256 {
    /// The key of these bytes.
    pub fn new(key: &[u8; 32]) -> Key256
        ensures { result ≡ key.now }
    {
        let mut words = [[0; 4]; 60];
        expand(8, key, &mut words);
        let mut round_keys = [RoundKey::EMPTY; 15];
        fill_round_keys(&words, &mut round_keys);
        Key256 {
            key: *key,
            round_keys,
        }
    }

    /// Whether it is the key of these bytes.
    pub fn is_of(&self, key: &[u8]) -> bool
        ensures { IsTrue result ↔ (self.now ≡ key.now) }
    {
        self.key.as_slice() == key
    }

    /// The block under the key (FIPS 197, 5.1).
    pub fn encrypt_block(&self, block: &[u8; 16]) -> [u8; 16]
        ensures { result ≡ aes256 self.now block.now }
    {
        let all = self.encrypt_eight([u8x16::from_array(*block); 8]);
        all[0].to_array()
    }

    // Eight blocks under the key, a vector each.
    pub(crate) fn encrypt_eight(&self, blocks: Planes) -> Planes
        requires { AreLanes blocks }
        ensures lanes { AreLanes result }
        ensures blocks { (j : ℕ) → j < 8
            → slice_index_or result j [] ≡ aes256 self.now (slice_index_or blocks j []) }
    {
        encrypt_eight(&self.round_keys, blocks)
    }
}
