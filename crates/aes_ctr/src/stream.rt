// Counter mode.
ghost use Rattle.std.specs.Prelude.{◌*◌, ◌/◌, ◌%◌, ◌^◌, List, [], slice_index_or, ◌≡◌, ℕ, ◌+◌, ◌-◌, ◌<◌, ◌≤◌, ◌++◌, length, bit_xor, slice_index};
ghost use Rattle.std.specs.Int.{w32, to_be_bytes};
ghost use Rattle.aes_ctr.specs.Blocks.{stream_byte, streamed};
ghost use Rattle.aes_ctr.specs.InPlanes.{AreLanes, IsLanes};
ghost use Rattle.aes_ctr.specs.Keyed.{encrypted};

use crate::keys::{Key128, Key256};
use crate::planes::{Planes, each_plane};
use std::simd::prelude::*;

/// A key of either length.
#[derive(Drop)]
pub enum Key {
    /// AES-128.
    Short(Key128),
    /// AES-256.
    Long(Key256),
}

impl Key {
    // Eight blocks under the key.
    fn encrypt_eight(&self, blocks: Planes) -> Planes
        requires { AreLanes blocks }
        ensures lanes { AreLanes result }
        ensures blocks { (j : ℕ) → j < 8
            → slice_index_or result j [] ≡ encrypted self.now (slice_index_or blocks j []) }
    {
        match self {
            Key::Short(key) => key.encrypt_eight(blocks),
            Key::Long(key) => key.encrypt_eight(blocks),
        }
    }
}

// The front and the big-endian counter.
#[inline(always)]
fn counter_block(front: &[u8; 12], counter: u32) -> u8x16
    requires { (i : ℕ) → slice_index front.now i < 256 }
    ensures lanes { IsLanes result }
    ensures block { result ≡ front.now ++ to_be_bytes w32 counter }
{
    let start = u8x16::from_array([
        front[0], front[1], front[2], front[3], front[4], front[5], front[6], front[7], front[8],
        front[9], front[10], front[11], 0, 0, 0, 0,
    ]);
    let end = u32x4::splat(counter).to_le_bytes();
    start.shuffle(end, [0, 1, 2, 3, 4, 5, 6, 7, 8, 9, 10, 11, 19, 18, 17, 16])
}

// Eight blocks from the counter on.
fn counter_blocks(front: &[u8; 12], counter: u32) -> Planes
    ensures lanes { AreLanes result }
    ensures blocks { (j : ℕ) → j < 8
        → slice_index_or result j [] ≡ front.now ++ to_be_bytes w32 ((counter + j) % 2 ^ 32) }
{
    each_plane!(j => counter_block(front, counter.wrapping_add(j)))
}

// Adds a block to the 16 bytes from start on, as far as there are bytes.
#[inline(always)]
fn add_pad(pad: u8x16, start: usize, bytes: &mut [u8])
    requires lanes { IsLanes pad }
    requires order { start ≤ length bytes.old }
    ensures inside { (k : ℕ) → start ≤ k → k < start + 16 → k < length bytes.old
        → slice_index bytes.new k ≡ bit_xor (slice_index bytes.old k)
        (slice_index pad (k - start)) }
    ensures below { (k : ℕ) → k < start → slice_index bytes.new k ≡ slice_index bytes.old k }
    ensures above { (k : ℕ) → start + 16 ≤ k → slice_index bytes.new k ≡ slice_index bytes.old k }
{
    let block = pad.to_array();
    if 16 <= bytes.len() - start {
        'whole: for i in 0..16 {
            bytes[start + i] ^= block[i];
        }
    } else {
        'part: for i in start..bytes.len() {
            bytes[i] ^= block[i - start];
        }
    }
}

// Adds eight blocks to the bytes from start on, as far as there are bytes.
fn add_pads(pads: &Planes, start: usize, bytes: &mut [u8])
    requires lanes { AreLanes pads.now }
    requires order { start ≤ length bytes.old }
    ensures length { length bytes.new ≡ length bytes.old }
    ensures inside { (k : ℕ) → start ≤ k → k < start + 128 → k < length bytes.old
        → slice_index bytes.new k ≡ bit_xor (slice_index bytes.old k)
        (slice_index (slice_index_or pads.now ((k - start) / 16) []) ((k - start) % 16)) }
    ensures below { (k : ℕ) → k < start → slice_index bytes.new k ≡ slice_index bytes.old k }
    ensures above { (k : ℕ) → start + 128 ≤ k → slice_index bytes.new k ≡ slice_index bytes.old k }
{
    'pads: for j in 0..8 {
        if 16 * j < bytes.len() - start {
            add_pad(pads[j], start + 16 * j, bytes);
        }
    }
}

/// Adds the key's stream to the bytes, in place: the same call encrypts and decrypts
/// (NIST SP 800-38A, 6.5). Block i of the stream is the front and the big-endian counter
/// `first_block + i`, modulo 2^32, under the key.
pub fn apply_stream(key: &Key, front: &[u8; 12], first_block: u32, bytes: &mut [u8])
    ensures length { length bytes.new ≡ length bytes.old }
    ensures each { (i : ℕ) → i < length bytes.old
        → slice_index bytes.new i ≡ bit_xor (slice_index bytes.old i)
        (stream_byte (encrypted key.now) front.now first_block i) }
    ensures whole { bytes.new ≡ streamed (encrypted key.now) front.now first_block bytes.old }
{
    'each: for c in 0..bytes.len().div_ceil(128) {
        let counter = first_block.wrapping_add((c % 0x2000_0000) as u32 * 8);
        let pads = key.encrypt_eight(counter_blocks(front, counter));
        add_pads(&pads, 128 * c, bytes);
    }
}
