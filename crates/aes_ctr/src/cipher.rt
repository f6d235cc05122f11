// The rounds, on eight blocks at once.
ghost use Rattle.std.specs.Prelude.{◌≡◌, ℕ, ◌+◌, ◌-◌, ◌*◌, ◌<◌, ◌≤◌, List, [], length, slice_index_or};
ghost use Rattle.aes_ctr.specs.Cipher.{cipher, round_key};
ghost use Rattle.aes_ctr.specs.InPlanes.{AreLanes, IsLanes, IsPlanes, block_in};
ghost use Rattle.aes_ctr.specs.RoundKeys.{planes_at, AreFull, AreRoundKeys};

use crate::planes::{Planes, add, each_plane, from_planes, mix_columns, shift_rows, to_planes};
use crate::sbox::sub_bytes;
use std::simd::prelude::*;

/// The planes of eight blocks that are each the same round key.
#[derive(Clone, Copy)]
pub struct RoundKey {
    planes: [[u8; 16]; 8],
}

impl RoundKey {
    /// No key yet.
    pub const EMPTY: RoundKey = RoundKey {
        planes: [[0; 16]; 8],
    };

    fn new(key: &[u8; 16]) -> RoundKey
        ensures full { IsPlanes result.planes }
        ensures blocks { (j : ℕ) → j < 8 → block_in result.planes j ≡ key.now }
    {
        let q = to_planes([u8x16::from_array(*key); 8]);
        let planes = each_plane!(p => q[p].to_array());
        RoundKey { planes }
    }

    #[inline(always)]
    #[tactic(auto, unfolding(crate::specs::InPlanes::byte_of))]
    fn planes(&self) -> Planes
        requires { IsPlanes self.now.planes }
        ensures full { IsPlanes result }
        ensures blocks { (j : ℕ) → block_in result j ≡ block_in self.now.planes j }
    {
        each_plane!(p => u8x16::from_array(self.planes[p]))
    }
}

/// Round key `r` of the words.
#[tactic(auto, unfolding(crate::specs::Cipher::round_key))]
pub fn round_key(words: &[[u8; 4]], r: usize) -> [u8; 16]
    requires { 4 * r + 4 ≤ length words.now }
    ensures { result ≡ round_key words.now r }
{
    let a = words[4 * r];
    let b = words[4 * r + 1];
    let c = words[4 * r + 2];
    let d = words[4 * r + 3];
    [
        a[0], a[1], a[2], a[3], b[0], b[1], b[2], b[3], c[0], c[1], c[2], c[3], d[0], d[1], d[2],
        d[3],
    ]
}

/// The round keys of the words, as many as there is room for.
pub fn fill_round_keys(words: &[[u8; 4]], keys: &mut [RoundKey])
    requires room { 4 * length keys.old ≤ length words.now }
    ensures { AreRoundKeys keys.new words.now (length keys.old) }
{
    'each: for r in 0..keys.len() {
        keys[r] = RoundKey::new(&round_key(words, r));
    }
}

/// The eight blocks, a vector each, after a round for each of these keys but the first
/// (FIPS 197, 5.1).
pub fn encrypt_eight(keys: &[RoundKey], blocks: Planes) -> Planes
    requires ends { 2 ≤ length keys.now }
    requires keys { AreFull keys.now }
    requires lanes { AreLanes blocks }
    ensures lanes { AreLanes result }
    ensures blocks { (ws : List (List ℕ)) → AreRoundKeys keys.now ws (length keys.now) → (j : ℕ)
        → j < 8 → slice_index_or result j [] ≡ cipher (length keys.now - 2) ws
        (slice_index_or blocks j []) }
{
    let last = keys.len() - 1;
    let mut s = add(to_planes(blocks), keys[0].planes());
    'rounds: for r in 1..last {
        s = add(mix_columns(sub_bytes(shift_rows(s))), keys[r].planes());
    }
    from_planes(add(sub_bytes(shift_rows(s)), keys[last].planes()))
}
