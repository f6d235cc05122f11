// Eight blocks in bit planes, and what AES does to all of them at once.
ghost use Rattle.std.specs.Prelude.{◌≡◌, ℕ, ◌+◌, ◌%◌, ◌<◌, [], slice_index, slice_index_or};
ghost use Rattle.aes_ctr.specs.Cipher.{add_states, mix_columns, shift_rows};
ghost use Rattle.aes_ctr.specs.InPlanes.{AreLanes, IsLanes, IsPlanes, block_in, doubled_planes, exchanged, lane_in, moved, planes_of, sums, swapped, transposed, values};

use std::simd::prelude::*;

/// Bit j of lane 4 r + c of plane p is bit p of the byte at row r and column c of block j.
pub type Planes = [u8x16; 8];

// The lanes of the state with row r moved r places to the left.
const SHIFTED: [usize; 16] = [0, 1, 2, 3, 5, 6, 7, 4, 10, 11, 8, 9, 15, 12, 13, 14];
// The lane one below in its column.
const ONE_DOWN: [usize; 16] = [4, 5, 6, 7, 8, 9, 10, 11, 12, 13, 14, 15, 0, 1, 2, 3];
// The lane two below in its column.
const TWO_DOWN: [usize; 16] = [8, 9, 10, 11, 12, 13, 14, 15, 0, 1, 2, 3, 4, 5, 6, 7];
// The lanes of the state with rows for columns.
const FLIPPED: [usize; 16] = [0, 4, 8, 12, 1, 5, 9, 13, 2, 6, 10, 14, 3, 7, 11, 15];

// The array of a value at each p from 0 to 7.
macro_rules! each_plane {
    ($p:ident => $value:expr) => {
        [
            { let $p = 0; $value },
            { let $p = 1; $value },
            { let $p = 2; $value },
            { let $p = 3; $value },
            { let $p = 4; $value },
            { let $p = 5; $value },
            { let $p = 6; $value },
            { let $p = 7; $value },
        ]
    };
}

pub(crate) use each_plane;

/// The sum of each block and its fellow.
#[inline(always)]
pub fn add(q: Planes, k: Planes) -> Planes
    requires left { IsPlanes q }
    requires right { IsPlanes k }
    ensures full { IsPlanes result }
    ensures blocks { (j : ℕ) → block_in result j ≡ add_states (block_in q j) (block_in k j) }
{
    sums(q, k)
}

/// Row r moves r places to the left (FIPS 197, 5.1.2).
#[inline(always)]
pub fn shift_rows(q: Planes) -> Planes
    requires { IsPlanes q }
    ensures full { IsPlanes result }
    ensures blocks { (j : ℕ) → block_in result j ≡ shift_rows (block_in q j) }
{
    each_plane!(p => q[p].swizzle(SHIFTED))
}

/// Each column times the matrix (FIPS 197, 5.1.3): 2 a + 3 b + c + d is b + (c + d) + 2 (a + b).
#[inline(always)]
pub fn mix_columns(q: Planes) -> Planes
    requires { IsPlanes q }
    ensures full { IsPlanes result }
    ensures blocks { (j : ℕ) → block_in result j ≡ mix_columns (block_in q j) }
{
    let below = one_down(q);
    let pairs = sums(q, below);
    sums(sums(below, two_down(pairs)), doubled(pairs))
}

#[inline(always)]
fn sums(q: Planes, k: Planes) -> Planes
    ensures { result ≡ sums q k }
{
    each_plane!(p => q[p] ^ k[p])
}

#[inline(always)]
fn one_down(q: Planes) -> Planes
    ensures { result ≡ moved (λ i. (i + 4) % 16) q }
{
    each_plane!(p => q[p].swizzle(ONE_DOWN))
}

#[inline(always)]
fn two_down(q: Planes) -> Planes
    ensures { result ≡ moved (λ i. (i + 8) % 16) q }
{
    each_plane!(p => q[p].swizzle(TWO_DOWN))
}

// The planes of each byte's product by x.
#[inline(always)]
fn doubled(q: Planes) -> Planes
    ensures { result ≡ doubled_planes q }
{
    let [a, b, c, d, e, f, g, h] = q;
    [h, a ^ h, b, c ^ h, d ^ h, e, f, g]
}

// Swaps the bits of a at the mask's places + by with those of b at the mask's places.
#[inline(always)]
fn swap(a: u8x16, b: u8x16, by: u8, mask: u8) -> (u8x16, u8x16)
    requires { by < 8 }
    ensures given { IsLanes a × IsLanes b }
    ensures first { result.0
        ≡ values (λ i. swapped by mask 0 (slice_index a i) (slice_index b i)) 0 16 }
    ensures second { result.1
        ≡ values (λ i. swapped by mask 1 (slice_index a i) (slice_index b i)) 0 16 }
{
    let places = u8x16::splat(by);
    let t = ((a >> places) ^ b) & u8x16::splat(mask);
    (a ^ (t << places), b ^ t)
}

// A third of the way between vectors and planes: the highest bit of a plane's number and the
// bit `by` of a bit's number change places.
#[inline(always)]
fn exchange(q: Planes, by: u8, mask: u8) -> Planes
    requires { by < 8 }
    ensures given { AreLanes q }
    ensures lanes { result ≡ planes_of (λ p i. exchanged by mask (λ k. lane_in q k i) p) }
{
    let (a, b) = swap(q[0], q[4], by, mask);
    let (c, d) = swap(q[1], q[5], by, mask);
    let (e, f) = swap(q[2], q[6], by, mask);
    let (g, h) = swap(q[3], q[7], by, mask);
    [a, b, c, d, e, f, g, h]
}

// Bit j of a lane of vector p becomes bit p of that lane of vector j.
#[inline(always)]
#[tactic(auto, unfolding(crate::specs::InPlanes::transposed))]
fn transpose(q: Planes) -> Planes
    ensures given { AreLanes q }
    ensures lanes { result ≡ planes_of (λ p i. transposed (λ k. lane_in q k i) p) }
{
    exchange(exchange(exchange(q, 4, 0x0f), 2, 0x33), 1, 0x55)
}

/// The planes of eight blocks, a vector each.
#[inline(always)]
pub fn to_planes(blocks: Planes) -> Planes
    requires { AreLanes blocks }
    ensures full { IsPlanes result }
    ensures blocks { (j : ℕ) → j < 8 → block_in result j ≡ slice_index_or blocks j [] }
{
    transpose(each_plane!(j => blocks[j].swizzle(FLIPPED)))
}

/// The eight blocks of planes, a vector each.
#[inline(always)]
pub fn from_planes(q: Planes) -> Planes
    ensures lanes { AreLanes result }
    ensures blocks { (j : ℕ) → j < 8 → slice_index_or result j [] ≡ block_in q j }
{
    let blocks = transpose(q);
    each_plane!(j => blocks[j].swizzle(FLIPPED))
}
