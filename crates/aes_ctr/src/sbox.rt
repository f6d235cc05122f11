// The S-box on planes.
ghost use Rattle.std.specs.Prelude.{◌≡◌, ℕ, ◌<◌};
ghost use Rattle.aes_ctr.specs.Cipher.{sub_bytes, sub_word};
ghost use Rattle.aes_ctr.specs.Circuit.{spread_planes, norm_planes, invert_planes, multiply_planes, join_planes};
ghost use Rattle.aes_ctr.specs.InPlanes.{IsPlanes, block_in};

use crate::planes::{Planes, from_planes, to_planes};
use std::simd::prelude::*;

/// The S-box on each byte, by the circuit of Boyar and Peralta: x are the bits of the byte, and s
/// those of the result, the highest first. The gates stand in the order in which they wait for one
/// another. No bit chooses a path or a place in memory.
#[inline(always)]
pub fn sub_bytes(q: Planes) -> Planes
    requires { IsPlanes q }
    ensures full { IsPlanes result }
    ensures blocks { (j : ℕ) → j < 8 → block_in result j ≡ sub_bytes (block_in q j) }
{
    let y = spread(q);
    join(multiply(y, invert(norm(y))))
}

/// The S-box on each byte of a word, by the circuit.
pub fn sub_word(w: &[u8; 4]) -> [u8; 4]
    ensures { result ≡ sub_word w.now }
{
    let v = u8x16::from_array([w[0], w[1], w[2], w[3], 0, 0, 0, 0, 0, 0, 0, 0, 0, 0, 0, 0]);
    let all = from_planes(sub_bytes(to_planes([v; 8])));
    let bytes = all[0].to_array();
    [bytes[0], bytes[1], bytes[2], bytes[3]]
}

// The sums y1 to y21 of the byte's bits, behind its lowest bit.
#[inline(always)]
#[tactic(auto, unfolding(crate::specs::Circuit::spread_planes))]
fn spread(q: Planes) -> [u8x16; 22]
    ensures { result ≡ spread_planes q }
{
    let [x7, x6, x5, x4, x3, x2, x1, x0] = q;
    let t0 = x1 ^ x2;
    let y13 = x0 ^ x6;
    let y14 = x3 ^ x5;
    let y9 = x0 ^ x3;
    let y8 = x0 ^ x5;
    let y12 = y13 ^ y14;
    let y1 = t0 ^ x7;
    let t1 = x4 ^ y12;
    let y2 = y1 ^ x0;
    let y4 = y1 ^ x3;
    let y5 = y1 ^ x6;
    let y15 = t1 ^ x5;
    let y20 = t1 ^ x1;
    let y3 = y5 ^ y8;
    let y10 = y15 ^ t0;
    let y11 = y20 ^ y9;
    let y6 = y15 ^ x7;
    let y7 = x7 ^ y11;
    let y16 = t0 ^ y11;
    let y17 = y10 ^ y11;
    let y19 = y10 ^ y8;
    let y21 = y13 ^ y16;
    let y18 = x0 ^ y16;
    [
        x7, y1, y2, y3, y4, y5, y6, y7, y8, y9, y10, y11, y12, y13, y14, y15, y16, y17, y18, y19,
        y20, y21,
    ]
}

// The element of the field of 16 that is to be inverted.
#[inline(always)]
#[tactic(auto, unfolding(crate::specs::Circuit::norm_planes))]
fn norm(y: [u8x16; 22]) -> [u8x16; 4]
    ensures { result ≡ norm_planes y }
{
    let t2 = y[12] & y[15];
    let t5 = y[4] & y[0];
    let t8 = y[5] & y[1];
    let t15 = y[8] & y[10];
    let t12 = y[9] & y[11];
    let t3 = y[3] & y[6];
    let t10 = y[2] & y[7];
    let t7 = y[13] & y[16];
    let t13 = y[14] & y[17];
    let t6 = t5 ^ t2;
    let t16 = t15 ^ t12;
    let t4 = t3 ^ t2;
    let t11 = t10 ^ t7;
    let t9 = t8 ^ t7;
    let t14 = t13 ^ t12;
    let t18 = t6 ^ t16;
    let t20 = t11 ^ t16;
    let t19 = t9 ^ t14;
    let t17 = t4 ^ t14;
    [t17 ^ y[20], t18 ^ y[19], t19 ^ y[21], t20 ^ y[18]]
}

// Its inverse, and the sums of the inverse's bits.
#[inline(always)]
#[tactic(auto, unfolding(crate::specs::Circuit::invert_planes))]
fn invert(element: [u8x16; 4]) -> [u8x16; 9]
    ensures { result ≡ invert_planes element }
{
    let [t21, t22, t23, t24] = element;
    let t26 = t21 & t23;
    let t25 = t21 ^ t22;
    let t30 = t23 ^ t24;
    let t31 = t22 ^ t26;
    let t27 = t24 ^ t26;
    let t32 = t31 & t30;
    let t28 = t25 & t27;
    let t33 = t32 ^ t24;
    let t29 = t28 ^ t22;
    let t35 = t27 ^ t33;
    let t34 = t23 ^ t33;
    let t42 = t29 ^ t33;
    let t36 = t24 & t35;
    let t37 = t36 ^ t34;
    let t38 = t27 ^ t36;
    let t39 = t29 & t38;
    let t44 = t33 ^ t37;
    let t40 = t25 ^ t39;
    let t41 = t40 ^ t37;
    let t43 = t29 ^ t40;
    let t45 = t42 ^ t41;
    [t29, t33, t37, t40, t41, t42, t43, t44, t45]
}

// The products of the inverse's bits and the byte's, or sums of two.
#[inline(always)]
#[tactic(auto, unfolding(crate::specs::Circuit::multiply_planes))]
fn multiply(y: [u8x16; 22], inverse: [u8x16; 9]) -> [u8x16; 15]
    ensures { result ≡ multiply_planes y inverse }
{
    let [t29, t33, t37, t40, t41, t42, t43, t44, t45] = inverse;
    let z2 = t33 & y[0];
    let z14 = t29 & y[2];
    let z11 = t33 & y[4];
    let z5 = t29 & y[7];
    let z15 = t42 & y[9];
    let z6 = t42 & y[11];
    let t51 = z2 ^ z5;
    let z10 = t37 & y[3];
    let z1 = t37 & y[6];
    let z0 = t44 & y[15];
    let t47 = z10 ^ z11;
    let z9 = t44 & y[12];
    let z13 = t40 & y[5];
    let z4 = t40 & y[1];
    let t49 = z9 ^ z10;
    let z3 = t43 & y[16];
    let z12 = t43 & y[13];
    let t48 = z5 ^ z13;
    let z8 = t41 & y[10];
    let t53 = z0 ^ z3;
    let z7 = t45 & y[17];
    let z16 = t45 & y[14];
    let t50 = z2 ^ z12;
    let z17 = t41 & y[8];
    let t46 = z15 ^ z16;
    let t52 = z7 ^ z8;
    let t54 = z6 ^ z7;
    let t55 = z16 ^ z17;
    [
        z1, z3, z4, z12, z14, t46, t47, t48, t49, t50, t51, t52, t53, t54, t55,
    ]
}

// The affine map of the inverse byte.
#[inline(always)]
#[tactic(auto, unfolding(crate::specs::Circuit::join_planes))]
fn join(products: [u8x16; 15]) -> Planes
    ensures { result ≡ join_planes products }
{
    let [z1, z3, z4, z12, z14, t46, t47, t48, t49, ..] = products;
    let [.., t50, t51, t52, t53, t54, t55] = products;
    let ones = u8x16::splat(0xff);
    let t56 = z12 ^ t48;
    let t57 = t50 ^ t53;
    let t58 = z4 ^ t46;
    let t59 = z3 ^ t54;
    let t61 = z14 ^ t57;
    let t60 = t46 ^ t57;
    let t63 = t49 ^ t58;
    let t64 = z4 ^ t59;
    let t62 = t52 ^ t58;
    let s7 = t48 ^ t60;
    let t66 = z1 ^ t63;
    let t65 = t61 ^ t62;
    let s6 = t56 ^ t62;
    let s0 = t59 ^ t63;
    let s3 = t53 ^ t66;
    let t67 = t64 ^ t65;
    let s5 = t47 ^ t65;
    let s4 = t51 ^ t66;
    let s1 = t64 ^ s3;
    let s2 = t55 ^ t67;
    [s7 ^ ones, s6 ^ ones, s5, s4, s3, s2 ^ ones, s1 ^ ones, s0]
}
