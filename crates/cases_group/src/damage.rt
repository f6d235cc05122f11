//! Random and damaged datagrams.
use crate::shown::copied;
use case_lines::{LineFault, Numbers};
use std::alloc::Global;

/// One time in four random bytes, else one of the datagrams, damaged at most twice.
pub fn damaged(
    alloc: Global,
    numbers: &mut Numbers,
    made: &[Vec<u8>],
) -> Result<Vec<u8>, LineFault> {
    let is_random = numbers.below(4) == 0;
    if is_random || made.is_empty() {
        return Ok(numbers.bytes(alloc, 63)?);
    }
    let index = numbers.below(made.len() as u64) as usize;
    let mut bytes = copied(alloc, &made[index])?;
    for _ in 0..numbers.below(3) {
        damage(numbers, &mut bytes);
    }
    Ok(bytes)
}

/// A bit is altered, or a byte, or the end is cut off.
fn damage(numbers: &mut Numbers, bytes: &mut Vec<u8>) {
    let length = bytes.len() as u64;
    if length == 0 {
        return;
    }
    match numbers.below(3) {
        0 => {
            let bit = numbers.below(8);
            let at = numbers.below(length) as usize;
            bytes[at] ^= 1 << bit;
        }
        1 => {
            let at = numbers.below(length) as usize;
            bytes[at] = numbers.byte();
        }
        _ => bytes.truncate(numbers.below(length + 1) as usize),
    }
}
