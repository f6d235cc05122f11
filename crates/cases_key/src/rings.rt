//! Rings from words.
use arrayvec::ArrayVec;
use case_lines::{CaseLine, LineFault, number, parted};
use group_keys::{KeySet, Ring};

/// The ring `LONG SET ..`: `long` for AES-256 or `short` for AES-128, and each set as TOKEN:MOMENT.
pub fn ring_of(line: &mut CaseLine) -> Result<Ring, LineFault> {
    let long = line.word() == "long";
    let mut sets = ArrayVec::new();
    for word in line.words() {
        if sets.is_full() {
            return Err(LineFault::Condition);
        }
        sets.push(key_set(long, word)?);
    }
    match Ring::new(long, sets) {
        Ok(ring) => Ok(ring),
        Err(_) => Err(LineFault::Condition),
    }
}

/// A set whose keys are made of its token: each byte of the signing key is the token's last byte, of the encrypting key the byte
/// that is one higher, and of the nonce two higher.
fn key_set(long: bool, word: &str) -> Result<KeySet, LineFault> {
    let (token, moment) = parted(word, ':')?;
    let token = number::<u32>(token)?;
    let byte = (token & 0xff) as u8;
    let mut encrypting = ArrayVec::new();
    let len = if long { 32 } else { 16 };
    let _ = encrypting.try_extend_from_slice(&[byte.wrapping_add(1); 32][..len]);
    Ok(KeySet {
        token,
        from: number::<u64>(moment)?,
        signing: [byte; 32],
        encrypting,
        nonce: [byte.wrapping_add(2); 4],
    })
}
