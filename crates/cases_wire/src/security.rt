//! Rows of `aes_ctr`, `hmac_sign` and `group_keys`.
use crate::guards::encrypting_key;
use aes_ctr::{Key, Key128, Key256, apply_stream};
use arrayvec::ArrayVec;
use case_lines::{
    Answer, CaseLine, Hex, LineFault, Told, number, parted, refused, said, told_bytes,
};
use group_keys::{KeySet, Ring};
use hmac_sign::{SigningKey, matches, sign};
use std::alloc::Global;

/// `block128 KEY BLOCK`: the block under the key (FIPS 197)
pub fn block128(alloc: Global, line: &mut CaseLine) -> Answer {
    let key = Key128::new(&line.array());
    let block = key.encrypt_block(&line.array());
    told_bytes(alloc, &block)
}

/// `block256 KEY BLOCK`: the block under the key (FIPS 197)
pub fn block256(alloc: Global, line: &mut CaseLine) -> Answer {
    let key = Key256::new(&line.array());
    let block = key.encrypt_block(&line.array());
    told_bytes(alloc, &block)
}

/// `stream128 KEY FRONT FIRST BYTES`, the first block as four bytes, big-endian: the bytes with the stream added (NIST SP
/// 800-38A, 6.5)
pub fn stream128(alloc: Global, line: &mut CaseLine) -> Answer {
    let key = Key::Short(Key128::new(&line.array()));
    stream(alloc, line, &key)
}

/// `stream256 KEY FRONT FIRST BYTES`, as `stream128`
pub fn stream256(alloc: Global, line: &mut CaseLine) -> Answer {
    let key = Key::Long(Key256::new(&line.array()));
    stream(alloc, line, &key)
}

fn stream(alloc: Global, line: &mut CaseLine, key: &Key) -> Answer {
    let front: [u8; 12] = line.array();
    let first = u32::from_be_bytes(line.array());
    let mut bytes = line.bytes(alloc);
    apply_stream(key, &front, first, &mut bytes);
    told_bytes(alloc, &bytes)
}

/// `hmac KEY TEXT`: the signature (RFC 2104 over SHA-256), and whether `matches` and a key that is kept hashed agree with it
pub fn hmac(alloc: Global, line: &mut CaseLine) -> Answer {
    let key = line.piece(alloc);
    let text = line.bytes(alloc);
    let signature = sign(&key, &text);
    let same = matches(&key, &text, &signature);
    let kept = agrees_kept(&key, &text, &signature);
    let mut told = Told::new(alloc);
    told.show(&Hex(&signature));
    told.named(" ", Some(same));
    told.named(" ", Some(kept));
    told.answer()
}

/// Whether a key that is kept with its pads hashed signs so, where the key has at most 32 bytes.
fn agrees_kept(key: &[u8], text: &[u8], signature: &[u8; 32]) -> bool {
    if key.len() > 32 {
        return true;
    }
    let mut whole = [0; 32];
    whole[..key.len()].copy_from_slice(key);
    SigningKey::new(&whole).sign(text) == *signature
}

/// `ring LONG SET ..`, a key set as TOKEN:MOMENT:LENGTH of its encrypting key: accepted, or the fault
pub fn ring(alloc: Global, line: &mut CaseLine) -> Answer {
    let long = line.word() == "long";
    let mut sets = ArrayVec::new();
    for word in line.words() {
        if sets.try_push(key_set(word)?).is_err() {
            return Err(LineFault::Condition);
        }
    }
    match Ring::new(long, sets) {
        Ok(_) => said(alloc, "accepted"),
        Err(fault) => refused(alloc, &fault),
    }
}

fn key_set(word: &str) -> Result<KeySet, LineFault> {
    let (token, rest) = parted(word, ':')?;
    let (moment, length) = parted(rest, ':')?;
    let zeros = [0; 256];
    let length = usize::from(number::<u8>(length)?);
    Ok(KeySet {
        token: number(token)?,
        from: number(moment)?,
        signing: [0; 32],
        encrypting: encrypting_key(&zeros[..length])?,
        nonce: [0; 4],
    })
}
