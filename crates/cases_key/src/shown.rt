//! Keys as text.
use case_lines::{Answer, Digits, said, told};
use group_keys::KeySet;
use key_service::Keys;
use std::alloc::Global;
use std::fmt;

/// Keys: the policy, the first token, `next`, the lifetime, and the sets.
#[derive(Clone, Copy)]
pub struct ShownKeys<'a>(pub &'a Keys);

impl fmt::Display for ShownKeys<'_> {
    fn fmt<W: fmt::Write>(&self, f: &mut fmt::Formatter<W>) -> fmt::Result {
        let keys = self.0;
        f.write_str(if keys.long { "aes256" } else { "aes128" })?;
        let (first, next, lifetime) = (keys.first, keys.next, keys.lifetime);
        write!(f, " first {first} next {next} lifetime {lifetime}: ")?;
        write!(f, "{}", ShownSets(keys.keys.as_slice()))
    }
}

/// Sets, each as TOKEN:MOMENT:SIGNING:ENCRYPTING:NONCE.
#[derive(Clone, Copy)]
pub struct ShownSets<'a>(pub &'a [KeySet]);

impl fmt::Display for ShownSets<'_> {
    fn fmt<W: fmt::Write>(&self, f: &mut fmt::Formatter<W>) -> fmt::Result {
        let mut before = "";
        for set in self.0 {
            f.write_str(before)?;
            write_set(f, set)?;
            before = " ";
        }
        Ok(())
    }
}

fn write_set<W: fmt::Write>(f: &mut fmt::Formatter<W>, set: &KeySet) -> fmt::Result {
    let (token, from) = (set.token, set.from);
    let encrypting = Digits(set.encrypting.as_slice());
    write!(
        f,
        "{token}:{from}:{}:{encrypting}:{}",
        Digits(&set.signing),
        Digits(&set.nonce)
    )
}

/// The bytes that stand before a pen in a room that was filled with `aa`, or Room where the write was refused; and where a refused
/// write wrote something or moved the pen, that it did.
pub fn written(alloc: Global, done: bool, at: usize, room: &[u8]) -> Answer {
    if done && at <= room.len() {
        return told(alloc, &Digits(&room[..at]));
    }
    let kept = at == 0 && is_filled(room, 0xaa);
    said(alloc, if kept { "Room" } else { "Room moved" })
}

fn is_filled(bytes: &[u8], filling: u8) -> bool {
    for byte in bytes {
        if *byte != filling {
            return false;
        }
    }
    true
}
