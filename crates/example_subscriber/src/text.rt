//! Lines are patterns, into which numbers and words are filled.
use example_parts::Fault;
use ps_report::{put, put_named};

/// What stands in the place of a `#` of a pattern.
#[derive(Clone, Copy)]
pub enum Piece<'a> {
    Number(u64),
    /// A byte, as the standard spells it: `0x13`.
    Byte(u8),
    Word(&'a str),
}

const DIGITS: [u8; 16] = *b"0123456789abcdef";

impl Piece<'_> {
    fn put(self, out: &mut Vec<u8>) -> Result<(), Fault> {
        match self {
            Piece::Number(number) => put_named(out, b"", number)?,
            Piece::Byte(byte) => {
                let high = DIGITS[usize::from(byte / 16)];
                put(out, &[b'0', b'x', high, DIGITS[usize::from(byte % 16)]])?;
            }
            Piece::Word(word) => put(out, word.as_bytes())?,
        }
        Ok(())
    }
}

/// A pattern, in which each `#` stands for the next of these pieces.
pub fn fill(out: &mut Vec<u8>, pattern: &str, pieces: &[Piece<'_>]) -> Result<(), Fault> {
    let mut next = 0;
    for byte in pattern.bytes() {
        if byte == b'#' && next < pieces.len() {
            pieces[next].put(out)?;
            next += 1;
        } else {
            out.push(byte)?;
        }
    }
    Ok(())
}

/// Counts by their words. Those that are 0 stay out.
pub fn put_counts(out: &mut Vec<u8>, counts: &[(&'static str, u64)]) -> Result<(), Fault> {
    let mut is_empty = true;
    for (word, count) in counts {
        if *count > 0 {
            fill(out, " #=#", &[Piece::Word(word), Piece::Number(*count)])?;
            is_empty = false;
        }
    }
    if is_empty {
        put(out, b" 0")?;
    }
    Ok(())
}
