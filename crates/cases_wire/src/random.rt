//! Lines of the reading calls with random bytes, and the kinds of their answers.
use case_lines::{Hex, LineFault, Numbers};
use std::alloc::Global;

/// The word that an answer begins with, or `read`.
pub fn name_of(answer: &str) -> &str {
    let word = match answer.split_once(' ') {
        Some((word, _)) => word,
        None => answer,
    };
    match word.as_bytes() {
        [b'A'..=b'Z' | b'a'..=b'z', ..] if !word.contains('=') => word,
        _ => "read",
    }
}

/// The line of a call with these words and at most so many random bytes.
pub fn line_of(
    alloc: Global,
    words: &str,
    numbers: &mut Numbers,
    longest: u64,
) -> Result<String, LineFault> {
    let bytes = numbers.bytes(alloc, longest)?;
    Ok(format!(in alloc; "{words} {}", Hex(&bytes))?)
}

/// The line of a chunk of at most 24 random bytes, of a number that goes up with the index; some are of another total, past their
/// message's end or too long.
pub fn chunk_line(alloc: Global, index: u32, numbers: &mut Numbers) -> Result<String, LineFault> {
    let late = u32::from(numbers.below(8) == 7);
    let number = (index / 16).wrapping_add(late) % 65536;
    let offset = numbers.below(5) * 8;
    let total = match numbers.below(8) {
        6 => 24,
        7 => 4097,
        _ => 32,
    };
    let words = format!(in alloc; "chunk {number} {offset} {total}")?;
    line_of(alloc, words.as_str(), numbers, 24)
}
