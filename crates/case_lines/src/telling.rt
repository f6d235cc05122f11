//! Answers that are made piece by piece.
use crate::answered::{Answer, said, told_bytes};
use crate::fault::LineFault;
use std::alloc::Global;
use std::fmt::{self, Write};

/// A text, made piece by piece. Where memory ran out for one of them, there is no answer.
#[derive(Drop)]
pub struct Told {
    alloc: Global,
    text: String,
    lacks_memory: bool,
}

impl Told {
    pub fn new(alloc: Global) -> Told {
        Told {
            alloc,
            text: String::new(alloc),
            lacks_memory: false,
        }
    }

    /// Where its memory comes from.
    pub fn alloc(&self) -> Global {
        self.alloc
    }

    pub fn is_empty(&self) -> bool {
        self.text.is_empty()
    }

    pub fn say(&mut self, text: &str) {
        self.lacks_memory |= self.text.push_str(text).is_err();
    }

    pub fn show<T: fmt::Display>(&mut self, it: &T) {
        self.lacks_memory |= write!(self.text, "{it}").is_err();
    }

    /// A pattern, in which each `#` stands for the next of the numbers.
    pub fn fill(&mut self, pattern: &str, numbers: &[u64]) {
        // where the number before a piece stands: none is before the first
        let mut place = usize::MAX;
        for piece in pattern.split('#') {
            if let Some(number) = numbers.get(place) {
                self.show(number);
            }
            self.say(piece);
            place = place.wrapping_add(1);
        }
    }

    /// The name of a fault or a reason.
    pub fn name<T: fmt::Debug>(&mut self, it: &T) {
        self.lacks_memory |= write!(self.text, "{it:?}").is_err();
    }

    /// It behind a name, where there is one.
    pub fn named<T: fmt::Display + Copy>(&mut self, name: &str, it: Option<T>) {
        if let Some(it) = it {
            self.say(name);
            self.show(&it);
        }
    }

    /// It behind a name, as a word of its own, where there is one.
    pub fn word<T: fmt::Display + Copy>(&mut self, name: &str, it: Option<T>) {
        if it.is_some() {
            self.apart(" ");
        }
        self.named(name, it);
    }

    /// A status behind a mark.
    pub fn status(&mut self, mark: &str, status: u32) {
        self.lacks_memory |= write!(self.text, "{mark}0x{status:08x}").is_err();
    }

    /// A number in hexadecimal digits behind a mark.
    pub fn hex(&mut self, mark: &str, number: u64) {
        self.lacks_memory |= write!(self.text, "{mark}{number:x}").is_err();
    }

    /// What follows is apart from what stands before it, if anything does.
    pub fn apart(&mut self, mark: &str) {
        if !self.is_empty() {
            self.say(mark);
        }
    }

    /// The text; or this word where it is empty.
    pub fn answer_or(mut self, word: &str) -> Answer {
        if self.is_empty() {
            self.say(word);
        }
        self.answer()
    }

    pub fn answer(self) -> Answer {
        Ok(Some(self.text()?))
    }

    pub fn text(self) -> Result<String, LineFault> {
        if self.lacks_memory {
            return Err(LineFault::Memory);
        }
        Ok(self.text)
    }
}

/// The answer of two pieces with a space between them.
pub fn two<A: fmt::Display, B: fmt::Display>(alloc: Global, first: &A, second: &B) -> Answer {
    Ok(Some(format!(in alloc; "{first} {second}")?))
}

/// The bytes that stand before a pen in a room that was filled with `aa`, or Room where the write was refused; and where a refused
/// write wrote something or moved the pen from its start, that it did.
pub fn written(alloc: Global, done: bool, start: usize, at: usize, room: &[u8]) -> Answer {
    if done && at <= room.len() {
        return told_bytes(alloc, &room[..at]);
    }
    let kept = at == start && is_filled(room);
    said(alloc, if kept { "Room" } else { "Room moved" })
}

/// Whether each of the bytes is `aa`.
fn is_filled(bytes: &[u8]) -> bool {
    for byte in bytes {
        if *byte != 0xaa {
            return false;
        }
    }
    true
}
