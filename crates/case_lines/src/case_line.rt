//! The line of a case, read word by word.
use crate::answered::Answer;
use crate::fault::LineFault;
use crate::line::Line;
use crate::parsed::number;
use crate::tables::named;
use std::alloc::Global;
use std::str::{FromStr, SplitWhitespace};

/// What is left of a line. A word that is missing, or isn't what the call takes, is read as 0 or as nothing, and the first of them
/// is kept: it is why the line is no case, whatever its call answers.
#[derive(Drop)]
pub struct CaseLine<'a> {
    pub left: Line<'a>,
    fault: Option<LineFault>,
}

impl<'a> CaseLine<'a> {
    pub fn new(line: &'a str) -> CaseLine<'a> {
        CaseLine {
            left: Line::new(line),
            fault: None,
        }
    }

    /// The answer of the line's call, where the line is a case.
    pub fn checked(&self, answer: Answer) -> Answer {
        match self.fault {
            Some(fault) => Err(fault),
            None => answer,
        }
    }

    /// Nothing, where the line is a case so far.
    pub fn check(&self) -> Result<(), LineFault> {
        match self.fault {
            Some(fault) => Err(fault),
            None => Ok(()),
        }
    }

    /// Keeps why the line is no case, where nothing was kept before.
    pub fn fail(&mut self, fault: LineFault) {
        if self.fault.is_none() {
            self.fault = Some(fault);
        }
    }

    /// What was read; or the other, where it wasn't, and why not is kept.
    pub fn read_or<T: Drop>(&mut self, read: Result<T, LineFault>, other: T) -> T {
        match read {
            Ok(it) => it,
            Err(fault) => {
                self.fail(fault);
                other
            }
        }
    }

    /// The next word.
    pub fn word(&mut self) -> &'a str {
        let read = self.left.word();
        self.read_or(read, "")
    }

    /// The next word, where one is left.
    pub fn optional(&mut self) -> Option<&'a str> {
        self.left.optional()
    }

    /// What the next word names in a table, or the other.
    pub fn named<T: Copy>(&mut self, table: &[(&str, T)], other: T) -> T {
        match named(table, self.word()) {
            Some(it) => it,
            None => {
                self.fail(LineFault::Missing);
                other
            }
        }
    }

    /// The next word, a number.
    pub fn number<N: FromStr + Copy>(&mut self, other: N) -> N
    where
        <N as FromStr>::Err: Drop,
    {
        let read = number(self.word());
        self.read_or(read, other)
    }

    pub fn u8(&mut self) -> u8 {
        self.number(0)
    }

    pub fn u16(&mut self) -> u16 {
        self.number(0)
    }

    pub fn u32(&mut self) -> u32 {
        self.number(0)
    }

    pub fn u64(&mut self) -> u64 {
        self.number(0)
    }

    /// The next word, a number, or none where it is a dash.
    pub fn number_or_dash<N: FromStr + Copy>(&mut self) -> Option<N>
    where
        <N as FromStr>::Err: Drop,
    {
        let read = self.left.number_or_dash();
        self.read_or(read, None)
    }

    /// The words that are left, as numbers.
    pub fn numbers<N: FromStr + Copy>(&mut self, alloc: Global) -> Vec<N>
    where
        <N as FromStr>::Err: Drop,
    {
        let read = numbers_of(alloc, self.left.words());
        self.read_or(read, Vec::new(alloc))
    }

    /// The next word, which has the digits of so many bytes.
    pub fn array<const N: usize>(&mut self) -> [u8; N] {
        let read = self.left.array();
        self.read_or(read, [0; N])
    }

    /// The next word as bytes.
    pub fn piece(&mut self, alloc: Global) -> Vec<u8> {
        let read = self.left.piece(alloc);
        self.read_or(read, Vec::new(alloc))
    }

    /// The rest of the line as bytes.
    pub fn bytes(&mut self, alloc: Global) -> Vec<u8> {
        let read = self.left.bytes(alloc);
        self.read_or(read, Vec::new(alloc))
    }

    /// The rest of the line, a text of several lines in one.
    pub fn text(&mut self, alloc: Global) -> Vec<u8> {
        let read = self.left.text(alloc);
        self.read_or(read, Vec::new(alloc))
    }

    /// The rest of the line.
    pub fn rest(&mut self) -> &'a str {
        self.left.rest()
    }

    /// The words that are left.
    pub fn words(&self) -> SplitWhitespace<'a> {
        self.left.words()
    }
}

fn numbers_of<N: FromStr + Copy>(
    alloc: Global,
    words: SplitWhitespace<'_>,
) -> Result<Vec<N>, LineFault>
where
    <N as FromStr>::Err: Drop,
{
    let mut numbers = Vec::new(alloc);
    for word in words {
        numbers.push(number::<N>(word)?)?;
    }
    Ok(numbers)
}
