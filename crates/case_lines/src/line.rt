//! The words of a line.
use crate::escapes::unescaped;
use crate::fault::LineFault;
use crate::parsed::{decoded, number};
use std::alloc::Global;
use std::str::{FromStr, SplitWhitespace};

/// What is left of a line. Words are parted by single spaces.
#[derive(Drop)]
pub struct Line<'a> {
    rest: &'a str,
}

impl<'a> Line<'a> {
    pub fn new(line: &'a str) -> Line<'a> {
        Line { rest: line }
    }

    /// The next word.
    pub fn word(&mut self) -> Result<&'a str, LineFault> {
        if self.rest.is_empty() {
            return Err(LineFault::Missing);
        }
        let Some((word, rest)) = self.rest.split_once(' ') else {
            let word = self.rest;
            self.rest = "";
            return Ok(word);
        };
        self.rest = rest;
        Ok(word)
    }

    /// The next word, where one is left.
    pub fn optional(&mut self) -> Option<&'a str> {
        self.word().ok()
    }

    /// What is left in front of the word `|`, and what stands behind it.
    pub fn halves(&self) -> Result<(Line<'a>, Line<'a>), LineFault> {
        match self.rest.split_once("| ") {
            Some((front, behind)) => Ok((Line::new(front), Line::new(behind))),
            None => Err(LineFault::Missing),
        }
    }

    /// The rest of the line.
    pub fn rest(&mut self) -> &'a str {
        let rest = self.rest;
        self.rest = "";
        rest
    }

    /// The rest of the line, a text of several lines in one.
    pub fn text(&mut self, alloc: Global) -> Result<Vec<u8>, LineFault> {
        match unescaped(alloc, self.rest())? {
            Some(bytes) => Ok(bytes),
            None => Err(LineFault::Text),
        }
    }

    /// The words that are left.
    pub fn words(&self) -> SplitWhitespace<'a> {
        self.rest.split_whitespace()
    }

    pub fn u8(&mut self) -> Result<u8, LineFault> {
        number(self.word()?)
    }

    pub fn u64(&mut self) -> Result<u64, LineFault> {
        number(self.word()?)
    }

    pub fn u32(&mut self) -> Result<u32, LineFault> {
        number(self.word()?)
    }

    pub fn u16(&mut self) -> Result<u16, LineFault> {
        number(self.word()?)
    }

    /// The next word, a number, or none where it is a dash.
    pub fn number_or_dash<T: FromStr>(&mut self) -> Result<Option<T>, LineFault>
    where
        <T as FromStr>::Err: Drop,
    {
        let word = self.word()?;
        if word == "-" {
            return Ok(None);
        }
        Ok(Some(number(word)?))
    }

    /// The next word, `0x` and up to eight hexadecimal digits.
    pub fn hex32(&mut self) -> Result<u32, LineFault> {
        hex32_of(self.word()?)
    }

    /// The next word, `0x` and up to sixteen hexadecimal digits.
    pub fn hex64(&mut self) -> Result<u64, LineFault> {
        hex_number(self.word()?)
    }

    /// The next word, `none`, or `0x` and up to eight hexadecimal digits.
    pub fn optional_hex(&mut self) -> Result<Option<u32>, LineFault> {
        let word = self.word()?;
        if word == "none" {
            return Ok(None);
        }
        Ok(Some(hex32_of(word)?))
    }

    /// The next word, which has the digits of so many bytes.
    pub fn array<const N: usize>(&mut self) -> Result<[u8; N], LineFault> {
        let mut bytes = [0; N];
        match hex::decode_to_slice(self.word()?, &mut bytes) {
            Ok(()) => Ok(bytes),
            Err(_) => Err(LineFault::Hex),
        }
    }

    /// The next word as bytes.
    pub fn piece(&mut self, alloc: Global) -> Result<Vec<u8>, LineFault> {
        bytes_of(alloc, self.word()?)
    }

    /// The rest of the line as bytes: words of hexadecimal digits, of which `00*7` stands for seven bytes 0, and `-` for none.
    pub fn bytes(&mut self, alloc: Global) -> Result<Vec<u8>, LineFault> {
        let mut bytes = Vec::new(alloc);
        for word in self.words() {
            push_word(alloc, &mut bytes, word)?;
        }
        self.rest = "";
        Ok(bytes)
    }
}

/// The bytes of a word.
pub fn bytes_of(alloc: Global, word: &str) -> Result<Vec<u8>, LineFault> {
    let mut bytes = Vec::new(alloc);
    push_word(alloc, &mut bytes, word)?;
    Ok(bytes)
}

fn hex32_of(word: &str) -> Result<u32, LineFault> {
    match u32::try_from(hex_number(word)?) {
        Ok(number) => Ok(number),
        Err(_) => Err(LineFault::Number),
    }
}

fn hex_number(word: &str) -> Result<u64, LineFault> {
    let Some(digits) = word.strip_prefix("0x") else {
        return Err(LineFault::Number);
    };
    match u64::from_str_radix(digits, 16) {
        Ok(number) => Ok(number),
        Err(_) => Err(LineFault::Number),
    }
}

fn push_word(alloc: Global, bytes: &mut Vec<u8>, word: &str) -> Result<(), LineFault> {
    if word == "-" {
        return Ok(());
    }
    let (digits, times) = match word.split_once('*') {
        Some((digits, times)) => (digits, number::<u32>(times)?),
        None => (word, 1),
    };
    let piece = decoded(alloc, digits)?;
    for _ in 0..times {
        bytes.extend_from_slice(&piece)?;
    }
    Ok(())
}
