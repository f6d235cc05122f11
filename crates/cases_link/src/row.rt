//! A line's words, and what they do.
ghost use Rattle.std.specs.Prelude.{◌<◌, ◌^◌, vec_len, IsSome};
ghost use Rattle.std.specs.List.{All};
ghost use Rattle.mem_edge.specs.MemoryLinks.{opened_by};

use crate::fates::are_fates;
use crate::heard::Heard;
use mem_edge::MemoryLink;
use std::alloc::{AllocError, AllocFailed, Global};
use std::str;
use ua_base::{Fate, Link, Opened, Received, Sent};

/// A text has at most so many bytes.
const TEXT_BYTES: usize = 1_000;

/// A receive has room for so many bytes.
const ROOM_BYTES: usize = 8;

/// After the row's own steps is received at most so often.
const MAX_RECEIVES: u32 = 1_000_000;

/// Why a line is no row, or can't be played.
#[derive(Clone, Copy, Debug, Drop)]
pub enum RowFault {
    /// A word is missing, or it isn't one that may stand there.
    Word,
    /// A number is missing, or it is past 64 bits, or 8 bits for the times of `repeat`.
    Number,
    /// A text is missing or too long, or has other bytes than letters and digits, or is a word that is printed for
    /// something else; or what came is no text.
    Text,
    /// No fate that a link may be opened with.
    Fates,
    /// Something waits even after 1,000,000 receives.
    Endless,
    /// Memory ran out, in the row or in a call of the link.
    Memory,
}

impl From<AllocError> for RowFault {
    fn from(_: AllocError) -> RowFault {
        RowFault::Memory
    }
}

impl<T: Drop> From<AllocFailed<T>> for RowFault {
    fn from(_: AllocFailed<T>) -> RowFault {
        RowFault::Memory
    }
}

/// A call of the link.
#[derive(Clone, Copy, Drop)]
enum Step<'a> {
    Send(&'a str),
    Receive,
}

/// What a link is made of and opened with, and what is called then.
#[derive(Drop)]
pub struct Row<'a> {
    alloc: Global,
    fates: Vec<(u64, Fate)>,
    injected: Vec<(u64, Vec<u8>)>,
    send_fails: Vec<u64>,
    receive_fails: Vec<u64>,
    steps: Vec<Step<'a>>,
    ghost short: { All (λ p. vec_len p.1 < 2 ^ 32) injected.items },
}

fn number(words: &[&str], at: usize) -> Result<u64, RowFault> {
    let Some(word) = words.get(at) else {
        return Err(RowFault::Number);
    };
    match word.parse::<u64>() {
        Ok(number) => Ok(number),
        Err(_) => Err(RowFault::Number),
    }
}

// A fate, and how many words it has.
fn fate(words: &[&str], at: usize) -> Result<(Fate, usize), RowFault> {
    let Some(word) = words.get(at) else {
        return Err(RowFault::Word);
    };
    if *word == "drop" {
        return Ok((Fate::Drop, 1));
    }
    let named = number(words, at.saturating_add(1))?;
    let fate = match *word {
        "repeat" => match u8::try_from(named) {
            Ok(times) => Fate::Repeat { times },
            Err(_) => return Err(RowFault::Number),
        },
        "hold" => Fate::Hold { after: named },
        "again" => Fate::Again { after: named },
        _ => return Err(RowFault::Word),
    };
    Ok((fate, 2))
}

// A word that is a text.
fn text<'a>(word: &'a str) -> Result<&'a str, RowFault> {
    if matches!(word, "receive" | "failed" | "nothing") {
        return Err(RowFault::Text);
    }
    for byte in word.bytes() {
        if !byte.is_ascii_alphanumeric() {
            return Err(RowFault::Text);
        }
    }
    Ok(word)
}

impl<'a> Row<'a> {
    pub fn read(alloc: Global, line: &'a str) -> Result<Row<'a>, RowFault> {
        let mut row = Row {
            alloc,
            fates: Vec::new(alloc),
            injected: Vec::new(alloc),
            send_fails: Vec::new(alloc),
            receive_fails: Vec::new(alloc),
            steps: Vec::new(alloc),
        };
        let words: Vec<&'a str> = line.split_whitespace().collect(alloc)?;
        let mut at = 0;
        for _ in 0..words.len() {
            at = row.take(&words, at)?;
        }
        Ok(row)
    }

    // One word and those that belong to it, and the place behind them.
    fn take(&mut self, words: &[&'a str], at: usize) -> Result<usize, RowFault> {
        let Some(word) = words.get(at) else {
            return Ok(at);
        };
        let next = at.saturating_add(1);
        match *word {
            "fate" => {
                let (fate, used) = fate(words, next.saturating_add(1))?;
                self.fates.push((number(words, next)?, fate))?;
                Ok(next.saturating_add(1).saturating_add(used))
            }
            "inject" => {
                self.inject(words, next, 1, next.saturating_add(1))?;
                Ok(next.saturating_add(2))
            }
            "flood" => {
                let times = number(words, next.saturating_add(1))?;
                self.inject(words, next, times, next.saturating_add(2))?;
                Ok(next.saturating_add(3))
            }
            "failsend" => {
                self.send_fails.push(number(words, next)?)?;
                Ok(next.saturating_add(1))
            }
            "failreceive" => {
                self.receive_fails.push(number(words, next)?)?;
                Ok(next.saturating_add(1))
            }
            "send" => self.send_all(words, next),
            "receive" => {
                self.steps.push(Step::Receive)?;
                Ok(next)
            }
            _ => Err(RowFault::Word),
        }
    }

    // Sends the texts from a place up to the next word `receive`, and the place behind them.
    fn send_all(&mut self, words: &[&'a str], first: usize) -> Result<usize, RowFault> {
        let mut at = first;
        for word in &words[first.min(words.len())..] {
            if *word == "receive" {
                return Ok(at);
            }
            self.steps.push(Step::Send(text(word)?))?;
            at = at.saturating_add(1);
        }
        Ok(at)
    }

    // Injects the text at a place so many times after the number at another.
    fn inject(
        &mut self,
        words: &[&'a str],
        number_at: usize,
        times: u64,
        text_at: usize,
    ) -> Result<(), RowFault> {
        let after = number(words, number_at)?;
        let Some(word) = words.get(text_at) else {
            return Err(RowFault::Text);
        };
        let text = text(word)?;
        for _ in 0..times {
            self.inject_one(after, text)?;
        }
        Ok(())
    }

    fn inject_one(&mut self, after: u64, text: &str) -> Result<(), RowFault> {
        let bytes = Vec::from_slice(self.alloc, text.as_bytes())?;
        if bytes.len() > TEXT_BYTES {
            return Err(RowFault::Text);
        }
        self.injected.push((after, bytes))?;
        Ok(())
    }

    /// Opens a link, makes its calls, and then receives until nothing waits.
    pub fn play(self, heard: &mut Heard) -> Result<(), RowFault> {
        let Row {
            alloc,
            fates,
            injected,
            send_fails,
            receive_fails,
            steps,
        } = self;
        if !are_fates(&fates) {
            return Err(RowFault::Fates);
        }
        let mut link = MemoryLink::new(alloc, injected, send_fails, receive_fails, false);
        let Opened::Done = link.open(0, &fates) else {
            return Err(RowFault::Memory);
        };
        for step in &steps {
            take_step(&mut link, *step, heard)?;
        }
        receive_all(&mut link, heard)
    }
}

fn take_step(link: &mut MemoryLink, step: Step<'_>, heard: &mut Heard) -> Result<(), RowFault>
    requires { IsSome (opened_by link.old) }
    ensures { IsSome (opened_by link.new) }
{
    match step {
        Step::Send(text) => send(link, text),
        Step::Receive => {
            if !receive(link, heard)? {
                heard.add("nothing")?;
            }
            Ok(())
        }
    }
}

// Sends a text, where a send that fails is one that the row names.
fn send(link: &mut MemoryLink, text: &str) -> Result<(), RowFault>
    requires { IsSome (opened_by link.old) }
    ensures { IsSome (opened_by link.new) }
{
    if text.len() > TEXT_BYTES {
        return Err(RowFault::Text);
    }
    match link.send(text.as_bytes()) {
        Sent::Done | Sent::Failed => Ok(()),
        Sent::Memory => Err(RowFault::Memory),
    }
}

// Receives once, and answers whether it was anything but Nothing.
fn receive(link: &mut MemoryLink, heard: &mut Heard) -> Result<bool, RowFault>
    requires { IsSome (opened_by link.old) }
    ensures { IsSome (opened_by link.new) }
{
    let mut into = [0u8; ROOM_BYTES];
    match link.receive(&mut into) {
        Received::Datagram(count) => {
            let Ok(text) = str::from_utf8(&into[..count as usize]) else {
                return Err(RowFault::Text);
            };
            heard.add(text)?;
        }
        Received::Long(count) => heard.long(count)?,
        Received::Failed => heard.add("failed")?,
        Received::Nothing => return Ok(false),
    }
    Ok(true)
}

fn receive_all(link: &mut MemoryLink, heard: &mut Heard) -> Result<(), RowFault>
    requires { IsSome (opened_by link.old) }
{
    for round in 0..MAX_RECEIVES {
        let _ = round;
        if !receive(link, heard)? {
            return Ok(());
        }
    }
    Err(RowFault::Endless)
}
