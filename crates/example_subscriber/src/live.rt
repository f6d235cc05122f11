//! The live view: lines for each reader and for the group, rewritten in place on a terminal.
ghost use Rattle.std.specs.Prelude.{◌≡◌};
ghost use Rattle.dataset_reader.specs.Reader.{IsReaderOf};

use crate::news::Standing;
use crate::text::{Piece, fill};
use crate::untaken::{Glance, Untaken};
use example_parts::Fault;
use ps_report::{put_feed, put_row, put_waits};

/// How often lines are written, in milliseconds.
pub const DRAWING: u64 = 100;

/// Over how long messages are counted for a rate, in milliseconds.
const SECOND: u64 = 1000;

/// How many columns a line has at most.
const COLUMNS: usize = 79;

/// What was seen of a reader's messages.
#[derive(Clone, Copy)]
pub struct Mark {
    number: Option<u16>,
    breaks: u64,
    messages: u64,
    /// Since when messages are counted for the next rate, and how many there were then.
    since: u64,
    before: u64,
    rate: u64,
}

impl Mark {
    pub const NOTHING: Mark = Mark {
        number: None,
        breaks: 0,
        messages: 0,
        since: 0,
        before: 0,
        rate: 0,
    };

    /// A look behind a datagram or a wait.
    pub fn note(&mut self, now: u64, glance: &Glance<'_>) {
        let number = glance.reader.number();
        let breaks = glance.reader.breaks();
        if breaks != self.breaks || number != self.number && number.is_some() {
            self.messages = self.messages.saturating_add(1);
        }
        self.number = number;
        self.breaks = breaks;
        if now.saturating_sub(self.since) >= SECOND {
            self.rate = self.messages.saturating_sub(self.before);
            self.before = self.messages;
            self.since = now;
        }
    }

    /// The lines of a reader: its state, the number of the message that it holds, the version of its data set (OPC 10000-14 5.2.3), how
    /// old its last message is, how many come in a second and how many were lost; the row, or why it waits; and why the last message
    /// that wasn't taken wasn't.
    pub fn put_lines(
        &self,
        out: &mut Vec<u8>,
        now: u64,
        glance: &Glance<'_>,
        standing: Standing,
        untaken: &Untaken,
    ) -> Result<(), Fault>
        requires { IsReaderOf glance.now.meta.now glance.now.reader.now }
    {
        self.put_standing(out, glance.part.name.as_str(), state_of(standing))?;
        self.put_times(out, now, glance)?;
        match glance.reader.row() {
            Some(row) => put_row(out, glance.meta, row)?,
            None => put_waits(out, glance.reader.why())?,
        }
        put_feed(out)?;
        if untaken.is_some() {
            untaken.put_line(out, glance.meta)?;
            put_feed(out)?;
        }
        Ok(())
    }

    fn put_standing(
        &self,
        out: &mut Vec<u8>,
        name: &str,
        state: &'static str,
    ) -> Result<(), Fault> {
        fill(out, name, &[])?;
        fill(out, " # number ", &[Piece::Word(state)])?;
        match self.number {
            Some(number) => fill(out, "#", &[Piece::Number(u64::from(number))]),
            None => fill(out, "-", &[]),
        }
    }

    fn put_times(&self, out: &mut Vec<u8>, now: u64, glance: &Glance<'_>) -> Result<(), Fault> {
        let major = u64::from(glance.meta.major());
        let minor = u64::from(glance.meta.minor());
        let age = now.saturating_sub(glance.notice.seen.unwrap_or(0));
        fill(
            out,
            " version #.# age # ms, # a second, lost #\n",
            &[
                Piece::Number(major),
                Piece::Number(minor),
                Piece::Number(age),
                Piece::Number(self.rate),
                Piece::Number(glance.notice.lost),
            ],
        )
    }
}

/// The state of a reader as a component (OPC 10000-14 6.2.1).
fn state_of(standing: Standing) -> &'static str {
    if standing.is_late {
        "error"
    } else if standing.is_ready {
        "operational"
    } else {
        "preoperational"
    }
}

/// These lines in the place of so many that were drawn before, which are erased. A line that is too long goes on in another one. The
/// answer is how many lines stand there then.
pub fn put_drawing(out: &mut Vec<u8>, lines: &[u8], drawn: u64) -> Result<u64, Fault> {
    if drawn > 0 {
        fill(out, "\x1b[#A", &[Piece::Number(drawn)])?;
    }
    fill(out, "\r\x1b[J\x1b[?7l", &[])?;
    let count = put_folded(out, lines)?;
    fill(out, "\x1b[?7h", &[])?;
    Ok(count)
}

fn put_folded(out: &mut Vec<u8>, lines: &[u8]) -> Result<u64, Fault> {
    let mut count = 0u64;
    let mut column = 0usize;
    for at in 0..lines.len() {
        let byte = lines[at];
        let is_full = byte == b' '
            && column > 0
            && column.saturating_add(word_length(&lines[at + 1..])) >= COLUMNS;
        if byte == b'\n' || is_full || column >= COLUMNS {
            put_feed(out)?;
            count = count.saturating_add(1);
            column = 0;
        }
        if byte != b'\n' {
            out.push(byte)?;
            column = column.saturating_add(1);
        }
    }
    Ok(count)
}

/// How many bytes stand before the next space or the end of the line; a word that is longer than a line is as long as one.
fn word_length(bytes: &[u8]) -> usize {
    for at in 0..bytes.len().min(COLUMNS) {
        if bytes[at] == b' ' || bytes[at] == b'\n' {
            return at;
        }
    }
    bytes.len().min(COLUMNS)
}
