//! What the parts of a session were when it closed, each read from its piece.
use arrayvec::ArrayVec;
use case_lines::{CaseLine, LineFault, number, parted};
use ps_report::{
    Break, GroupEnd, History, LinkEnd, Parts, ReadGroupEnd, State, WatchEnd, WriterEnd,
};
use std::alloc::Global;
use std::str::SplitWhitespace;

/// What a part of a session was.
pub trait End: Drop {
    /// By what its piece tells behind the first word.
    fn read(alloc: Global, line: &mut CaseLine) -> Self;
}

impl End for History {
    /// `T ..`
    fn read(alloc: Global, line: &mut CaseLine) -> History {
        History {
            threads: Parts::new(line.numbers(alloc)),
        }
    }
}

impl End for GroupEnd {
    /// `STATE SENT`
    fn read(_: Global, line: &mut CaseLine) -> GroupEnd {
        GroupEnd {
            state: state(line),
            sent: line.u64(),
        }
    }
}

impl End for WriterEnd {
    /// `STATE P=V ..`
    fn read(alloc: Global, line: &mut CaseLine) -> WriterEnd {
        let state = state(line);
        let log = pairs_of(alloc, line.words());
        WriterEnd {
            state,
            log: Parts::new(line.read_or(log, Vec::new(alloc))),
        }
    }
}

impl End for ReadGroupEnd {
    /// `STATE TAKEN CAUSE=K ..`
    fn read(_: Global, line: &mut CaseLine) -> ReadGroupEnd {
        let state = state(line);
        let taken = line.u64();
        let mut causes = [0; 20];
        for word in line.words() {
            match pair(word) {
                Ok((cause, count)) if cause < 20 => causes[cause as usize] = count,
                _ => line.fail(LineFault::Number),
            }
        }
        ReadGroupEnd {
            state,
            taken,
            causes,
        }
    }
}

/// `THREAD READER S ..`
pub fn watch(alloc: Global, line: &mut CaseLine) -> WatchEnd {
    WatchEnd {
        thread: line.u8(),
        reader: line.u8(),
        counts: Parts::new(line.numbers(alloc)),
    }
}

/// `SENT FAILED RECEIVED BROKEN LONG LIMIT`
pub fn link(line: &mut CaseLine) -> LinkEnd {
    LinkEnd {
        sent: line.u64(),
        failed: line.u64(),
        received: line.u64(),
        broken: line.u64(),
        long: line.u64(),
        limit: line.u64(),
    }
}

/// `E/G ..`
pub fn recent(line: &mut CaseLine) -> ArrayVec<Break, 8> {
    let mut breaks = ArrayVec::new();
    for word in line.words() {
        match break_of(word) {
            Ok(broke) if !breaks.is_full() => breaks.push(broke),
            _ => line.fail(LineFault::Condition),
        }
    }
    breaks
}

static STATES: [(&str, State); 5] = [
    ("disabled", State::Disabled),
    ("paused", State::Paused),
    ("operational", State::Operational),
    ("error", State::Error),
    ("preoperational", State::PreOperational),
];

pub fn state(line: &mut CaseLine) -> State {
    line.named(&STATES, State::Disabled)
}

/// `E/G`
fn break_of(word: &str) -> Result<Break, LineFault> {
    let (expected, got) = parted(word, '/')?;
    Ok(Break {
        expected: number(expected)?,
        got: number(got)?,
    })
}

fn pairs_of(alloc: Global, words: SplitWhitespace<'_>) -> Result<Vec<(u64, u64)>, LineFault> {
    let mut pairs = Vec::new(alloc);
    for word in words {
        pairs.push(pair(word)?)?;
    }
    Ok(pairs)
}

/// `N=N`
fn pair(word: &str) -> Result<(u64, u64), LineFault> {
    let (first, second) = parted(word, '=')?;
    Ok((number(first)?, number(second)?))
}
