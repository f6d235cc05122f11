//! What a session takes from a script.
ghost use Rattle.std.specs.Prelude.{◌≡◌, IfOk};
ghost use Rattle.ps_script.specs.Sessions.{fates_of, writes_in, ticks_in, appends_in, is_write, is_tick, is_append};

use crate::script::{Act, Line, Script};
use std::alloc::{AllocError, Global};
use ua_base::Fate;

impl Script {
    /// The fates of datagrams, as a link is opened with them.
    pub fn fates(&self, alloc: Global) -> Result<Vec<(u64, Fate)>, AllocError>
        ensures { IfOk result (λ fates. fates.items ≡ fates_of self.now.lines) }
    {
        fates_of(alloc, self.lines.as_slice())
    }

    /// How many writes of a thread to a data set there are.
    pub fn writes(&self, thread: u8, set: u8) -> usize
        ensures { result ≡ writes_in thread set self.now.lines }
    {
        writes_in(thread, set, self.lines.as_slice())
    }

    /// How many ticks there are, without the closing one.
    pub fn ticks(&self) -> usize
        ensures { result ≡ ticks_in self.now.lines }
    {
        ticks_in(self.lines.as_slice())
    }

    /// How many fields are appended to a data set.
    pub fn appends(&self, set: u8) -> usize
        ensures { result ≡ appends_in set self.now.lines }
    {
        appends_in(set, self.lines.as_slice())
    }
}

fn fates_of(alloc: Global, lines: &[Line]) -> Result<Vec<(u64, Fate)>, AllocError>
    ensures { IfOk result (λ fates. fates.items ≡ fates_of lines.now) }
{
    let mut fates = Vec::new(alloc);
    for line in lines {
        if let Act::Fated { k, fate } = line.act {
            fates.push((k, fate))?;
        }
    }
    Ok(fates)
}

fn writes_in(thread: u8, set: u8, lines: &[Line]) -> usize
    ensures { result ≡ writes_in thread set lines.now }
{
    lines
        .iter()
        .filter(|line| is_write(thread, set, &line.act))
        .count()
}

fn is_write(thread: u8, set: u8, act: &Act) -> bool
    ensures { result ≡ is_write thread set act.now }
{
    match act {
        Act::Write {
            thread: writer,
            set: other,
            patch: _,
        } => *writer == thread && *other == set,
        _ => false,
    }
}

fn ticks_in(lines: &[Line]) -> usize
    ensures { result ≡ ticks_in lines.now }
{
    lines.iter().filter(|line| is_tick(&line.act)).count()
}

fn is_tick(act: &Act) -> bool
    ensures { result ≡ is_tick act.now }
{
    matches!(act, Act::Tick(_))
}

fn appends_in(set: u8, lines: &[Line]) -> usize
    ensures { result ≡ appends_in set lines.now }
{
    lines
        .iter()
        .filter(|line| is_append(set, &line.act))
        .count()
}

fn is_append(set: u8, act: &Act) -> bool
    ensures { result ≡ is_append set act.now }
{
    match act {
        Act::Append { set: other } => *other == set,
        _ => false,
    }
}
