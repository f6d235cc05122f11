//! One measure.
ghost use Rattle.std.specs.Prelude.{◌<◌, ◌^◌, sum};

use crate::calls::{read_all, try_all, write_beside};
use crate::sample::{meta, patch};
use std::alloc::Global;
use std::io;
use std::rt::Clock;
use std::sync::Wait;
use std::thread::Threads;
use std::time::{Duration, Instant};
use version_cell::Cell;

/// What is timed, over a cell of which width.
#[derive(Clone, Copy)]
pub struct Measure {
    is_wide: bool,
    call: Call,
}

#[derive(Clone, Copy)]
enum Call {
    Read { calls: u32 },
    TryWrite { calls: u32 },
    Threads { threads: u8, calls: u32 },
}

impl Measure {
    /// The measure that a line names.
    pub fn of(text: &str) -> Option<Measure> {
        let mut words = text.split_whitespace();
        let is_wide = match words.next()? {
            "narrow" => false,
            "wide" => true,
            _ => return None,
        };
        let call = match words.next()? {
            "read" => Call::Read {
                calls: words.next()?.parse().ok()?,
            },
            "try_write" => Call::TryWrite {
                calls: words.next()?.parse().ok()?,
            },
            "threads" => Call::Threads {
                threads: words.next()?.parse().ok()?,
                calls: words.next()?.parse().ok()?,
            },
            _ => return None,
        };
        Some(Measure { is_wide, call })
    }

    /// The time that it takes, or none where there is no memory.
    pub fn take<R: Threads + Wait + Clock + Sync>(
        &self,
        rt: &R,
        alloc: Global,
    ) -> io::Result<Option<Duration>> {
        let is_wide = self.is_wide;
        match self.call {
            Call::Read { calls } => reads(rt, alloc, is_wide, calls),
            Call::TryWrite { calls } => exchanges(rt, alloc, is_wide, calls),
            Call::Threads { threads, calls } => {
                writes_on_threads(rt, alloc, is_wide, threads, calls)
            }
        }
    }
}

fn reads<R: Wait + Clock>(
    rt: &R,
    alloc: Global,
    is_wide: bool,
    calls: u32,
) -> io::Result<Option<Duration>> {
    let Some(meta) = meta(alloc, is_wide) else {
        return Ok(None);
    };
    let Ok((cell, mut first, _)) = Cell::new(rt, alloc, &meta, &[0; 8]) else {
        return Ok(None);
    };
    let start = Instant::now(rt)?;
    read_all(rt, &cell, &mut first, calls);
    Ok(Some(start.elapsed(rt)?))
}

fn exchanges<R: Wait + Clock>(
    rt: &R,
    alloc: Global,
    is_wide: bool,
    calls: u32,
) -> io::Result<Option<Duration>> {
    let Some(meta) = meta(alloc, is_wide) else {
        return Ok(None);
    };
    let Some(patch) = patch(&meta) else {
        return Ok(None);
    };
    let Ok((cell, _, mut passes)) = Cell::new(rt, alloc, &meta, &quotas(1, calls)) else {
        return Ok(None);
    };
    let mut pass = passes.remove(0);
    let start = Instant::now(rt)?;
    try_all(rt, &cell, &mut pass, &patch, calls);
    Ok(Some(start.elapsed(rt)?))
}

// Threads whose quota is 0 end at once.
fn writes_on_threads<R: Threads + Wait + Clock + Sync>(
    rt: &R,
    alloc: Global,
    is_wide: bool,
    threads: u8,
    calls: u32,
) -> io::Result<Option<Duration>> {
    let Some(meta) = meta(alloc, is_wide) else {
        return Ok(None);
    };
    let Some(patch) = patch(&meta) else {
        return Ok(None);
    };
    let Ok((cell, _, mut passes)) = Cell::new(rt, alloc, &meta, &quotas(threads, calls)) else {
        return Ok(None);
    };
    let start = Instant::now(rt)?;
    write_beside(rt, &cell, passes.as_mut_slice(), &patch, calls);
    Ok(Some(start.elapsed(rt)?))
}

// So many entries for each of the first threads.
fn quotas(threads: u8, calls: u32) -> [u64; 8]
    ensures { sum result < 2 ^ 63 }
{
    [
        quota(0, threads, calls),
        quota(1, threads, calls),
        quota(2, threads, calls),
        quota(3, threads, calls),
        quota(4, threads, calls),
        quota(5, threads, calls),
        quota(6, threads, calls),
        quota(7, threads, calls),
    ]
}

fn quota(thread: u8, threads: u8, calls: u32) -> u64
    ensures { result < 2 ^ 32 }
{
    if thread < threads {
        u64::from(calls)
    } else {
        0
    }
}
