//! A large session as it was when it closed.
ghost use Rattle.std.specs.Prelude.{◌≡◌, ◌<◌, IfOk, length, All};
ghost use Rattle.row_words.specs.Belonging.{Belongs};
ghost use Rattle.ps_report.specs.Conditions.{IsClosedOf, HoldsRow, HoldRows};

use arrayvec::ArrayVec;
use bench_base::Unmeasured;
use dataset_meta::Meta;
use ps_config::{Config, ReaderPart, WriterPart};
use ps_report::{
    Break, Closed, GroupEnd, HeldEnd, History, LinkEnd, Parts, ReadGroupEnd, ReaderEnd, State,
    WatchEnd, Why, WriterEnd,
};
use row_words::Row;
use std::alloc::Global;

/// How many versions each data set has, log entries each writer, and looks each watch line.
#[derive(Clone, Copy)]
pub struct Sizes {
    pub versions: u32,
    pub entries: u32,
    pub looks: u32,
}

/// The session of a configuration with one group and one read group: all is operational, and each reader holds zeros.
pub fn closed_of(alloc: Global, config: &Config, sizes: &Sizes) -> Result<Closed, Unmeasured>
    ensures { IfOk result (IsClosedOf config.now) }
{
    let [group] = config.group.as_slice() else {
        return Err(Unmeasured);
    };
    let [read_group] = config.readgroup.as_slice() else {
        return Err(Unmeasured);
    };
    let sets = config.dataset.as_slice();
    let readers = readers(alloc, sets, read_group.reader.as_slice())?;
    Ok(Closed {
        histories: histories(alloc, sets, sizes.versions)?,
        groups: one(alloc, group_end(sizes.entries))?,
        writers: writers(alloc, group.writer.as_slice(), sizes.entries)?,
        read_groups: one(alloc, read_group_end(sizes.entries))?,
        watches: watches(alloc, readers.as_slice(), sizes.looks)?,
        readers,
        link: link(sizes.entries),
    })
}

fn one<T: Drop>(alloc: Global, end: T) -> Result<Parts<T>, Unmeasured>
    ensures { IfOk result (λ ends. length ends ≡ 1) }
{
    let mut ends = Vec::new(alloc);
    ends.push(end)?;
    Ok(Parts::new(ends))
}

fn histories(alloc: Global, sets: &[Meta], versions: u32) -> Result<Parts<History>, Unmeasured>
    ensures { IfOk result (λ ends. length ends ≡ length sets.now) }
{
    let mut ends = Vec::new(alloc);
    for _set in sets {
        let threads = threads(alloc, versions)?;
        ends.push(History { threads })?;
    }
    Ok(Parts::new(ends))
}

/// Eight threads by turns.
fn threads(alloc: Global, versions: u32) -> Result<Parts<u8>, Unmeasured> {
    let mut threads = Vec::new(alloc);
    for version in 0..versions {
        threads.push((version % 8) as u8)?;
    }
    Ok(Parts::new(threads))
}

fn group_end(entries: u32) -> GroupEnd {
    GroupEnd {
        state: State::Operational,
        sent: u64::from(entries),
    }
}

fn writers(
    alloc: Global,
    parts: &[WriterPart],
    entries: u32,
) -> Result<Parts<WriterEnd>, Unmeasured>
    ensures { IfOk result (λ ends. length ends ≡ length parts.now) }
{
    let mut ends = Vec::new(alloc);
    for _part in parts {
        let log = log(alloc, entries)?;
        ends.push(WriterEnd {
            state: State::Operational,
            log,
        })?;
    }
    Ok(Parts::new(ends))
}

/// Eight versions more at each place.
fn log(alloc: Global, entries: u32) -> Result<Parts<(u64, u64)>, Unmeasured> {
    let mut log = Vec::new(alloc);
    for entry in 0..entries {
        let place = u64::from(entry);
        log.push((place, place.wrapping_mul(8)))?;
    }
    Ok(Parts::new(log))
}

fn read_group_end(taken: u32) -> ReadGroupEnd {
    ReadGroupEnd {
        state: State::Operational,
        taken: u64::from(taken),
        causes: [0; 20],
    }
}

fn readers(
    alloc: Global,
    sets: &[Meta],
    parts: &[ReaderPart],
) -> Result<Parts<ReaderEnd>, Unmeasured>
    ensures { IfOk result (HoldRows sets.now parts.now) }
{
    let mut ends = Vec::new(alloc);
    for part in parts {
        let end = reader(sets, part)?;
        ends.push(end)?;
    }
    Ok(Parts::new(ends))
}

fn reader(sets: &[Meta], part: &ReaderPart) -> Result<ReaderEnd, Unmeasured>
    ensures { IfOk result (HoldsRow sets.now part.now) }
{
    let Some(meta) = sets.get(usize::from(part.dataset)) else {
        return Err(Unmeasured);
    };
    Ok(ReaderEnd {
        state: State::Operational,
        held: Some(HeldEnd {
            number: Some(4096),
            version: Some(32_768),
            row: opening(meta),
        }),
        why: Why::Start,
        breaks: 1000,
        recent: breaks(),
    })
}

fn opening(meta: &Meta) -> Row
    ensures { Belongs meta.now result.words }
{
    let _fields = meta.fields();
    Row::opening()
}

fn breaks() -> ArrayVec<Break, 8> {
    let one = Break {
        expected: 40_000,
        got: 40_002,
    };
    ArrayVec::from([one; 8])
}

/// 64 watch lines of the first reader.
fn watches(alloc: Global, readers: &[ReaderEnd], looks: u32) -> Result<Parts<WatchEnd>, Unmeasured>
    ensures { IfOk result (All (λ end. end.reader < length readers.now)) }
{
    if readers.is_empty() {
        return Err(Unmeasured);
    }
    let mut ends = Vec::new(alloc);
    for line in 0..64u8 {
        let counts = counts(alloc, looks)?;
        ends.push(WatchEnd {
            thread: line / 8,
            reader: 0,
            counts,
        })?;
    }
    Ok(Parts::new(ends))
}

/// Four stores more at each look.
fn counts(alloc: Global, looks: u32) -> Result<Parts<u64>, Unmeasured> {
    let mut counts = Vec::new(alloc);
    for look in 0..looks {
        counts.push(u64::from(look).wrapping_mul(4))?;
    }
    Ok(Parts::new(counts))
}

fn link(sent: u32) -> LinkEnd {
    let sent = u64::from(sent);
    LinkEnd {
        sent,
        failed: 0,
        received: sent,
        broken: 0,
        long: 0,
        limit: 0,
    }
}
