//! A closed session from the pieces of a line.
ghost use Rattle.std.specs.Prelude.{◌≡◌, ◌+◌, ◌<◌, ◌++◌, IfOk, OnOk, List, length, All};
ghost use Rattle.ps_config.specs.declared.parts.ReaderPart.{ReaderPart};
ghost use Rattle.ps_report.specs.Conditions.{IsClosedOf, HoldRows, writers_of, readers_of};

use crate::reports::ends::{End, link, watch};
use crate::reports::held::reader;
use crate::reports::pieces::Pieces;
use case_lines::LineFault;
use dataset_meta::Meta;
use ps_config::{Config, GroupPart, ReadGroupPart, ReaderPart};
use ps_report::{Closed, Parts, ReaderEnd, WatchEnd, WriterEnd};
use std::alloc::Global;

/// The session that the pieces tell of.
pub fn closed_of(alloc: Global, config: &Config, pieces: &mut Pieces) -> Result<Closed, LineFault>
    ensures { IfOk result (IsClosedOf config.now) }
{
    let sets = config.dataset.as_slice();
    let group_parts = config.group.as_slice();
    let read_group_parts = config.readgroup.as_slice();
    let histories = ends(alloc, "history", sets.len(), pieces)?;
    let groups = ends(alloc, "group", group_parts.len(), pieces)?;
    let writers = writers(alloc, group_parts, pieces)?;
    let read_groups = ends(alloc, "readgroup", read_group_parts.len(), pieces)?;
    let readers = readers(alloc, sets, read_group_parts, pieces)?;
    let watches = watches(alloc, readers.as_slice(), pieces)?;
    pieces.begin("link");
    let link = link(&mut pieces.line);
    Ok(Closed {
        histories,
        groups,
        writers,
        read_groups,
        readers,
        watches,
        link,
    })
}

/// So many parts, whose pieces begin with this word.
fn ends<T: End + Drop>(
    alloc: Global,
    word: &str,
    count: usize,
    pieces: &mut Pieces,
) -> Result<Parts<T>, LineFault>
    ensures { IfOk result (λ ends. length ends ≡ count) }
{
    let mut ends = Vec::new(alloc);
    push_ends(alloc, &mut ends, word, count, pieces)?;
    Ok(Parts::new(ends))
}

fn push_ends<T: End + Drop>(
    alloc: Global,
    ends: &mut Vec<T>,
    word: &str,
    count: usize,
    pieces: &mut Pieces,
) -> Result<(), LineFault>
    ensures { OnOk result (length ends.new.items ≡ length ends.old.items + count) }
{
    for _index in 0..count {
        pieces.begin(word);
        ends.push(T::read(alloc, &mut pieces.line))?;
    }
    Ok(())
}

/// The writers of all groups.
fn writers(
    alloc: Global,
    groups: &[GroupPart],
    pieces: &mut Pieces,
) -> Result<Parts<WriterEnd>, LineFault>
    ensures { IfOk result (λ ends. length ends ≡ length (writers_of groups.now)) }
{
    let mut ends = Vec::new(alloc);
    for group in groups {
        let count = group.writer.as_slice().len();
        push_ends(alloc, &mut ends, "writer", count, pieces)?;
    }
    Ok(Parts::new(ends))
}

/// The readers of all read groups.
fn readers(
    alloc: Global,
    sets: &[Meta],
    groups: &[ReadGroupPart],
    pieces: &mut Pieces,
) -> Result<Parts<ReaderEnd>, LineFault>
    ensures { IfOk result (HoldRows sets.now (readers_of groups.now)) }
{
    let mut ends = Vec::new(alloc);
    for group in groups {
        push_readers(&mut ends, sets, group.reader.as_slice(), pieces)?;
    }
    Ok(Parts::new(ends))
}

fn push_readers(
    ends: &mut Vec<ReaderEnd>,
    sets: &[Meta],
    parts: &[ReaderPart],
    pieces: &mut Pieces,
) -> Result<(), LineFault>
    ensures { OnOk result ((before : List ReaderPart) → HoldRows sets.now before ends.old.items
        → HoldRows sets.now (before ++ parts.now) ends.new.items) }
{
    for part in parts {
        let end = reader(sets, part, pieces)?;
        ends.push(end)?;
    }
    Ok(())
}

/// The watch lines, of which a script has at most 64.
fn watches(
    alloc: Global,
    readers: &[ReaderEnd],
    pieces: &mut Pieces,
) -> Result<Parts<WatchEnd>, LineFault>
    ensures { IfOk result (All (λ end. end.reader < length readers.now)) }
{
    let mut ends = Vec::new(alloc);
    'lines: for _ in 0..64 {
        if !pieces.has_begun("watch") {
            break;
        }
        let end = watch(alloc, &mut pieces.line);
        if usize::from(end.reader) >= readers.len() {
            return Err(LineFault::Condition);
        }
        ends.push(end)?;
    }
    Ok(Parts::new(ends))
}
