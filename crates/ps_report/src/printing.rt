//! The report of a closed session.
ghost use Rattle.std.specs.Prelude.{◌≡◌, ◌<◌, ◌++◌, IfOk, OnOk, length, All};
ghost use Rattle.dataset_meta.specs.Metas.{MetaData};
ghost use Rattle.ps_report.specs.Conditions.{IsClosedOf, HoldRows, writers_of, readers_of};
ghost use Rattle.ps_report.specs.Reports.{history_lines, writer_lines, group_lines, reader_lines, read_group_lines, reader_name, watch_lines, report_text};

use crate::closed::{Closed, GroupEnd, History, ReadGroupEnd, ReaderEnd, WatchEnd, WriterEnd};
use crate::lines::{
    put_end, put_gaps, put_group, put_history, put_link, put_read_group, put_reader, put_watch,
    put_writer,
};
use crate::readers::reader_at;
use dataset_meta::Meta;
use ps_config::{Config, GroupPart, ReadGroupPart, ReaderPart, WriterPart};
use std::alloc::Global;
use ua_base::NoMemory;

/// The report: a line for each history, group, writer and read group, two for each reader, one for each watch line and one for
/// the link, and the end.
#[tactic(auto, unfolding(crate::specs::Reports::report_text))]
pub fn report(alloc: Global, config: &Config, closed: &Closed) -> Result<Vec<u8>, NoMemory>
    requires { IsClosedOf config.now closed.now }
    ensures { IfOk result (λ text. text.items ≡ report_text config.now closed.now) }
{
    let mut out = Vec::new(alloc);
    let sets = config.dataset.as_slice();
    put_histories(&mut out, sets, closed.histories.as_slice())?;
    put_groups(
        &mut out,
        config.group.as_slice(),
        closed.groups.as_slice(),
        closed.writers.as_slice(),
    )?;
    put_read_groups(
        &mut out,
        sets,
        config.readgroup.as_slice(),
        closed.read_groups.as_slice(),
        closed.readers.as_slice(),
    )?;
    put_watches(&mut out, config, closed.watches.as_slice())?;
    put_link(&mut out, &closed.link)?;
    put_end(&mut out)?;
    Ok(out)
}

fn put_histories(out: &mut Vec<u8>, sets: &[Meta], histories: &[History]) -> Result<(), NoMemory>
    requires { length histories.now ≡ length sets.now }
    ensures { OnOk result (out.new.items ≡ out.old.items ++ history_lines sets.now histories.now) }
{
    for i in 0..sets.len() {
        let history = &histories[i];
        put_history(out, sets[i].name(), history.threads.as_slice())?;
    }
    Ok(())
}

/// The lines of the groups, each followed by those of its writers.
fn put_groups(
    out: &mut Vec<u8>,
    parts: &[GroupPart],
    ends: &[GroupEnd],
    writers: &[WriterEnd],
) -> Result<(), NoMemory>
    requires groups { length ends.now ≡ length parts.now }
    requires writers { length writers.now ≡ length (writers_of parts.now) }
    ensures { OnOk result
        (out.new.items ≡ out.old.items ++ group_lines parts.now ends.now writers.now) }
{
    let mut rest = writers;
    for i in 0..parts.len() {
        let part = &parts[i];
        let own = part.writer.as_slice();
        let (mine, others) = rest.split_at(own.len());
        put_group(out, &part.name, &ends[i])?;
        put_writers(out, own, mine)?;
        rest = others;
    }
    Ok(())
}

fn put_writers(out: &mut Vec<u8>, parts: &[WriterPart], ends: &[WriterEnd]) -> Result<(), NoMemory>
    requires { length ends.now ≡ length parts.now }
    ensures { OnOk result (out.new.items ≡ out.old.items ++ writer_lines parts.now ends.now) }
{
    for i in 0..parts.len() {
        let part = &parts[i];
        let end = &ends[i];
        put_writer(out, &part.name, end)?;
    }
    Ok(())
}

/// The lines of the read groups, each followed by those of its readers.
fn put_read_groups(
    out: &mut Vec<u8>,
    sets: &[Meta],
    parts: &[ReadGroupPart],
    ends: &[ReadGroupEnd],
    readers: &[ReaderEnd],
) -> Result<(), NoMemory>
    requires groups { length ends.now ≡ length parts.now }
    requires readers { HoldRows sets.now (readers_of parts.now) readers.now }
    ensures { OnOk result (out.new.items ≡ out.old.items
        ++ read_group_lines sets.now parts.now ends.now readers.now) }
{
    let mut rest = readers;
    for i in 0..parts.len() {
        let part = &parts[i];
        let own = part.reader.as_slice();
        let (mine, others) = rest.split_at(own.len());
        put_read_group(out, &part.name, &ends[i])?;
        put_readers(out, sets, own, mine)?;
        rest = others;
    }
    Ok(())
}

fn put_readers(
    out: &mut Vec<u8>,
    sets: &[Meta],
    parts: &[ReaderPart],
    ends: &[ReaderEnd],
) -> Result<(), NoMemory>
    requires { HoldRows sets.now parts.now ends.now }
    ensures { OnOk result
        (out.new.items ≡ out.old.items ++ reader_lines sets.now parts.now ends.now) }
{
    prove!(ends.len() == parts.len());
    for i in 0..parts.len() {
        let part = &parts[i];
        let end = &ends[i];
        put_reader(out, sets, part, end)?;
        put_gaps(out, &part.name, end.breaks, end.recent.as_slice())?;
    }
    Ok(())
}

fn put_watches(out: &mut Vec<u8>, config: &Config, watches: &[WatchEnd]) -> Result<(), NoMemory>
    requires { All (λ end. end.reader < length (readers_of config.now.readgroup)) watches.now }
    ensures { OnOk result (out.new.items ≡ out.old.items ++ watch_lines config.now watches.now) }
{
    for end in watches {
        let reader = reader_at(config.readgroup.as_slice(), usize::from(end.reader));
        put_watch(out, end.thread, &reader.name, end.counts.as_slice())?;
    }
    Ok(())
}
