//! The versions that this program's writers logged.
ghost use Rattle.std.specs.Prelude.{◌≡◌, ◌<◌, ℕ, true, IfSome, length, option_and_then, option_map, slice_get, Some};
ghost use Rattle.pubsub_model.specs.Answers.{version_of as version_in};
ghost use Rattle.ps_config.specs.declared.parts.ReadGroupPart.{ReadGroupPart as GroupValue};
ghost use Rattle.ps_config.specs.declared.parts.ReaderPart.{ReaderPart as PartValue};
ghost use Rattle.ps_report.specs.Told.{grouped_readers};
ghost use Rattle.writer_group.specs.Parts.{group_at};
ghost use Rattle.writer_group.specs.Standing.{IsGood};
ghost use Rattle.session_parts.specs.Holding.{AreGroups};
ghost use Rattle.pubsub_engine.specs.Logs.{IsLogNamed, IsLogRead, place_named, place_within};

use ps_config::{Config, GroupPart, ReadGroupPart, ReaderPart};
use session_parts::{Publisher as Publishing, group_part};

/// The log of this program's writer that the reader with this index over all read groups names, empty where the read group's
/// publisher is another, or has no such writer, and where no versions are told.
pub(crate) fn log_read<'a>(
    config: &Config,
    publisher: &'a Publishing,
    reader: usize,
    versions: bool,
) -> &'a [(u64, u64)]
    requires good { IsGood config.now }
    requires groups { AreGroups config.now publisher.now.groups.items }
    ensures log { (at : GroupValue × PartValue)
        → slice_get (grouped_readers config.now.readgroup) reader ≡ Some at
        → IsLogRead versions config.now publisher.now at result.now }
{
    if !versions {
        return &[];
    }
    match reader_part(config, reader) {
        Some((group, part)) if group.publisher.is_same(&config.publisher.id) => {
            log_named(config, publisher, part.writer)
        }
        _ => &[],
    }
}

/// The reader with this index over all read groups, with its read group.
fn reader_part(config: &Config, reader: usize) -> Option<(&ReadGroupPart, &ReaderPart)>
    ensures { option_map (λ at. (at.0.now, at.1.now)) result
        ≡ slice_get (grouped_readers config.now.readgroup) reader }
{
    let mut left = reader;
    for group in config.readgroup.as_slice() {
        let readers = group.reader.as_slice();
        if left < readers.len() {
            return Some((group, &readers[left]));
        }
        left -= readers.len();
    }
    None
}

/// The log of this program's writer with an id, empty where there is none.
fn log_named<'a>(config: &Config, publisher: &'a Publishing, id: u16) -> &'a [(u64, u64)]
    requires good { IsGood config.now }
    requires groups { AreGroups config.now publisher.now.groups.items }
    ensures log { IsLogNamed true config.now publisher.now id result.now }
{
    match writer_named(config, id) {
        Some((g, w)) => publisher.groups[g].writer(w as u8).log(),
        None => &[],
    }
}

/// The group of the writer with an id, and its index in this.
fn writer_named(config: &Config, id: u16) -> Option<(usize, usize)>
    ensures place { result ≡ place_named config.now id }
    ensures there { IfSome result (λ at. at.0 < length config.now.group) }
    ensures within { IfSome result (λ at. at.1 < length (group_at config.now at.0).writer) }
{
    for g in 0..config.group.as_slice().len() {
        if let Some(w) = writer_within(group_part(config, g), id) {
            return Some((g, w));
        }
    }
    None
}

/// The index of the group's writer with an id.
fn writer_within(group: &GroupPart, id: u16) -> Option<usize>
    ensures place { (g : ℕ) → option_map (λ w. (g, w)) result ≡ place_within group.now g id }
    ensures within { IfSome result (λ w. w < length group.now.writer) }
{
    let writers = group.writer.as_slice();
    for w in 0..writers.len() {
        if writers[w].id == id {
            return Some(w);
        }
    }
    None
}

/// The version that a log has at a number.
pub fn version_at(log: &[(u64, u64)], number: Option<u16>) -> Option<u64>
    ensures { result ≡ option_and_then (version_in log.now) number }
{
    match number {
        Some(number) => version_of(log, number),
        None => None,
    }
}

/// The version of the last data frame with this number.
fn version_of(log: &[(u64, u64)], number: u16) -> Option<u64>
    ensures { result ≡ version_in log.now number }
{
    let mut version = None;
    for (place, logged) in log {
        if *place % 65_536 == u64::from(number) {
            version = Some(*logged);
        }
    }
    version
}
