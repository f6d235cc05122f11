//! Which writer of a configuration a reader of it is matched to (OPC 10000-14 6.2.8, 6.2.9: the filter of a ReaderGroup and of a
//! DataSetReader).
ghost use Rattle.std.specs.Prelude.{◌≡◌, ◌<◌, ◌≤◌, ℕ, IfSome, None, true, length};
ghost use Rattle.group_laws.specs.Matching.{IsMatched, IsMatchedTo, ReadsWriter};
ghost use Rattle.writer_group.specs.Parts.{group_at};
ghost use Rattle.writer_group.specs.Standing.{IsGood};
ghost use Rattle.cmd_relay.specs.Sources.{AsksFor, IsRead};

use config_tables::Layout;
use ps_config::{Config, GroupPart, ReadGroupPart, ReaderPart, WriterPart};

/// The group and the index in it of the writer that the reader with this index in the read group is matched to.
pub fn matched_writer(config: &Config, readers: &ReadGroupPart, index: usize) -> Option<(u8, u8)>
    requires good { IsGood config.now }
    requires within { index < length readers.now.reader }
    ensures matched { IfSome result (λ at. at.0 < length config.now.group) }
    ensures reads { IfSome result
        (λ at. IsMatchedTo config.now readers.now index (group_at config.now at.0) at.1) }
    ensures none { result ≡ None → (g w : ℕ) → g < length config.now.group
        → ¬ IsMatchedTo config.now readers.now index (group_at config.now g) w }
{
    let groups = config.group.as_slice();
    for g in 0..groups.len() {
        if let Some(w) = writer_in(config, &groups[g], readers, index) {
            return Some((g as u8, w));
        }
    }
    None
}

/// The index of the writer of a group that the reader is matched to.
fn writer_in(
    config: &Config,
    group: &GroupPart,
    readers: &ReadGroupPart,
    index: usize,
) -> Option<u8>
    requires few { length group.now.writer ≤ 16 }
    requires within { index < length readers.now.reader }
    ensures reads { IfSome result (λ w. IsMatchedTo config.now readers.now index group.now w) }
    ensures none { result ≡ None
        → (w : ℕ) → ¬ IsMatchedTo config.now readers.now index group.now w }
{
    if !is_matched(config, group, readers) {
        return None;
    }
    writer_read(group, &readers.reader.as_slice()[index])
}

/// Whether the read group asks for datagrams of the group.
fn is_matched(config: &Config, group: &GroupPart, readers: &ReadGroupPart) -> bool
    ensures yes { result ≡ true → IsMatched config.now group.now readers.now }
    ensures no { IsMatched config.now group.now readers.now → result ≡ true }
{
    readers.publisher.is_same(&config.publisher.id)
        && asks_for(group, readers)
        && readers.layout == group.layout
        && readers.security == group.security
        && readers.keygroup == group.keygroup
}

/// Whether its filter takes the group's id, version and class id.
fn asks_for(group: &GroupPart, readers: &ReadGroupPart) -> bool
    ensures yes { result ≡ true → AsksFor group.now readers.now }
    ensures no { AsksFor group.now readers.now → result ≡ true }
{
    (readers.group == group.id || (readers.group == 0 && readers.layout == Layout::Dynamic))
        && (readers.version == 0 || readers.version == group.version)
        && (readers.class_id.is_none() || readers.class_id == group.class_id)
}

/// The index of the group's writer that the reader reads.
fn writer_read(group: &GroupPart, reader: &ReaderPart) -> Option<u8>
    requires few { length group.now.writer ≤ 16 }
    ensures reads { IfSome result (λ w. ReadsWriter group.now w reader.now) }
    ensures none { result ≡ None → (w : ℕ) → ¬ ReadsWriter group.now w reader.now }
{
    let writers = group.writer.as_slice();
    for w in 0..writers.len() {
        if is_read(group.layout, &writers[w], reader) {
            return Some(w as u8);
        }
    }
    None
}

/// Whether the reader has the writer's id and data set, and in a fixed layout its slot.
fn is_read(layout: Layout, writer: &WriterPart, reader: &ReaderPart) -> bool
    ensures yes { result ≡ true → IsRead layout writer.now reader.now }
    ensures no { IsRead layout writer.now reader.now → result ≡ true }
{
    reader.writer == writer.id
        && reader.dataset == writer.dataset
        && (layout == Layout::Dynamic
            || (reader.offset == writer.offset && reader.size == writer.size))
}
