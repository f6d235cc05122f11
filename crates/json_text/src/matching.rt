//! Which readers read the lines.
ghost use Rattle.std.specs.Prelude.{◌≡◌, Some};
ghost use Rattle.std.specs.List.{list_any};
ghost use Rattle.reader_group.specs.Filter.{is_any_or};
ghost use Rattle.json_text.specs.Matching.{is_plain, asks_for, reads_writer, reads_group, is_matched};

use config_tables::{Layout, Security};
use ps_config::{Config, GroupPart, ReadGroupPart, ReaderPart, WriterPart};
use reader_group::has_class;

/// Unsecured, in a dynamic layout.
pub(crate) fn is_plain(layout: Layout, security: Security) -> bool
    ensures { result ≡ is_plain layout security }
{
    match (layout, security) {
        (Layout::Dynamic, Security::None) => true,
        _ => false,
    }
}

/// Whether a reader of such a read group is matched to a writer.
pub(crate) fn is_matched(config: &Config, readers: &ReadGroupPart, reader: &ReaderPart) -> bool
    ensures { result ≡ is_matched config.now readers.now reader.now }
{
    for group in config.group.as_slice() {
        if reads_group(config, readers, reader, group) {
            return true;
        }
    }
    false
}

fn reads_group(
    config: &Config,
    readers: &ReadGroupPart,
    reader: &ReaderPart,
    group: &GroupPart,
) -> bool
    ensures { result ≡ reads_group config.now readers.now reader.now group.now }
{
    asks_for(config, readers, group) && reads_any(reader, group.writer.as_slice())
}

fn asks_for(config: &Config, readers: &ReadGroupPart, group: &GroupPart) -> bool
    ensures { result ≡ asks_for config.now readers.now group.now }
{
    is_plain(group.layout, group.security)
        && readers.publisher.is_same(&config.publisher.id)
        && is_any_or(u32::from(readers.group), u32::from(group.id))
        && is_any_or(readers.version, group.version)
        && has_class(&readers.class_id, &group.class_id)
}

fn is_any_or(asked: u32, number: u32) -> bool
    ensures { result ≡ is_any_or asked (Some number) }
{
    asked == 0 || number == asked
}

fn reads_any(reader: &ReaderPart, writers: &[WriterPart]) -> bool
    ensures { result ≡ list_any (reads_writer reader.now) writers.now }
{
    for writer in writers {
        if reads_writer(reader, writer) {
            return true;
        }
    }
    false
}

fn reads_writer(reader: &ReaderPart, writer: &WriterPart) -> bool
    ensures { result ≡ reads_writer reader.now writer.now }
{
    writer.id == reader.writer && writer.dataset == reader.dataset
}
