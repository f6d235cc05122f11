//! What is written of a session's lines.
ghost use Rattle.std.specs.Prelude.{◌≡◌, ◌++◌, ◌<◌, length, filter, IfOk, OnOk, All};
ghost use Rattle.dataset_reader.specs.Reader.{IsReaderOf, kept_by};
ghost use Rattle.ps_config.specs.Sound.{IsSound, IsReader, IsReadGroup};
ghost use Rattle.json_frames.specs.Parts.{IsPartOf, meta_at, parts_in};
ghost use Rattle.json_text.specs.Matching.{is_matched, readers_in, json_readers};
ghost use Rattle.json_text.specs.Texts.{lines_text, kept_text, reader_line, readers_text, TellsLines};

use crate::matching::{is_matched, is_plain};
use crate::put::{put_count, put_number};
use crate::reading::parts_of;
use crate::records::{meta_of, reader_over};
use dataset_meta::Meta;
use dataset_reader::Reader;
use json_frames::JsonPart;
use json_tap::JsonLine;
use ps_config::{Config, ReadGroupPart, ReaderPart};
use ps_report::{put, put_end, put_feed, put_row, put_waits};
use std::alloc::Global;
use ua_base::NoMemory;

/// The lines, what the readers hold of them, and how many there are.
pub fn text_of_lines(
    alloc: Global,
    config: &Config,
    lines: &[JsonLine],
    skipped: u64,
) -> Result<Vec<u8>, NoMemory>
    requires { IsSound config.now }
    ensures { IfOk result (λ text. TellsLines config.now lines.now skipped text.items) }
{
    let parts = parts_of(alloc, config, lines)?;
    let mut out = Vec::new(alloc);
    put_lines(&mut out, lines)?;
    put_groups(&mut out, config, &parts)?;
    put_count(&mut out, lines.len() as u64, skipped)?;
    put_end(&mut out)?;
    Ok(out)
}

fn put_lines(out: &mut Vec<u8>, lines: &[JsonLine]) -> Result<(), NoMemory>
    ensures { OnOk result (out.new.items ≡ out.old.items ++ lines_text lines.now) }
{
    for line in lines {
        put(out, line.as_bytes())?;
        put_feed(out)?;
    }
    Ok(())
}

/// The matched readers of all unsecured read groups in a dynamic layout.
fn put_groups(out: &mut Vec<u8>, config: &Config, parts: &[JsonPart]) -> Result<(), NoMemory>
    requires sound { IsSound config.now }
    requires parts { All (IsPartOf config.now.dataset) parts.now }
    ensures { OnOk result (out.new.items ≡ out.old.items ++ readers_text config.now
        (parts_in config.now.dataset parts.now) (json_readers config.now)) }
{
    for group in config.readgroup.as_slice() {
        put_group(out, config, group, parts)?;
    }
    Ok(())
}

fn put_group(
    out: &mut Vec<u8>,
    config: &Config,
    group: &ReadGroupPart,
    parts: &[JsonPart],
) -> Result<(), NoMemory>
    requires group { IsReadGroup config.now group.now }
    requires parts { All (IsPartOf config.now.dataset) parts.now }
    ensures { OnOk result (out.new.items ≡ out.old.items ++ readers_text config.now
        (parts_in config.now.dataset parts.now) (readers_in config.now group.now)) }
{
    if is_plain(group.layout, group.security) {
        return put_matched(out, config, group, parts);
    }
    Ok(())
}

fn put_matched(
    out: &mut Vec<u8>,
    config: &Config,
    group: &ReadGroupPart,
    parts: &[JsonPart],
) -> Result<(), NoMemory>
    requires group { IsReadGroup config.now group.now }
    requires parts { All (IsPartOf config.now.dataset) parts.now }
    ensures { OnOk result (out.new.items ≡ out.old.items ++ readers_text config.now
        (parts_in config.now.dataset parts.now)
        (filter (is_matched config.now group.now) group.now.reader)) }
{
    for reader in group.reader.as_slice() {
        if is_matched(config, group, reader) {
            put_reader(out, config, reader, parts)?;
        }
    }
    Ok(())
}

#[tactic(auto, unfolding(crate::specs::Texts::reader_line))]
fn put_reader(
    out: &mut Vec<u8>,
    config: &Config,
    part: &ReaderPart,
    parts: &[JsonPart],
) -> Result<(), NoMemory>
    requires dataset { part.now.dataset < length config.now.dataset }
    requires parts { All (IsPartOf config.now.dataset) parts.now }
    ensures { OnOk result (out.new.items ≡ out.old.items ++ reader_line config.now
        (parts_in config.now.dataset parts.now) part.now) }
{
    let meta = meta_of(config, part);
    let reader = reader_over(config, part, parts);
    put(out, b"jsonreader ")?;
    put(out, part.name.as_bytes())?;
    put_kept(out, meta, &reader)?;
    put_feed(out)
}

/// The row that a reader holds, or why it waits.
fn put_kept(out: &mut Vec<u8>, meta: &Meta, reader: &Reader) -> Result<(), NoMemory>
    requires { IsReaderOf meta.now reader.now }
    ensures { OnOk result (out.new.items ≡ out.old.items
        ++ kept_text meta.now.fields (kept_by meta.now.fields reader.now)) }
{
    match reader.row() {
        None => put_waits(out, reader.why()),
        Some(row) => {
            put_number(out, reader.number())?;
            put_row(out, meta, row)
        }
    }
}
