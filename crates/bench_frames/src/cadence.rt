//! A writer's turns and a reader's frames, each made many times.
ghost use Rattle.std.specs.Prelude.{◌≡◌, ◌+◌, ◌<◌, IfOk};
ghost use Rattle.row_words.specs.Belonging.{Belongs};
ghost use Rattle.row_words.specs.Patches.{IsPatchOf};
ghost use Rattle.frame_codec.specs.Words.{IsFrameOf};
ghost use Rattle.dataset_writer.specs.Standing.{HoldsRowOf};
ghost use Rattle.dataset_reader.specs.Reader.{IsReaderOf};

use crate::metas::{Unmeasured, meta_of, row_of};
use dataset_meta::Meta;
use dataset_reader::{Numbering, Outcome, Reader, Took};
use dataset_writer::{Writer, WriterSettings};
use frame_codec::{Frame, FrameKind};
use row_words::{Patch, Row};
use std::alloc::Global;
use ua_values::{Value, fits};

/// The change of the middle field to this value.
fn patch_of(meta: &Meta, value: u32) -> Patch
    ensures { IsPatchOf meta.now result }
{
    let value = Value::UInt32(value);
    let index = meta.fields().len() / 2;
    let field = meta.fields()[index];
    let mut patch = Patch::empty();
    if fits(&value, field.kind, field.cap) && !meta.quality() {
        patch.put(meta, index as u8, &value, 0);
    }
    patch
}

// What is measured is a call, as that of the writer by hand is.
#[inline(never)]
fn turn_once(writer: &mut Writer, meta: &Meta, now: u64, row: &Row) -> bool
    requires left { 0 < writer.old.left }
    requires holds { HoldsRowOf meta.now writer.old }
    requires row { Belongs meta.now row.now.words }
    ensures holds { HoldsRowOf meta.now writer.new }
    ensures left { writer.new.left + 1 ≡ writer.old.left }
{
    writer.answer(meta, now, row, 1, false)
}

#[inline(never)]
fn frame_once(reader: &mut Reader, meta: &Meta, frame: &Frame) -> Took
    requires frame { IsFrameOf meta.now frame.now }
    requires reader { IsReaderOf meta.now reader.old }
    ensures { IsReaderOf meta.now reader.new }
{
    reader.frame(meta, frame, None)
}

/// Takes the turns that are left, all with this row, and answers how many were quiet.
fn take_turns(writer: &mut Writer, meta: &Meta, row: &Row) -> u64
    requires holds { HoldsRowOf meta.now writer.old }
    requires row { Belongs meta.now row.now.words }
{
    let mut quiet: u64 = 0;
    let mut now: u64 = 0;
    while writer.left() > 0 {
        now = now.wrapping_add(100);
        if !turn_once(writer, meta, now, row) {
            quiet = quiet.wrapping_add(1);
        }
    }
    quiet
}

/// Gives the reader this frame with the numbers from 1 to `turns`, and answers how often it held it.
fn take_frames(reader: &mut Reader, meta: &Meta, frame: &mut Frame, turns: u32) -> u64
    requires frame { IsFrameOf meta.now frame.old }
    requires reader { IsReaderOf meta.now reader.old }
    ensures { IsReaderOf meta.now reader.new }
{
    let mut held: u64 = 0;
    for turn in 0..turns {
        frame.number = Some(((u64::from(turn) + 1) % 65_536) as u16);
        if frame_once(reader, meta, frame).outcome == Outcome::Held {
            held = held.wrapping_add(1);
        }
    }
    held
}

fn settings() -> WriterSettings
    ensures { 0 < result.key_frame_count }
{
    WriterSettings {
        first_number: 0,
        key_frame_count: u32::MAX,
        keep_alive: 0,
        versions: false,
    }
}

fn writer(alloc: Global, meta: &Meta, turns: u32) -> Result<Writer, Unmeasured>
    ensures { IfOk result (HoldsRowOf meta.now) }
{
    let _fields = meta.fields();
    match Writer::new(alloc, settings(), u64::from(turns), turns) {
        Ok(writer) => Ok(writer),
        Err(_) => Err(Unmeasured),
    }
}

fn quiet(alloc: Global, fields: u8, turns: u32) -> Result<u64, Unmeasured> {
    let meta = meta_of(alloc, fields, false)?;
    let row = row_of(&meta);
    let mut writer = writer(alloc, &meta, turns)?;
    Ok(take_turns(&mut writer, &meta, &row))
}

/// A writer's `turns` turns, all with one row of so many fields; answers how many of them were quiet, which is all but the
/// first. With 0 nothing is measured.
#[unsafe(no_mangle)]
pub extern "C" fn bench_quiet(alloc: Global, fields: u8, turns: u32) -> u64 {
    quiet(alloc, fields, turns).unwrap_or(0)
}

fn frame_with(kind: FrameKind) -> Frame
    ensures { result.kind ≡ kind }
{
    Frame {
        number: Some(0),
        kind,
        major: None,
        minor: None,
    }
}

fn held(alloc: Global, fields: u8, turns: u32) -> Result<u64, Unmeasured> {
    if fields > 64 {
        return Err(Unmeasured);
    }
    let meta = meta_of(alloc, fields, false)?;
    let mut reader = Reader::new(Numbering::Message);
    let _ = frame_once(
        &mut reader,
        &meta,
        &frame_with(FrameKind::Whole(row_of(&meta))),
    );
    let mut change = frame_with(FrameKind::Change(patch_of(&meta, 7)));
    let held = take_frames(&mut reader, &meta, &mut change, turns);
    match reader.row() {
        Some(row) => Ok(held.wrapping_add(row.words[usize::from(fields / 2)])),
        None => Err(Unmeasured),
    }
}

/// A reader that holds a row of so many fields takes `turns` delta frames, with consecutive numbers, that set the middle
/// field to 7; answers how many of them it held, and 7 more. With 0 nothing is measured.
#[unsafe(no_mangle)]
pub extern "C" fn bench_held(alloc: Global, fields: u8, turns: u32) -> u64 {
    held(alloc, fields, turns).unwrap_or(0)
}
