//! Rows of `frame_codec`, and through it of `row_words`.
ghost use Rattle.std.specs.Prelude.{◌<◌, length};
ghost use Rattle.row_words.specs.Belonging.{Belongs};
ghost use Rattle.frame_codec.specs.Words.{IsFrameOf};

use case_lines::{Answer, CaseLine, LineFault, Shown, Told, refused, written};
use dataset_meta::Meta;
use frame_codec::{
    Frame, FrameKind, read_frame as read_one, read_front as read_first, write_frame,
};
use row_words::Row;
use std::alloc::Global;
use ua_binary::{Cursor, Pen};

/// `read_frame META BYTES`: the frame, or the fault
pub fn read_frame(alloc: Global, meta: &Meta, line: &mut CaseLine) -> Answer {
    let mut told = Told::new(alloc);
    match read_one(meta, &line.bytes(alloc)) {
        Ok(frame) => tell_frame(&mut told, meta, &frame),
        Err(fault) => told.name(&fault),
    }
    told.answer()
}

/// `rewrite_frame META BYTES`: the frame that the bytes are read as, written
pub fn rewrite_frame(alloc: Global, meta: &Meta, line: &mut CaseLine) -> Answer {
    let Ok(frame) = read_one(meta, &line.bytes(alloc)) else {
        return Err(LineFault::Condition);
    };
    let mut room = [0xaa; 2048];
    let mut pen = Pen {
        bytes: &mut room,
        at: 0,
    };
    let done = write_frame(&mut pen, meta, &frame).is_ok();
    let at = pen.at;
    written(alloc, done, 0, at, &room)
}

/// `read_front BYTES`: the fields before the field count in a fixed layout, and how many bytes are left, or the fault
pub fn read_front(alloc: Global, line: &mut CaseLine) -> Answer {
    let bytes = line.bytes(alloc);
    let mut cursor = Cursor {
        bytes: &bytes,
        at: 0,
    };
    match read_first(&mut cursor) {
        Ok(front) => {
            let rest = bytes.len() - cursor.at;
            let mut told = Told::new(alloc);
            told.named("encoding ", Some(front.encoding));
            told.named(" kind ", Some(front.kind));
            tell_versions(&mut told, front.number, front.major, front.minor);
            told.named(", rest ", Some(rest));
            told.answer()
        }
        Err(fault) => refused(alloc, &fault),
    }
}

/// Its kind, its number and versions, and its fields: each index with its value, and its status where that isn't 0.
fn tell_frame(told: &mut Told, meta: &Meta, frame: &Frame)
    requires { IsFrameOf meta.now frame.now }
{
    told.say(kind_of(&frame.kind));
    tell_versions(told, frame.number, frame.major, frame.minor);
    match &frame.kind {
        FrameKind::Whole(row) => tell_fields(told, meta, row, u64::MAX),
        FrameKind::Change(patch) => tell_fields(told, meta, &patch.row, patch.mask),
        FrameKind::Alive => {}
    }
}

/// The word of a frame's kind.
pub fn kind_of(kind: &FrameKind) -> &'static str {
    match kind {
        FrameKind::Whole(_) => "whole",
        FrameKind::Change(_) => "change",
        FrameKind::Alive => "alive",
    }
}

fn tell_versions(told: &mut Told, number: Option<u16>, major: Option<u32>, minor: Option<u32>) {
    told.named(" ", number);
    told.named(" major ", major);
    told.named(" minor ", minor);
}

/// The fields whose bits of the mask are set.
pub fn tell_fields(told: &mut Told, meta: &Meta, row: &Row, mask: u64)
    requires { Belongs meta.now row.now.words }
{
    for index in 0..meta.fields().len() {
        if mask >> (index % 64) & 1 == 1 {
            tell_field(told, meta, row, index as u8);
        }
    }
}

fn tell_field(told: &mut Told, meta: &Meta, row: &Row, index: u8)
    requires belongs { Belongs meta.now row.now.words }
    requires index { index < length meta.now.fields }
{
    told.named(", ", Some(index));
    told.say("=");
    told.show(&Shown(&row.field(meta, index)));
    let status = row.status(meta, index);
    if status != 0 {
        told.status(" !", status);
    }
}
