//! Rows of `fixed_layout`.
ghost use Rattle.std.specs.Prelude.{◌≤◌, length};

use crate::frames::tell_fields;
use arrayvec::ArrayVec;
use case_lines::{
    Answer, CaseLine, LineFault, Told, number, parted, refused, said, told, two, written,
};
use dataset_meta::Meta;
use fixed_layout::{
    Slot, Slots, raw_size as size_of, read_raw as read_one, write_raw as write_one,
};
use frame_codec::{FrameKind, read_frame};
use std::alloc::Global;
use ua_binary::{Cursor, Pen};

/// `raw_size META`: how many bytes a row takes
pub fn raw_size(alloc: Global, meta: &Meta) -> Answer {
    told(alloc, &size_of(meta))
}

/// `read_raw META BYTES`: the fields, and how many bytes are left, or the fault, or `moved` where the cursor isn't left
pub fn read_raw(alloc: Global, meta: &Meta, line: &mut CaseLine) -> Answer {
    row_behind(alloc, meta, &line.bytes(alloc), 0)
}

/// `read_raw_behind META LEN BYTES`: the same of what stands behind so many bytes
pub fn read_raw_behind(alloc: Global, meta: &Meta, line: &mut CaseLine) -> Answer {
    let start = usize::from(line.u16());
    let bytes = line.bytes(alloc);
    if bytes.len() < start {
        return Err(LineFault::Condition);
    }
    row_behind(alloc, meta, &bytes, start)
}

fn row_behind(alloc: Global, meta: &Meta, bytes: &[u8], start: usize) -> Answer
    requires { start ≤ length bytes.now }
{
    let mut cursor = Cursor { bytes, at: start };
    match read_one(meta, &mut cursor) {
        Ok(words) => {
            let mut told = Told::new(alloc);
            told.say("row");
            tell_fields(&mut told, meta, &words, u64::MAX);
            told.named(", rest ", Some(bytes.len() - cursor.at));
            told.answer()
        }
        Err(fault) if cursor.at == start => refused(alloc, &fault),
        Err(_) => said(alloc, "moved"),
    }
}

/// `write_raw META ROOM FRAME`: the row of a key frame, written as RawData into so much room behind three bytes `aa`, with
/// these, or Room
pub fn write_raw(alloc: Global, meta: &Meta, line: &mut CaseLine) -> Answer {
    let len = usize::from(line.u16()).min(1021);
    let Ok(frame) = read_frame(meta, &line.bytes(alloc)) else {
        return Err(LineFault::Condition);
    };
    let FrameKind::Whole(words) = &frame.kind else {
        return Err(LineFault::Condition);
    };
    let mut room = [0xaa; 1024];
    let mut pen = Pen {
        bytes: &mut room[..3 + len],
        at: 3,
    };
    let done = write_one(&mut pen, meta, words).is_ok();
    let at = pen.at;
    written(alloc, done, 3, at, &room)
}

/// `slots START LIMIT SLOTS`: where a datagram ends, or the fault
pub fn slots(alloc: Global, line: &mut CaseLine) -> Answer {
    let (start, limit) = (line.u32(), line.u32());
    let list = slots_of(line.word())?;
    match Slots::new(start, limit, list.as_slice()) {
        Ok(slots) => two(alloc, &"end", &slots.end()),
        Err(fault) => refused(alloc, &fault),
    }
}

/// Slots in one word, as `7:19:19/26:4:4`: each with its offset, its size and what it is for; or `-` for none.
fn slots_of(word: &str) -> Result<ArrayVec<Slot, 16>, LineFault> {
    let mut slots = ArrayVec::new();
    if word == "-" {
        return Ok(slots);
    }
    for part in word.split('/') {
        if slots.is_full() {
            return Err(LineFault::Condition);
        }
        slots.push(slot_of(part)?);
    }
    Ok(slots)
}

fn slot_of(word: &str) -> Result<Slot, LineFault> {
    let (offset, rest) = parted(word, ':')?;
    let (size, need) = parted(rest, ':')?;
    Ok(Slot {
        offset: number(offset)?,
        size: number(size)?,
        need: number(need)?,
    })
}
