//! Frames written and read, each many times.
ghost use Rattle.frame_codec.specs.Words.{IsFrameOf};

use crate::metas::{Unmeasured, meta_of, row_of};
use dataset_meta::Meta;
use frame_codec::{Frame, FrameKind, read_frame, write_frame};
use std::alloc::Global;
use ua_binary::{Pen, Room};

// What is measured is a call, as that of the codec by hand is; `read_frame` is one by itself.
#[inline(never)]
fn write_once(pen: &mut Pen<'_>, meta: &Meta, frame: &Frame) -> Result<(), Room>
    requires { IsFrameOf meta.now frame.now }
{
    write_frame(pen, meta, frame)
}

/// Writes the frame `turns` times, and answers its length.
fn write_often(meta: &Meta, frame: &mut Frame, turns: u32, bytes: &mut [u8]) -> Option<usize>
    requires { IsFrameOf meta.now frame.old }
{
    let mut end = 0;
    for turn in 0..turns {
        frame.number = Some((turn % 65_536) as u16);
        let mut pen = Pen {
            bytes: &mut *bytes,
            at: 0,
        };
        match write_once(&mut pen, meta, frame) {
            Ok(()) => end = pen.at,
            Err(_) => return None,
        }
    }
    Some(end)
}

fn write(
    alloc: Global,
    fields: u8,
    quality: bool,
    turns: u32,
    bytes: &mut [u8],
) -> Result<Option<usize>, Unmeasured> {
    let meta = meta_of(alloc, fields, quality)?;
    let mut frame = Frame {
        number: Some(0),
        kind: FrameKind::Whole(row_of(&meta)),
        major: None,
        minor: None,
    };
    Ok(write_often(&meta, &mut frame, turns, bytes))
}

/// Writes the key frame of so many fields `turns` times, and answers its length; 0 where nothing is measured.
#[unsafe(no_mangle)]
pub extern "C" fn bench_write(
    alloc: Global,
    fields: u8,
    quality: bool,
    turns: u32,
    bytes: &mut [u8],
) -> usize {
    match write(alloc, fields, quality, turns, bytes) {
        Ok(end) => end.unwrap_or(0),
        Err(_) => 0,
    }
}

/// The word with the statuses of the third field and the fourth.
fn statuses(meta: &Meta, bytes: &[u8]) -> Result<u64, Unmeasured> {
    prove!(meta.fields().len() <= 64);
    match read_frame(meta, bytes) {
        Ok(frame) => match frame.kind {
            FrameKind::Whole(row) => Ok(row.words[meta.fields().len() + 1]),
            _ => Err(Unmeasured),
        },
        Err(_) => Err(Unmeasured),
    }
}

fn read(
    alloc: Global,
    fields: u8,
    quality: bool,
    turns: u32,
    bytes: &[u8],
) -> Result<u64, Unmeasured> {
    let meta = meta_of(alloc, fields, quality)?;
    let mut sum = statuses(&meta, bytes)?;
    for _ in 0..turns {
        let Ok(frame) = read_frame(&meta, bytes) else {
            return Err(Unmeasured);
        };
        if let FrameKind::Whole(row) = &frame.kind {
            sum = sum.wrapping_add(row.words[0]);
        }
    }
    Ok(sum)
}

/// Reads the bytes as a key frame of so many fields `turns` times, and answers the sum of the first fields, and once of the
/// statuses of the third and the fourth; 0 where nothing is measured.
#[unsafe(no_mangle)]
pub extern "C" fn bench_read(
    alloc: Global,
    fields: u8,
    quality: bool,
    turns: u32,
    bytes: &[u8],
) -> u64 {
    read(alloc, fields, quality, turns, bytes).unwrap_or(0)
}
