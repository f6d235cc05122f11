//! The frames of a dynamic payload (OPC 10000-14 7.2.4, UADP message mapping): a UInt16 size for each, little-endian, where they
//! are more than one, and then the frames.
ghost use Rattle.std.specs.Prelude.{◌≡◌, ◌<◌, ◌≤◌, ◌+◌, ◌*◌, ◌↔◌, [], length, take, drop, map, slice_range, sum, IsErr, IsTrue, OnOk, OnErr, All};
ghost use Rattle.std.specs.Int.{w16, from_le_bytes, to_le_bytes};
ghost use Rattle.std.specs.List.{flat_map};
ghost use Rattle.ua_binary.specs.Writing.{laid, Puts, Writes};
ghost use Rattle.payload_layout.specs.Payloads.{sizes_bytes, sizes_of, cut_by, frames_of, frame_at, HasBadSizes, IsWithin, StandBehind};

use arrayvec::ArrayVec;
use std::error::Error;
use std::fmt;
use ua_binary::{Pen, Room};

/// Where a frame stands in a payload, in bytes from the payload's first.
#[derive(Clone, Copy, Debug, Default, PartialEq, Eq)]
pub struct Part {
    /// Its first byte.
    pub start: usize,
    /// The byte behind its last.
    pub end: usize,
}

pub type Parts = ArrayVec<Part, 255>;

/// The sizes, or the frames that they tell of, pass the payload's end.
#[derive(Clone, Copy, Debug, PartialEq, Eq)]
pub struct BadSizes;

impl fmt::Display for BadSizes {
    ghost use Rattle.std.specs.Prelude.{Some};
    ghost use Rattle.payload_layout.specs.FaultTexts.{bad_sizes};

    ghost output = { λ _. Some bad_sizes };

    fn fmt<W: fmt::Write>(&self, f: &mut fmt::Formatter<W>) -> fmt::Result {
        f.write_str("the sizes of the frames pass the payload's end")
    }
}

impl Error for BadSizes {}

/// Writes the sizes of the frames of a payload, or nothing for one frame.
pub fn write_sizes(pen: &mut Pen<'_>, sizes: &[u16]) -> Result<(), Room>
    requires { length sizes.now ≤ 255 }
    ensures { Writes result pen.old pen.new (sizes_bytes sizes.now) }
{
    if sizes.len() <= 1 {
        return Ok(());
    }
    if pen.room() < 2 * sizes.len() {
        return Err(Room);
    }
    pen.at = put_sizes_at(&mut *pen.bytes, pen.at, sizes);
    Ok(())
}

/// Writes the sizes into these bytes from `at` on, and answers where they end. The bytes are lent, and not the pen, so that the
/// place stays in a register.
#[inline(always)]
fn put_sizes_at(bytes: &mut [u8], at: usize, sizes: &[u16]) -> usize
    requires { at + 2 * length sizes.now ≤ length bytes.old }
    ensures written { bytes.new ≡ laid bytes.old at (flat_map (to_le_bytes w16) sizes.now) }
    ensures end { result ≡ at + length (flat_map (to_le_bytes w16) sizes.now) }
    ensures within { result ≤ length bytes.new }
    ensures same_length { length bytes.new ≡ length bytes.old }
{
    let mut pen = Pen { bytes, at };
    put_sizes(&mut pen, sizes);
    pen.at
}

#[inline(always)]
fn put_sizes(pen: &mut Pen<'_>, sizes: &[u16])
    requires { pen.old.at + 2 * length sizes.now ≤ length pen.old.bytes.now }
    ensures { Puts pen.old pen.new (flat_map (to_le_bytes w16) sizes.now) }
{
    for size in sizes {
        pen.put_u16(*size);
    }
}

/// Finds the frames of a payload that has this many: one for each writer id of the header. What stands behind the last is
/// ignored, but for one frame, which is all of the payload. Bad sizes leave `parts` as it was.
pub fn split(payload: &[u8], count: u8, parts: &mut Parts) -> Result<(), BadSizes>
    ensures frames { OnOk result (map (frame_at payload.now) parts.new.items
        ≡ frames_of count payload.now) }
    ensures within { OnOk result (All (IsWithin payload.now) parts.new.items) }
    ensures in_order { OnOk result (1 < count → StandBehind (2 * count) parts.new.items) }
    ensures refused { IsErr result ↔ HasBadSizes count payload.now }
    ensures stays { OnErr result (parts.new ≡ parts.old) }
{
    if has_bad_sizes(payload, count) {
        return Err(BadSizes);
    }
    fill(parts, count);
    find(payload, count, parts.as_mut_slice());
    parts.truncate(usize::from(count));
    Ok(())
}

// So many places at least. Parts of an earlier payload stay, to be written over: to clear them takes
// as long as to find others.
#[inline(always)]
fn fill(parts: &mut Parts, count: u8)
    ensures { count ≤ length parts.new.items }
{
    for _ in parts.len()..usize::from(count) {
        parts.push(Part::default());
    }
}

/// Finds the frames, whose sizes are good, and puts them into the first of these places.
#[inline(always)]
fn find(payload: &[u8], count: u8, places: &mut [Part])
    requires good { ¬ HasBadSizes count payload.now }
    requires places { count ≤ length places.old }
    ensures frames { map (frame_at payload.now) (take count places.new)
        ≡ frames_of count payload.now }
    ensures within { All (IsWithin payload.now) (take count places.new) }
    ensures in_order { 1 < count → StandBehind (2 * count) (take count places.new) }
{
    if count == 1 {
        let end = payload.len();
        places[0] = Part { start: 0, end };
    } else {
        find_each(payload, count, places);
    }
}

// The sizes are judged before any part is found, so that a refusal leaves no part of its own.
fn has_bad_sizes(payload: &[u8], count: u8) -> bool
    ensures { IsTrue result ↔ HasBadSizes count payload.now }
{
    let mut end = 2 * usize::from(count);
    if count <= 1 {
        return false;
    }
    if payload.len() < end {
        return true;
    }
    for index in 0..usize::from(count) {
        end += usize::from(size_at(payload, index));
    }
    end > payload.len()
}

#[inline(always)]
fn find_each(payload: &[u8], count: u8, places: &mut [Part])
    requires good { 2 * count + sum (sizes_of count payload.now) ≤ length payload.now }
    requires places { count ≤ length places.old }
    ensures frames { map (frame_at payload.now) (take count places.new)
        ≡ cut_by (sizes_of count payload.now) (drop (2 * count) payload.now) }
    ensures within { All (IsWithin payload.now) (take count places.new) }
    ensures in_order { StandBehind (2 * count) (take count places.new) }
{
    let mut start = 2 * usize::from(count);
    for index in 0..usize::from(count) {
        let end = start + usize::from(size_at(payload, index));
        places[index] = Part { start, end };
        start = end;
    }
}

/// The size with this index.
#[inline(always)]
fn size_at(payload: &[u8], index: usize) -> u16
    requires { 2 * (index + 1) ≤ length payload.now }
    ensures { result ≡ from_le_bytes w16 (take 2 (drop (2 * index) payload.now)) }
{
    u16::from_le_bytes([payload[2 * index], payload[2 * index + 1]])
}
