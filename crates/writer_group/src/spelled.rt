//! The frames of a turn, as they are spelled.
ghost use Rattle.std.specs.Prelude.{◌≡◌, ◌<◌, ◌≤◌, ◌+◌, ◌-◌, ◌*◌, ◌∷◌, ◌++◌, ℕ, List, [], length};
ghost use Rattle.std.specs.Int.{w16, to_le_bytes};
ghost use Rattle.ua_binary.specs.Writing.{laid, Puts};
ghost use Rattle.frame_codec.specs.Spelling.{frame_bytes, front_bytes};
ghost use Rattle.row_words.specs.Belonging.{Belongs, row_in};
ghost use Rattle.dataset_meta.specs.declared.field.Field.{Field as AnyField};
ghost use Rattle.fixed_layout.specs.Spelling.{raw_row};
ghost use Rattle.frame_codec.specs.Words.{IsFrameOf, IsKindOf, content_in, frame_in};
ghost use Rattle.writer_group.specs.Limits.{longest_frame};
ghost use Rattle.writer_group.specs.Payloads.{laid_frame, raw_content, raw_frame};

use dataset_meta::Meta;
use fixed_layout::write_raw;
use frame_codec::{Frame, FrameKind, write_frame, write_front};
use ps_config::{Layout, WriterPart};
use row_words::Row;
use ua_binary::Pen;

/// Where a frame stands.
#[derive(Clone, Copy, Debug, Default, PartialEq, Eq)]
pub(crate) struct SpelledFrame {
    /// The index of its writer in the group.
    pub writer: u8,
    /// The writer's id.
    pub id: u16,
    /// The number that it carries.
    pub number: u16,
    /// Its first byte.
    pub start: usize,
    /// The byte after its last.
    pub end: usize,
}

/// The frames of a turn, in the order of their writers.
#[derive(Drop)]
pub(crate) struct Frames {
    list: [SpelledFrame; 16],
    // Their sizes in bytes.
    sizes: [u16; 16],
    // Their writers' ids, two bytes each.
    ids: [u8; 32],
    // How many frames there are. What stands after them is of earlier turns.
    count: usize,
    /// The byte after the last frame.
    pub end: usize,
    ghost few: { count ≤ 16 },
}

impl Frames {
    ghost use Rattle.writer_group.specs.Holding.{AreSpelledIn, frames_at, listed, listed_ids, listed_sizes, number_or_zero, spelled_words};

    pub fn new() -> Frames
        ensures spelled { (bytes : List ℕ) → AreSpelledIn bytes result }
        ensures none { (bytes : List ℕ) → frames_at bytes result ≡ [] }
    {
        Frames {
            list: [SpelledFrame::default(); 16],
            sizes: [0; 16],
            ids: [0; 32],
            count: 0,
            end: 0,
        }
    }

    pub fn clear(&mut self)
        ensures spelled { (bytes : List ℕ) → AreSpelledIn bytes self.new }
        ensures none { (bytes : List ℕ) → frames_at bytes self.new ≡ [] }
    {
        self.count = 0;
        self.end = 0;
    }

    /// The frames.
    pub fn list(&self) -> &[SpelledFrame]
        ensures { result.now ≡ listed self.now }
    {
        &self.list[..self.count]
    }

    /// Their sizes in bytes.
    pub fn sizes(&self) -> &[u16]
        ensures { result.now ≡ listed_sizes self.now }
    {
        &self.sizes[..self.count]
    }

    /// Their writers' ids, two bytes each.
    pub fn ids(&self) -> &[u8]
        ensures { result.now ≡ listed_ids self.now }
    {
        &self.ids[..2 * self.count]
    }

    /// Spells a frame after the others. A call, so that the loop over writers stays short.
    #[inline(never)]
    pub fn spell(
        &mut self,
        bytes: &mut [u8],
        layout: Layout,
        writer: u8,
        part: &WriterPart,
        meta: &Meta,
        frame: &Frame,
    )
        requires frame { IsFrameOf meta.now frame.now }
        requires spelled { AreSpelledIn bytes.old self.old }
        requires few { length (listed self.old) < 16 }
        requires room { longest_frame * (length (listed self.old) + 1) ≤ length bytes.old }
        ensures spelled { AreSpelledIn bytes.new self.new }
        ensures added { frames_at bytes.new self.new ≡ frames_at bytes.old self.old
            ++ spelled_words layout writer part.now meta.now frame.now ∷ [] }
        ensures count { length (listed self.new) ≡ length (listed self.old) + 1 }
        ensures short { length (laid_frame layout meta.now (frame_in meta.now.fields frame.now))
            ≤ 2048 }
    {
        let start = self.end;
        let end = put_frame(bytes, start, layout, meta, frame);
        self.keep(SpelledFrame {
            writer,
            id: part.id,
            number: Frames::number_in(frame),
            start,
            end,
        });
    }

    /// Keeps where a frame stands.
    fn keep(&mut self, frame: SpelledFrame)
        requires few { length (listed self.old) < 16 }
        requires sizes { length (listed_sizes self.old) ≡ length (listed self.old) }
        requires ids { length (listed_ids self.old) ≡ 2 * length (listed self.old) }
        requires short { frame.start ≤ frame.end }
        requires small { frame.end < frame.start + 65536 }
        ensures list { listed self.new ≡ listed self.old ++ frame ∷ [] }
        ensures sizes { listed_sizes self.new
            ≡ listed_sizes self.old ++ (frame.end - frame.start) ∷ [] }
        ensures ids { listed_ids self.new ≡ listed_ids self.old ++ to_le_bytes w16 frame.id }
        ensures count { length (listed self.new) ≡ length (listed self.old) + 1 }
        ensures end { self.new.end ≡ frame.end }
    {
        let [low, high] = frame.id.to_le_bytes();
        let at = self.count;
        self.list[at] = frame;
        self.sizes[at] = (frame.end - frame.start) as u16;
        self.ids[2 * at] = low;
        self.ids[2 * at + 1] = high;
        self.count = at + 1;
        self.end = frame.end;
    }

    /// The number that a frame carries; each frame of a writer carries one.
    fn number_in(frame: &Frame) -> u16
        ensures { result ≡ number_or_zero frame.now.number }
    {
        match frame.number {
            Some(number) => number,
            None => 0,
        }
    }
}

/// Writes a frame at a place, as its layout has it: with Variants or DataValues, or a key frame as RawData. Tells where it ends.
fn put_frame(bytes: &mut [u8], at: usize, layout: Layout, meta: &Meta, frame: &Frame) -> usize
    requires frame { IsFrameOf meta.now frame.now }
    requires room { at + 2048 ≤ length bytes.old }
    ensures laid { bytes.new
        ≡ laid bytes.old at (laid_frame layout meta.now (frame_in meta.now.fields frame.now)) }
    ensures end { result
        ≡ at + length (laid_frame layout meta.now (frame_in meta.now.fields frame.now)) }
    ensures short { result ≤ at + 2048 }
{
    match layout {
        Layout::Dynamic => lay_message(bytes, at, meta, frame),
        Layout::Fixed => lay_raw_message(bytes, at, meta, frame),
    }
}

fn lay_message(bytes: &mut [u8], at: usize, meta: &Meta, frame: &Frame) -> usize
    requires frame { IsFrameOf meta.now frame.now }
    requires room { at + 2048 ≤ length bytes.old }
    ensures laid { bytes.new ≡ laid bytes.old at
        (frame_bytes meta.now.quality (frame_in meta.now.fields frame.now)) }
    ensures end { result ≡ at
        + length (frame_bytes meta.now.quality (frame_in meta.now.fields frame.now)) }
    ensures short { result ≤ at + 2048 }
{
    let mut pen = Pen { bytes, at };
    put_message(&mut pen, meta, frame);
    pen.at
}

fn lay_raw_message(bytes: &mut [u8], at: usize, meta: &Meta, frame: &Frame) -> usize
    requires frame { IsFrameOf meta.now frame.now }
    requires room { at + 2048 ≤ length bytes.old }
    ensures laid { bytes.new ≡ laid bytes.old at
        (raw_frame meta.now.fields (frame_in meta.now.fields frame.now)) }
    ensures end { result ≡ at
        + length (raw_frame meta.now.fields (frame_in meta.now.fields frame.now)) }
    ensures short { result ≤ at + 2048 }
{
    let mut pen = Pen { bytes, at };
    put_raw_message(&mut pen, meta, frame);
    pen.at
}

fn put_message(pen: &mut Pen<'_>, meta: &Meta, frame: &Frame)
    requires frame { IsFrameOf meta.now frame.now }
    requires room { pen.old.at + 2048 ≤ length pen.old.bytes.now }
    ensures puts { Puts pen.old pen.new
        (frame_bytes meta.now.quality (frame_in meta.now.fields frame.now)) }
    ensures short { pen.new.at ≤ pen.old.at + 2048 }
{
    prove!(!meta.fields().is_empty());
    match write_frame(pen, meta, frame) {
        Ok(()) => {}
        Err(_) => unreachable!(),
    }
}

fn put_raw_message(pen: &mut Pen<'_>, meta: &Meta, frame: &Frame)
    requires frame { IsFrameOf meta.now frame.now }
    requires room { pen.old.at + 2048 ≤ length pen.old.bytes.now }
    ensures puts { Puts pen.old pen.new
        (raw_frame meta.now.fields (frame_in meta.now.fields frame.now)) }
    ensures short { pen.new.at ≤ pen.old.at + 2048 }
{
    put_raw_front(pen, frame);
    put_raw_kind(pen, meta, &frame.kind);
}

fn put_raw_front(pen: &mut Pen<'_>, frame: &Frame)
    requires { pen.old.at + 12 ≤ length pen.old.bytes.now }
    ensures { (fields : List AnyField)
        → Puts pen.old pen.new (front_bytes 1 (frame_in fields frame.now)) }
{
    match write_front(pen, frame) {
        Ok(()) => {}
        Err(_) => unreachable!(),
    }
}

/// Writes the row of a key frame, and nothing of another.
fn put_raw_kind(pen: &mut Pen<'_>, meta: &Meta, kind: &FrameKind)
    requires kind { IsKindOf meta.now kind.now }
    requires room { pen.old.at + 1000 ≤ length pen.old.bytes.now }
    ensures puts { Puts pen.old pen.new (raw_content meta.now.fields
        (content_in meta.now.fields kind.now)) }
    ensures short { pen.new.at ≤ pen.old.at + 1000 }
{
    match kind {
        FrameKind::Whole(row) => put_raw_row(pen, meta, row),
        FrameKind::Change(_) => {}
        FrameKind::Alive => {}
    }
}

fn put_raw_row(pen: &mut Pen<'_>, meta: &Meta, row: &Row)
    requires row { Belongs meta.now row.now.words }
    requires room { pen.old.at + 1000 ≤ length pen.old.bytes.now }
    ensures puts { Puts pen.old pen.new (raw_row meta.now.fields
        (row_in meta.now.fields row.now.words)) }
    ensures short { pen.new.at ≤ pen.old.at + 1000 }
{
    prove!(!meta.fields().is_empty());
    match write_raw(pen, meta, row) {
        Ok(()) => {}
        Err(_) => unreachable!(),
    }
}
