//! The DataSetMessage in a slot of a fixed layout.
ghost use Rattle.std.specs.Prelude.{◌≡◌};
ghost use Rattle.ua_binary.specs.Reading.{ReadsAhead, rest_of};
ghost use Rattle.row_words.specs.Belonging.{Belongs, row_in};
ghost use Rattle.fixed_layout.specs.Reading.{raw_row_at};
ghost use Rattle.frame_codec.specs.Calls.{leaving};
ghost use Rattle.frame_codec.specs.Reading.{are_zero};
ghost use Rattle.frame_codec.specs.Words.{IsFrameOf, IsKindOf, content_in, frame_in};
ghost use Rattle.reader_group.specs.SlotFrames.{fault_of, in_frame, raw_content_at, raw_frame_at, slot_frame_at};

use dataset_meta::Meta;
use fixed_layout::{RawFault, read_raw_into};
use frame_codec::{Frame, FrameFault, FrameKind, Front, read_frame_into, read_front};
use row_words::Row;
use ua_binary::Cursor;

/// The field encoding RawData.
const RAW_DATA: u8 = 1;

/// The kind of message that a key frame is.
const KEY_FRAME: u8 = 0;

/// Reads the message in a slot (OPC 10000-14 7.2.4.5, RawData field encoding), for a data set with this meta, in place of a
/// frame of this meta that the caller keeps. Zeros may follow it. A row is filled where it stands. A refusal leaves some frame of
/// this meta.
#[tactic(auto, unfolding(crate::specs::SlotFrames::slot_frame_at))]
pub(crate) fn read_slot_frame_into(
    meta: &Meta,
    bytes: &[u8],
    frame: &mut Frame,
) -> Result<(), FrameFault>
    requires { IsFrameOf meta.now frame.old }
    ensures of { IsFrameOf meta.now frame.new }
    ensures answer { leaving result (frame_in meta.now.fields frame.new)
        ≡ slot_frame_at meta.now bytes.now }
{
    let mut cursor = Cursor { bytes, at: 0 };
    let front = read_front(&mut cursor)?;
    if front.encoding == RAW_DATA {
        return read_raw_frame(meta, &front, &mut cursor, frame);
    }
    read_frame_into(meta, bytes, frame)
}

/// What stands behind a front with RawData: a row, or nothing in a keep-alive.
#[tactic(auto, unfolding(crate::specs::SlotFrames::raw_frame_at))]
fn read_raw_frame(
    meta: &Meta,
    front: &Front,
    cursor: &mut Cursor<'_>,
    frame: &mut Frame,
) -> Result<(), FrameFault>
    requires { IsFrameOf meta.now frame.old }
    ensures of { IsFrameOf meta.now frame.new }
    ensures answer { leaving result (frame_in meta.now.fields frame.new)
        ≡ raw_frame_at meta.now front.now (rest_of cursor.old) }
{
    read_raw_content(meta, front.kind, cursor, &mut frame.kind)?;
    if !are_zero(&cursor.bytes[cursor.at..]) {
        return Err(FrameFault::Trailing);
    }
    frame.number = front.number;
    frame.major = front.major;
    frame.minor = front.minor;
    Ok(())
}

/// A row is filled where one stands.
#[tactic(auto, unfolding(crate::specs::SlotFrames::raw_content_at))]
fn read_raw_content(
    meta: &Meta,
    kind: u8,
    cursor: &mut Cursor<'_>,
    content: &mut FrameKind,
) -> Result<(), FrameFault>
    requires { IsKindOf meta.now content.old }
    ensures of { IsKindOf meta.now content.new }
    ensures answer { ReadsAhead (leaving result (content_in meta.now.fields content.new))
        cursor.old cursor.new (raw_content_at meta.now.fields kind) }
{
    if kind != KEY_FRAME {
        *content = FrameKind::Alive;
        return Ok(());
    }
    match content {
        FrameKind::Whole(row) => read_row(meta, cursor, row),
        _ => replace_content(meta, cursor, content),
    }
}

/// A row in place of other content.
#[inline(never)]
#[tactic(auto, unfolding(crate::specs::SlotFrames::raw_content_at))]
fn replace_content(
    meta: &Meta,
    cursor: &mut Cursor<'_>,
    content: &mut FrameKind,
) -> Result<(), FrameFault>
    requires { IsKindOf meta.now content.old }
    ensures of { IsKindOf meta.now content.new }
    ensures answer { ReadsAhead (leaving result (content_in meta.now.fields content.new))
        cursor.old cursor.new (raw_content_at meta.now.fields KEY_FRAME) }
{
    prove!(meta.fields().len() <= 64);
    let mut row = Row::opening();
    read_row(meta, cursor, &mut row)?;
    *content = FrameKind::Whole(row);
    Ok(())
}

/// The values of the fields, set in a row.
fn read_row(meta: &Meta, cursor: &mut Cursor<'_>, row: &mut Row) -> Result<(), FrameFault>
    requires { Belongs meta.now row.old.words }
    ensures belongs { Belongs meta.now row.new.words }
    ensures answer { ReadsAhead (leaving result (row_in meta.now.fields row.new.words))
        cursor.old cursor.new (λ bytes. in_frame (raw_row_at meta.now.fields bytes)) }
{
    match read_raw_into(meta, cursor, row) {
        Ok(()) => Ok(()),
        Err(fault) => Err(fault_of(fault)),
    }
}

fn fault_of(fault: RawFault) -> FrameFault
    ensures { result ≡ fault_of fault }
{
    match fault {
        RawFault::Short => FrameFault::Short,
        RawFault::BadLength | RawFault::BadUtf8 => FrameFault::BadValue,
    }
}

fn are_zero(bytes: &[u8]) -> bool
    ensures { result ≡ are_zero bytes.now }
{
    bytes.iter().all(|byte| *byte == 0)
}
