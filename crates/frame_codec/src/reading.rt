//! Reading frames.
ghost use Rattle.std.specs.Prelude.{◌≡◌, false};
ghost use Rattle.ua_binary.specs.Reading.{ReadsAhead, rest_of};
ghost use Rattle.frame_codec.specs.Calls.{leaving};
ghost use Rattle.frame_codec.specs.Contents.{is_newer};
ghost use Rattle.frame_codec.specs.Reading.{are_zero, message_at, frame_at};
ghost use Rattle.frame_codec.specs.Words.{IsFrameOf, GivesFrame, frame_in};

use crate::content::read_content_into;
use crate::fault::FrameFault;
use crate::frame::{Frame, FrameKind};
use crate::front::read_front_in;
use dataset_meta::Meta;
use row_words::Row;
use ua_binary::Cursor;

/// The frame that the bytes spell, in a dynamic layout, for a data set with this meta. Zeros may follow it, as padding.
/// Timestamps are read past, and so is the status of the message. Where the data set has no statuses, those that come with
/// the values are dropped. Where the frame carries a minor version greater than the meta's, so are the values of fields that
/// the meta doesn't have.
#[inline(never)]
#[tactic(auto, unfolding(crate::specs::Reading::frame_at))]
pub fn read_frame(meta: &Meta, bytes: &[u8]) -> Result<Frame, FrameFault>
    ensures { GivesFrame meta.now result (frame_at meta.now bytes.now) }
{
    let mut frame = opening(meta);
    read_frame_into(meta, bytes, &mut frame)?;
    Ok(frame)
}

/// Reads the frame that the bytes spell, as `read_frame` does, in place of one of this meta that the caller keeps: what it keeps then is
/// what `read_frame` answers. Content of the same kind is filled where it stands. A refusal leaves some frame of this meta.
#[inline(never)]
#[tactic(auto, unfolding(crate::specs::Reading::frame_at))]
pub fn read_frame_into(meta: &Meta, bytes: &[u8], frame: &mut Frame) -> Result<(), FrameFault>
    requires { IsFrameOf meta.now frame.old }
    ensures of { IsFrameOf meta.now frame.new }
    ensures answer { leaving result (frame_in meta.now.fields frame.new)
        ≡ frame_at meta.now bytes.now }
{
    let mut cursor = Cursor { bytes, at: 0 };
    read_message(&mut cursor, meta, frame)?;
    if !is_at_end(&cursor) {
        return Err(FrameFault::Trailing);
    }
    Ok(())
}

/// A frame to be read over, whose row is zeros.
static OPENING: Frame = Frame {
    number: None,
    kind: FrameKind::Whole(Row { words: [0; 125] }),
    major: None,
    minor: None,
};

/// The same for this meta. It is copied whole, since a frame that is made is copied part by part.
#[inline(always)]
fn opening(meta: &Meta) -> Frame
    ensures { IsFrameOf meta.now result }
{
    prove!(meta.fields().len() <= 64);
    let _zeros = Row::opening();
    OPENING
}

/// What the front tells is kept before the content is read, so that it need not be held meanwhile.
#[inline(always)]
#[tactic(auto, unfolding(crate::specs::Reading::message_at, crate::specs::Reading::behind_front))]
fn read_message(cursor: &mut Cursor<'_>, meta: &Meta, frame: &mut Frame) -> Result<(), FrameFault>
    requires { IsFrameOf meta.now frame.old }
    ensures of { IsFrameOf meta.now frame.new }
    ensures answer { ReadsAhead (leaving result (frame_in meta.now.fields frame.new))
        cursor.old cursor.new (message_at meta.now) }
{
    let front = read_front_in(cursor, false)?;
    let newer = is_newer(meta, front.minor);
    frame.number = front.number;
    frame.major = front.major;
    frame.minor = front.minor;
    read_content_into(cursor, meta, newer, &front, &mut frame.kind)?;
    Ok(())
}

/// Whether the sender's data set has grown.
#[inline(always)]
pub(crate) fn is_newer(meta: &Meta, minor: Option<u32>) -> bool
    ensures { result ≡ is_newer meta.now minor }
{
    match minor {
        None => false,
        Some(minor) => meta.minor() < minor,
    }
}

/// Whether no more than padding is left.
#[inline(always)]
fn is_at_end(cursor: &Cursor<'_>) -> bool
    ensures { result ≡ are_zero (rest_of cursor.now) }
{
    are_zero(&cursor.bytes[cursor.at..])
}

fn are_zero(bytes: &[u8]) -> bool
    ensures { result ≡ are_zero bytes.now }
{
    bytes.iter().all(|byte| *byte == 0)
}
