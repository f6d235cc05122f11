//! The payload of a fixed group's datagram.
ghost use Rattle.std.specs.Prelude.{◌≡◌, ◌≤◌, ◌+◌, ◌-◌, ◌++◌, All, length, max, take};
ghost use Rattle.ua_binary.specs.Writing.{Puts};
ghost use Rattle.fixed_layout.specs.Slots.{end_of, AreApart};
ghost use Rattle.fixed_layout.specs.Datagrams.{last_end, AreFrames};
ghost use Rattle.writer_group.specs.Holding.{IsWithin, all_spelled, frames_at, listed};
ghost use Rattle.writer_group.specs.Slotting.{placed_all, slots_by};
ghost use Rattle.writer_group.specs.Payloads.{in_slots};

use crate::spelled::{Frames, SpelledFrame};
use fixed_layout::Slots;
use ua_binary::Pen;

/// Writes the payload of a fixed datagram, which begins at `start`, after its header: each frame in its writer's slot, and zeros
/// elsewhere.
#[inline(never)]
pub(crate) fn put_slots(
    pen: &mut Pen<'_>,
    start: usize,
    slots: &Slots,
    bytes: &[u8],
    frames: &Frames,
)
    requires header { pen.old.at ≡ start + slots.now.start }
    requires apart { AreApart slots.now.start slots.now.slots }
    requires frames { AreFrames slots.now.slots (in_slots (frames_at bytes.now frames.now)) }
    requires within { All (IsWithin (length bytes.now)) (listed frames.now) }
    requires room { pen.old.at + (last_end slots.now.slots - slots.now.start)
        ≤ length pen.old.bytes.now }
    ensures { Puts pen.old pen.new (slots_by slots.now (frames_at bytes.now frames.now)) }
{
    let header = pen.at - start;
    let end = start + slots.end() as usize;
    lay_slots(
        &mut pen.bytes[start..end],
        header,
        slots,
        bytes,
        frames.list(),
    );
    pen.at = end;
}

/// Lays the frames after a header of so many bytes.
fn lay_slots(
    datagram: &mut [u8],
    header: usize,
    slots: &Slots,
    bytes: &[u8],
    frames: &[SpelledFrame],
)
    requires header { header ≡ slots.now.start }
    requires apart { AreApart slots.now.start slots.now.slots }
    requires frames { AreFrames slots.now.slots (in_slots (all_spelled bytes.now frames.now)) }
    requires within { All (IsWithin (length bytes.now)) frames.now }
    requires end { length datagram.old ≡ max slots.now.start (last_end slots.now.slots) }
    ensures { datagram.new ≡ take header datagram.old
        ++ slots_by slots.now (all_spelled bytes.now frames.now) }
{
    datagram[header..].fill(0);
    place_frames(datagram, slots, bytes, frames);
}

/// Places each frame in its writer's slot.
fn place_frames(datagram: &mut [u8], slots: &Slots, bytes: &[u8], frames: &[SpelledFrame])
    requires frames { AreFrames slots.now.slots (in_slots (all_spelled bytes.now frames.now)) }
    requires within { All (IsWithin (length bytes.now)) frames.now }
    requires room { All (λ slot. end_of slot ≤ length datagram.old) slots.now.slots }
    ensures { datagram.new ≡ placed_all slots.now.slots datagram.old
        (in_slots (all_spelled bytes.now frames.now)) }
{
    for frame in frames {
        slots.place(datagram, frame.writer, &bytes[frame.start..frame.end]);
    }
}
