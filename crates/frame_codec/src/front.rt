//! The front of a DataSetMessage: all that stands before the count of fields.
ghost use Rattle.std.specs.Prelude.{true};
ghost use Rattle.std.specs.Int.{w16, w32};
ghost use Rattle.ua_binary.specs.Reading.{Reads, ReadsAhead, bytes_at, number_at, part_at, skipped};
ghost use Rattle.frame_codec.specs.declared.fault.FrameFault.TheVariants as faults;
ghost use Rattle.frame_codec.specs.Fronts.{flags1_at, flags2_at, times_past, parts_at, front_at};

use crate::fault::FrameFault;
use crate::flags::{
    FLAGS2, MAJOR, MINOR, NUMBER, PICOSECONDS, STATUS, TIMESTAMP, encoding_of, fault_in_flags1,
    fault_in_flags2, kind_of,
};
use ua_binary::Cursor;

/// What the front of a message says.
#[derive(Clone, Copy, Debug, PartialEq, Eq)]
pub struct Front {
    /// It is true in each front that is read, since a message that isn't valid is refused.
    pub valid: bool,
    /// The field encoding: 0 Variant, 1 RawData, 2 DataValue.
    pub encoding: u8,
    /// The kind of message: 0 key frame, 1 delta frame, 3 keep-alive.
    pub kind: u8,
    /// The DataSetMessageSequenceNumber.
    pub number: Option<u16>,
    /// The major version of the configuration that the sender has.
    pub major: Option<u32>,
    /// Its minor version.
    pub minor: Option<u32>,
}

/// The front of a message in a fixed layout, where RawData is a field encoding too. A refusal leaves the cursor.
pub fn read_front(cursor: &mut Cursor<'_>) -> Result<Front, FrameFault>
    ensures { Reads result cursor.old cursor.new (front_at true) }
{
    let mut ahead = *cursor;
    let front = read_front_in(&mut ahead, true)?;
    *cursor = ahead;
    Ok(front)
}

/// The front of a message, in a fixed layout or in a dynamic one; a refusal leaves the cursor anywhere.
#[inline(always)]
#[tactic(auto, unfolding(crate::specs::Fronts::front_at))]
pub(crate) fn read_front_in(cursor: &mut Cursor<'_>, fixed: bool) -> Result<Front, FrameFault>
    ensures { ReadsAhead result cursor.old cursor.new (front_at fixed) }
{
    let flags = read_flags1(cursor, fixed)?;
    let extended = read_flags2(cursor, flags)?;
    read_parts(cursor, flags, extended)
}

#[inline(always)]
#[tactic(auto, unfolding(crate::specs::Fronts::flags1_at))]
fn read_flags1(cursor: &mut Cursor<'_>, fixed: bool) -> Result<u8, FrameFault>
    ensures { ReadsAhead result cursor.old cursor.new (flags1_at fixed) }
{
    let flags = cursor.read_u8()?;
    match fault_in_flags1(fixed, flags) {
        None => Ok(flags),
        Some(fault) => Err(fault),
    }
}

/// DataSetFlags2, or 0 where it isn't there.
#[inline(always)]
#[tactic(auto, unfolding(crate::specs::Fronts::flags2_at))]
fn read_flags2(cursor: &mut Cursor<'_>, flags: u8) -> Result<u8, FrameFault>
    ensures { ReadsAhead result cursor.old cursor.new (flags2_at flags) }
{
    if flags & FLAGS2 == 0 {
        return Ok(0);
    }
    let extended = cursor.read_u8()?;
    match fault_in_flags2(encoding_of(flags), extended) {
        None => Ok(extended),
        Some(fault) => Err(fault),
    }
}

#[inline(always)]
#[tactic(auto, unfolding(crate::specs::Fronts::parts_at))]
fn read_parts(cursor: &mut Cursor<'_>, flags: u8, extended: u8) -> Result<Front, FrameFault>
    ensures { ReadsAhead result cursor.old cursor.new (parts_at flags extended) }
{
    let number = read_u16_if(cursor, flags & NUMBER != 0)?;
    skip_times(cursor, flags, extended)?;
    let major = read_u32_if(cursor, flags & MAJOR != 0)?;
    let minor = read_u32_if(cursor, flags & MINOR != 0)?;
    Ok(Front {
        valid: true,
        encoding: encoding_of(flags),
        kind: kind_of(extended),
        number,
        major,
        minor,
    })
}

#[inline(always)]
fn read_u16_if(cursor: &mut Cursor<'_>, present: bool) -> Result<Option<u16>, FrameFault>
    ensures { ReadsAhead result
        cursor.old cursor.new (part_at present (number_at faults.Short w16)) }
{
    if !present {
        return Ok(None);
    }
    Ok(Some(cursor.read_u16()?))
}

#[inline(always)]
fn read_u32_if(cursor: &mut Cursor<'_>, present: bool) -> Result<Option<u32>, FrameFault>
    ensures { ReadsAhead result
        cursor.old cursor.new (part_at present (number_at faults.Short w32)) }
{
    if !present {
        return Ok(None);
    }
    Ok(Some(cursor.read_u32()?))
}

/// Reads past the timestamp, its picoseconds and the status.
#[inline(always)]
#[tactic(auto, unfolding(crate::specs::Fronts::times_past))]
fn skip_times(cursor: &mut Cursor<'_>, flags: u8, extended: u8) -> Result<(), FrameFault>
    ensures { ReadsAhead result cursor.old cursor.new (times_past flags extended) }
{
    skip_if(cursor, extended & TIMESTAMP != 0, 8)?;
    skip_if(cursor, extended & PICOSECONDS != 0, 2)?;
    skip_if(cursor, flags & STATUS != 0, 2)
}

#[inline(always)]
fn skip_if(cursor: &mut Cursor<'_>, present: bool, len: usize) -> Result<(), FrameFault>
    ensures { ReadsAhead result
        cursor.old cursor.new (skipped (part_at present (bytes_at faults.Short len))) }
{
    if present {
        cursor.read_bytes(len)?;
    }
    Ok(())
}
