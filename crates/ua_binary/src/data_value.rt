//! DataValues: values with what is known of their measuring (OPC 10000-6 section 5.2.2.17).
ghost use Rattle.std.specs.Int.{w32};
ghost use Rattle.ua_binary.specs.Reading.{Reads, ReadsAhead, bytes_at, number_at, part_at, skipped};
ghost use Rattle.ua_binary.specs.ReadingValues.{has, variant_at, times_past, parts_at, data_value_at};
ghost use Rattle.ua_binary.specs.Spelling.{data_value};
ghost use Rattle.ua_binary.specs.Writing.{Writes};

use crate::cursor::Cursor;
use crate::fault::ValueFault;
use crate::pen::{Pen, Room};
use crate::reading::read_typed;
use crate::writing::{put_variant, variant_len};
use ua_values::Value;

// The bits of a DataValue's mask, one for each part that it has.
const VALUE: u8 = 0x01;

const STATUS: u8 = 0x02;

const SOURCE_TIME: u8 = 0x04;

const SERVER_TIME: u8 = 0x08;

const SOURCE_PICOSECONDS: u8 = 0x10;

const SERVER_PICOSECONDS: u8 = 0x20;

const RESERVED: u8 = 0xc0;

/// What is kept of a DataValue (OPC 10000-6 section 5.2.2.17).
#[derive(Clone, Copy, Debug, PartialEq, Eq)]
pub struct Measured {
    /// The value, if the DataValue has one.
    pub value: Option<Value>,
    /// A StatusCode (OPC 10000-6 section 5.2.2.11). It is 0, Good, where the DataValue has none.
    pub status: u32,
}

/// Writes a DataValue with the value and, where one is given, the status.
pub fn write_data_value(pen: &mut Pen<'_>, value: &Value, status: Option<u32>) -> Result<(), Room>
    ensures { Writes result pen.old pen.new (data_value value.now status) }
{
    let Some(status) = status else {
        if pen.room() < 1 + variant_len(value) {
            return Err(Room);
        }
        pen.put_u8(VALUE);
        put_variant(pen, value);
        return Ok(());
    };
    if pen.room() < 5 + variant_len(value) {
        return Err(Room);
    }
    pen.put_u8(VALUE | STATUS);
    put_variant(pen, value);
    pen.put_u32(status);
    Ok(())
}

#[inline(always)]
fn read_value_part(cursor: &mut Cursor<'_>, mask: u8) -> Result<Option<Value>, ValueFault>
    ensures { ReadsAhead result cursor.old cursor.new (part_at (has mask 0x01) variant_at) }
{
    if mask & VALUE == 0 {
        return Ok(None);
    }
    Ok(Some(read_typed(cursor)?))
}

#[inline(always)]
fn read_status_part(cursor: &mut Cursor<'_>, mask: u8) -> Result<Option<u32>, ValueFault>
    ensures { ReadsAhead result cursor.old cursor.new
        (part_at (has mask 0x02) (number_at ValueFault.Short w32)) }
{
    if mask & STATUS == 0 {
        return Ok(None);
    }
    Ok(Some(cursor.read_u32()?))
}

/// Reads past the part with this bit.
#[inline(always)]
fn skip_part(cursor: &mut Cursor<'_>, mask: u8, bit: u8, len: usize) -> Result<(), ValueFault>
    ensures { ReadsAhead result cursor.old cursor.new
        (skipped (part_at (has mask bit) (bytes_at ValueFault.Short len))) }
{
    if mask & bit != 0 {
        cursor.read_bytes(len)?;
    }
    Ok(())
}

/// Reads past the times: a DateTime (OPC 10000-6 section 5.2.2.5) of 8 bytes each, with UInt16 picoseconds right behind
/// each.
#[inline(always)]
#[tactic(auto, unfolding(crate::specs::ReadingValues::times_past))]
fn skip_times(cursor: &mut Cursor<'_>, mask: u8) -> Result<(), ValueFault>
    ensures { ReadsAhead result cursor.old cursor.new (times_past mask) }
{
    skip_part(cursor, mask, SOURCE_TIME, 8)?;
    skip_part(cursor, mask, SOURCE_PICOSECONDS, 2)?;
    skip_part(cursor, mask, SERVER_TIME, 8)?;
    skip_part(cursor, mask, SERVER_PICOSECONDS, 2)
}

#[inline(always)]
#[tactic(auto, unfolding(crate::specs::ReadingValues::parts_at))]
fn read_parts(cursor: &mut Cursor<'_>, mask: u8) -> Result<Measured, ValueFault>
    ensures { ReadsAhead result cursor.old cursor.new (parts_at mask) }
{
    let value = read_value_part(cursor, mask)?;
    let status = read_status_part(cursor, mask)?.unwrap_or(0);
    skip_times(cursor, mask)?;
    Ok(Measured { value, status })
}

#[inline(always)]
#[tactic(auto, unfolding(crate::specs::ReadingValues::data_value_at))]
fn read_masked(cursor: &mut Cursor<'_>) -> Result<Measured, ValueFault>
    ensures { ReadsAhead result cursor.old cursor.new data_value_at }
{
    let mask = cursor.read_u8()?;
    if mask & RESERVED != 0 {
        return Err(ValueFault::KindOut);
    }
    read_parts(cursor, mask)
}

/// A DataValue. Its times are read past. A refusal leaves the cursor.
#[inline(always)]
pub fn read_data_value(cursor: &mut Cursor<'_>) -> Result<Measured, ValueFault>
    ensures { Reads result cursor.old cursor.new data_value_at }
{
    let mut ahead = *cursor;
    let measured = read_masked(&mut ahead)?;
    *cursor = ahead;
    Ok(measured)
}
