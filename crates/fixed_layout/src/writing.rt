//! Writing rows as RawData.
ghost use Rattle.std.specs.Prelude.{◌≡◌, ◌↔◌, ◌+◌, ◌-◌, ◌++◌, ◌≤◌, ◌<◌, false, length, replicate, IsTrue};
ghost use Rattle.std.specs.List.{HoldsAt};
ghost use Rattle.ua_values.specs.Values.{kind_of};
ghost use Rattle.ua_binary.specs.Spelling.{block};
ghost use Rattle.ua_binary.specs.Writing.{Puts, Writes};
ghost use Rattle.row_words.specs.Words.{IsWordOf, is_scalar, scalar_bytes};
ghost use Rattle.row_words.specs.Belonging.{Belongs, row_in};
ghost use Rattle.fixed_layout.specs.Calls.{PutsValue, LaysValue};
ghost use Rattle.fixed_layout.specs.Spelling.{raw_width_of, raw_size, raw_value, raw_row};

use crate::size::raw_size;
use dataset_meta::Meta;
use row_words::{Row, is_scalar};
use std::mem;
use ua_binary::{Pen, Room};
use ua_values::{Kind, Value};

/// The most bytes that a row takes as RawData.
const MAX_SIZE: usize = 1000;

/// Writes a row as RawData (OPC 10000-14 7.2.4.5, RawData field encoding): its values one behind another as OPC 10000-6 spells
/// them, without their types, numbers little-endian. Behind a text or a blob stand zeros, up to its cap. Statuses are not
/// written. Room is told where fewer bytes are left than the row takes, and then nothing is written.
pub fn write_raw(pen: &mut Pen<'_>, meta: &Meta, row: &Row) -> Result<(), Room>
    requires { Belongs meta.now row.now.words }
    ensures { Writes result pen.old pen.new (raw_row meta.now.fields
        (row_in meta.now.fields row.now.words)) }
{
    if !has_room(pen, meta) {
        return Err(Room);
    }
    put_row(pen, meta, row);
    Ok(())
}

/// Whether there is room for a row of this meta. Its size is counted only where fewer than `MAX_SIZE` bytes are left.
#[inline(always)]
fn has_room(pen: &Pen<'_>, meta: &Meta) -> bool
    ensures { IsTrue result
        ↔ (pen.now.at + raw_size meta.now.fields ≤ length pen.now.bytes.now) }
{
    prove!(!meta.fields().is_empty());
    pen.room() >= MAX_SIZE || pen.room() >= raw_size(meta) as usize
}

/// Writes the values of a row that there is room for. The pen is taken out of its place until the last value is written, so that
/// its place need not be stored for each.
fn put_row(pen: &mut Pen<'_>, meta: &Meta, row: &Row)
    requires belongs { Belongs meta.now row.now.words }
    requires room { pen.old.at + length (raw_row meta.now.fields
        (row_in meta.now.fields row.now.words)) ≤ length pen.old.bytes.now }
    ensures { Puts pen.old pen.new (raw_row meta.now.fields
        (row_in meta.now.fields row.now.words)) }
{
    let mut apart = taken(pen);
    put_values(&mut apart, meta, row);
    *pen = apart;
}

/// Takes the pen out of its place.
#[inline(always)]
fn taken<'a>(pen: &mut Pen<'a>) -> Pen<'a>
    ensures { result ≡ pen.old }
{
    mem::replace(
        pen,
        Pen {
            bytes: &mut [],
            at: 0,
        },
    )
}

/// Writes the values of a row with a pen that stands apart.
#[inline(always)]
fn put_values(pen: &mut Pen<'_>, meta: &Meta, row: &Row)
    requires belongs { Belongs meta.now row.now.words }
    requires room { pen.old.at + length (raw_row meta.now.fields
        (row_in meta.now.fields row.now.words)) ≤ length pen.old.bytes.now }
    ensures { Puts pen.old pen.new (raw_row meta.now.fields
        (row_in meta.now.fields row.now.words)) }
{
    for index in 0..meta.fields().len() {
        put_value(pen, meta, row, index as u8);
    }
}

/// Writes the value of the field at this index. Of a scalar no more than its word is copied.
#[inline(always)]
fn put_value(pen: &mut Pen<'_>, meta: &Meta, row: &Row, index: u8)
    requires belongs { Belongs meta.now row.now.words }
    requires index { index < length meta.now.fields }
    requires room { HoldsAt (λ field. pen.old.at + raw_width_of field ≤ length pen.old.bytes.now)
        meta.now.fields index }
    ensures { PutsValue meta.now.fields (row_in meta.now.fields row.now.words) index
        pen.old pen.new }
{
    let field = &meta.fields()[usize::from(index)];
    if is_scalar(field.kind) {
        put_word(pen, field.kind, row.word(meta, index));
    } else {
        put_long(pen, meta, row, index);
    }
}

/// Writes the bytes of a scalar's word.
#[inline(always)]
fn put_word(pen: &mut Pen<'_>, kind: Kind, word: u64)
    requires word { IsWordOf kind word }
    requires room { pen.old.at + length (scalar_bytes kind word) ≤ length pen.old.bytes.now }
    ensures { Puts pen.old pen.new (scalar_bytes kind word) }
{
    match kind {
        Kind::Boolean | Kind::SByte | Kind::Byte => pen.put_u8(word as u8),
        Kind::Int16 | Kind::UInt16 => pen.put_u16(word as u16),
        Kind::Int32 | Kind::UInt32 | Kind::Float | Kind::StatusCode => pen.put_u32(word as u32),
        Kind::Int64 | Kind::UInt64 | Kind::Double | Kind::DateTime => pen.put_u64(word),
        Kind::String | Kind::ByteString | Kind::Guid => unreachable!(),
    }
}

/// Writes a text, a blob or a Guid. The bytes are lent, and not the pen, so that it need not stand in memory.
#[inline(always)]
fn put_long(pen: &mut Pen<'_>, meta: &Meta, row: &Row, index: u8)
    requires belongs { Belongs meta.now row.now.words }
    requires index { index < length meta.now.fields }
    requires long { HoldsAt (λ field. is_scalar field.kind ≡ false) meta.now.fields index }
    requires room { HoldsAt (λ field. pen.old.at + raw_width_of field ≤ length pen.old.bytes.now)
        meta.now.fields index }
    ensures { PutsValue meta.now.fields (row_in meta.now.fields row.now.words) index
        pen.old pen.new }
{
    pen.at = put_long_at(&mut *pen.bytes, pen.at, meta, row, index);
}

/// The same into these bytes from `at` on. It answers where the value ends. It is a function of its own for the room that a value
/// takes.
#[inline(never)]
fn put_long_at(bytes: &mut [u8], at: usize, meta: &Meta, row: &Row, index: u8) -> usize
    requires within { at ≤ length bytes.old }
    requires belongs { Belongs meta.now row.now.words }
    requires index { index < length meta.now.fields }
    requires long { HoldsAt (λ field. is_scalar field.kind ≡ false) meta.now.fields index }
    requires room { HoldsAt (λ field. at + raw_width_of field ≤ length bytes.old)
        meta.now.fields index }
    ensures written { LaysValue meta.now.fields (row_in meta.now.fields row.now.words) index
        at bytes.old bytes.new result }
    ensures within { result ≤ length bytes.new }
    ensures same_length { length bytes.new ≡ length bytes.old }
{
    let field = &meta.fields()[usize::from(index)];
    let mut pen = Pen { bytes, at };
    put_long_value(&mut pen, field.cap, &row.field(meta, index));
    pen.at
}

/// Writes a text, a blob or a Guid of a field of this cap.
#[inline(always)]
fn put_long_value(pen: &mut Pen<'_>, cap: u16, value: &Value)
    requires long { is_scalar (kind_of value.now) ≡ false }
    requires room { pen.old.at + length (raw_value cap value.now) ≤ length pen.old.bytes.now }
    ensures { Puts pen.old pen.new (raw_value cap value.now) }
{
    match value {
        Value::String(text) => put_filled(pen, cap, text.as_bytes()),
        Value::ByteString(blob) => put_filled(pen, cap, blob.as_bytes()),
        Value::Guid(bytes) => pen.put_bytes(bytes),
        _ => unreachable!(),
    }
}

/// Writes an Int32 length and the bytes (OPC 10000-6 sections 5.2.2.4 and 5.2.2.7), and zeros up to the cap.
fn put_filled(pen: &mut Pen<'_>, cap: u16, bytes: &[u8])
    requires short { length bytes.now ≤ 256 }
    requires room { pen.old.at + length (block bytes.now) + (cap - length bytes.now)
        ≤ length pen.old.bytes.now }
    ensures { Puts pen.old pen.new (block bytes.now ++ replicate (cap - length bytes.now) 0) }
{
    pen.put_u32(bytes.len() as u32);
    pen.put_bytes(bytes);
    put_zeros(pen, usize::from(cap).saturating_sub(bytes.len()));
}

/// Writes so many zeros.
fn put_zeros(pen: &mut Pen<'_>, count: usize)
    requires { pen.old.at + count ≤ length pen.old.bytes.now }
    ensures { Puts pen.old pen.new (replicate count 0) }
{
    let end = pen.at + count;
    pen.bytes[pen.at..end].fill(0);
    pen.at = end;
}
