//! Writing frames.
ghost use Rattle.std.specs.Prelude.{◌≡◌, ◌+◌, ◌<◌, ◌≤◌, ℕ, List, Option, ◌++◌, true, false, length, OnOk, IsTrue, ◌↔◌};
ghost use Rattle.std.specs.Int.{w16, w32, to_le_bytes};
ghost use Rattle.std.specs.List.{HoldsAt};
ghost use Rattle.ua_binary.specs.Spelling.{variant};
ghost use Rattle.ua_binary.specs.Wire.{flag, optional};
ghost use Rattle.ua_binary.specs.Writing.{Puts, Writes, laid};
ghost use Rattle.dataset_meta.specs.declared.field.Field.{Field as AnyField};
ghost use Rattle.row_words.specs.Words.{IsWordOf, scalar_in, scalar_bytes};
ghost use Rattle.row_words.specs.Belonging.{Belongs, row_in};
ghost use Rattle.row_words.specs.Patches.{IsPatchOf, patch_in};
ghost use Rattle.frame_codec.specs.Calls.{has_four_bytes, has_eight_bytes};
ghost use Rattle.frame_codec.specs.declared.length.TheConstants.{MAX_LEN};
ghost use Rattle.frame_codec.specs.Spelling.{flags1, flags2, front_bytes, value_bytes, values_bytes, change_bytes, changes_bytes, content_bytes, encoding_of, frame_bytes};
ghost use Rattle.frame_codec.specs.Words.{IsKindOf, IsFrameOf, content_in, frame_in};

use crate::flags::{
    DATA_VALUE, DELTA, FLAGS2, KEEP_ALIVE, MAJOR, MINOR, NUMBER, RAW_DATA, VALID, VALUE,
    VALUE_AND_STATUS, VARIANT,
};
use crate::frame::{Frame, FrameKind};
use crate::length::{MAX_LEN, field_count, frame_len, front_len};
use crate::scalar::{has_eight_bytes, has_four_bytes};
use dataset_meta::Meta;
use row_words::{Patch, Row, is_scalar};
use ua_binary::{Pen, Room, number_of, put_variant};
use ua_values::Kind;

/// Writes a frame (OPC 10000-14 7.2.4.5, UADP DataSetMessage): its fields are DataValues where the data set has statuses, of which
/// Good is left out, and Variants elsewhere.
pub fn write_frame(pen: &mut Pen<'_>, meta: &Meta, frame: &Frame) -> Result<(), Room>
    requires { IsFrameOf meta.now frame.now }
    ensures written { Writes result pen.old pen.new (frame_bytes meta.now.quality
        (frame_in meta.now.fields frame.now)) }
    ensures short { OnOk result (pen.new.at ≤ pen.old.at + MAX_LEN) }
{
    if !has_room(pen, meta, frame) {
        return Err(Room);
    }
    pen.at = put_frame_at(&mut *pen.bytes, pen.at, meta, frame);
    Ok(())
}

/// Writes the front of a frame of a fixed layout, whose field encoding is RawData: all that stands before the count of fields
/// (OPC 10000-14 7.2.4.5, UADP DataSetMessage header). Its first byte is 0x0b, or 0x6b with both versions, where the frame is a
/// numbered key frame. A delta frame isn't for a fixed layout: `read_front` refuses its front as a BadEncoding.
pub fn write_front(pen: &mut Pen<'_>, frame: &Frame) -> Result<(), Room>
    ensures { (fields : List AnyField)
        → Writes result pen.old pen.new (front_bytes 1 (frame_in fields frame.now)) }
{
    if pen.room() < front_len(frame) {
        return Err(Room);
    }
    put_front(pen, frame, RAW_DATA);
    Ok(())
}

/// Whether there is room for a frame. Its length is counted only where fewer than `MAX_LEN` bytes are left.
#[inline(always)]
fn has_room(pen: &Pen<'_>, meta: &Meta, frame: &Frame) -> bool
    requires { IsFrameOf meta.now frame.now }
    ensures room { IsTrue result ↔ (pen.now.at + length (frame_bytes meta.now.quality
        (frame_in meta.now.fields frame.now)) ≤ length pen.now.bytes.now) }
    ensures short { length (frame_bytes meta.now.quality
        (frame_in meta.now.fields frame.now)) ≤ 2048 }
{
    prove!(!meta.fields().is_empty());
    pen.room() >= MAX_LEN || pen.room() >= frame_len(meta, frame)
}

/// Writes a frame that there is room for into these bytes, from `at` on. It answers where the frame ends. The bytes are lent, and
/// not the pen, so that it need not stand in memory.
#[inline(always)]
fn put_frame_at(bytes: &mut [u8], at: usize, meta: &Meta, frame: &Frame) -> usize
    requires of { IsFrameOf meta.now frame.now }
    requires room { at + length (frame_bytes meta.now.quality
        (frame_in meta.now.fields frame.now)) ≤ length bytes.old }
    ensures written { bytes.new ≡ laid bytes.old at (frame_bytes meta.now.quality
        (frame_in meta.now.fields frame.now)) }
    ensures end { result ≡ at + length (frame_bytes meta.now.quality
        (frame_in meta.now.fields frame.now)) }
    ensures same_length { length bytes.new ≡ length bytes.old }
{
    let mut pen = Pen { bytes, at };
    put_frame(&mut pen, meta, frame);
    pen.at
}

/// The same by a pen over the bytes.
#[inline(always)]
fn put_frame(pen: &mut Pen<'_>, meta: &Meta, frame: &Frame)
    requires of { IsFrameOf meta.now frame.now }
    requires room { pen.old.at + length (frame_bytes meta.now.quality
        (frame_in meta.now.fields frame.now)) ≤ length pen.old.bytes.now }
    ensures { Puts pen.old pen.new (frame_bytes meta.now.quality
        (frame_in meta.now.fields frame.now)) }
{
    put_front(pen, frame, encoding_of(meta, &frame.kind));
    put_content(pen, meta, &frame.kind);
}

/// The field encoding of a frame. A keep-alive has no fields, and 0.
#[inline(always)]
fn encoding_of(meta: &Meta, kind: &FrameKind) -> u8
    ensures encoding { (fields : List AnyField)
        → result ≡ encoding_of meta.now.quality (content_in fields kind.now) }
    ensures small { result ≤ 2 }
{
    match kind {
        FrameKind::Whole(_) | FrameKind::Change(_) if meta.quality() => DATA_VALUE,
        _ => VARIANT,
    }
}

/// Writes a front that there is room for, with this field encoding.
#[inline(always)]
fn put_front(pen: &mut Pen<'_>, frame: &Frame, encoding: u8)
    requires encoding { encoding ≤ 2 }
    requires room { (fields : List AnyField)
        → pen.old.at + length (front_bytes encoding (frame_in fields frame.now))
        ≤ length pen.old.bytes.now }
    ensures { (fields : List AnyField)
        → Puts pen.old pen.new (front_bytes encoding (frame_in fields frame.now)) }
{
    pen.put_u8(flags1(frame, encoding));
    put_flags2(pen, &frame.kind);
    put_u16_if(pen, frame.number);
    put_u32_if(pen, frame.major);
    put_u32_if(pen, frame.minor);
}

/// DataSetFlags1 of a frame whose fields have this encoding.
#[inline(always)]
fn flags1(frame: &Frame, encoding: u8) -> u8
    requires { encoding ≤ 2 }
    ensures { (fields : List AnyField) → result ≡ flags1 encoding (frame_in fields frame.now) }
{
    let extended = match frame.kind {
        FrameKind::Whole(_) => 0,
        FrameKind::Change(_) | FrameKind::Alive => FLAGS2,
    };
    VALID
        + 2 * encoding
        + flag(frame.number.is_some(), NUMBER)
        + flag(frame.major.is_some(), MAJOR)
        + flag(frame.minor.is_some(), MINOR)
        + extended
}

/// The weight of a flag that is set.
#[inline(always)]
fn flag(set: bool, weight: u8) -> u8
    ensures { result ≡ flag set weight }
{
    if set { weight } else { 0 }
}

/// DataSetFlags2, where the frame has it.
#[inline(always)]
fn put_flags2(pen: &mut Pen<'_>, kind: &FrameKind)
    requires { (fields : List AnyField)
        → pen.old.at + length (flags2 (content_in fields kind.now)) ≤ length pen.old.bytes.now }
    ensures { (fields : List AnyField)
        → Puts pen.old pen.new (flags2 (content_in fields kind.now)) }
{
    match kind {
        FrameKind::Whole(_) => {}
        FrameKind::Change(_) => pen.put_u8(DELTA),
        FrameKind::Alive => pen.put_u8(KEEP_ALIVE),
    }
}

#[inline(always)]
fn put_u16_if(pen: &mut Pen<'_>, number: Option<u16>)
    requires { pen.old.at + length (optional (to_le_bytes w16) number) ≤ length pen.old.bytes.now }
    ensures { Puts pen.old pen.new (optional (to_le_bytes w16) number) }
{
    if let Some(number) = number {
        pen.put_u16(number);
    }
}

#[inline(always)]
fn put_u32_if(pen: &mut Pen<'_>, number: Option<u32>)
    requires { pen.old.at + length (optional (to_le_bytes w32) number) ≤ length pen.old.bytes.now }
    ensures { Puts pen.old pen.new (optional (to_le_bytes w32) number) }
{
    if let Some(number) = number {
        pen.put_u32(number);
    }
}

/// Writes all that stands behind the front, and that there is room for: the count of fields, and the fields.
#[inline(always)]
fn put_content(pen: &mut Pen<'_>, meta: &Meta, kind: &FrameKind)
    requires of { IsKindOf meta.now kind.now }
    requires room { pen.old.at + length (content_bytes meta.now.quality
        (content_in meta.now.fields kind.now)) ≤ length pen.old.bytes.now }
    ensures { Puts pen.old pen.new (content_bytes meta.now.quality
        (content_in meta.now.fields kind.now)) }
{
    match kind {
        FrameKind::Whole(row) => {
            pen.put_u16(meta.fields().len() as u16);
            put_row(pen, meta, row);
        }
        FrameKind::Change(patch) => {
            pen.put_u16(patch.mask.count_ones() as u16);
            put_patch(pen, meta, patch);
        }
        FrameKind::Alive => {}
    }
}

/// Writes the values of a row one behind another. DataValues and Variants have a loop each.
#[inline(always)]
fn put_row(pen: &mut Pen<'_>, meta: &Meta, row: &Row)
    requires belongs { Belongs meta.now row.now.words }
    requires room { pen.old.at + length (values_bytes meta.now.quality
        (row_in meta.now.fields row.now.words)) ≤ length pen.old.bytes.now }
    ensures { Puts pen.old pen.new (values_bytes meta.now.quality
        (row_in meta.now.fields row.now.words)) }
{
    if meta.quality() {
        put_values(pen, meta, row, true);
    } else {
        put_values(pen, meta, row, false);
    }
}

/// The same where it is known whether the data set has statuses.
#[inline(always)]
fn put_values(pen: &mut Pen<'_>, meta: &Meta, row: &Row, quality: bool)
    requires quality { quality ≡ meta.now.quality }
    requires belongs { Belongs meta.now row.now.words }
    requires room { pen.old.at + length (values_bytes meta.now.quality
        (row_in meta.now.fields row.now.words)) ≤ length pen.old.bytes.now }
    ensures { Puts pen.old pen.new (values_bytes meta.now.quality
        (row_in meta.now.fields row.now.words)) }
{
    for index in 0..field_count(meta) {
        put_value(pen, meta, row, index, quality);
    }
}

/// Writes each marked field with its index.
#[inline(always)]
fn put_patch(pen: &mut Pen<'_>, meta: &Meta, patch: &Patch)
    requires of { IsPatchOf meta.now patch.now }
    requires room { pen.old.at + length (changes_bytes meta.now.quality
        (patch_in meta.now.fields patch.now)) ≤ length pen.old.bytes.now }
    ensures { Puts pen.old pen.new (changes_bytes meta.now.quality
        (patch_in meta.now.fields patch.now)) }
{
    let mut left = patch.mask;
    while left != 0 {
        let index = left.trailing_zeros();
        put_change(pen, meta, &patch.row, index as u8);
        left &= !(1 << index);
    }
}

/// Writes a field's index and its value.
#[inline(always)]
fn put_change(pen: &mut Pen<'_>, meta: &Meta, row: &Row, index: u8)
    requires belongs { Belongs meta.now row.now.words }
    requires index { index < length meta.now.fields }
    requires room { HoldsAt (λ x. pen.old.at + length (change_bytes meta.now.quality (index, x))
        ≤ length pen.old.bytes.now) (row_in meta.now.fields row.now.words) index }
    ensures { HoldsAt (λ x. Puts pen.old pen.new (change_bytes meta.now.quality (index, x)))
        (row_in meta.now.fields row.now.words) index }
{
    pen.put_u16(u16::from(index));
    put_value(pen, meta, row, index, meta.quality());
}

/// Writes the value of the field at this index.
#[inline(always)]
fn put_value(pen: &mut Pen<'_>, meta: &Meta, row: &Row, index: u8, quality: bool)
    requires quality { quality ≡ meta.now.quality }
    requires belongs { Belongs meta.now row.now.words }
    requires index { index < length meta.now.fields }
    requires room { HoldsAt (λ x. pen.old.at + length (value_bytes meta.now.quality x)
        ≤ length pen.old.bytes.now) (row_in meta.now.fields row.now.words) index }
    ensures { HoldsAt (λ x. Puts pen.old pen.new (value_bytes meta.now.quality x))
        (row_in meta.now.fields row.now.words) index }
{
    if quality {
        put_data_value(pen, meta, row, index);
    } else {
        put_field(pen, meta, row, index);
    }
}

/// Writes it as a DataValue. A status of 0, Good, is left out.
#[inline(always)]
fn put_data_value(pen: &mut Pen<'_>, meta: &Meta, row: &Row, index: u8)
    requires belongs { Belongs meta.now row.now.words }
    requires index { index < length meta.now.fields }
    requires room { HoldsAt (λ x. pen.old.at + length (value_bytes true x)
        ≤ length pen.old.bytes.now) (row_in meta.now.fields row.now.words) index }
    ensures { HoldsAt (λ x. Puts pen.old pen.new (value_bytes true x))
        (row_in meta.now.fields row.now.words) index }
{
    let status = row.status(meta, index);
    if status == 0 {
        pen.put_u8(VALUE);
        put_field(pen, meta, row, index);
    } else {
        pen.put_u8(VALUE_AND_STATUS);
        put_field(pen, meta, row, index);
        pen.put_u32(status);
    }
}

/// Writes it as a Variant. A scalar of four bytes or of eight is written in place, and every other value by a call, so that a
/// loop over fields stays short.
#[inline(always)]
fn put_field(pen: &mut Pen<'_>, meta: &Meta, row: &Row, index: u8)
    requires belongs { Belongs meta.now row.now.words }
    requires index { index < length meta.now.fields }
    requires room { HoldsAt (λ x. pen.old.at + length (variant x.value)
        ≤ length pen.old.bytes.now) (row_in meta.now.fields row.now.words) index }
    ensures { HoldsAt (λ x. Puts pen.old pen.new (variant x.value))
        (row_in meta.now.fields row.now.words) index }
{
    let field = &meta.fields()[usize::from(index)];
    if has_four_bytes(field.kind) {
        put_four(pen, field.kind, row.word(meta, index));
    } else if has_eight_bytes(field.kind) {
        put_eight(pen, field.kind, row.word(meta, index));
    } else {
        put_lent(pen, meta, row, index);
    }
}

/// The same of any value. The bytes are lent, and not the pen, so that it need not stand in memory.
#[inline(always)]
fn put_lent(pen: &mut Pen<'_>, meta: &Meta, row: &Row, index: u8)
    requires belongs { Belongs meta.now row.now.words }
    requires index { index < length meta.now.fields }
    requires room { HoldsAt (λ x. pen.old.at + length (variant x.value)
        ≤ length pen.old.bytes.now) (row_in meta.now.fields row.now.words) index }
    ensures { HoldsAt (λ x. Puts pen.old pen.new (variant x.value))
        (row_in meta.now.fields row.now.words) index }
{
    pen.at = put_at(&mut *pen.bytes, pen.at, meta, row, index);
}

/// The same into these bytes from `at` on. It answers where the value ends.
#[inline(never)]
fn put_at(bytes: &mut [u8], at: usize, meta: &Meta, row: &Row, index: u8) -> usize
    requires within { at ≤ length bytes.old }
    requires belongs { Belongs meta.now row.now.words }
    requires index { index < length meta.now.fields }
    requires room { HoldsAt (λ x. at + length (variant x.value) ≤ length bytes.old)
        (row_in meta.now.fields row.now.words) index }
    ensures written { HoldsAt (λ x. bytes.new ≡ laid bytes.old at (variant x.value))
        (row_in meta.now.fields row.now.words) index }
    ensures end { HoldsAt (λ x. result ≡ at + length (variant x.value))
        (row_in meta.now.fields row.now.words) index }
    ensures within { result ≤ length bytes.new }
    ensures same_length { length bytes.new ≡ length bytes.old }
{
    let mut pen = Pen { bytes, at };
    put_any(&mut pen, meta, row, index);
    pen.at
}

/// The same by a pen over the bytes. Of a scalar no more than its word is copied.
#[inline(always)]
fn put_any(pen: &mut Pen<'_>, meta: &Meta, row: &Row, index: u8)
    requires belongs { Belongs meta.now row.now.words }
    requires index { index < length meta.now.fields }
    requires room { HoldsAt (λ x. pen.old.at + length (variant x.value)
        ≤ length pen.old.bytes.now) (row_in meta.now.fields row.now.words) index }
    ensures put { HoldsAt (λ x. Puts pen.old pen.new (variant x.value))
        (row_in meta.now.fields row.now.words) index }
    ensures loan { pen.new.bytes.ghost_name ≡ pen.old.bytes.ghost_name }
{
    let field = &meta.fields()[usize::from(index)];
    if is_scalar(field.kind) {
        put_scalar(pen, field.kind, row.word(meta, index));
    } else {
        put_whole_value(pen, meta, row, index);
    }
}

/// The same of a copied value. It is a function of its own for the room that a value takes.
#[inline(never)]
fn put_whole_value(pen: &mut Pen<'_>, meta: &Meta, row: &Row, index: u8)
    requires belongs { Belongs meta.now row.now.words }
    requires index { index < length meta.now.fields }
    requires room { HoldsAt (λ x. pen.old.at + length (variant x.value)
        ≤ length pen.old.bytes.now) (row_in meta.now.fields row.now.words) index }
    ensures put { HoldsAt (λ x. Puts pen.old pen.new (variant x.value))
        (row_in meta.now.fields row.now.words) index }
    ensures loan { pen.new.bytes.ghost_name ≡ pen.old.bytes.ghost_name }
{
    put_variant(pen, &row.field(meta, index));
}

/// Writes the scalar of four bytes with this word as a Variant.
#[inline(always)]
fn put_four(pen: &mut Pen<'_>, kind: Kind, word: u64)
    requires four { has_four_bytes kind ≡ true }
    requires word { IsWordOf kind word }
    requires room { pen.old.at + length (variant (scalar_in kind word)) ≤ length pen.old.bytes.now }
    ensures { Puts pen.old pen.new (variant (scalar_in kind word)) }
{
    pen.put_u8(number_of(kind));
    pen.put_u32(word as u32);
}

/// Writes the scalar of eight bytes with this word as a Variant.
#[inline(always)]
fn put_eight(pen: &mut Pen<'_>, kind: Kind, word: u64)
    requires eight { has_eight_bytes kind ≡ true }
    requires word { IsWordOf kind word }
    requires room { pen.old.at + length (variant (scalar_in kind word)) ≤ length pen.old.bytes.now }
    ensures { Puts pen.old pen.new (variant (scalar_in kind word)) }
{
    pen.put_u8(number_of(kind));
    pen.put_u64(word);
}

/// Writes the scalar with this word as a Variant.
#[inline(always)]
fn put_scalar(pen: &mut Pen<'_>, kind: Kind, word: u64)
    requires word { IsWordOf kind word }
    requires room { pen.old.at + length (variant (scalar_in kind word)) ≤ length pen.old.bytes.now }
    ensures { Puts pen.old pen.new (variant (scalar_in kind word)) }
{
    pen.put_u8(number_of(kind));
    put_word(pen, kind, word);
}

/// Writes the bytes of a scalar's word, without its type.
#[inline(always)]
fn put_word(pen: &mut Pen<'_>, kind: Kind, word: u64)
    requires word { IsWordOf kind word }
    requires room { pen.old.at + length (scalar_bytes kind word) ≤ length pen.old.bytes.now }
    ensures { Puts pen.old pen.new (scalar_bytes kind word) }
{
    match kind {
        Kind::Boolean | Kind::SByte | Kind::Byte => pen.put_u8(word as u8),
        Kind::Int16 | Kind::UInt16 => pen.put_u16(word as u16),
        Kind::Int32 | Kind::UInt32 | Kind::Float | Kind::StatusCode => pen.put_u32(word as u32),
        Kind::Int64 | Kind::UInt64 | Kind::Double | Kind::DateTime => pen.put_u64(word),
        Kind::String | Kind::ByteString | Kind::Guid => unreachable!(),
    }
}
