//! Reading rows of RawData.
ghost use Rattle.std.specs.Prelude.{◌≡◌, ◌<◌, ◌≤◌, ℕ, true, false, length, slice_set, IfOk};
ghost use Rattle.std.specs.List.{HoldsAt};
ghost use Rattle.ua_values.specs.Values.{Fits};
ghost use Rattle.ua_binary.specs.Reading.{Reads, ReadsAhead, lent};
ghost use Rattle.row_words.specs.Words.{IsWordOf, is_scalar, scalar_in};
ghost use Rattle.row_words.specs.Belonging.{Belongs, row_in};
ghost use Rattle.fixed_layout.specs.Calls.{meaning, leaving, scalar_of, set_at};
ghost use Rattle.fixed_layout.specs.Spelling.{good};
ghost use Rattle.fixed_layout.specs.Reading.{raw_block_at, raw_text_at, raw_value_at, raw_row_at};

use crate::fault::RawFault;
use dataset_meta::{Field, Meta};
use row_words::{Row, is_scalar};
use ua_binary::Cursor;
use ua_values::{Blob, Kind, Text, TextFault, Value};

/// The row of RawData that the bytes begin with (OPC 10000-14 7.2.4.5, RawData field encoding), for a data set with this meta.
/// Numbers are little-endian; any byte but 0 is read as true, and a null text or blob as an empty one. Each status is Good.
/// What fills a text or a blob up to its cap is not looked at. A refusal leaves the cursor.
pub fn read_raw(meta: &Meta, cursor: &mut Cursor<'_>) -> Result<Row, RawFault>
    ensures belongs { IfOk result (λ row. Belongs meta.now row.words) }
    ensures answer { Reads (meaning meta.now.fields result) cursor.old cursor.new
        (raw_row_at meta.now.fields) }
{
    prove!(meta.fields().len() <= 64);
    let mut row = Row::opening();
    read_raw_into(meta, cursor, &mut row)?;
    Ok(row)
}

/// Reads the row of RawData that the bytes begin with, as `read_raw` does, in place of a row of this meta that the caller keeps: what it
/// keeps then is what `read_raw` answers. A refusal leaves the cursor, and some row of this meta.
pub fn read_raw_into(meta: &Meta, cursor: &mut Cursor<'_>, row: &mut Row) -> Result<(), RawFault>
    requires { Belongs meta.now row.old.words }
    ensures belongs { Belongs meta.now row.new.words }
    ensures answer { Reads (leaving result (row_in meta.now.fields row.new.words))
        cursor.old cursor.new (raw_row_at meta.now.fields) }
{
    let mut ahead = *cursor;
    read_row(&mut ahead, meta, row)?;
    *cursor = ahead;
    Ok(())
}

/// The values of the fields, one after another, set in a row, each Good.
#[inline(always)]
fn read_row(cursor: &mut Cursor<'_>, meta: &Meta, row: &mut Row) -> Result<(), RawFault>
    requires { Belongs meta.now row.old.words }
    ensures belongs { Belongs meta.now row.new.words }
    ensures answer { ReadsAhead (leaving result (row_in meta.now.fields row.new.words))
        cursor.old cursor.new (raw_row_at meta.now.fields) }
{
    for index in 0..meta.fields().len() {
        read_into(cursor, meta, index as u8, row)?;
    }
    Ok(())
}

/// Reads the value of the field at this index, and sets it in the row. Of a scalar no more than its word is copied.
#[inline(always)]
fn read_into(cursor: &mut Cursor<'_>, meta: &Meta, index: u8, row: &mut Row) -> Result<(), RawFault>
    requires belongs { Belongs meta.now row.old.words }
    requires index { index < length meta.now.fields }
    ensures belongs { Belongs meta.now row.new.words }
    ensures answer { HoldsAt (λ field. ReadsAhead (leaving result
        (row_in meta.now.fields row.new.words)) cursor.old cursor.new
        (set_at field index (row_in meta.now.fields row.old.words))) meta.now.fields index }
{
    if is_scalar(meta.fields()[usize::from(index)].kind) {
        read_scalar_into(cursor, meta, index, row)
    } else {
        read_lent_into(cursor, meta, index, row)
    }
}

/// The same of a scalar.
#[inline(always)]
fn read_scalar_into(
    cursor: &mut Cursor<'_>,
    meta: &Meta,
    index: u8,
    row: &mut Row,
) -> Result<(), RawFault>
    requires belongs { Belongs meta.now row.old.words }
    requires index { index < length meta.now.fields }
    requires scalar { HoldsAt (λ field. is_scalar field.kind ≡ true) meta.now.fields index }
    ensures belongs { Belongs meta.now row.new.words }
    ensures answer { HoldsAt (λ field. ReadsAhead (leaving result
        (row_in meta.now.fields row.new.words)) cursor.old cursor.new
        (set_at field index (row_in meta.now.fields row.old.words))) meta.now.fields index }
{
    let field = &meta.fields()[usize::from(index)];
    let word = read_word(cursor, field.kind)?;
    set_good(meta, index, word, row);
    Ok(())
}

/// Sets the scalar with this word, Good.
#[inline(always)]
fn set_good(meta: &Meta, index: u8, word: u64, row: &mut Row)
    requires belongs { Belongs meta.now row.old.words }
    requires index { index < length meta.now.fields }
    requires word { HoldsAt (λ field. IsWordOf field.kind word) meta.now.fields index }
    ensures belongs { Belongs meta.now row.new.words }
    ensures set { HoldsAt (λ field. row_in meta.now.fields row.new.words
        ≡ slice_set (row_in meta.now.fields row.old.words) index (good (scalar_in field.kind word)))
        meta.now.fields index }
{
    row.set_word(meta, index, word);
    if meta.quality() {
        row.set_status(meta, index, 0);
    }
}

/// Reads a text, a blob or a Guid by a copy of the cursor, so that the cursor itself need not stand in memory.
#[inline(always)]
fn read_lent_into(
    cursor: &mut Cursor<'_>,
    meta: &Meta,
    index: u8,
    row: &mut Row,
) -> Result<(), RawFault>
    requires belongs { Belongs meta.now row.old.words }
    requires index { index < length meta.now.fields }
    requires long { HoldsAt (λ field. is_scalar field.kind ≡ false) meta.now.fields index }
    ensures belongs { Belongs meta.now row.new.words }
    ensures answer { HoldsAt (λ field. ReadsAhead (leaving result
        (row_in meta.now.fields row.new.words)) cursor.old cursor.new
        (set_at field index (row_in meta.now.fields row.old.words))) meta.now.fields index }
{
    let mut lent = *cursor;
    read_long_into(&mut lent, meta, index, row)?;
    *cursor = lent;
    Ok(())
}

/// The same, by the cursor itself. It is a function of its own for the room that a value takes.
#[inline(never)]
fn read_long_into(
    cursor: &mut Cursor<'_>,
    meta: &Meta,
    index: u8,
    row: &mut Row,
) -> Result<(), RawFault>
    requires belongs { Belongs meta.now row.old.words }
    requires index { index < length meta.now.fields }
    requires long { HoldsAt (λ field. is_scalar field.kind ≡ false) meta.now.fields index }
    ensures belongs { Belongs meta.now row.new.words }
    ensures answer { HoldsAt (λ field. ReadsAhead (leaving result
        (row_in meta.now.fields row.new.words)) cursor.old cursor.new
        (set_at field index (row_in meta.now.fields row.old.words))) meta.now.fields index }
{
    let field = &meta.fields()[usize::from(index)];
    let value = read_long(cursor, field)?;
    row.set_with_status(meta, index, &value, 0);
    Ok(())
}

/// The word of a scalar of this kind. Any byte but 0 is true.
#[inline(always)]
fn read_word(cursor: &mut Cursor<'_>, kind: Kind) -> Result<u64, RawFault>
    requires { is_scalar kind ≡ true }
    ensures word { IfOk result (IsWordOf kind) }
    ensures answer { (cap : ℕ) → ReadsAhead (scalar_of kind result) cursor.old cursor.new
        (raw_value_at kind cap) }
{
    match kind {
        Kind::Boolean => Ok(u64::from(cursor.read_u8()? != 0)),
        Kind::SByte | Kind::Byte => Ok(u64::from(cursor.read_u8()?)),
        Kind::Int16 | Kind::UInt16 => Ok(u64::from(cursor.read_u16()?)),
        Kind::Int32 | Kind::UInt32 | Kind::Float | Kind::StatusCode => {
            Ok(u64::from(cursor.read_u32()?))
        }
        Kind::Int64 | Kind::UInt64 | Kind::Double | Kind::DateTime => Ok(cursor.read_u64()?),
        Kind::String | Kind::ByteString | Kind::Guid => unreachable!(),
    }
}

/// A text, a blob or a Guid of this field. It is a function of its own for the room that a value takes.
#[inline(never)]
fn read_long(cursor: &mut Cursor<'_>, field: &Field) -> Result<Value, RawFault>
    requires long { is_scalar field.now.kind ≡ false }
    requires cap { field.now.cap ≤ 256 }
    ensures fits { IfOk result (λ value. Fits value field.now.kind field.now.cap) }
    ensures answer { ReadsAhead result cursor.old cursor.new
        (raw_value_at field.now.kind field.now.cap) }
{
    match field.kind {
        Kind::String => read_filled_text(cursor, field.cap),
        Kind::ByteString => read_filled_blob(cursor, field.cap),
        Kind::Guid => Ok(Value::Guid(cursor.read_array()?)),
        _ => unreachable!(),
    }
}

/// A text, and past what fills it up to the cap.
#[tactic(auto, unfolding(crate::specs::Reading::filled_at))]
fn read_filled_text(cursor: &mut Cursor<'_>, cap: u16) -> Result<Value, RawFault>
    requires { cap ≤ 256 }
    ensures fits { IfOk result (λ value. Fits value Kind.String cap) }
    ensures answer { ReadsAhead result cursor.old cursor.new (raw_value_at Kind.String cap) }
{
    let text = read_text(cursor, cap)?;
    cursor.read_bytes(usize::from(cap) - text.as_bytes().len())?;
    Ok(Value::String(text))
}

/// A blob, and past what fills it up to the cap.
#[tactic(auto, unfolding(crate::specs::Reading::filled_at))]
fn read_filled_blob(cursor: &mut Cursor<'_>, cap: u16) -> Result<Value, RawFault>
    requires { cap ≤ 256 }
    ensures fits { IfOk result (λ value. Fits value Kind.ByteString cap) }
    ensures answer { ReadsAhead result cursor.old cursor.new (raw_value_at Kind.ByteString cap) }
{
    let blob = read_blob(cursor, cap)?;
    cursor.read_bytes(usize::from(cap) - blob.as_bytes().len())?;
    Ok(Value::ByteString(blob))
}

#[tactic(auto, unfolding(crate::specs::Reading::raw_text_at))]
fn read_text(cursor: &mut Cursor<'_>, cap: u16) -> Result<Text, RawFault>
    requires { cap ≤ 256 }
    ensures answer { ReadsAhead result cursor.old cursor.new (raw_text_at cap) }
    ensures short { IfOk result (λ text. length text ≤ cap) }
{
    match Text::from_bytes(read_block(cursor, cap)?) {
        Ok(text) => Ok(text),
        Err(TextFault::BadUtf8) => Err(RawFault::BadUtf8),
        // a block has at most 256 bytes
        Err(TextFault::TooLong) => unreachable!(),
    }
}

fn read_blob(cursor: &mut Cursor<'_>, cap: u16) -> Result<Blob, RawFault>
    requires { cap ≤ 256 }
    ensures answer { ReadsAhead result cursor.old cursor.new (raw_block_at cap) }
    ensures short { IfOk result (λ blob. length blob ≤ cap) }
{
    match Blob::from_bytes(read_block(cursor, cap)?) {
        Ok(blob) => Ok(blob),
        // a block has at most 256 bytes
        Err(_) => unreachable!(),
    }
}

/// The bytes behind an Int32 length, of a text (OPC 10000-6 section 5.2.2.4) or a blob (section 5.2.2.7). The length -1
/// stands for null, which is read as no bytes.
#[inline(always)]
#[tactic(auto, unfolding(crate::specs::Reading::raw_block_at))]
fn read_block<'a>(cursor: &mut Cursor<'a>, cap: u16) -> Result<&'a [u8], RawFault>
    ensures answer { ReadsAhead (lent result) cursor.old cursor.new (raw_block_at cap) }
    ensures short { IfOk result (λ block. length block.now ≤ cap) }
{
    let len = match cursor.read_u32()?.cast_signed() {
        -1 => 0,
        len if 0 <= len && len <= i32::from(cap) => len as usize,
        _ => return Err(RawFault::BadLength),
    };
    Ok(cursor.read_bytes(len)?)
}
