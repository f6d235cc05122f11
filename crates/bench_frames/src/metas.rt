//! The data sets that are measured: so many fields of the kind UInt32, with statuses or without.
ghost use Rattle.row_words.specs.Belonging.{Belongs};

use dataset_meta::{Field, Meta, Name32};
use row_words::Row;
use std::alloc::{AllocError, AllocFailed, Global};
use ua_values::{Kind, Value, fits};

/// Why nothing is measured: there is no such data set, or no memory.
#[derive(Drop)]
pub struct Unmeasured;

impl From<AllocError> for Unmeasured {
    fn from(_: AllocError) -> Unmeasured {
        Unmeasured
    }
}

impl<T: Drop> From<AllocFailed<T>> for Unmeasured {
    fn from(_: AllocFailed<T>) -> Unmeasured {
        Unmeasured
    }
}

/// The name of the field with this number: two letters.
fn name_of(number: u8) -> Option<Name32> {
    Name32::new(&[b'a' + number / 16 % 16, b'a' + number % 16])
}

/// The meta of so many UInt32 fields.
pub fn meta_of(alloc: Global, count: u8, quality: bool) -> Result<Meta, Unmeasured> {
    let mut fields = Vec::new(alloc);
    for number in 0..count {
        let Some(name) = name_of(number) else {
            return Err(Unmeasured);
        };
        fields.push(Field {
            name,
            kind: Kind::UInt32,
            cap: 0,
        })?;
    }
    let Some(name) = name_of(0) else {
        return Err(Unmeasured);
    };
    match Meta::new(name, fields, 1, 0, quality) {
        Ok(meta) => Ok(meta),
        Err(_) => Err(Unmeasured),
    }
}

fn opening(meta: &Meta) -> Row
    ensures { Belongs meta.now result.words }
{
    let _fields = meta.fields();
    Row::opening()
}

/// A status with the severity Uncertain at every fourth field, and Good, which is 0, at the others.
fn status_of(index: usize) -> u32 {
    if index % 4 == 3 { 0x4000_0000 } else { 0 }
}

/// Sets the field, where it is of the kind UInt32, and its status, where the data set has statuses.
fn set(meta: &Meta, row: &mut Row, index: usize, value: u32)
    requires { Belongs meta.now row.old.words }
    ensures { Belongs meta.now row.new.words }
{
    let value = Value::UInt32(value);
    if index < meta.fields().len()
        && fits(&value, meta.fields()[index].kind, meta.fields()[index].cap)
    {
        row.set(meta, index as u8, &value);
        if meta.quality() {
            row.set_status(meta, index as u8, status_of(index));
        }
    }
}

/// The row in which each field's value is its index, with the highest bits set.
pub fn row_of(meta: &Meta) -> Row
    ensures { Belongs meta.now result.words }
{
    let mut row = opening(meta);
    for index in 0..meta.fields().len() {
        set(meta, &mut row, index, 0xff00_0000 | index as u32);
    }
    row
}
