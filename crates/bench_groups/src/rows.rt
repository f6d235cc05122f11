//! The rows that turns are given.
ghost use Rattle.std.specs.Prelude.{IfOk};
ghost use Rattle.row_words.specs.Belonging.{Belongs};
ghost use Rattle.bench_groups.specs.Running.{AreRows};

use bench_base::Unmeasured;
use dataset_meta::Meta;
use row_words::Row;
use std::alloc::Global;
use ua_values::{Value, fits};
use writer_group::Sampled;

/// A row of each data set, whose middle field has this value.
pub fn rows_of(alloc: Global, metas: &[Meta], middle: u32) -> Result<Vec<Sampled>, Unmeasured>
    ensures { IfOk result (λ rows. AreRows metas.now rows.items) }
{
    let mut rows = Vec::new(alloc);
    for meta in metas {
        let row = row_of(meta, middle);
        rows.push(Sampled { row, version: 1 })?;
    }
    Ok(rows)
}

/// The row in which each field's value is its index, with the highest bits set, but the middle field has this one.
fn row_of(meta: &Meta, middle: u32) -> Row
    ensures { Belongs meta.now result.words }
{
    let mut row = opening(meta);
    let count = meta.fields().len();
    for index in 0..count {
        set(meta, &mut row, index, 0xff00_0000 | index as u32);
    }
    set(meta, &mut row, count / 2, middle);
    row
}

fn opening(meta: &Meta) -> Row
    ensures { Belongs meta.now result.words }
{
    let _fields = meta.fields();
    Row::opening()
}

/// Sets the field, where it is of the kind UInt32.
fn set(meta: &Meta, row: &mut Row, index: usize, value: u32)
    requires { Belongs meta.now row.old.words }
    ensures { Belongs meta.now row.new.words }
{
    let value = Value::UInt32(value);
    if index < meta.fields().len()
        && fits(&value, meta.fields()[index].kind, meta.fields()[index].cap)
    {
        row.set(meta, index as u8, &value);
    }
}
