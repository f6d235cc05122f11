//! Data sets that have a field more.
ghost use Rattle.std.specs.Prelude.{◌≡◌, ◌<◌, IfOk, length};
ghost use Rattle.row_words.specs.Belonging.{Belongs};
ghost use Rattle.cases_group.specs.Kept.{AreRows, GrowsAt};

use crate::sets::{meta_at, opening, sampled_at};
use case_lines::{CaseLine, LineFault, kind_of, number};
use dataset_meta::{Field, Meta, Name32, copies};
use row_words::Row;
use std::alloc::Global;
use ua_values::fits;
use writer_group::Sampled;

/// The data sets at a moment, and their rows.
#[derive(Drop)]
pub struct Sets {
    pub metas: Vec<Meta>,
    pub rows: Vec<Sampled>,
}

/// `NAME KIND` or `NAME KIND CAP`
pub fn field_of(line: &mut CaseLine) -> Result<Field, LineFault> {
    let name = line.word();
    let kind = kind_of(line.word())?;
    let cap = number::<u16>(line.optional().unwrap_or("0"))?;
    match Name32::new(name.as_bytes()) {
        Some(name) => Ok(Field { name, kind, cap }),
        None => Err(LineFault::Condition),
    }
}

/// The data sets and their rows, where this one has a field more.
pub fn grown_sets(
    alloc: Global,
    sets: &[Meta],
    samples: &Vec<Sampled>,
    set: usize,
    field: Field,
) -> Result<Sets, LineFault>
    requires { AreRows sets.now samples.now.items }
    ensures grows { IfOk result (λ grown. GrowsAt set sets.now grown.metas.items) }
    ensures rows { IfOk result (λ grown. AreRows grown.metas.items grown.rows.items) }
{
    if set >= sets.len() || set >= samples.len() {
        return Err(LineFault::Condition);
    }
    let short = meta_at(sets, set);
    let old = sampled_at(samples, set);
    let Some(long) = short.grown(alloc, field)? else {
        return Err(LineFault::Condition);
    };
    let row = grown_row(short, &old.row, &long)?;
    let version = old.version;
    let mut metas = copies(alloc, sets)?;
    let mut rows = copied_rows(alloc, samples)?;
    metas[set] = long;
    rows[set] = Sampled { row, version };
    Ok(Sets { metas, rows })
}

fn copied_rows(alloc: Global, samples: &[Sampled]) -> Result<Vec<Sampled>, LineFault>
    ensures { IfOk result (λ copies. copies.items ≡ samples.now) }
{
    Ok(Vec::from_slice(alloc, samples)?)
}

/// The row of the longer data set with the fields of a row of the shorter one.
fn grown_row(short: &Meta, row: &Row, long: &Meta) -> Result<Row, LineFault>
    requires { Belongs short.now row.now.words }
    ensures { IfOk result (λ grown. Belongs long.now grown.words) }
{
    let mut grown = opening(long).row;
    for index in 0..short.fields().len() as u8 {
        copy_field(short, row, long, &mut grown, index)?;
    }
    Ok(grown)
}

fn copy_field(
    short: &Meta,
    row: &Row,
    long: &Meta,
    grown: &mut Row,
    index: u8,
) -> Result<(), LineFault>
    requires row { Belongs short.now row.now.words }
    requires index { index < length short.now.fields }
    requires grown { Belongs long.now grown.old.words }
    ensures { Belongs long.now grown.new.words }
{
    if usize::from(index) >= long.fields().len() {
        return Err(LineFault::Condition);
    }
    let field = long.fields()[usize::from(index)];
    let value = row.field(short, index);
    let status = row.status(short, index);
    if !fits(&value, field.kind, field.cap) || status != 0 && !long.quality() {
        return Err(LineFault::Condition);
    }
    grown.set_with_status(long, index, &value, status);
    Ok(())
}
