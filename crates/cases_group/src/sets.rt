//! The rows of the data sets.
ghost use Rattle.std.specs.Prelude.{◌≡◌, ◌<◌, IfOk, length, slice_index_or};
ghost use Rattle.row_words.specs.Belonging.{Belongs};
ghost use Rattle.cases_group.specs.Kept.{AreRows};

use case_lines::{CaseLine, LineFault, number, parted, set_field};
use dataset_meta::Meta;
use row_words::Row;
use std::alloc::Global;
use writer_group::Sampled;

/// The opening row of each data set.
pub fn opening_rows(alloc: Global, sets: &[Meta]) -> Result<Vec<Sampled>, LineFault>
    ensures { IfOk result (λ rows. AreRows sets.now rows.items) }
{
    let mut rows = Vec::new(alloc);
    for set in sets {
        rows.push(opening(set))?;
    }
    Ok(rows)
}

pub fn opening(meta: &Meta) -> Sampled
    ensures { Belongs meta.now result.row.words }
{
    // it lends its fields, which are a meta's
    let _fields = meta.fields();
    Sampled {
        row: Row::opening(),
        version: 0,
    }
}

/// `INDEX:X ..`: fields of a data set get values; tells the row's version
pub fn write(
    sets: &[Meta],
    rows: &mut Vec<Sampled>,
    set: usize,
    line: &CaseLine,
) -> Result<u64, LineFault>
    requires { AreRows sets.now rows.old.items }
    ensures { AreRows sets.now rows.new.items }
{
    if set >= sets.len() || set >= rows.len() {
        return Err(LineFault::Condition);
    }
    let old = sampled_at(rows, set);
    let row = written(meta_at(sets, set), &old.row, line)?;
    let version = old.version.wrapping_add(1);
    rows[set] = Sampled { row, version };
    Ok(version)
}

pub fn meta_at(sets: &[Meta], index: usize) -> &Meta
    requires { index < length sets.now }
    ensures { result.now ≡ slice_index_or sets.now index result.now }
{
    &sets[index]
}

pub fn sampled_at(rows: &Vec<Sampled>, index: usize) -> Sampled
    requires { index < length rows.now.items }
    ensures { result ≡ slice_index_or rows.now.items index result }
{
    rows[index]
}

/// The row with the values of the words.
fn written(meta: &Meta, row: &Row, line: &CaseLine) -> Result<Row, LineFault>
    requires { Belongs meta.now row.now.words }
    ensures { IfOk result (λ row. Belongs meta.now row.words) }
{
    let mut row = *row;
    for word in line.words() {
        set(meta, &mut row, word)?;
    }
    Ok(row)
}

/// Sets the field that `INDEX:X` or `INDEX:!S=X` names.
fn set(meta: &Meta, row: &mut Row, word: &str) -> Result<(), LineFault>
    requires { Belongs meta.now row.old.words }
    ensures { Belongs meta.now row.new.words }
{
    let (index, text) = parted(word, ':')?;
    let index = number::<u8>(index)?;
    if usize::from(index) >= meta.fields().len() {
        return Err(LineFault::Condition);
    }
    set_field(meta, row, index, text)
}
