//! Data sets, patches and rows as a line spells them. Each field is a UInt32.
ghost use Rattle.std.specs.Prelude.{◌≡◌, ◌<◌, ◌^◌, IfOk, length, sum};
ghost use Rattle.row_words.specs.Belonging.{Belongs};
ghost use Rattle.row_words.specs.Patches.{IsPatchOf};

use case_lines::{Answer, CaseLine, LineFault, number, parted};
use dataset_meta::{Field, Meta, Name32};
use row_words::{Patch, Row};
use std::alloc::Global;
use std::marker::Model;
use ua_values::{Kind, Value, fits};

/// Data sets, and how many entries the eight authors of each may make.
#[derive(Drop)]
pub struct DataSets {
    pub(crate) metas: Vec<Meta>,
    pub(crate) quotas: Vec<[u64; 8]>,
}

impl Model for DataSets {
    ghost use Rattle.std.specs.Prelude.{ℕ, List};
    ghost use Rattle.dataset_meta.specs.Metas.{MetaData};
    ghost use Rattle.cell_bank.specs.Hands.{AreSmall};

    ghost Value = { List MetaData × List (List ℕ) };

    ghost view = { λ s. (s.metas.items, s.quotas.items) };

    ghost invariant = { λ s. AreSmall s.quotas.items };
}

impl DataSets {
    pub fn new(alloc: Global) -> DataSets {
        DataSets {
            metas: Vec::new(alloc),
            quotas: Vec::new(alloc),
        }
    }

    /// `FIELDS QUOTA ..`: a data set of so many fields, whose eight authors may make so many entries
    pub fn push(&mut self, alloc: Global, line: &mut CaseLine) -> Answer {
        let meta = meta_with(alloc, line.u8())?;
        let quotas = quotas_of(line);
        self.metas.push(meta)?;
        self.quotas.push(quotas)?;
        Ok(None)
    }
}

fn quotas_of(line: &mut CaseLine) -> [u64; 8]
    ensures { sum result < 2 ^ 63 }
{
    [
        u64::from(line.u16()),
        u64::from(line.u16()),
        u64::from(line.u16()),
        u64::from(line.u16()),
        u64::from(line.u16()),
        u64::from(line.u16()),
        u64::from(line.u16()),
        u64::from(line.u16()),
    ]
}

fn meta_with(alloc: Global, count: u8) -> Result<Meta, LineFault> {
    let mut fields = Vec::new(alloc);
    for k in 0..count {
        let name = name_of(format!(in alloc; "f{k}")?.as_str())?;
        fields.push(Field {
            name,
            kind: Kind::UInt32,
            cap: 0,
        })?;
    }
    match Meta::new(name_of("demo")?, fields, 1, 0, false) {
        Ok(meta) => Ok(meta),
        Err(_) => Err(LineFault::Condition),
    }
}

fn name_of(word: &str) -> Result<Name32, LineFault> {
    match Name32::new(word.as_bytes()) {
        Some(name) => Ok(name),
        None => Err(LineFault::Condition),
    }
}

/// `INDEX=VALUE ..`: the changes, put into the empty patch in turn
pub fn patch_of(meta: &Meta, line: &CaseLine) -> Result<Patch, LineFault>
    ensures { IfOk result (IsPatchOf meta.now) }
{
    let _fields = meta.fields();
    let mut patch = Patch::empty();
    for word in line.words() {
        put(meta, &mut patch, word)?;
    }
    Ok(patch)
}

fn put(meta: &Meta, patch: &mut Patch, word: &str) -> Result<(), LineFault>
    requires { IsPatchOf meta.now patch.old }
    ensures { IsPatchOf meta.now patch.new }
{
    let (index, value) = parted(word, '=')?;
    let index = number::<u8>(index)?;
    let value = Value::UInt32(number(value)?);
    let fields = meta.fields();
    if usize::from(index) >= fields.len() {
        return Err(LineFault::Condition);
    }
    let field = fields[usize::from(index)];
    if !fits(&value, field.kind, field.cap) {
        return Err(LineFault::Condition);
    }
    patch.put(meta, index, &value, 0);
    Ok(())
}

/// The opening row with the changes laid in.
pub fn row_of(meta: &Meta, line: &CaseLine) -> Result<Row, LineFault>
    ensures { IfOk result (λ row. Belongs meta.now row.words) }
{
    let patch = patch_of(meta, line)?;
    let _fields = meta.fields();
    let mut row = Row::opening();
    patch.lay(meta, &mut row);
    Ok(row)
}
