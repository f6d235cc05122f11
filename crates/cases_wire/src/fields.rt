//! Data sets with a row each.
ghost use Rattle.std.specs.Prelude.{◌≡◌, IfOk};
ghost use Rattle.row_words.specs.Belonging.{Belongs};
ghost use Rattle.row_words.specs.Patches.{IsPatchOf};
ghost use Rattle.row_words.specs.Props.{Belongs-prop};

use case_lines::LineFault;
use dataset_meta::{Field, Meta, Name32};
use row_words::{Patch, Row};
use ua_values::{Kind, Value};

/// A field's value, which is Good.
#[derive(Clone, Copy)]
pub struct Put {
    pub index: u8,
    pub value: Value,
}

/// A data set with a row of it.
#[derive(Drop)]
pub struct Case {
    pub meta: Meta,
    pub row: Row,
    ghost belongs: { Belongs meta row.words } by { Belongs-prop meta row.words },
}

impl Case {
    /// The opening row.
    pub fn opening(fields: Vec<Field>, major: u32, minor: u32) -> Result<Case, LineFault> {
        Ok(Case {
            meta: meta_of(fields, major, minor, false)?,
            row: Row::opening(),
        })
    }

    /// Sets a field's value, where it is such as it may have.
    pub fn set(&mut self, put: &Put) -> Result<(), LineFault>
        ensures { self.new.meta ≡ self.old.meta }
    {
        if self.row.try_set(&self.meta, put.index, &put.value, 0) {
            Ok(())
        } else {
            Err(LineFault::Condition)
        }
    }

    /// Gives the fields from this one on these numbers.
    pub fn set_from(&mut self, index: u8, numbers: &[u32]) -> Result<(), LineFault>
        ensures { self.new.meta ≡ self.old.meta }
    {
        match numbers {
            [] => Ok(()),
            [first, rest @ ..] => {
                self.set(&Put {
                    index,
                    value: Value::UInt32(*first),
                })?;
                self.set_from(index.saturating_add(1), rest)
            }
        }
    }
}

/// The patch that marks the field alone.
pub fn patch_of(meta: &Meta, put: &Put) -> Result<Patch, LineFault>
    ensures { IfOk result (IsPatchOf meta.now) }
{
    let mut patch = Patch::empty_of(meta);
    if patch.try_put(meta, put.index, &put.value, 0) {
        Ok(patch)
    } else {
        Err(LineFault::Condition)
    }
}

/// The data set of these fields.
pub fn meta_of(
    fields: Vec<Field>,
    major: u32,
    minor: u32,
    quality: bool,
) -> Result<Meta, LineFault> {
    match Meta::new(name_of("demo")?, fields, major, minor, quality) {
        Ok(meta) => Ok(meta),
        Err(_) => Err(LineFault::Condition),
    }
}

/// The name of a data set or a field.
pub fn name_of(word: &str) -> Result<Name32, LineFault> {
    match Name32::new(word.as_bytes()) {
        Some(name) => Ok(name),
        None => Err(LineFault::Condition),
    }
}

/// A UInt32 field.
pub fn number_field(name: &str) -> Result<Field, LineFault> {
    Ok(Field {
        name: name_of(name)?,
        kind: Kind::UInt32,
        cap: 0,
    })
}
