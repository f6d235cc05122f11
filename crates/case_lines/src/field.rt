//! Values of fields.
ghost use Rattle.std.specs.Prelude.{◌<◌, length};
ghost use Rattle.row_words.specs.Belonging.{Belongs};

use crate::LineFault;
use dataset_meta::Meta;
use row_words::Row;
use value_texts::{parse_status, parse_value};

/// Sets a field to the value that `X` or `!S=X` spells, S its status.
pub fn set_field(meta: &Meta, row: &mut Row, index: u8, word: &str) -> Result<(), LineFault>
    requires belongs { Belongs meta.now row.old.words }
    requires index { index < length meta.now.fields }
    ensures { Belongs meta.now row.new.words }
{
    let (status, word) = status_and_value(word)?;
    if status != 0 && !meta.quality() {
        return Err(LineFault::Condition);
    }
    let field = meta.fields()[usize::from(index)];
    match parse_value(field.kind, field.cap, word.as_bytes()) {
        Some(value) => row.set_with_status(meta, index, &value, status),
        None => return Err(LineFault::Condition),
    }
    Ok(())
}

/// The status, 0 where none is spelled, and the value's text.
fn status_and_value(word: &str) -> Result<(u32, &str), LineFault> {
    let Some(behind) = word.strip_prefix('!') else {
        return Ok((0, word));
    };
    let Some((status, value)) = behind.split_once('=') else {
        return Err(LineFault::Missing);
    };
    match parse_status(status.as_bytes()) {
        Some(status) => Ok((status, value)),
        None => Err(LineFault::Number),
    }
}
