//! The rows of a turn.
ghost use Rattle.std.specs.Prelude.{IfOk, OnOk};
ghost use Rattle.row_words.specs.Belonging.{Belongs};
ghost use Rattle.writer_group.specs.Standing.{AreRowsOf};

use crate::configuration::WRITERS;
use crate::fault::Fault;
use dataset_meta::Meta;
use row_words::Row;
use ua_values::{Text, Value};
use writer_group::Sampled;

/// For how many turns a row's second field stays.
const STEP: u64 = 7;

/// For how many turns its third field stays.
const SHIFT: u64 = 1_000;

/// For how many turns its fourth field stays.
const BATCH: u64 = 50;

/// The status of each field.
const GOOD: u32 = 0;

const LETTERS: [u8; 16] = *b"abcdefghijklmnop";

/// Samples each data set at this turn.
pub fn sample(metas: &[Meta], turn: u64, rows: &mut [Sampled; WRITERS]) -> Result<(), Fault>
    ensures { OnOk result (AreRowsOf metas.now rows.new) }
{
    let [north, east, south, west] = metas else {
        return Err(Fault::Unlike);
    };
    *rows = [
        sampled(north, turn, 0)?,
        sampled(east, turn, 1)?,
        sampled(south, turn, 2)?,
        sampled(west, turn, 3)?,
    ];
    Ok(())
}

/// The row of the data set with this index: its first field changes at each turn, the others now and then.
fn sampled(meta: &Meta, turn: u64, index: u64) -> Result<Sampled, Fault>
    ensures { IfOk result (λ sampled. Belongs meta.now sampled.row.words) }
{
    let count = turn.wrapping_add(index);
    let steps = u32::try_from(count / STEP).unwrap_or(u32::MAX);
    let mut row = Row::opening_of(meta);
    set(meta, &mut row, 0, &Value::UInt64(count))?;
    set(meta, &mut row, 1, &Value::UInt32(steps))?;
    set(meta, &mut row, 2, &Value::Boolean(count / SHIFT % 2 == 0))?;
    set(meta, &mut row, 3, &Value::String(text_of(count / BATCH)?))?;
    Ok(Sampled { row, version: turn })
}

/// Sets a field, where there is one at this index that the value fits.
fn set(meta: &Meta, row: &mut Row, index: u8, value: &Value) -> Result<(), Fault>
    requires { Belongs meta.now row.old.words }
    ensures { Belongs meta.now row.new.words }
{
    if row.try_set(meta, index, value, GOOD) {
        Ok(())
    } else {
        Err(Fault::Unlike)
    }
}

/// The number as a text of sixteen letters, one for each four bits.
fn text_of(number: u64) -> Result<Text, Fault> {
    let mut letters = *b"aaaaaaaaaaaaaaaa";
    let mut rest = number;
    for letter in &mut letters {
        *letter = LETTERS[(rest % 16) as usize];
        rest /= 16;
    }
    match Text::from_bytes(&letters) {
        Ok(text) => Ok(text),
        Err(_) => Err(Fault::Unlike),
    }
}
