//! The row that the device has to tell.
ghost use Rattle.std.specs.Prelude.{IfOk};
ghost use Rattle.row_words.specs.Belonging.{Belongs};

use crate::fault::DeviceFault;
use dataset_meta::Meta;
use row_words::Row;
use ua_values::{Text, Value};

/// A row of the data set: what a device would read from its sensors.
pub fn readings(meta: &Meta) -> Result<Row, DeviceFault>
    ensures { IfOk result (λ row. Belongs meta.now row.words) }
{
    let Ok(batch) = Text::from_bytes(b"A-17") else {
        return Err(DeviceFault::Unlike);
    };
    let mut row = Row::opening_of(meta);
    set(meta, &mut row, "strokes", &Value::UInt32(1450))?;
    set(meta, &mut row, "running", &Value::Boolean(true))?;
    set(meta, &mut row, "batch", &Value::String(batch))?;
    Ok(row)
}

/// Sets the field of this name, where there is one that the value fits.
fn set(meta: &Meta, row: &mut Row, name: &str, value: &Value) -> Result<(), DeviceFault>
    requires { Belongs meta.now row.old.words }
    ensures { Belongs meta.now row.new.words }
{
    let Some(index) = meta.field_index(name) else {
        return Err(DeviceFault::Unlike);
    };
    if !row.try_set(meta, index, value, 0) {
        return Err(DeviceFault::Unlike);
    }
    Ok(())
}
