//! The subscriber's side.
ghost use Rattle.std.specs.Prelude.{◌<◌, length};
ghost use Rattle.ps_config.specs.Sound.{IsSound};
ghost use Rattle.row_words.specs.Belonging.{Belongs};

use crate::fault::DeviceFault;
use dataset_meta::Meta;
use ps_config::Config;
use reader_group::ReaderGroup;
use row_words::Row;
use std::alloc::Global;
use value_texts::value_text;

/// When the datagram comes, in milliseconds.
const MOMENT: u64 = 105;

/// The row that the only reader holds, as text, once its read group took this datagram, which is decrypted in place where the read
/// group is so secured.
pub fn held_row(alloc: Global, config: &Config, datagram: &mut [u8]) -> Result<String, DeviceFault>
    requires { IsSound config.now }
{
    let [part] = config.readgroup.as_slice() else {
        return Err(DeviceFault::Unlike);
    };
    let [reader] = part.reader.as_slice() else {
        return Err(DeviceFault::Unlike);
    };
    let meta = &config.dataset.as_slice()[usize::from(reader.dataset)];
    let mut group = ReaderGroup::new(alloc, config, 0)?;
    group.datagram(config, MOMENT, &[true], datagram)?;
    let Some(row) = group.reader(0).row() else {
        return Err(DeviceFault::NoRow);
    };
    row_text(alloc, meta, row)
}

/// A line for each field: its name and its value.
fn row_text(alloc: Global, meta: &Meta, row: &Row) -> Result<String, DeviceFault>
    requires { Belongs meta.now row.now.words }
{
    let mut text = Vec::new(alloc);
    for index in 0..meta.fields().len() as u8 {
        push_field(&mut text, meta, row, index)?;
    }
    match String::from_utf8(text) {
        Ok(text) => Ok(text),
        Err(_) => Err(DeviceFault::Unlike),
    }
}

fn push_field(text: &mut Vec<u8>, meta: &Meta, row: &Row, index: u8) -> Result<(), DeviceFault>
    requires belongs { Belongs meta.now row.now.words }
    requires index { index < length meta.now.fields }
{
    let name = &meta.fields()[usize::from(index)].name;
    text.extend_from_slice(name.as_bytes())?;
    text.extend_from_slice(b" = ")?;
    value_text(&row.field(meta, index), text)?;
    text.push(b'\n')?;
    Ok(())
}
