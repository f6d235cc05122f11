//! The data sets of a configuration's writers.
ghost use Rattle.std.specs.Prelude.{◌≡◌, ◌++◌, IfOk, OnOk, map};
ghost use Rattle.json_tap.specs.Transcoding.{sets_of};

use ps_config::{Config, WriterPart};
use std::alloc::Global;
use ua_base::NoMemory;

/// The data set of each writer, by its id.
pub(crate) fn sets_of(alloc: Global, config: &Config) -> Result<Vec<(u16, u8)>, NoMemory>
    ensures { IfOk result (λ sets. sets.items ≡ sets_of config.now) }
{
    let mut sets = Vec::new(alloc);
    for group in config.group.as_slice() {
        push_sets(&mut sets, group.writer.as_slice())?;
    }
    Ok(sets)
}

fn push_sets(sets: &mut Vec<(u16, u8)>, writers: &[WriterPart]) -> Result<(), NoMemory>
    ensures { OnOk result (sets.new.items
        ≡ sets.old.items ++ map (λ writer. (writer.id, writer.dataset)) writers.now) }
{
    for writer in writers {
        sets.push((writer.id, writer.dataset))?;
    }
    Ok(())
}
