//! Configurations by the numbers of their components.
ghost use Rattle.std.specs.Prelude.{IfOk};
ghost use Rattle.ps_config.specs.Sound.{IsFew};

use case_lines::{LineFault, Told, number, parted};
use ps_config::{Config, read_config};
use std::alloc::Global;

/// The configuration with so many writers in each group and so many readers in each read group, as
/// `2 1 / 3` has two groups and a read group.
pub fn config_with(alloc: Global, counts: &str) -> Result<Config, LineFault>
    ensures { IfOk result IsFew }
{
    let (writers, readers) = parted(counts, '/')?;
    let mut told = Told::new(alloc);
    told.say(DATA_SET);
    tell_half(&mut told, writers, GROUP, WRITER)?;
    tell_half(&mut told, readers, READ_GROUP, READER)?;
    let text = told.text()?;
    match read_config(alloc, text.as_bytes()) {
        Ok(config) => Ok(config),
        Err(_) => Err(LineFault::Condition),
    }
}

const DATA_SET: &str =
    "publisher={id=\"u8:5\"}\n[[dataset]]\nname=\"d\"\n[[dataset.field]]\nname=\"a\"\nkind=\"Byte\"\n";

// tables, in which `#` stands for their number

const GROUP: &str = "[[group]]\nname=\"g#\"\nid=#\ninterval=100\n";

const WRITER: &str = "[[group.writer]]\nname=\"w#\"\nid=#\ndataset=\"d\"\n";

const READ_GROUP: &str = "[[readgroup]]\nname=\"rg#\"\npublisher=\"u8:5\"\n";

const READER: &str = "[[readgroup.reader]]\nname=\"r#\"\nwriter=#\ndataset=\"d\"\n";

/// A head with so many members for each count. Members are numbered over all heads.
fn tell_half(told: &mut Told, counts: &str, head: &str, member: &str) -> Result<(), LineFault> {
    let mut heads = 0_u64;
    let mut members = 0_u64;
    for word in counts.split_whitespace() {
        heads = heads.wrapping_add(1);
        told.fill(head, &[heads, heads]);
        for _ in 0..number::<u8>(word)? {
            members = members.wrapping_add(1);
            told.fill(member, &[members, members]);
        }
    }
    Ok(())
}
