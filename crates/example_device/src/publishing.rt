//! The publisher's side.
ghost use Rattle.std.specs.List.{HoldsAt};
ghost use Rattle.row_words.specs.Belonging.{Belongs};
ghost use Rattle.writer_group.specs.Standing.{IsGood};

use crate::fault::DeviceFault;
use ps_config::Config;
use row_words::Row;
use std::alloc::Global;
use writer_group::{Datagrams, Group, Sampled};

/// How many turns the group has room to log.
const TURNS: u32 = 1;

/// When the turn comes, in milliseconds: a little late.
const NOW: u64 = 103;

/// The first datagram of a turn of the configuration's only group, which isn't secured, where its only data set has this row. All
/// writers are on.
pub fn datagram_of_a_turn(alloc: Global, config: &Config, row: Row) -> Result<Vec<u8>, DeviceFault>
    requires good { IsGood config.now }
    requires row { HoldsAt (λ meta. Belongs meta row.words) config.now.dataset 0 }
{
    let [part] = config.group.as_slice() else {
        return Err(DeviceFault::Unlike);
    };
    let on = vec![in alloc; true; part.writer.as_slice().len()]?;
    let rows = [Sampled { row, version: 0 }];
    let mut group = Group::new(alloc, config, 0, TURNS)?;
    if !group.may_tick(config, &rows, &on, None) {
        return Err(DeviceFault::Unlike);
    }
    let mut out = Datagrams::new(alloc)?;
    let metas = config.dataset.as_slice();
    let now = group.moment_of(NOW);
    let count = group.tick(config, metas, now, &rows, &on, None, false, &mut out);
    if count == 0 {
        return Err(DeviceFault::NoDatagram);
    }
    Ok(Vec::from_slice(alloc, out.get(0))?)
}
