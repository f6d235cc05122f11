//! What a thread is to leave, with room for all that its list will be answered.
ghost use Rattle.std.specs.Prelude.{◌≡◌, ◌<◌, ◌^◌, length, IfOk, OnOk};
ghost use Rattle.app_threads.specs.Crews.{IsFresh};
ghost use Rattle.app_threads.specs.Doing.{AddsRoom};

use crate::done::{Done, Looked};
use crate::item::Item;
use crate::series::Series;
use std::alloc::Global;
use ua_base::NoMemory;
use version_cell::Passes;

pub(crate) fn fresh(
    alloc: Global,
    thread: u32,
    list: &[Item],
    passes: Passes,
    watches: Passes,
) -> Result<Done, NoMemory>
    requires short { length list.now < 2 ^ 32 }
    ensures fresh { IfOk result (IsFresh thread list.now) }
    ensures passes { IfOk result (λ done. done.passes ≡ passes) }
    ensures watches { IfOk result (λ done. done.watches ≡ watches) }
{
    let mut room = PassSets {
        versions: Vec::new(alloc),
        looks: Vec::new(alloc),
    };
    for k in 0..list.len() {
        let item = &list[k];
        add_room(alloc, item, &mut room)?;
    }
    let PassSets { versions, looks } = room;
    Ok(Done {
        list: thread,
        versions: Series::new(versions),
        looks: Series::new(looks),
        passes,
        watches,
    })
}

// Places that the answers of a list will take.
#[derive(Drop)]
struct PassSets {
    pub versions: Vec<(u8, u64)>,
    pub looks: Vec<Looked>,
}

fn add_room(alloc: Global, item: &Item, room: &mut PassSets) -> Result<(), NoMemory>
    ensures { OnOk result (AddsRoom item.now room.old room.new) }
{
    match item {
        Item::Write { set, patch: _ } => {
            room.versions.push((*set, 0))?;
        }
        Item::Watch { reader, times } => {
            let counts = Series::new(vec![in alloc; 0; *times as usize]?);
            let reader = *reader;
            room.looks.push(Looked { reader, counts })?;
        }
    }
    Ok(())
}
