//! One thread at its list.
ghost use Rattle.std.specs.Prelude.{◌≡◌, ◌+◌, ◌<◌, ◌^◌, length};
ghost use Rattle.version_cell.specs.Sets.{ArePassesOf, ChangesAt, pass_at};
ghost use Rattle.app_threads.specs.Duties.{CanRun, IsDone, Watched, begun_with};
ghost use Rattle.app_threads.specs.Crews.{IsFresh};
ghost use Rattle.app_threads.specs.Doing.{MayDo, Did, MayPlace, DidPlace, MayLook, DidLook};

use crate::done::{Done, Looked};
use crate::item::Item;
use cell_bank::Bank;
use row_words::Patch;
use std::sync::Wait;
use target_cells::Targets;
use ua_base::Gate;
use version_cell::{Passes, Placed};

/// How many writes and watches of a list are done.
#[derive(Clone, Copy)]
pub(crate) struct Progress {
    pub writes: usize,
    pub watches: usize,
}

/// Runs a list, with a call of the gate before and after each item.
pub(crate) fn run_list<R: Wait, G: Gate>(
    rt: &R,
    bank: &Bank,
    targets: &Targets,
    gate: &G,
    list: &[Item],
    done: &mut Done,
)
    requires can_run { CanRun bank.now targets.now.cells done.old.list
        (begun_with list.now done.old) }
    requires fresh { IsFresh done.old.list list.now done.old }
    ensures { IsDone bank.now targets.now.cells done.old.list
        (begun_with list.now done.old) done.new }
{
    let thread = done.list;
    let mut at = Progress {
        writes: 0,
        watches: 0,
    };
    for k in 0..list.len() {
        gate.before(rt, thread, k as u32);
        let item = &list[k];
        at = run_item(rt, bank, targets, item, at, done);
        gate.after(rt, thread, k as u32);
    }
}

fn run_item<R: Wait>(
    rt: &R,
    bank: &Bank,
    targets: &Targets,
    item: &Item,
    at: Progress,
    done: &mut Done,
) -> Progress
    requires may_do { MayDo bank.now targets.now.cells item.now at done.old }
    requires few { at.writes + at.watches < 2 ^ 32 }
    ensures { Did bank.now targets.now.cells item.now at result done.old done.new }
{
    match item {
        Item::Write { set, patch } => {
            write(rt, bank, *set, patch, at.writes, done);
            Progress {
                writes: at.writes + 1,
                watches: at.watches,
            }
        }
        Item::Watch { reader, times: _ } => {
            watch(rt, targets, *reader, at.watches, done);
            Progress {
                writes: at.writes,
                watches: at.watches + 1,
            }
        }
    }
}

// Notes the version of one write. The pass has an entry left, so it isn't full.
fn write<R: Wait>(rt: &R, bank: &Bank, set: u8, patch: &Patch, at: usize, done: &mut Done)
    requires { MayPlace bank.now set patch.now at done.old }
    ensures { DidPlace bank.now set patch.now at done.old done.new }
{
    match bank.write(rt, set, &mut done.passes, patch) {
        Placed::Wrote(version) => {
            let versions = &mut done.versions;
            versions.items[at] = (set, version);
        }
        Placed::Full { .. } => unreachable!(),
    }
}

// Notes what the looks of one watch count.
fn watch<R: Wait>(rt: &R, targets: &Targets, reader: u8, at: usize, done: &mut Done)
    requires { MayLook targets.now.cells reader at done.old }
    ensures { DidLook targets.now.cells reader at done.old done.new }
{
    let looks = &mut done.looks;
    let looked = &mut looks.items[at];
    look(rt, targets, reader, looked, &mut done.watches);
}

fn look<R: Wait>(rt: &R, targets: &Targets, reader: u8, looked: &mut Looked, watches: &mut Passes)
    requires own { ArePassesOf targets.now.cells watches.old }
    requires reader { reader < length targets.now.cells }
    ensures same { looked.new.reader ≡ looked.old.reader }
    ensures times { length looked.new.counts ≡ length looked.old.counts }
    ensures watched { Watched (pass_at watches.old reader) (pass_at watches.new reader)
        looked.new.counts }
    ensures others { ChangesAt reader watches.old watches.new }
    ensures own { ArePassesOf targets.now.cells watches.new }
{
    let counts = &mut looked.counts;
    look_each(rt, targets, reader, &mut counts.items, watches);
}

// One look for each count.
fn look_each<R: Wait>(
    rt: &R,
    targets: &Targets,
    reader: u8,
    counts: &mut [u64],
    watches: &mut Passes,
)
    requires own { ArePassesOf targets.now.cells watches.old }
    requires reader { reader < length targets.now.cells }
    ensures times { length counts.new ≡ length counts.old }
    ensures watched { Watched (pass_at watches.old reader) (pass_at watches.new reader) counts.new }
    ensures others { ChangesAt reader watches.old watches.new }
    ensures own { ArePassesOf targets.now.cells watches.new }
{
    for k in 0..counts.len() {
        counts[k] = targets.look(rt, watches, reader);
    }
}
