//! The command `lanes`.
ghost use Rattle.std.specs.Prelude.{◌≡◌, ◌≢◌, ◌≤◌, ◌<◌, None, Some, Err, IfOk, OnOk, option_copied};
ghost use Rattle.cmd_base.specs.Outside.{outside_of, wire_of};
ghost use Rattle.cmd_base.specs.Statuses.{IsDone, IsUnwritten};
ghost use Rattle.cmd_base.specs.Links.{IsBeforeLink};
ghost use Rattle.cmd_lanes.specs.Runs.{LanesEnds};

use crate::playing::play_lanes;
use crate::refusal::refused;
use cmd_base::{Status, accept, status_of, write_text};
use std::alloc::Global;
use std::sync::Wait;
use std::thread::Threads;
use ua_base::{Folder, Gate, Link, Sink};

/// The places of the queue between the lanes and the thread that sends.
const ROOM: u32 = 1024;

/// Applies the writes of the script of this name, and runs the writer groups of the configuration of this name or the built-in one
/// on threads of their own. These pass their datagrams to this thread through a queue. It sends them over the link, and writes what
/// was sent. The gate is called before and after each turn of a lane. A script with other lines than writes, ticks and fates is
/// refused.
pub fn lanes<'w, R: Threads + Wait + Sync, F: Folder, A: Link, G: Gate, K: Sink>(
    rt: &R,
    alloc: Global,
    script: &'w str,
    config: Option<&'w str>,
    folder: &mut F,
    lab: &mut A,
    gate: &G,
    out: &mut K,
) -> Status<'w>
    ensures ends { LanesEnds result script.now (option_copied config.entry)
        (outside_of F.tells F.faults K.written K.faults folder.old out.old)
        (outside_of F.tells F.faults K.written K.faults folder.new out.new)
        (wire_of A.told A.patience A.faults A.opened_with A.made A.openings lab.old)
        (wire_of A.told A.patience A.faults A.opened_with A.made A.openings lab.new) }
    ensures unlinked { IsBeforeLink result → lab.new ≡ lab.old }
    ensures silent { ¬ IsDone result → ¬ IsUnwritten result → out.new ≡ out.old }
{
    lanes_by(rt, alloc, script, config, ROOM, folder, lab, gate, out)
}

/// The same through a queue with so many places.
pub fn lanes_by<'w, R: Threads + Wait + Sync, F: Folder, A: Link, G: Gate, K: Sink>(
    rt: &R,
    alloc: Global,
    script: &'w str,
    config: Option<&'w str>,
    room: u32,
    folder: &mut F,
    lab: &mut A,
    gate: &G,
    out: &mut K,
) -> Status<'w>
    requires room { 0 < room }
    ensures ends { LanesEnds result script.now (option_copied config.entry)
        (outside_of F.tells F.faults K.written K.faults folder.old out.old)
        (outside_of F.tells F.faults K.written K.faults folder.new out.new)
        (wire_of A.told A.patience A.faults A.opened_with A.made A.openings lab.old)
        (wire_of A.told A.patience A.faults A.opened_with A.made A.openings lab.new) }
    ensures unlinked { IsBeforeLink result → lab.new ≡ lab.old }
    ensures silent { ¬ IsDone result → ¬ IsUnwritten result → out.new ≡ out.old }
{
    let accepted = match accept(alloc, script, config, true, folder) {
        Ok(accepted) => accepted,
        Err(status) => return status,
    };
    if let Some(line) = refused(&accepted.script) {
        return Status::NotInLanes { line };
    }
    match play_lanes(
        rt,
        alloc,
        &accepted.config,
        &accepted.script,
        room,
        lab,
        gate,
    ) {
        Ok(text) => write_text(out, &text),
        Err(end) => status_of(end),
    }
}
