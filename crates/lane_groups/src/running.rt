//! Lanes at work.
ghost use Rattle.std.specs.Prelude.{◌<◌, ◌≤◌, ◌^◌, IfErr, IfOk, IsSome, length};
ghost use Rattle.ua_base.specs.Links.{KeepsLink};
ghost use Rattle.lane_groups.specs.Lanes.{IsWork};
ghost use Rattle.lane_groups.specs.Running.{AreBehind, AreLanes, HasRunLanes, HasStopped};

use crate::lane::Lane;
use crate::turn::{TurnIn, Work};
use group_threads::run_makers;
use ps_config::Config;
use std::alloc::Global;
use std::sync::Wait;
use std::thread::Threads;
use ua_base::{Gate, Link, NoMemory};

/// What a run leaves.
#[derive(Drop)]
pub struct Ran {
    /// The lanes after their last turns, in the order in which they were given.
    pub lanes: Vec<Lane>,
    /// How many datagrams of each group were sent.
    pub sent: [u64; 4],
    /// How many datagrams couldn't be sent.
    pub failed: u64,
}

/// Runs each lane on a thread of its own for all turns, and sends what their groups make on this one, through a queue with `room`
/// places. The gate is called before and after each turn of a lane, with the lane's number as thread. An error says that memory
/// ran out, or that no thread could be made, and nothing was sent.
pub fn run_lanes<'a, L: Link, G: Gate, R: Threads + Wait + Sync>(
    rt: &R,
    alloc: Global,
    config: &'a Config,
    turns: &'a [TurnIn],
    lanes: Vec<Lane>,
    room: u32,
    link: &mut L,
    gate: &G,
) -> Result<Ran, NoMemory>
    requires work { IsWork config.now turns.now }
    requires count { length turns.now < 2 ^ 32 }
    requires lanes { AreLanes config.now (length turns.now) lanes.items }
    requires room { 0 < room }
    requires open { IsSome (L.opened_with link.old) }
    ensures lanes { IfOk result
        (HasRunLanes config.entry.now turns.entry.now (L.told link.old) (L.told link.new)) }
    ensures behind { IfOk result
        (λ ran. AreBehind config.entry.now turns.entry.now lanes.items ran.lanes.items) }
    ensures stopped { IfErr result
        (λ _. HasStopped config.entry.now turns.entry.now (L.told link.old) (L.told link.new)) }
    ensures link { KeepsLink L.told L.patience L.opened_with L.faults L.made L.openings
        0 link.old link.new }
{
    let work = Work { config, turns };
    let count = turns.len() as u32;
    let ran = run_makers(rt, alloc, &work, count, lanes, room, link, gate)?;
    let sent = ran.sent;
    Ok(Ran {
        lanes: ran.makers,
        sent,
        failed: ran.failed,
    })
}
