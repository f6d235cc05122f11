//! What one line of a script makes of a session, whichever command plays it.
ghost use Rattle.std.specs.Prelude.{IsSome, IsTrue, OnErr, OnOk};
ghost use Rattle.ua_base.specs.Links.{KeepsLink};
ghost use Rattle.pubsub_engine.specs.Holding.{AreTargetsOf, IsBankOf, IsSession};
ghost use Rattle.script_player.specs.Passing.{MayPass, PassesOn};

use cell_bank::Bank;
use pubsub_engine::{Session, Ticked};
use std::sync::Wait;
use target_cells::Targets;
use ua_base::{Link, NoMemory};

/// A sample, a tick with it, and a pump. An error says that memory ran out at a send of the tick; then no further call may come.
pub fn pass<R: Wait, L: Link>(
    rt: &R,
    session: &mut Session<'_>,
    bank: &Bank,
    targets: &Targets,
    ms: u64,
    closing: bool,
    link: &mut L,
) -> Result<(), NoMemory>
    requires open { IsSome (L.opened_with link.old) }
    requires session { IsSession session.old }
    requires bank { IsBankOf session.old bank.now }
    requires targets { AreTargetsOf session.old targets.now }
    requires may { MayPass ms closing session.old }
    ensures session { OnOk result (IsSession session.new) }
    ensures bank { OnOk result (IsBankOf session.new bank.now) }
    ensures targets { OnOk result (AreTargetsOf session.new targets.now) }
    ensures passes { OnOk result
        (PassesOn ms closing session.old session.new (L.told link.old) (L.told link.new)) }
    ensures memory { OnErr result (IsTrue L.takes_memory) }
    ensures link { KeepsLink L.told L.patience L.opened_with L.faults L.made L.openings
        1 link.old link.new }
{
    session.sample(rt, bank);
    match session.tick(ms, closing, link) {
        Ticked::Done => {}
        Ticked::Memory => return Err(NoMemory),
    }
    session.pump(rt, link, targets);
    Ok(())
}
