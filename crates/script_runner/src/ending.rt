//! The end of a run: the session takes in what the threads have seen, and is closed.
ghost use Rattle.std.specs.Prelude.{◌≡◌, ◌<◌, ℕ, true, All, IsSome, IfOk, OnOk, length, map};
ghost use Rattle.ua_base.specs.Links.{KeepsLink};
ghost use Rattle.version_cell.specs.Sets.{ArePassesOf};
ghost use Rattle.pubsub_engine.specs.Holding.{AreTargetsOf, ChangesSamples, ChangesStores, IsBankOf, IsSession, keeper_of, passes_of};
ghost use Rattle.pubsub_engine.specs.Standing.{KeepsStands};
ghost use Rattle.script_player.specs.Passing.{MayPass};
ghost use Rattle.script_player.specs.Player.{IsOfScript};
ghost use Rattle.script_runner.specs.Finishing.{AreOwn, Finishes, HasMet, HasMetAll, HasStored, HasStoredAll, SeeMore, unwatched};

use app_threads::Done;
use cell_bank::Bank;
use ps_report::Closed;
use pubsub_engine::Session;
use script_player::pass;
use std::alloc::Global;
use std::sync::Wait;
use target_cells::Targets;
use ua_base::{Link, NoMemory};

/// What each thread has seen is joined with what the session has, its watches are levelled, and then come the closing tick, its
/// pump and the close.
pub(crate) fn finish<R: Wait, L: Link>(
    rt: &R,
    alloc: Global,
    mut session: Session<'_>,
    bank: &Bank,
    targets: &Targets,
    mut dones: Vec<Done>,
    link: &mut L,
) -> Result<Closed, NoMemory>
    requires open { IsSome (L.opened_with link.old) }
    requires session { IsSession session }
    requires script { IsOfScript session }
    requires bank { IsBankOf session bank.now }
    requires targets { AreTargetsOf session targets.now }
    requires own { AreOwn bank.now targets.now.cells dones.items }
    requires may { MayPass 0 true session }
    ensures finishes { IfOk result (Finishes bank.now targets.now.cells session.entry dones.items
        (L.told link.old) (L.told link.new)) }
    ensures link { KeepsLink L.told L.patience L.opened_with L.faults L.made L.openings
        1 link.old link.new }
{
    meet_all(rt, alloc, &mut session, bank, &mut dones)?;
    level_all(rt, &mut session, targets, &mut dones);
    pass(rt, &mut session, bank, targets, 0, true, link)?;
    session.close(alloc, &dones)
}

/// The session takes in what each thread has seen.
fn meet_all<R: Wait>(
    rt: &R,
    alloc: Global,
    session: &mut Session<'_>,
    bank: &Bank,
    dones: &mut Vec<Done>,
) -> Result<(), NoMemory>
    requires session { IsSession session.old }
    requires bank { IsBankOf session.old bank.now }
    requires own { All (λ done. ArePassesOf bank.now done.passes) dones.old.items }
    ensures session { OnOk result (IsSession session.new) }
    ensures bank { OnOk result (IsBankOf session.new bank.now) }
    ensures more { OnOk result (SeeMore (passes_of session.old) (passes_of session.new)) }
    ensures met { OnOk result (HasMetAll session.new (length bank.now) dones.old.items) }
    ensures same { OnOk result (dones.new.items ≡ dones.old.items) }
    ensures rest { OnOk result (ChangesSamples session.old session.new) }
    ensures stands { OnOk result (KeepsStands session.old session.new) }
{
    for t in 0..dones.len() {
        meet(rt, alloc, session, bank, &mut dones[t])?;
    }
    Ok(())
}

/// The session takes in what a thread has seen.
fn meet<R: Wait>(
    rt: &R,
    alloc: Global,
    session: &mut Session<'_>,
    bank: &Bank,
    done: &mut Done,
) -> Result<(), NoMemory>
    requires session { IsSession session.old }
    requires bank { IsBankOf session.old bank.now }
    requires own { ArePassesOf bank.now done.old.passes }
    ensures session { OnOk result (IsSession session.new) }
    ensures bank { OnOk result (IsBankOf session.new bank.now) }
    ensures more { OnOk result (SeeMore (passes_of session.old) (passes_of session.new)) }
    ensures met { OnOk result ((set : ℕ) → set < length bank.now
        → HasMet session.new set done.old) }
    ensures same { OnOk result (done.new ≡ done.old) }
    ensures rest { OnOk result (ChangesSamples session.old session.new) }
    ensures stands { OnOk result (KeepsStands session.old session.new) }
{
    let seen = bank.split(alloc, &mut done.passes)?;
    session.meet(rt, bank, seen);
    Ok(())
}

/// The watches of each thread see exactly the stores that there are.
fn level_all<R: Wait>(rt: &R, session: &mut Session<'_>, targets: &Targets, dones: &mut Vec<Done>)
    requires session { IsSession session.old }
    requires targets { AreTargetsOf session.old targets.now }
    requires own { All (λ done. ArePassesOf targets.now.cells done.watches) dones.old.items }
    ensures session { IsSession session.new }
    ensures targets { AreTargetsOf session.new targets.now }
    ensures same { keeper_of session.new ≡ keeper_of session.old }
    ensures stored { HasStoredAll session.old (length targets.now.cells) dones.old.items }
    ensures dones { map unwatched dones.new.items ≡ map unwatched dones.old.items }
    ensures rest { ChangesStores session.old session.new }
    ensures stands { KeepsStands session.old session.new }
{
    for t in 0..dones.len() {
        level(rt, session, targets, &mut dones[t]);
    }
}

/// The watches of a thread see exactly the stores that there are.
fn level<R: Wait>(rt: &R, session: &mut Session<'_>, targets: &Targets, done: &mut Done)
    requires session { IsSession session.old }
    requires targets { AreTargetsOf session.old targets.now }
    requires own { ArePassesOf targets.now.cells done.old.watches }
    ensures session { IsSession session.new }
    ensures targets { AreTargetsOf session.new targets.now }
    ensures same { keeper_of session.new ≡ keeper_of session.old }
    ensures stored { (reader : ℕ) → reader < length targets.now.cells
        → HasStored session.old reader done.old }
    ensures done { done.new ≡ record done.old { watches = done.new.watches } }
    ensures rest { ChangesStores session.old session.new }
    ensures stands { KeepsStands session.old session.new }
{
    session.level(rt, targets, &mut done.watches);
}
