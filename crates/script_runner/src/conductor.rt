//! The lines of a script that aren't its threads', in order, with the gate round each tick.
ghost use Rattle.std.specs.Prelude.{◌≡◌, [], IsSome, OnOk, reverse, if◌then◌else◌};
ghost use Rattle.ua_base.specs.Links.{KeepsLink};
ghost use Rattle.ps_script.specs.Sessions.{is_tick, ticks_in};
ghost use Rattle.ps_script.specs.Sound.{IsScript};
ghost use Rattle.pubsub_engine.specs.Holding.{AreTargetsOf, IsBankOf, IsSession, plan_of};
ghost use Rattle.script_player.specs.Passing.{nothings_by};
ghost use Rattle.script_runner.specs.Conducting.{HasConducted, MayRun, RunsTo, TurnsTo};

use cell_bank::Bank;
use ps_script::{Act, Script};
use pubsub_engine::Session;
use script_player::pass;
use std::sync::Wait;
use target_cells::Targets;
use ua_base::{Gate, Link, NoMemory};

/// The number of the publisher at a gate, after those of the eight threads.
const PUBLISHER: u32 = 8;

/// Runs the lines of a script but for writes and watches, in order. The gate is called before and after each tick.
pub(crate) fn conduct<R: Wait, L: Link, G: Gate>(
    rt: &R,
    session: &mut Session<'_>,
    bank: &Bank,
    targets: &Targets,
    script: &Script,
    link: &mut L,
    gate: &G,
) -> Result<(), NoMemory>
    requires open { IsSome (L.opened_with link.old) }
    requires script { IsScript (plan_of session.old).config script.now }
    requires session { IsSession session.old }
    requires bank { IsBankOf session.old bank.now }
    requires targets { AreTargetsOf session.old targets.now }
    requires begun { HasConducted (plan_of session.old).config script.now []
        (L.told link.old) session.old }
    ensures session { OnOk result (IsSession session.new) }
    ensures bank { OnOk result (IsBankOf session.new bank.now) }
    ensures targets { OnOk result (AreTargetsOf session.new targets.now) }
    ensures conducted { OnOk result (HasConducted (plan_of session.old).config script.now
        (reverse script.now.lines) (L.told link.new) session.new) }
    ensures link { KeepsLink L.told L.patience L.opened_with L.faults L.made L.openings
        (ticks_in script.now.lines) link.old link.new }
{
    let mut ticks = 0;
    for line in script.lines.as_slice() {
        conduct_line(rt, session, bank, targets, &line.act, ticks, link, gate)?;
        ticks += ticks_by(&line.act);
    }
    Ok(())
}

/// Runs one line, so many ticks after the first. Writes and watches do nothing here.
fn conduct_line<R: Wait, L: Link, G: Gate>(
    rt: &R,
    session: &mut Session<'_>,
    bank: &Bank,
    targets: &Targets,
    act: &Act,
    ticks: u32,
    link: &mut L,
    gate: &G,
) -> Result<(), NoMemory>
    requires open { IsSome (L.opened_with link.old) }
    requires session { IsSession session.old }
    requires bank { IsBankOf session.old bank.now }
    requires targets { AreTargetsOf session.old targets.now }
    requires may { MayRun act.now session.old }
    ensures session { OnOk result (IsSession session.new) }
    ensures bank { OnOk result (IsBankOf session.new bank.now) }
    ensures targets { OnOk result (AreTargetsOf session.new targets.now) }
    ensures runs { OnOk result
        (RunsTo act.now session.old session.new (L.told link.old) (L.told link.new)) }
    ensures link { KeepsLink L.told L.patience L.opened_with L.faults L.made L.openings
        (nothings_by act.now) link.old link.new }
{
    let Act::Tick(ms) = act else {
        switch(session, act);
        return Ok(());
    };
    gate.before(rt, PUBLISHER, ticks);
    pass(rt, session, bank, targets, u64::from(*ms), false, link)?;
    gate.after(rt, PUBLISHER, ticks);
    Ok(())
}

/// Switches a component or appends a field; other lines do nothing here.
fn switch(session: &mut Session<'_>, act: &Act)
    requires session { IsSession session.old }
    requires may { MayRun act.now session.old }
    ensures session { IsSession session.new }
    ensures turns { TurnsTo act.now session.old session.new }
{
    match act {
        Act::Enable(id) => {
            session.enable(*id);
        }
        Act::Disable(id) => {
            session.disable(*id);
        }
        Act::Append { .. } => {
            session.append();
        }
        Act::Write { .. } | Act::Tick(_) | Act::Fated { .. } | Act::Watch { .. } => {}
    }
}

/// How many ticks a line is: one or none.
fn ticks_by(act: &Act) -> u32
    ensures { result ≡ (if is_tick act.now then 1 else 0) }
{
    u32::from(matches!(act, Act::Tick(_)))
}
