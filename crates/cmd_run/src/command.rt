//! Running a script.
ghost use Rattle.std.specs.Prelude.{◌≡◌, Err, IsOk, IfOk, option_copied};
ghost use Rattle.ps_config.specs.Types.{HasTypes};
ghost use Rattle.ps_script.specs.Sound.{IsScript};
ghost use Rattle.writer_group.specs.Standing.{IsGood};
ghost use Rattle.script_player.specs.Openings.{PerformsOver};
ghost use Rattle.script_player.specs.Plays.{opening_of};
ghost use Rattle.script_runner.specs.Runs.{IsRunOf};
ghost use Rattle.cmd_base.specs.Outside.{outside_of, wire_of};
ghost use Rattle.cmd_base.specs.Statuses.{IsDone, IsUnwritten};
ghost use Rattle.cmd_base.specs.Links.{IsBeforeLink};
ghost use Rattle.cmd_base.specs.Sessions.{IsReportOf};
ghost use Rattle.cmd_run.specs.Runs.{RunEnds};

use cmd_base::{Accepted, Status, accept, status_of, write_text};
use ps_report::report;
use report_laws::closed_sessions_are_reported;
use script_player::PlayEnd;
use script_runner::run_script;
use std::alloc::Global;
use std::sync::Wait;
use std::thread::Threads;
use ua_base::{Folder, Gate, Link, Sink};

/// Runs the script of this name over the link, each thread's writes and watches on a thread of its own, for a session with the
/// configuration of this name or the built-in one, and writes its report. The gate is called before and after each write and watch
/// and each tick. A script that gives datagrams fates is refused.
pub fn run<'w, R: Threads + Wait + Sync, F: Folder, B: Link, G: Gate, K: Sink>(
    rt: &R,
    alloc: Global,
    script: &'w str,
    config: Option<&'w str>,
    folder: &mut F,
    wire: &mut B,
    gate: &G,
    out: &mut K,
) -> Status<'w>
    ensures ends { RunEnds result script.now (option_copied config.entry)
        (outside_of F.tells F.faults K.written K.faults folder.old out.old)
        (outside_of F.tells F.faults K.written K.faults folder.new out.new)
        (wire_of B.told B.patience B.faults B.opened_with B.made B.openings wire.old)
        (wire_of B.told B.patience B.faults B.opened_with B.made B.openings wire.new) }
    ensures unlinked { IsBeforeLink result → wire.new ≡ wire.old }
    ensures silent { ¬ IsDone result → ¬ IsUnwritten result → out.new ≡ out.old }
{
    let accepted = match accept(alloc, script, config, false, folder) {
        Ok(accepted) => accepted,
        Err(status) => return status,
    };
    match ran(rt, alloc, &accepted, wire, gate) {
        Ok(text) => write_text(out, &text),
        Err(end) => status_of(end),
    }
}

/// The report of the session of a script that is run.
fn ran<R: Threads + Wait + Sync, B: Link, G: Gate>(
    rt: &R,
    alloc: Global,
    accepted: &Accepted,
    wire: &mut B,
    gate: &G,
) -> Result<Vec<u8>, PlayEnd>
    requires good { IsGood accepted.now.config }
    requires types { HasTypes accepted.now.config }
    requires script { IsScript accepted.now.config accepted.now.script }
    ensures report { IfOk result (λ text. IsReportOf IsRunOf
        accepted.now.config accepted.now.script (B.told wire.new) text.items) }
    ensures over { PerformsOver B.told B.patience B.opened_with B.faults B.made B.openings
        (opening_of accepted.now.config accepted.now.script)
        (IsOk result) (result ≡ Err PlayEnd.Unopened) wire.old wire.new }
{
    let closed = run_script(rt, alloc, &accepted.config, &accepted.script, wire, gate)?;
    closed_sessions_are_reported(&accepted.config, &closed);
    Ok(report(alloc, &accepted.config, &closed)?)
}
