//! Playing a script.
ghost use Rattle.std.specs.Prelude.{◌≡◌, Err, IsOk, IfOk, option_copied};
ghost use Rattle.ps_config.specs.Types.{HasTypes};
ghost use Rattle.ps_script.specs.Sound.{IsScript};
ghost use Rattle.writer_group.specs.Standing.{IsGood};
ghost use Rattle.script_player.specs.Openings.{PerformsOver};
ghost use Rattle.script_player.specs.Plays.{IsPlayOf, opening_of};
ghost use Rattle.cmd_base.specs.Outside.{outside_of, wire_of};
ghost use Rattle.cmd_base.specs.Statuses.{IsDone, IsUnwritten};
ghost use Rattle.cmd_base.specs.Links.{IsBeforeLink};
ghost use Rattle.cmd_base.specs.Sessions.{IsReportOf};
ghost use Rattle.cmd_base.specs.Plays.{PlayEnds};

use crate::{Accepted, Status, accept, status_of, write_text};
use ps_report::report;
use report_laws::closed_sessions_are_reported;
use script_player::{PlayEnd, play_script};
use std::alloc::Global;
use std::sync::Wait;
use ua_base::{Folder, Link, Sink};

/// Plays the script of this name over the link, for a session with the configuration of this name or the built-in one, and writes
/// its report.
pub fn play<'w, R: Wait, F: Folder, A: Link, K: Sink>(
    rt: &R,
    alloc: Global,
    script: &'w str,
    config: Option<&'w str>,
    folder: &mut F,
    lab: &mut A,
    out: &mut K,
) -> Status<'w>
    ensures ends { PlayEnds result script.now (option_copied config.entry)
        (outside_of F.tells F.faults K.written K.faults folder.old out.old)
        (outside_of F.tells F.faults K.written K.faults folder.new out.new)
        (wire_of A.told A.patience A.faults A.opened_with A.made A.openings lab.old)
        (wire_of A.told A.patience A.faults A.opened_with A.made A.openings lab.new) }
    ensures unlinked { IsBeforeLink result → lab.new ≡ lab.old }
    ensures silent { ¬ IsDone result → ¬ IsUnwritten result → out.new ≡ out.old }
{
    let accepted = match accept(alloc, script, config, true, folder) {
        Ok(accepted) => accepted,
        Err(status) => return status,
    };
    match played(rt, alloc, &accepted, lab) {
        Ok(text) => write_text(out, &text),
        Err(end) => status_of(end),
    }
}

/// The report of the session of a script that is played.
fn played<R: Wait, A: Link>(
    rt: &R,
    alloc: Global,
    accepted: &Accepted,
    lab: &mut A,
) -> Result<Vec<u8>, PlayEnd>
    requires good { IsGood accepted.now.config }
    requires types { HasTypes accepted.now.config }
    requires script { IsScript accepted.now.config accepted.now.script }
    ensures report { IfOk result (λ text. IsReportOf IsPlayOf
        accepted.now.config accepted.now.script (A.told lab.new) text.items) }
    ensures over { PerformsOver A.told A.patience A.opened_with A.faults A.made A.openings
        (opening_of accepted.now.config accepted.now.script)
        (IsOk result) (result ≡ Err PlayEnd.Unopened) lab.old lab.new }
{
    let closed = play_script(rt, alloc, &accepted.config, &accepted.script, lab)?;
    closed_sessions_are_reported(&accepted.config, &closed);
    Ok(report(alloc, &accepted.config, &closed)?)
}
