//! Writing the messages of a session.
ghost use Rattle.std.specs.Prelude.{◌≡◌, Err, IsOk, IfOk, option_copied};
ghost use Rattle.ps_config.specs.Types.{HasTypes};
ghost use Rattle.ps_script.specs.Sound.{IsScript};
ghost use Rattle.writer_group.specs.Standing.{IsGood};
ghost use Rattle.script_player.specs.Openings.{PerformsOver};
ghost use Rattle.script_player.specs.Plays.{opening_of};
ghost use Rattle.cmd_base.specs.Outside.{outside_of, wire_of};
ghost use Rattle.cmd_base.specs.Statuses.{IsDone, IsUnwritten};
ghost use Rattle.cmd_base.specs.Links.{IsBeforeLink};
ghost use Rattle.cmd_json.specs.Jsons.{IsJsonOf, JsonEnds};

use crate::laws::lines_have_their_writers_frames;
use crate::playing::written_play;
use cmd_base::{Accepted, Status, accept, status_of, write_text};
use json_text::{lines_are_read_as_their_messages, readers_keep_records, text_of_lines};
use script_player::PlayEnd;
use std::alloc::Global;
use std::sync::Wait;
use ua_base::{Folder, Link, Sink};

/// Plays the script of this name over the link, for a session with the configuration of this name or the built-in one. Writes each
/// data message that is sent in the JSON mapping, what the matched readers of unsecured read groups in a dynamic layout hold of
/// these messages, and how many there are.
pub fn json<'w, R: Wait, F: Folder, A: Link, K: Sink>(
    rt: &R,
    alloc: Global,
    script: &'w str,
    config: Option<&'w str>,
    folder: &mut F,
    lab: &mut A,
    out: &mut K,
) -> Status<'w>
    ensures ends { JsonEnds result script.now (option_copied config.entry)
        (outside_of F.tells F.faults K.written K.faults folder.old out.old)
        (outside_of F.tells F.faults K.written K.faults folder.new out.new)
        (wire_of A.told A.patience A.faults A.opened_with A.made A.openings lab.old)
        (wire_of A.told A.patience A.faults A.opened_with A.made A.openings lab.new) }
    ensures unlinked { IsBeforeLink result → lab.new ≡ lab.old }
    ensures silent { ¬ IsDone result → ¬ IsUnwritten result → out.new ≡ out.old }
{
    let accepted = match accept(alloc, script, config, true, folder) {
        Ok(accepted) => accepted,
        Err(status) => return status,
    };
    match written(rt, alloc, &accepted, lab) {
        Ok(text) => write_text(out, &text),
        Err(end) => status_of(end),
    }
}

/// The text of the session of a script that is played.
fn written<R: Wait, A: Link>(
    rt: &R,
    alloc: Global,
    accepted: &Accepted,
    lab: &mut A,
) -> Result<Vec<u8>, PlayEnd>
    requires good { IsGood accepted.now.config }
    requires types { HasTypes accepted.now.config }
    requires script { IsScript accepted.now.config accepted.now.script }
    ensures text { IfOk result (λ text. IsJsonOf
        accepted.now.config accepted.now.script (A.told lab.new) text.items) }
    ensures over { PerformsOver A.told A.patience A.opened_with A.faults A.made A.openings
        (opening_of accepted.now.config accepted.now.script)
        (IsOk result) (result ≡ Err PlayEnd.Unopened) lab.old lab.new }
{
    readers_keep_records();
    lines_are_read_as_their_messages();
    lines_have_their_writers_frames();
    let written = written_play(rt, alloc, &accepted.config, &accepted.script, lab)?;
    Ok(text_of_lines(alloc, &accepted.config, &written.lines, written.skipped)?)
}
