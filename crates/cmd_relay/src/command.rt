//! Relaying.
ghost use Rattle.std.specs.Prelude.{◌≡◌, IfOk, IfErr};
ghost use Rattle.ua_base.specs.Cause.{Rose};
ghost use Rattle.ps_config.specs.Types.{HasTypes};
ghost use Rattle.ps_script.specs.Sound.{IsScript};
ghost use Rattle.writer_group.specs.Standing.{IsGood};
ghost use Rattle.cmd_base.specs.Outside.{KeepsFolder, outside_of, wire_of};
ghost use Rattle.cmd_base.specs.Statuses.{IsDone, IsUnread, IsUnwritten};
ghost use Rattle.cmd_base.specs.Links.{IsBeforeLink};
ghost use Rattle.cmd_relay.specs.Ends.{Accepts, EndsAccepting, EndsSecond, IsSecond, RelayEnds, WritesRelay, names_of};

use crate::relaying::relayed_text;
use crate::sources::unsourced;
use cmd_base::{Status, read_configuration, script_in, status_of, write_text};
use ps_config::Config;
use ps_script::Script;
use std::alloc::Global;
use std::sync::Wait;
use ua_base::{Folder, Link, Sink};

/// Plays the script of this name with the first configuration over `lab`, publishes what its readers hold again by the second one
/// over `wire`, and writes the report of the first session and what the gateway did.
pub fn relay<'w, R: Wait, F: Folder, A: Link, B: Link, K: Sink>(
    rt: &R,
    alloc: Global,
    script: &'w str,
    first: &'w str,
    second: &'w str,
    folder: &mut F,
    lab: &mut A,
    wire: &mut B,
    out: &mut K,
) -> Status<'w>
    ensures ends { RelayEnds result (names_of script.now first.now second.now)
        (outside_of F.tells F.faults K.written K.faults folder.old out.old)
        (outside_of F.tells F.faults K.written K.faults folder.new out.new)
        (wire_of A.told A.patience A.faults A.opened_with A.made A.openings lab.old)
        (wire_of A.told A.patience A.faults A.opened_with A.made A.openings lab.new)
        (wire_of B.told B.patience B.faults B.opened_with B.made B.openings wire.old)
        (wire_of B.told B.patience B.faults B.opened_with B.made B.openings wire.new) }
    // Where the source's read group takes nothing but what was sent, what the gateway publishes is of the history that the script
    // writes; where the reader's does too, so is what a matched reader that goes by numbers holds.
    ensures relayed { IsDone result → WritesRelay (names_of script.now first.now second.now)
        (outside_of F.tells F.faults K.written K.faults folder.old out.old)
        (outside_of F.tells F.faults K.written K.faults folder.new out.new)
        (wire_of A.told A.patience A.faults A.opened_with A.made A.openings lab.new)
        (wire_of B.told B.patience B.faults B.opened_with B.made B.openings wire.new) }
    ensures unlinked { IsBeforeLink result → (lab.new ≡ lab.old) × (wire.new ≡ wire.old) }
    ensures silent { ¬ IsDone result → ¬ IsUnwritten result → out.new ≡ out.old }
{
    let accepted = match accept(alloc, script, first, second, folder) {
        Ok(accepted) => accepted,
        Err(status) => return status,
    };
    match relayed_text(rt, alloc, &accepted, lab, wire) {
        Ok(text) => write_text(out, &text),
        Err(end) => status_of(end),
    }
}

/// Two configurations, of which the second has its data sets from readers of the first, and a script for a session with the first.
#[derive(Drop)]
pub(crate) struct Accepted {
    pub(crate) first: Config,
    pub(crate) second: Config,
    pub(crate) script: Script,
}

/// Reads and judges the configurations of these names, and then the script.
fn accept<'w, F: Folder>(
    alloc: Global,
    script: &'w str,
    first: &'w str,
    second: &'w str,
    folder: &mut F,
) -> Result<Accepted, Status<'w>>
    ensures accepts { IfOk result (Accepts (F.tells folder.old)
        (names_of script.now first.now second.now)) }
    ensures good { IfOk result
        (λ accepted. IsGood accepted.first × IsGood accepted.second) }
    ensures types { IfOk result
        (λ accepted. HasTypes accepted.first × HasTypes accepted.second) }
    ensures script { IfOk result (λ accepted. IsScript accepted.first accepted.script) }
    ensures ends { IfErr result
        (EndsAccepting (F.tells folder.old) (names_of script.now first.now second.now)) }
    ensures unread { IfErr result (λ status. IsUnread status
        → Rose (F.faults folder.old) (F.faults folder.new)) }
    ensures folder { KeepsFolder F.tells F.faults folder.old folder.new }
{
    let first = match read_configuration(alloc, first, folder) {
        Ok(first) => first,
        Err(status) => return Err(status),
    };
    let second = match second_of(alloc, &first, second, folder) {
        Ok(second) => second,
        Err(status) => return Err(status),
    };
    let script = match script_in(alloc, &first, script, true, folder) {
        Ok(script) => script,
        Err(status) => return Err(status),
    };
    Ok(Accepted {
        first,
        second,
        script,
    })
}

/// The second configuration, each of whose data sets has a source in the first.
fn second_of<'w, F: Folder>(
    alloc: Global,
    first: &Config,
    name: &'w str,
    folder: &mut F,
) -> Result<Config, Status<'w>>
    requires { IsGood first.now }
    ensures second { IfOk result (IsSecond (F.tells folder.old name.now) first.now) }
    ensures good { IfOk result IsGood }
    ensures types { IfOk result HasTypes }
    ensures ends { IfErr result
        (EndsSecond (F.tells folder.old name.now) first.now name.now) }
    ensures unread { IfErr result (λ status. IsUnread status
        → Rose (F.faults folder.old) (F.faults folder.new)) }
    ensures folder { KeepsFolder F.tells F.faults folder.old folder.new }
{
    let second = match read_configuration(alloc, name, folder) {
        Ok(second) => second,
        Err(status) => return Err(status),
    };
    match unsourced(first, &second) {
        Some(set) => Err(Status::NoSource { set }),
        None => Ok(second),
    }
}
