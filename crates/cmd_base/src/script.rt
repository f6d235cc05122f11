//! Scripts of commands.
ghost use Rattle.std.specs.Prelude.{◌≡◌, [], false, Ok, IfOk, IfErr};
ghost use Rattle.ua_base.specs.Cause.{Rose};
ghost use Rattle.ps_config.specs.Sound.{IsSound};
ghost use Rattle.ps_script.specs.Sound.{IsScript};
ghost use Rattle.ps_script.specs.Sessions.{fates_of};
ghost use Rattle.cmd_base.specs.Outside.{KeepsFolder};
ghost use Rattle.cmd_base.specs.Statuses.{IsUnread};
ghost use Rattle.cmd_base.specs.Scripts.{IsJudgedScript, EndsScript};

use crate::file::read_file;
use crate::status::Status;
use ps_config::Config;
use ps_script::{Script, ScriptEnd, read_script};
use std::alloc::Global;
use ua_base::Folder;

/// The script that the file of this name is, for a session with this configuration. Where links have no fates, `fates` is
/// false, and a line that gives one is refused.
pub fn script_in<'w, F: Folder>(
    alloc: Global,
    config: &Config,
    name: &'w str,
    fates: bool,
    folder: &mut F,
) -> Result<Script, Status<'w>>
    requires { IsSound config.now }
    ensures script { IfOk result (λ script.
        IsJudgedScript (F.tells folder.old name.now) config.now fates (Ok script)) }
    ensures sound { IfOk result (IsScript config.now) }
    ensures fateless { IfOk result (λ script. fates ≡ false → fates_of script.lines ≡ []) }
    ensures ends { IfErr result
        (EndsScript (F.tells folder.old name.now) config.now name.now fates) }
    ensures unread { IfErr result (λ status. IsUnread status
        → Rose (F.faults folder.old) (F.faults folder.new)) }
    ensures folder { KeepsFolder F.tells F.faults folder.old folder.new }
{
    let bytes = match read_file(alloc, name, folder) {
        Ok(bytes) => bytes,
        Err(status) => return Err(status),
    };
    match read_script(alloc, config, &bytes, fates) {
        Ok(script) => Ok(script),
        Err(ScriptEnd::Refused { line, fault }) => Err(Status::ScriptRefused { line, fault }),
        Err(ScriptEnd::Memory) => Err(Status::OutOfMemory),
    }
}
