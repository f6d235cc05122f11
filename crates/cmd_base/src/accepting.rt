//! A script that a command is given.
ghost use Rattle.std.specs.Prelude.{IfOk, IfErr, option_copied};
ghost use Rattle.ua_base.specs.Cause.{Rose};
ghost use Rattle.ps_config.specs.Types.{HasTypes};
ghost use Rattle.ps_script.specs.Sound.{IsScript};
ghost use Rattle.writer_group.specs.Standing.{IsGood};
ghost use Rattle.cmd_base.specs.Outside.{KeepsFolder};
ghost use Rattle.cmd_base.specs.Statuses.{IsUnread};
ghost use Rattle.cmd_base.specs.Sessions.{Accepts, EndsAccepting};

use crate::{Status, configuration_of, script_in};
use ps_config::Config;
use ps_script::Script;
use std::alloc::Global;
use ua_base::Folder;

/// A configuration, and a script for a session with it.
#[derive(Drop)]
pub struct Accepted {
    pub config: Config,
    pub script: Script,
}

/// Reads and judges the configuration of this name, or takes the built-in one, and then the script of this name. Where links have
/// no fates, a script that gives one is refused.
pub fn accept<'w, F: Folder>(
    alloc: Global,
    script: &'w str,
    config: Option<&'w str>,
    fates: bool,
    folder: &mut F,
) -> Result<Accepted, Status<'w>>
    ensures accepts { IfOk result (λ accepted. Accepts fates (F.tells folder.old)
        script.now (option_copied config.entry) accepted.config accepted.script) }
    ensures good { IfOk result (λ accepted. IsGood accepted.config) }
    ensures types { IfOk result (λ accepted. HasTypes accepted.config) }
    ensures script { IfOk result (λ accepted. IsScript accepted.config accepted.script) }
    ensures ends { IfErr result
        (EndsAccepting fates (F.tells folder.old) script.now (option_copied config.entry)) }
    ensures unread { IfErr result (λ status. IsUnread status
        → Rose (F.faults folder.old) (F.faults folder.new)) }
    ensures folder { KeepsFolder F.tells F.faults folder.old folder.new }
{
    let config = match configuration_of(alloc, config, folder) {
        Ok(config) => config,
        Err(status) => return Err(status),
    };
    let script = match script_in(alloc, &config, script, fates, folder) {
        Ok(script) => script,
        Err(status) => return Err(status),
    };
    Ok(Accepted { config, script })
}
