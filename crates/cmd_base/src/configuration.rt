//! Configurations of commands.
ghost use Rattle.std.specs.Prelude.{◌≡◌, Ok, Err, IfOk, IfErr, OnErr, option_copied};
ghost use Rattle.ua_base.specs.Cause.{Rose};
ghost use Rattle.ps_config.specs.BuiltIn.{built_in_config};
ghost use Rattle.ps_config.specs.Types.{HasTypes};
ghost use Rattle.ps_config.specs.Sound.{IsSound};
ghost use Rattle.ps_config.specs.FixedSound.{IsFixedSound};
ghost use Rattle.cmd_base.specs.Outside.{KeepsFolder};
ghost use Rattle.cmd_base.specs.Statuses.{IsUnread};
ghost use Rattle.cmd_base.specs.Configurations.{IsConfigured, IsJudged, EndsConfig, EndsConfigFile};

use crate::file::read_file;
use crate::status::Status;
use ps_config::{Config, ConfigEnd, built_in, read_config, the_built_in_configuration_is_sound};
use std::alloc::Global;
use ua_base::{Folder, NoMemory};

/// The configuration that the file of this name is, or the built-in one where no file is named.
pub fn configuration_of<'w, F: Folder>(
    alloc: Global,
    name: Option<&'w str>,
    folder: &mut F,
) -> Result<Config, Status<'w>>
    ensures config { IfOk result (IsConfigured (F.tells folder.old) (option_copied name.entry)) }
    ensures sound { IfOk result IsSound }
    ensures fixed { IfOk result IsFixedSound }
    ensures types { IfOk result HasTypes }
    ensures ends { IfErr result (EndsConfig (F.tells folder.old) (option_copied name.entry)) }
    ensures unread { IfErr result (λ status. IsUnread status
        → Rose (F.faults folder.old) (F.faults folder.new)) }
    ensures folder { KeepsFolder F.tells F.faults folder.old folder.new }
{
    match name {
        Some(name) => read_configuration(alloc, name, folder),
        None => built_in_configuration(alloc),
    }
}

fn built_in_configuration<'w>(alloc: Global) -> Result<Config, Status<'w>>
    ensures config { IfOk result (λ config. config ≡ built_in_config) }
    ensures sound { IfOk result IsSound }
    ensures fixed { IfOk result IsFixedSound }
    ensures types { IfOk result HasTypes }
    ensures ends { OnErr result (result ≡ Err Status.OutOfMemory) }
{
    the_built_in_configuration_is_sound();
    match built_in(alloc) {
        Ok(config) => Ok(config),
        Err(NoMemory) => Err(Status::OutOfMemory),
    }
}

/// The configuration that the file of this name is.
pub fn read_configuration<'w, F: Folder>(
    alloc: Global,
    name: &'w str,
    folder: &mut F,
) -> Result<Config, Status<'w>>
    ensures config { IfOk result (λ config. IsJudged (F.tells folder.old name.now) (Ok config)) }
    ensures sound { IfOk result IsSound }
    ensures fixed { IfOk result IsFixedSound }
    ensures types { IfOk result HasTypes }
    ensures ends { IfErr result (EndsConfigFile (F.tells folder.old name.now) name.now) }
    ensures unread { IfErr result (λ status. IsUnread status
        → Rose (F.faults folder.old) (F.faults folder.new)) }
    ensures folder { KeepsFolder F.tells F.faults folder.old folder.new }
{
    let bytes = match read_file(alloc, name, folder) {
        Ok(bytes) => bytes,
        Err(status) => return Err(status),
    };
    match read_config(alloc, &bytes) {
        Ok(config) => Ok(config),
        Err(ConfigEnd::Refused { code, path }) => Err(Status::ConfigRefused { code, path }),
        Err(ConfigEnd::Memory) => Err(Status::OutOfMemory),
    }
}
