//! Configurations.
ghost use Rattle.std.specs.Prelude.{IfOk};
ghost use Rattle.ps_config.specs.FixedSound.{IsFixedSound};
ghost use Rattle.ps_config.specs.Sound.{IsSound};

use crate::{Line, LineFault};
use ps_config::{Config, ConfigEnd, built_in, read_config, the_built_in_configuration_is_sound};
use std::alloc::Global;

/// The configuration of a document, several lines in one, or the built-in one by the word `built_in`.
pub fn config_of(alloc: Global, document: &str) -> Result<Config, LineFault>
    ensures sound { IfOk result IsSound }
    ensures fixed { IfOk result IsFixedSound }
{
    if document == "built_in" {
        the_built_in_configuration_is_sound();
        return Ok(built_in(alloc)?);
    }
    match read_config(alloc, &Line::new(document).text(alloc)?) {
        Ok(config) => Ok(config),
        Err(ConfigEnd::Memory) => Err(LineFault::Memory),
        Err(_) => Err(LineFault::Condition),
    }
}
