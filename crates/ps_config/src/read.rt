//! Reading a configuration.
ghost use Rattle.std.specs.Prelude.{◌≡◌, Some, Ok, IfOk, IfErr};
ghost use Rattle.ps_config.specs.EndTexts.{name_numbered};
ghost use Rattle.ps_config.specs.Types.{HasTypes};
ghost use Rattle.toml.specs.View.{table_view};
ghost use Rattle.config_tables.specs.FaultNumbers.{number_of};
ghost use Rattle.config_tables.specs.Paths.{path_text};
ghost use Rattle.ps_config.specs.Reading.{judgement_of, configuration, IsEnd};
ghost use Rattle.ps_config.specs.Sound.{IsSound};
ghost use Rattle.ps_config.specs.FixedSound.{IsFixedSound};

use crate::build::config_of;
use crate::parts::Config;
use crate::refusal::{first_large, table_refusal};
use crate::types::a_configuration_has_its_types;
use config_tables::{Fault, Path, Place, tables_of};
use std::alloc::{AllocError, Global};
use std::error::Error;
use std::fmt::{self, Display, Formatter, Write};
use toml::Table;

/// Why there is no configuration.
#[derive(Debug, Drop)]
pub enum ConfigEnd {
    /// The number of the fault, and where it stands.
    Refused { code: u8, path: Path },
    /// Memory ran out.
    Memory,
}

impl From<AllocError> for ConfigEnd {
    ghost use Rattle.ps_config.specs.declared.read.ConfigEnd.TheVariants.{Memory};

    ghost from_gives = { λ _ e. e ≡ Memory };

    fn from(_: AllocError) -> ConfigEnd {
        ConfigEnd::Memory
    }
}

/// The name of the fault that has this number; nothing where none has it.
pub fn name_numbered(code: u8) -> &'static str
    ensures { result.now ≡ name_numbered code }
{
    match Fault::numbered(code) {
        Some(fault) => fault.name(),
        None => "",
    }
}

/// The fault's number and name, and where it stands: `Cn NAME PATH`.
impl Display for ConfigEnd {
    ghost use Rattle.std.specs.Prelude.{Some};
    ghost use Rattle.ps_config.specs.EndTexts.{config_end};

    ghost output = { λ end. Some (config_end end) };

    fn fmt<W: Write>(&self, f: &mut Formatter<W>) -> fmt::Result {
        match self {
            ConfigEnd::Refused { code, path } => {
                let name = name_numbered(*code);
                write!(f, "C{code} {name} {path}")
            }
            ConfigEnd::Memory => f.write_str("out of memory"),
        }
    }
}

impl Error for ConfigEnd {}

/// The configuration that the bytes are.
pub fn read_config(alloc: Global, bytes: &[u8]) -> Result<Config, ConfigEnd>
    ensures ok { IfOk result (λ config. configuration bytes.now ≡ Ok config) }
    ensures refused { IfErr result (IsEnd (configuration bytes.now)) }
    // Numbers in range, references to what is there, ids that stand once, keys in order, room.
    ensures sound { IfOk result IsSound }
    ensures fixed { IfOk result IsFixedSound }
    // What the types of its fields say, whatever was read.
    ensures types { IfOk result HasTypes }
{
    let document = match toml::table_from_slice(alloc, bytes) {
        Ok(document) => document,
        Err(error) => {
            if error.is_memory() {
                return Err(ConfigEnd::Memory);
            }
            return Err(refused(Fault::BadToml, Place::Root));
        }
    };
    judged(alloc, &document)
}

/// The configuration that the document is.
fn judged(alloc: Global, document: &Table) -> Result<Config, ConfigEnd>
    ensures ok { IfOk result (λ config.
        judgement_of (Some (table_view document.now)) ≡ Ok config) }
    ensures refused { IfErr result (IsEnd (judgement_of (Some (table_view document.now)))) }
    ensures types { IfOk result HasTypes }
{
    let tables = tables_of(alloc, document)?;
    if let Some((fault, place)) = table_refusal(&tables) {
        return Err(refused(fault, place));
    }
    let config = config_of(alloc, &tables)?;
    if let Some(place) = first_large(&tables, &config) {
        return Err(refused(Fault::FrameLarge, place));
    }
    a_configuration_has_its_types(&config);
    Ok(config)
}

fn refused(fault: Fault, place: Place) -> ConfigEnd
    ensures { result ≡ ConfigEnd.Refused (number_of fault) (path_text place) }
{
    ConfigEnd::Refused {
        code: fault.number(),
        path: Path::of(place),
    }
}
