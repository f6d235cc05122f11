//! Reading a script.
ghost use Rattle.std.specs.Prelude.{◌≡◌, ◌≤◌, [], false, length, IfOk};
ghost use Rattle.ps_config.specs.Sound.{IsSound};
ghost use Rattle.ps_script.specs.Answered.{AreReadLines, HasDone, HasRead, IsEndAt, MeansLines};
ghost use Rattle.ps_script.specs.Given.{HasNames};
ghost use Rattle.ps_script.specs.Scripts.{IsScriptOf, IsRefusalOf};
ghost use Rattle.ps_script.specs.Sessions.{fates_of};
ghost use Rattle.ps_script.specs.Sound.{IsScript};

use crate::acts::lines_of;
use crate::fault::ScriptFault;
use crate::laws::{an_accepted_script_is_sound, there_is_one_reader_of_values};
use crate::lines::Reading;
use crate::past::{Given, Past};
use crate::script::{Line, Script};
use crate::texts::cut;
use ps_config::{Config, Parts};
use std::alloc::{AllocError, Global};
use std::error::Error;
use std::fmt::{self, Display, Formatter, Write};

/// Why there is no script.
#[derive(Clone, Copy, Debug, PartialEq, Eq)]
pub enum ScriptEnd {
    /// The number of the first line that has a fault, from 1, and the first of its faults.
    Refused { line: u32, fault: ScriptFault },
    /// Memory ran out.
    Memory,
}

impl Display for ScriptEnd {
    ghost use Rattle.std.specs.Prelude.{Some};
    ghost use Rattle.ps_script.specs.FaultTexts.{script_end};

    ghost output = { λ end. Some (script_end end) };

    fn fmt<W: Write>(&self, f: &mut Formatter<W>) -> fmt::Result {
        match *self {
            ScriptEnd::Refused { line, fault } => write!(f, "line {line}: {fault}"),
            ScriptEnd::Memory => f.write_str("out of memory"),
        }
    }
}

impl Error for ScriptEnd {}

impl From<AllocError> for ScriptEnd {
    ghost use Rattle.std.specs.Prelude.{◌≡◌};
    ghost use Rattle.ps_script.specs.declared.read.ScriptEnd.TheVariants.{Memory};

    ghost from_gives = { λ _ e. e ≡ Memory };

    fn from(_: AllocError) -> ScriptEnd {
        ScriptEnd::Memory
    }
}

/// The script that the bytes are, for a session with this configuration. Where links have no fates,
/// `takes_fates` is false, and a line that gives a fate is refused.
pub fn read_script(
    alloc: Global,
    config: &Config,
    bytes: &[u8],
    takes_fates: bool,
) -> Result<Script, ScriptEnd>
    requires { IsSound config.now }
    ensures ok { IsScriptOf config.now bytes.now takes_fates result }
    ensures refused { IsRefusalOf config.now bytes.now takes_fates result }
    // What lines name is there, patches are of their data sets, numbers and counts are in range.
    ensures sound { IfOk result (IsScript config.now) }
    ensures fateless { IfOk result (λ found. takes_fates ≡ false → fates_of found.lines ≡ []) }
{
    there_is_one_reader_of_values();
    an_accepted_script_is_sound();
    read(alloc, config, bytes, takes_fates)
}

/// The script, or what refuses it: lines are judged and read, and read again where data sets grew
/// meanwhile.
#[tactic(auto, using(crate::proofs::Reading::ended, crate::proofs::Reading::accepted), unfolding(crate::specs::Scripts::script_with))]
fn read(
    alloc: Global,
    config: &Config,
    bytes: &[u8],
    takes_fates: bool,
) -> Result<Script, ScriptEnd>
    requires { IsSound config.now }
    ensures ok { IsScriptOf config.now bytes.now takes_fates result }
    ensures refused { IsRefusalOf config.now bytes.now takes_fates result }
{
    let given = Given::new(alloc, config, takes_fates)?;
    let reading = match judged(alloc, &given, bytes) {
        Ok(reading) => reading,
        Err(end) => return Err(end),
    };
    let Reading { past, lines } = reading;
    let lines = whole_lines(alloc, &given, &past, lines, bytes)?;
    let Past { metas, fated, .. } = past;
    drop(fated);
    Ok(Script {
        lines: Parts::new(lines),
        metas: Parts::new(metas),
    })
}

/// The lines by data sets with all fields: those that were read, where nothing was appended. A patch
/// has the statuses after all values, so one that was read before an append is another after it.
fn whole_lines(
    alloc: Global,
    given: &Given,
    past: &Past,
    lines: Vec<Line>,
    bytes: &[u8],
) -> Result<Vec<Line>, AllocError>
    requires names { HasNames given.now }
    requires few { length past.now.metas.items ≤ 8 }
    requires read { AreReadLines given.now past.now bytes.now lines.items }
    ensures { MeansLines given.now past.now.metas.items bytes.now result }
{
    if past.appends == 0 {
        return Ok(lines);
    }
    drop(lines);
    lines_of(alloc, given, &past.metas, bytes)
}

/// What all lines have done, and what they mean.
#[tactic(auto, using(crate::proofs::Judging::judged_next, crate::proofs::Judging::judged_fault, crate::proofs::Judging::judged_end, crate::proofs::Kept::after_kept), unfolding(crate::specs::Scripts::judged, crate::specs::Past::nothing_done))]
fn judged(alloc: Global, given: &Given, bytes: &[u8]) -> Result<Reading, ScriptEnd>
    requires { HasNames given.now }
    ensures ok { HasDone given.now bytes.now result }
    ensures few { IfOk result (λ reading. length reading.past.metas.items ≤ 8) }
    ensures lines { HasRead given.now bytes.now result }
    ensures refused { IsEndAt given.now bytes.now result }
{
    let mut reading = Reading::new(alloc, given.config, bytes)?;
    let mut number = 1u32;
    let mut rest = bytes;
    'lines: while !rest.is_empty() {
        let (line, behind) = cut(rest, b'\n');
        if let Some(fault) = reading.read(alloc, given, number, line)? {
            return Err(ScriptEnd::Refused {
                line: number,
                fault,
            });
        }
        number = number.saturating_add(1);
        rest = behind;
    }
    Ok(reading)
}
