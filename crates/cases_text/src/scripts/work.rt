//! Generated work.
ghost use Rattle.ps_config.specs.Sound.{IsSound};

use crate::scripts::refused;
use crate::scripts::shown::{lines_told, tell_lines, tell_spelled};
use case_lines::{Answer, CaseLine, LineFault, Told, said};
use ps_config::Config;
use ps_script::{Line as ScriptLine, Script, generate, read_script};
use std::alloc::Global;

/// `N`: the lines of the work in which each thread writes eight times as often, or how many they are and the last nine
pub fn told(alloc: Global, line: &mut CaseLine, tells_all: bool) -> Answer {
    let Some(work) = work_of(alloc, line)? else {
        return said(alloc, "no such work");
    };
    let lines = work.lines.as_slice();
    if tells_all {
        lines_told(alloc, lines)
    } else {
        ends(alloc, lines)
    }
}

/// `N`: whether the text of that work is read as that work
pub fn reread(alloc: Global, config: &Config, line: &mut CaseLine) -> Answer
    requires { IsSound config.now }
{
    match work_of(alloc, line)? {
        Some(work) => compared(alloc, config, work.lines.as_slice()),
        None => said(alloc, "no such work"),
    }
}

/// The work of the line's number, where there is such work.
fn work_of(alloc: Global, line: &mut CaseLine) -> Result<Option<Script>, LineFault> {
    let n = line.u32();
    if n < 1 || 1024 < n {
        return Ok(None);
    }
    Ok(Some(generate(alloc, n)?))
}

fn ends(alloc: Global, lines: &[ScriptLine]) -> Answer {
    let mut told = Told::new(alloc);
    told.fill("# lines", &[lines.len() as u64]);
    tell_lines(&mut told, &lines[lines.len().saturating_sub(9)..]);
    told.answer()
}

fn compared(alloc: Global, config: &Config, lines: &[ScriptLine]) -> Answer
    requires { IsSound config.now }
{
    match read_script(alloc, config, spelled(alloc, lines)?.as_bytes(), false) {
        Ok(script) if script.lines.as_slice() == lines => {
            let mut told = Told::new(alloc);
            told.fill("the same # lines", &[lines.len() as u64]);
            told.answer()
        }
        Ok(_) => said(alloc, "other lines"),
        Err(end) => refused(alloc, end),
    }
}

/// The work as a script spells it.
fn spelled(alloc: Global, lines: &[ScriptLine]) -> Result<String, LineFault> {
    let mut told = Told::new(alloc);
    for line in lines {
        tell_spelled(&mut told, line)?;
    }
    told.text()
}
