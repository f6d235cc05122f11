//! Scripts.
ghost use Rattle.ps_config.specs.Sound.{IsSound};

use crate::scripts::shown::lines_told;
use case_lines::{Answer, LineFault, Told};
use ps_config::Config;
use ps_script::{ScriptEnd, read_script};
use std::alloc::Global;

mod shown;
pub mod work;

/// `TEXT`: the lines of a script, each with its number, or the first that has a fault, and the least of its faults
pub fn read(alloc: Global, config: &Config, text: &[u8], plain: bool) -> Answer
    requires { IsSound config.now }
{
    match read_script(alloc, config, text, plain) {
        Ok(script) => lines_told(alloc, script.lines.as_slice()),
        Err(end) => refused(alloc, end),
    }
}

fn refused(alloc: Global, end: ScriptEnd) -> Answer {
    let ScriptEnd::Refused { line, fault } = end else {
        return Err(LineFault::Memory);
    };
    let mut told = Told::new(alloc);
    told.fill("line # S# ", &[line as u64, fault.number() as u64]);
    told.show(&fault);
    told.answer()
}
