//! A case, played.
ghost use Rattle.ps_config.specs.Types.{HasTypes};
ghost use Rattle.writer_group.specs.Standing.{IsGood};

use crate::given::Given;
use case_lines::{Answer, LineFault, Told, said};
use ps_config::{
    Config, ConfigEnd, Fault, a_configuration_has_its_types, built_in, read_config,
    the_built_in_configuration_is_sound,
};
use ps_report::report;
use ps_script::{ScriptEnd, ScriptFault, read_script};
use script_player::{PlayEnd, play_script};
use std::alloc::Global;
use std::sync::Wait;
use ua_base::Link;

/// Plays a session: its report, or why there is none.
pub(crate) fn run<R: Wait>(rt: &R, alloc: Global, given: Given) -> Answer {
    let Given {
        config,
        script,
        lab,
        injected,
        ..
    } = given;
    let mut link = lab.link(alloc, injected);
    let script = script.unwrap_or(Vec::new(alloc));
    report_of(rt, alloc, &config, &script, &mut link)
}

/// The report of a configuration and a script over a link, or why there is none.
fn report_of<R: Wait, L: Link>(
    rt: &R,
    alloc: Global,
    config: &Option<Vec<u8>>,
    script: &[u8],
    link: &mut L,
) -> Answer {
    let Some(text) = config else {
        the_built_in_configuration_is_sound();
        return played(rt, alloc, &built_in(alloc)?, script, link);
    };
    match read_config(alloc, text) {
        Ok(config) => played(rt, alloc, &config, script, link),
        Err(ConfigEnd::Refused { code, path }) => refused_config(alloc, code, path.as_str()),
        Err(ConfigEnd::Memory) => Err(LineFault::Memory),
    }
}

/// Why a configuration is refused.
fn refused_config(alloc: Global, code: u8, place: &str) -> Answer {
    let mut told = Told::new(alloc);
    told.fill("config: C# ", &[code as u64]);
    told.say(match Fault::numbered(code) {
        Some(fault) => fault.name(),
        None => "",
    });
    told.named(" ", Some(place));
    told.answer()
}

/// Why a script is refused.
fn refused_script(alloc: Global, line: u64, fault: ScriptFault) -> Answer {
    let mut told = Told::new(alloc);
    told.fill("script: line # S# ", &[line, fault.number() as u64]);
    told.say(fault.name());
    told.answer()
}

/// The report of an accepted configuration.
fn played<R: Wait, L: Link>(
    rt: &R,
    alloc: Global,
    config: &Config,
    script: &[u8],
    link: &mut L,
) -> Answer
    requires good { IsGood config.now }
    requires types { HasTypes config.now }
{
    let script = match read_script(alloc, config, script, true) {
        Ok(script) => script,
        Err(ScriptEnd::Refused { line, fault }) => {
            return refused_script(alloc, line as u64, fault);
        }
        Err(ScriptEnd::Memory) => return Err(LineFault::Memory),
    };
    match play_script(rt, alloc, config, &script, link) {
        Ok(closed) => text_of(alloc, report(alloc, config, &closed)?),
        Err(PlayEnd::Unopened) => said(alloc, "cannot open link"),
        Err(PlayEnd::Memory) => Err(LineFault::Memory),
    }
}

/// A report's bytes as a text, without the last line feed.
fn text_of(alloc: Global, report: Vec<u8>) -> Answer {
    match String::from_utf8(report) {
        Ok(text) => said(alloc, text.as_str().trim_end_matches('\n')),
        Err(_) => Err(LineFault::Text),
    }
}
