//! Cases of groups of writers and of readers, one a line: a call and its arguments. A line that begins with `with ` gives the
//! configuration of the lines behind it, whose groups begin anew there. Each line is printed again, with what the call answers
//! behind ` -> `. Lines that begin with `#`, and empty ones, are printed as they are.
#![tactic(auto)]

ghost use Rattle.writer_group.specs.Standing.{IsGood};

mod bench;
mod calls;
mod damage;
mod groups;
mod growth;
mod publishing;
mod pulls;
mod runs;
mod senders;
mod sets;
mod shown;
mod takers;
mod turners;

use crate::bench::Bench;
use case_lines::{Answer, AnsweredLine, CaseLine, LineFault, config_of, is_note};
use ps_config::Config;
use std::alloc::Global;
use std::fmt::Write;
use std::io;

fn main(rt: HostRuntime) -> io::Result<()> {
    let mut cases = String::new(rt.alloc());
    for line in rt.lines(rt.alloc()) {
        cases.push_str(line?.as_str())?;
        cases.push('\n')?;
    }
    match told(rt.alloc(), cases.as_str()) {
        Ok(text) => print!(rt; "{text}"),
        Err(fault) => print!(rt; "no cases: {fault:?}"),
    }
}

/// All cases and their answers.
fn told(alloc: Global, cases: &str) -> Result<String, LineFault> {
    let mut text = String::new(alloc);
    let mut is_first = true;
    for section in cases.split("\nwith ") {
        if is_first {
            text.push_str(section)?;
            is_first = false;
        } else {
            push_section(alloc, &mut text, section)?;
        }
    }
    Ok(text)
}

/// A configuration, and the cases behind it.
fn push_section(alloc: Global, text: &mut String, section: &str) -> Result<(), LineFault> {
    let (document, cases) = match section.split_once('\n') {
        Some(halves) => halves,
        None => (section, ""),
    };
    text.push_str("\nwith ")?;
    text.push_str(document)?;
    let Ok(config) = config_of(alloc, document) else {
        text.push_str(" -> no configuration")?;
        return Ok(());
    };
    push_cases(alloc, text, &config, cases)
}

/// The cases of one configuration.
fn push_cases(
    alloc: Global,
    text: &mut String,
    config: &Config,
    cases: &str,
) -> Result<(), LineFault>
    requires { IsGood config.now }
{
    let mut bench = Bench::new(alloc, config)?;
    for line in cases.split('\n') {
        push_case(text, &mut bench, line)?;
    }
    Ok(())
}

/// A line below the others, and its answer.
fn push_case(text: &mut String, bench: &mut Bench<'_>, line: &str) -> Result<(), LineFault> {
    let answer = answered(bench, line);
    let told = AnsweredLine {
        line,
        answer: &answer,
    };
    write!(text, "\n{told}")?;
    Ok(())
}

fn answered(bench: &mut Bench<'_>, line: &str) -> Answer {
    if is_note(line) {
        return Ok(None);
    }
    let mut line = CaseLine::new(line);
    let answer = bench.answer(&mut line);
    line.checked(answer)
}
