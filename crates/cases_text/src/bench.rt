//! The calls by their names, and what is kept from line to line.
use crate::scripts::work;
use crate::{configs, reports, scripts, states, values};
use case_lines::{Answer, Answers, CaseLine, LineFault, config_of, named};
use std::alloc::{AllocError, Global};

/// The document of the configuration.
#[derive(Drop)]
pub struct Bench {
    alloc: Global,
    document: String,
}

/// A call, by what it is of.
#[derive(Clone, Copy)]
enum Call {
    With,
    Value,
    Config,
    Values,
    BuiltIn,
    Generate,
    Ends,
    Words,
    States(states::Call),
    Configured(Configured),
}

/// Calls that speak of the configuration.
#[derive(Clone, Copy)]
enum Configured {
    Play,
    Run,
    Reread,
    Report,
    Load,
}

static CALLS: [(&str, Call); 17] = [
    ("with", Call::With),
    ("value", Call::Value),
    ("config", Call::Config),
    ("values", Call::Values),
    ("built_in", Call::BuiltIn),
    ("generate", Call::Generate),
    ("ends", Call::Ends),
    ("words", Call::Words),
    ("names", Call::States(states::Call::Names)),
    ("id", Call::States(states::Call::Id)),
    ("below", Call::States(states::Call::Below)),
    ("states", Call::States(states::Call::States)),
    ("play", Call::Configured(Configured::Play)),
    ("run", Call::Configured(Configured::Run)),
    ("reread", Call::Configured(Configured::Reread)),
    ("report", Call::Configured(Configured::Report)),
    ("load", Call::Configured(Configured::Load)),
];

impl Bench {
    pub fn new(alloc: Global) -> Result<Bench, AllocError> {
        Ok(Bench {
            alloc,
            document: String::from_str(alloc, "built_in")?,
        })
    }

    fn with(&mut self, document: &str) -> Answer {
        self.document = String::from_str(self.alloc, document)?;
        Ok(None)
    }
}

impl<R> Answers<R> for Bench {
    fn answer(&mut self, _rt: &R, line: &mut CaseLine<'_>) -> Answer {
        let alloc = self.alloc;
        let Some(call) = named(&CALLS, line.word()) else {
            return Err(LineFault::Call);
        };
        match call {
            Call::With => self.with(line.rest()),
            Call::Value => values::value(alloc, line),
            Call::Config => configs::read(alloc, line, false),
            Call::Values => configs::read(alloc, line, true),
            Call::BuiltIn => configs::built_in_values(alloc),
            Call::Generate => work::told(alloc, line, true),
            Call::Ends => work::told(alloc, line, false),
            Call::Words => states::words(alloc),
            Call::States(call) => states::answer(alloc, call, line.rest()),
            Call::Configured(call) => with_config(alloc, self.document.as_str(), call, line),
        }
    }
}

/// What a call answers that speaks of the configuration.
fn with_config(alloc: Global, document: &str, call: Configured, line: &mut CaseLine) -> Answer {
    let config = config_of(alloc, document)?;
    match call {
        Configured::Play => scripts::read(alloc, &config, &line.text(alloc), true),
        Configured::Run => scripts::read(alloc, &config, &line.text(alloc), false),
        Configured::Reread => work::reread(alloc, &config, line),
        Configured::Report => reports::told(alloc, &config, line),
        Configured::Load => reports::summed(alloc, &config, line),
    }
}
