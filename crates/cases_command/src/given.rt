//! What a case gives: texts of files, the numbers of calls that fail, and datagrams that come.
use crate::failing::Failing;
use crate::injected::Injected;
use case_lines::{Answer, CaseLine, LineFault};
use mem_edge::{MemoryFolder, Name};
use std::alloc::Global;

/// The first word of a line.
#[derive(Clone, Copy)]
pub(crate) enum Word {
    Command,
    /// The text of a file, several lines in one.
    Text(Text),
    /// The configuration's file isn't there.
    NoConfig,
    /// The numbers of the calls of a link that fail.
    Calls(Calls),
    /// The numbers of the reads that fail.
    Reads,
    /// The numbers of the writes on the output that fail.
    Writes,
    /// The link can't be opened.
    Unopened,
    /// The link `wire` can't be opened.
    WireUnopened,
    /// The places of the queue.
    Room,
    /// A datagram comes right after the one with a number was sent.
    Inject,
    /// So many of it do.
    Flood,
    Run,
}

#[derive(Clone, Copy)]
pub(crate) enum Text {
    Config,
    Script,
    First,
    Second,
}

#[derive(Clone, Copy)]
pub(crate) enum Calls {
    Sends,
    Receives,
    WireSends,
    WireReceives,
}

pub(crate) static WORDS: [(&str, Word); 22] = [
    ("command", Word::Command),
    ("config", Word::Text(Text::Config)),
    ("script", Word::Text(Text::Script)),
    ("first", Word::Text(Text::First)),
    ("second", Word::Text(Text::Second)),
    ("no_config", Word::NoConfig),
    ("no_file", Word::NoConfig),
    ("sends", Word::Calls(Calls::Sends)),
    ("receives", Word::Calls(Calls::Receives)),
    ("wire_sends", Word::Calls(Calls::WireSends)),
    ("wire_receives", Word::Calls(Calls::WireReceives)),
    ("reads", Word::Reads),
    ("writes", Word::Writes),
    ("unopened", Word::Unopened),
    ("wire_unopened", Word::WireUnopened),
    ("room", Word::Room),
    ("inject", Word::Inject),
    ("flood", Word::Flood),
    ("play", Word::Run),
    ("run", Word::Run),
    ("relay", Word::Run),
    ("json", Word::Run),
];

/// What a command is given. What isn't given is the built-in configuration, an empty script, files that aren't there, links that
/// don't fail, a queue of 64 places, and no datagram from outside.
#[derive(Drop)]
pub(crate) struct Given {
    pub(crate) config: Option<Vec<u8>>,
    pub(crate) script: Option<Vec<u8>>,
    first: Option<Vec<u8>>,
    second: Option<Vec<u8>>,
    reads: Vec<u32>,
    pub(crate) writes: Vec<u32>,
    /// The link of the session, `lab` of a relay.
    pub(crate) lab: Failing,
    /// The other link of a relay.
    pub(crate) wire: Failing,
    pub(crate) injected: Injected,
    pub(crate) room: u32,
}

impl Given {
    /// Nothing but this script.
    pub(crate) fn new(alloc: Global, script: Option<Vec<u8>>) -> Given {
        Given {
            config: None,
            script,
            first: None,
            second: None,
            reads: Vec::new(alloc),
            writes: Vec::new(alloc),
            lab: Failing::new(alloc),
            wire: Failing::new(alloc),
            injected: Injected::new(alloc),
            room: 64,
        }
    }

    /// Takes in what a line gives.
    pub(crate) fn take(&mut self, alloc: Global, word: Word, line: &mut CaseLine) -> Answer {
        match word {
            Word::Text(text) => self.set_text(text, line.text(alloc)),
            Word::NoConfig => self.config = None,
            Word::Calls(calls) => self.set_calls(calls, line.numbers(alloc)),
            Word::Reads => self.reads = line.numbers(alloc),
            Word::Writes => self.writes = line.numbers(alloc),
            Word::Unopened => self.lab.opens = true,
            Word::WireUnopened => self.wire.opens = true,
            Word::Room => self.room = line.u32(),
            Word::Inject => return self.inject(alloc, 1, line),
            Word::Flood => return self.flood(alloc, line),
            Word::Command | Word::Run => return Err(LineFault::Call),
        }
        Ok(None)
    }

    fn set_text(&mut self, text: Text, bytes: Vec<u8>) {
        match text {
            Text::Config => self.config = Some(bytes),
            Text::Script => self.script = Some(bytes),
            Text::First => self.first = Some(bytes),
            Text::Second => self.second = Some(bytes),
        }
    }

    fn set_calls(&mut self, calls: Calls, numbers: Vec<u64>) {
        match calls {
            Calls::Sends => self.lab.sends = numbers,
            Calls::Receives => self.lab.receives = numbers,
            Calls::WireSends => self.wire.sends = numbers,
            Calls::WireReceives => self.wire.receives = numbers,
        }
    }

    /// `NUMBER DATAGRAM`: it comes so often right after the one with the number was sent
    fn inject(&mut self, alloc: Global, times: u32, line: &mut CaseLine) -> Answer {
        let after = line.u64();
        let datagram = line.bytes(alloc);
        for _ in 0..times {
            self.injected.push(alloc, after, &datagram)?;
        }
        Ok(None)
    }

    /// `TIMES NUMBER DATAGRAM`
    fn flood(&mut self, alloc: Global, line: &mut CaseLine) -> Answer {
        let times = line.u32();
        self.inject(alloc, times, line)
    }

    /// The folder with the texts that are given: the configuration as `c`, the script under this name, and `first` and `second`.
    pub(crate) fn folder(&self, alloc: Global, script: &[u8]) -> Result<MemoryFolder, LineFault> {
        let mut files = Vec::new(alloc);
        add_file(alloc, &mut files, b"c", &self.config)?;
        add_file(alloc, &mut files, script, &self.script)?;
        add_file(alloc, &mut files, b"first", &self.first)?;
        add_file(alloc, &mut files, b"second", &self.second)?;
        Ok(MemoryFolder::new(files, Vec::from_slice(alloc, &self.reads)?))
    }

    /// The name of the configuration's file in that folder, if there is one.
    pub(crate) fn config_name(&self) -> Option<&'static str> {
        if self.config.is_some() {
            Some("c")
        } else {
            None
        }
    }
}

/// Adds the file of this name, if there is one.
fn add_file(
    alloc: Global,
    files: &mut Vec<(Name, Vec<u8>)>,
    name: &[u8],
    text: &Option<Vec<u8>>,
) -> Result<(), LineFault> {
    let Some(text) = text else {
        return Ok(());
    };
    let Some(name) = Name::new(name) else {
        return Err(LineFault::Condition);
    };
    files.push((name, Vec::from_slice(alloc, text)?))?;
    Ok(())
}
