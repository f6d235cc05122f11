//! The command whose cases the lines give.
use crate::given::{Given, WORDS, Word};
use crate::{json, keys, lanes, playing, relay};
use case_lines::{Answer, CaseLine, LineFault, is_note, named};
use std::alloc::Global;
use std::mem;
use std::sync::Wait;
use std::thread::Threads;

/// A case of the command that the last line `command` named, as far as its lines give it.
#[derive(Drop)]
pub(crate) struct Cases {
    alloc: Global,
    command: Command,
    given: Given,
}

#[derive(Clone, Copy)]
enum Command {
    Play,
    Keys,
    Relay,
    Lanes,
    Json,
}

static COMMANDS: [(&str, Command); 5] = [
    ("play", Command::Play),
    ("keys", Command::Keys),
    ("relay", Command::Relay),
    ("lanes", Command::Lanes),
    ("json", Command::Json),
];

impl Cases {
    /// Cases of `play`.
    pub(crate) fn new(alloc: Global) -> Cases {
        Cases {
            alloc,
            command: Command::Play,
            given: nothing(alloc, Command::Play),
        }
    }

    /// What a line answers; only one that runs the command answers anything, and a note nothing.
    pub(crate) fn answered<R: Threads + Wait + Sync>(&mut self, rt: &R, text: &str) -> Answer {
        if is_note(text) {
            return Ok(None);
        }
        let mut line = CaseLine::new(text);
        let answer = self.answer(rt, &mut line);
        line.checked(answer)
    }

    fn answer<R: Threads + Wait + Sync>(&mut self, rt: &R, line: &mut CaseLine) -> Answer {
        match named(&WORDS, line.word()) {
            Some(Word::Command) => self.begin(line.named(&COMMANDS, Command::Play)),
            Some(Word::Run) => self.run(rt, line),
            Some(word) => self.given.take(self.alloc, word, line),
            None => Err(LineFault::Call),
        }
    }

    /// Begins the cases of a command.
    fn begin(&mut self, command: Command) -> Answer {
        self.command = command;
        self.given = nothing(self.alloc, command);
        Ok(None)
    }

    /// Runs the command. What `keys` and `json` were given stays; for the others the next case begins.
    fn run<R: Threads + Wait + Sync>(&mut self, rt: &R, line: &mut CaseLine) -> Answer {
        let alloc = self.alloc;
        match self.command {
            Command::Play => playing::run(rt, alloc, self.taken()),
            Command::Keys => keys::run(alloc, &self.given, line),
            Command::Relay => relay::run(rt, alloc, self.taken()),
            Command::Lanes => lanes::run(rt, alloc, self.taken()),
            Command::Json => json::run(rt, alloc, &self.given),
        }
    }

    /// What was given; nothing is, from now on.
    fn taken(&mut self) -> Given {
        mem::replace(&mut self.given, nothing(self.alloc, self.command))
    }
}

/// What a command has before anything is given: a script is empty, but that of `relay` isn't there.
fn nothing(alloc: Global, command: Command) -> Given {
    match command {
        Command::Relay => Given::new(alloc, None),
        _ => Given::new(alloc, Some(Vec::new(alloc))),
    }
}
