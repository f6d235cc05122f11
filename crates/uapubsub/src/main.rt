//! The program `uapubsub`.
#![tactic(auto)]

ghost use Rattle.std.specs.Prelude.{◌≡◌, ◌≢◌};
ghost use Rattle.std.specs.Process.{exit_status};
ghost use Rattle.std.specs.declared.io.ErrorKind.TheVariants.{OutOfMemory};
ghost use Rattle.cmd_base.specs.Statuses.{number_of, text_of};
ghost use Rattle.cmd_base.specs.Telling.{WritesText};

#[cfg(test)]
mod gated;
#[cfg(test)]
mod order;
#[cfg(test)]
mod runs;
#[cfg(test)]
mod tests;
mod top;
mod words;

use cmd_base::{Status, Word, tell};
use mem_edge::{MemoryLink, OpenGate};
use std::alloc::Global;
use std::env;
use std::io::{self, ErrorKind};
use std::process::ExitCode;
use std::rt::Env;
use top::top;
use ua_base::Sink;
use udp_edge::{DirFolder, StdSink, UdpLink};

/// The words after the program's name.
fn words_of(rt: &(impl Env + AllocGlobal), alloc: Global) -> io::Result<Vec<Word>> {
    let mut words = Vec::new(alloc);
    for text in env::args(rt)?.skip(1) {
        words.push(Word::new(text))?;
    }
    Ok(words)
}

/// Why the words can't be read: memory ran out, or one of them isn't UTF-8.
fn refusal(kind: ErrorKind) -> Status<'static>
    ensures memory { kind ≡ OutOfMemory → result ≡ Status.OutOfMemory }
    ensures words { kind ≢ OutOfMemory → result ≡ Status.BadWords }
{
    match kind {
        ErrorKind::OutOfMemory => Status::OutOfMemory,
        _ => Status::BadWords,
    }
}

/// Tells the status, and ends with it.
fn refuse<E: Sink>(status: &Status<'_>, err: &mut E) -> ExitCode
    ensures told { WritesText (E.written err.old) (E.written err.new)
        (E.faults err.old) (E.faults err.new) (text_of status.now) }
    ensures status { exit_status result ≡ number_of status.now }
{
    tell(err, status);
    ExitCode::from(status.number())
}

fn main(rt: HostRuntime) -> ExitCode {
    let alloc = rt.alloc();
    let stderr = rt.stderr();
    let mut err = StdSink::new(&stderr);
    let words = match words_of(&rt, alloc) {
        Ok(words) => words,
        Err(error) => return refuse(&refusal(error.kind()), &mut err),
    };
    let mut folder = DirFolder::new(&rt);
    let mut lab = MemoryLink::new(
        alloc,
        Vec::new(alloc),
        Vec::new(alloc),
        Vec::new(alloc),
        false,
    );
    let mut wire = UdpLink::new(&rt, alloc);
    let mut out = StdSink::new(&rt);
    ExitCode::from(top(
        &rt,
        alloc,
        &words,
        &mut folder,
        &mut lab,
        &mut wire,
        &OpenGate,
        &mut out,
        &mut err,
    ))
}
