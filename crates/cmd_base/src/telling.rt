//! The text of a status on the error output.
ghost use Rattle.std.specs.Prelude.{◌≡◌, ◌≤◌, ◌++◌};
ghost use Rattle.cmd_base.specs.Statuses.{place_text, config_text, source_text, script_text, lanes_text, fault_text, text_of};
ghost use Rattle.cmd_base.specs.Telling.{Puts, WritesText};

use crate::status::Status;
use itoa::Buffer;
use ps_config::name_numbered;
use ps_script::ScriptFault;
use ua_base::{Sink, WriteEnd};

const USAGE: &str =
    "usage: uapubsub check --config FILE | play SCRIPT [--config FILE] | run SCRIPT [--config FILE] | load N | json SCRIPT [--config FILE] | keys FILE GROUP START COUNT MS | relay SCRIPT FILE SECOND | lanes SCRIPT [--config FILE]\n";

/// Writes the text of a status. A write that fails ends it, and changes nothing else.
#[tactic(auto, unfolding(crate::specs::Statuses::text_of))]
pub fn tell<E: Sink>(err: &mut E, status: &Status<'_>)
    ensures told { WritesText (E.written err.old) (E.written err.new)
        (E.faults err.old) (E.faults err.new) (text_of status.now) }
    ensures faults { E.faults err.old ≤ E.faults err.new }
{
    let _whole = match status {
        Status::Done | Status::Unwritten => true,
        Status::BadWords => put(err, USAGE),
        Status::ConfigRefused { code, path } => put_config(err, *code, path.as_str()),
        Status::NoSource { set } => put_source(err, *set),
        Status::ScriptRefused { line, fault } => put_script(err, *line, *fault),
        Status::NotInLanes { line } => put_lanes(err, *line),
        Status::Unread { file } => put_three(err, "cannot read ", file, "\n"),
        Status::OutOfMemory => put(err, "out of memory\n"),
        Status::Unopened => put(err, "cannot open link\n"),
        Status::Long { file } => put_three(err, "file too long: ", file, "\n"),
    };
}

// A configuration that is refused: the number and the name of the fault, and where it stands.
fn put_config<E: Sink>(err: &mut E, code: u8, path: &str) -> bool
    ensures told { Puts result (E.written err.old) (E.written err.new)
        (E.faults err.old) (E.faults err.new) (config_text code path.now) }
    ensures faults { E.faults err.old ≤ E.faults err.new }
{
    let mut digits = Buffer::new();
    put_three(err, "config: C", digits.format(code), " ") && put_place(err, code, path)
}

fn put_place<E: Sink>(err: &mut E, code: u8, path: &str) -> bool
    ensures told { Puts result (E.written err.old) (E.written err.new)
        (E.faults err.old) (E.faults err.new) (place_text code path.now) }
    ensures faults { E.faults err.old ≤ E.faults err.new }
{
    put_three(err, name_numbered(code), " ", path) && put(err, "\n")
}

// A second configuration that is refused: the data set that has no source.
fn put_source<E: Sink>(err: &mut E, set: u32) -> bool
    ensures told { Puts result (E.written err.old) (E.written err.new)
        (E.faults err.old) (E.faults err.new) (source_text set) }
    ensures faults { E.faults err.old ≤ E.faults err.new }
{
    let mut digits = Buffer::new();
    put_three(
        err,
        "config: C26 NoSource dataset[",
        digits.format(set),
        "]\n",
    )
}

// A script that lanes don't take: its first line that they don't.
fn put_lanes<E: Sink>(err: &mut E, line: u32) -> bool
    ensures told { Puts result (E.written err.old) (E.written err.new)
        (E.faults err.old) (E.faults err.new) (lanes_text line) }
    ensures faults { E.faults err.old ≤ E.faults err.new }
{
    let mut digits = Buffer::new();
    put_three(
        err,
        "script: line ",
        digits.format(line),
        " S13 NotInLanes\n",
    )
}

// A script that is refused: the line, and the number and the name of its fault.
fn put_script<E: Sink>(err: &mut E, line: u32, fault: ScriptFault) -> bool
    ensures told { Puts result (E.written err.old) (E.written err.new)
        (E.faults err.old) (E.faults err.new) (script_text line fault) }
    ensures faults { E.faults err.old ≤ E.faults err.new }
{
    let mut digits = Buffer::new();
    put_three(err, "script: line ", digits.format(line), " S") && put_fault(err, fault)
}

fn put_fault<E: Sink>(err: &mut E, fault: ScriptFault) -> bool
    ensures told { Puts result (E.written err.old) (E.written err.new)
        (E.faults err.old) (E.faults err.new) (fault_text fault) }
    ensures faults { E.faults err.old ≤ E.faults err.new }
{
    let mut digits = Buffer::new();
    put_three(err, digits.format(fault.number()), " ", fault.name()) && put(err, "\n")
}

// Writes the texts one after another, since joining them would take memory, and answers whether all of them were written.
fn put_three<E: Sink>(err: &mut E, front: &str, middle: &str, back: &str) -> bool
    ensures told { Puts result (E.written err.old) (E.written err.new)
        (E.faults err.old) (E.faults err.new) (front.now ++ middle.now ++ back.now) }
    ensures faults { E.faults err.old ≤ E.faults err.new }
{
    put_both(err, front, middle) && put(err, back)
}

fn put_both<E: Sink>(err: &mut E, front: &str, back: &str) -> bool
    ensures told { Puts result (E.written err.old) (E.written err.new)
        (E.faults err.old) (E.faults err.new) (front.now ++ back.now) }
    ensures faults { E.faults err.old ≤ E.faults err.new }
{
    put(err, front) && put(err, back)
}

// Writes the text, and answers whether all of it was written.
fn put<E: Sink>(err: &mut E, text: &str) -> bool
    ensures told { Puts result (E.written err.old) (E.written err.new)
        (E.faults err.old) (E.faults err.new) text.now }
    ensures faults { E.faults err.old ≤ E.faults err.new }
{
    match err.write(text.as_bytes()) {
        WriteEnd::Done => true,
        WriteEnd::Failed => false,
    }
}
