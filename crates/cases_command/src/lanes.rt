//! Cases of the command `lanes`, on the script `s`, with the configuration `c` where there is one.
ghost use Rattle.std.specs.Prelude.{◌<◌};

use crate::given::Given;
use crate::injected::Injected;
use crate::shown::{tell_end, text_of};
use case_lines::{Answer, LineFault, Told};
use cmd_base::tell;
use cmd_lanes::lanes_by;
use mem_edge::{MemorySink, OpenGate};
use std::alloc::Global;
use std::sync::Wait;
use std::thread::Threads;

/// Places of the longest queue that a case may ask for.
const MOST_ROOM: u32 = 1024;

/// Runs the command: what it writes on the output and on the error output, and its status.
pub(crate) fn run<R: Threads + Wait + Sync>(rt: &R, alloc: Global, given: Given) -> Answer {
    if given.room == 0 || given.room > MOST_ROOM {
        return Err(LineFault::Condition);
    }
    let mut folder = given.folder(alloc, b"s")?;
    let config = given.config_name();
    let room = given.room;
    let Given { lab, .. } = given;
    let mut link = lab.link(alloc, Injected::new(alloc));
    let mut out = MemorySink::new(alloc, Vec::new(alloc))?;
    let mut err = MemorySink::new(alloc, Vec::new(alloc))?;
    let status = lanes_by(
        rt,
        alloc,
        "s",
        config,
        room,
        &mut folder,
        &mut link,
        &OpenGate,
        &mut out,
    );
    tell(&mut err, &status);
    told(alloc, &out, &err, status.number())
}

/// What stands on the two outputs, and the status.
fn told(alloc: Global, out: &MemorySink, err: &MemorySink, status: u8) -> Answer {
    let mut told = Told::new(alloc);
    told.say(text_of(out)?);
    tell_end(&mut told, err, status)?;
    told.answer()
}
