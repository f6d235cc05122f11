//! Cases of the command `relay`, on the files `script`, `first` and `second`, over the links `lab` and `wire`.
use crate::given::Given;
use crate::injected::Injected;
use crate::shown::{tell_end, text_of};
use case_lines::{Answer, Told};
use cmd_base::tell;
use cmd_relay::relay;
use mem_edge::MemorySink;
use std::alloc::Global;
use std::sync::Wait;

/// Runs the command: what it writes, the status that it ends with, and what stands on the error output.
pub(crate) fn run<R: Wait>(rt: &R, alloc: Global, given: Given) -> Answer {
    let mut folder = given.folder(alloc, b"script")?;
    let Given {
        writes,
        lab,
        wire,
        ..
    } = given;
    let mut lab = lab.link(alloc, Injected::new(alloc));
    let mut wire = wire.link(alloc, Injected::new(alloc));
    let mut out = MemorySink::new(alloc, writes)?;
    let mut err = MemorySink::new(alloc, Vec::new(alloc))?;
    let status = relay(
        rt,
        alloc,
        "script",
        "first",
        "second",
        &mut folder,
        &mut lab,
        &mut wire,
        &mut out,
    );
    tell(&mut err, &status);
    told(alloc, &out, status.number(), &err)
}

/// What the command wrote, and how it ended.
fn told(alloc: Global, out: &MemorySink, status: u8, err: &MemorySink) -> Answer {
    let mut told = Told::new(alloc);
    tell_end(&mut told, out, status)?;
    told.named(" [", Some(text_of(err)?.trim_end_matches('\n')));
    told.say("]");
    told.answer()
}
