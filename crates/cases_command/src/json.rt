//! Cases of the command `json`, on the script `s`, with the configuration `c` where there is one.
use crate::given::Given;
use crate::injected::Injected;
use crate::shown::tell_end;
use case_lines::{Answer, Told};
use cmd_json::json;
use mem_edge::MemorySink;
use std::alloc::Global;
use std::sync::Wait;

/// Runs the command: what it writes, and the status that it ends with.
pub(crate) fn run<R: Wait>(rt: &R, alloc: Global, given: &Given) -> Answer {
    let mut folder = given.folder(alloc, b"s")?;
    let mut link = given.lab.again(alloc)?.link(alloc, Injected::new(alloc));
    let mut out = MemorySink::new(alloc, Vec::new(alloc))?;
    let config = given.config_name();
    let status = json(rt, alloc, "s", config, &mut folder, &mut link, &mut out).number();
    let mut told = Told::new(alloc);
    tell_end(&mut told, &out, status)?;
    told.answer()
}
