//! What stands on an output.
use case_lines::{LineFault, Told};
use mem_edge::MemorySink;
use std::str;

/// What stands on an output.
pub(crate) fn text_of(out: &MemorySink) -> Result<&str, LineFault> {
    match str::from_utf8(out.bytes()) {
        Ok(text) => Ok(text),
        Err(_) => Err(LineFault::Text),
    }
}

/// What a command wrote, and the status that it ended with.
pub(crate) fn tell_end(told: &mut Told, out: &MemorySink, status: u8) -> Result<(), LineFault> {
    told.say(text_of(out)?);
    told.fill("status #", &[status as u64]);
    Ok(())
}
