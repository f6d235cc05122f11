//! Judging a configuration.
ghost use Rattle.std.specs.Prelude.{◌≡◌, ◌≤◌, IfErr, IfNone, IfOk, IfSome, IsOk, length};
ghost use Rattle.ps_config.specs.Reading.{configuration, IsEnd};
ghost use Rattle.uapubsub_c.specs.Answers.{IsSeen};
ghost use Rattle.uapubsub_c.specs.Lines.{IsFrontLaid, Judges, TellsEnd, line_of};

use crate::laying::lay_front;
use crate::status::{Status, number_of};
use ps_config::{ConfigEnd, read_config};
use std::alloc::Global;

/// Judges the configuration that the text is. Where it is refused, the line that the command `check` prints, without its end, is laid
/// at the front of `error`, as far as there is room, and `written` is how many bytes of it are laid.
#[unsafe(no_mangle)]
pub extern "C" fn uapubsub_config_check(
    alloc: Global,
    text: &[u8],
    error: &mut [u8],
    written: &mut usize,
) -> u32
    ensures judges { IsSeen (Judges text.now error.old error.new written.new) result }
    ensures room { written.new ≤ length error.old }
{
    *written = 0;
    number_of(judge(alloc, text, error, written))
}

fn judge(alloc: Global, text: &[u8], error: &mut [u8], written: &mut usize) -> Result<(), Status>
    requires { written.old ≡ 0 }
    ensures judges { Judges text.now error.old error.new written.new result }
    ensures room { written.new ≤ length error.old }
{
    match read(alloc, text) {
        Ok(()) => Ok(()),
        Err(end) => Err(tell(alloc, &end, error, written)),
    }
}

/// Reads the configuration that the text is, and lets it go.
pub(crate) fn read(alloc: Global, text: &[u8]) -> Result<(), ConfigEnd>
    ensures ok { IfOk result (λ _. IsOk (configuration text.now)) }
    ensures refused { IfErr result (IsEnd (configuration text.now)) }
{
    let _config = read_config(alloc, text)?;
    Ok(())
}

/// Lays the line of a refusal, if there is memory for it.
fn tell(alloc: Global, end: &ConfigEnd, error: &mut [u8], written: &mut usize) -> Status
    requires { written.old ≡ 0 }
    ensures tells { TellsEnd end.now error.old error.new written.new result }
    ensures room { written.new ≤ length error.old }
{
    match end {
        ConfigEnd::Memory => Status::Memory,
        ConfigEnd::Refused { .. } => {
            let Some(count) = lay_line(alloc, end, error) else {
                return Status::Memory;
            };
            *written = count;
            Status::Refused
        }
    }
}

/// Lays the line of an end, as far as there is room, and tells how many bytes of it. None, and nothing is laid, where there is no
/// memory to spell it.
fn lay_line(alloc: Global, end: &ConfigEnd, error: &mut [u8]) -> Option<usize>
    ensures laid { IfSome result (IsFrontLaid (line_of end.now) error.old error.new) }
    ensures room { IfSome result (λ count. count ≤ length error.old) }
    ensures none { IfNone result (error.new ≡ error.old) }
{
    match format!(in alloc; "config: {end}") {
        Ok(line) => Some(lay_front(line.as_bytes(), error)),
        Err(_) => None,
    }
}
