//! Reports.
ghost use Rattle.std.specs.Prelude.{IfOk};
ghost use Rattle.ps_report.specs.Conditions.{IsClosedOf};

mod closing;
mod ends;
mod held;
mod pieces;

use crate::reports::closing::closed_of;
use crate::reports::pieces::Pieces;
use case_lines::{Answer, CaseLine, LineFault, string_of};
use ps_config::Config;
use ps_report::{Closed, load_summary, report};
use std::alloc::Global;

/// `report ; PIECE ; ..`: the text that a closed session is told by
pub fn told(alloc: Global, config: &Config, line: &mut CaseLine) -> Answer {
    let closed = closed_in(alloc, config, line.rest())?;
    Ok(Some(string_of(report(alloc, config, &closed)?)?))
}

/// `load N TICKS ; PIECE ; ..`: the summary of generated work
pub fn summed(alloc: Global, config: &Config, line: &mut CaseLine) -> Answer {
    let (n, ticks) = (line.u32(), line.u64());
    let closed = closed_in(alloc, config, line.rest())?;
    Ok(Some(string_of(load_summary(alloc, config, &closed, n, ticks)?)?))
}

/// The session that the pieces tell of.
fn closed_in(alloc: Global, config: &Config, text: &str) -> Result<Closed, LineFault>
    ensures { IfOk result (IsClosedOf config.now) }
{
    let mut pieces = Pieces::new(text);
    let closed = closed_of(alloc, config, &mut pieces)?;
    match pieces.line.check() {
        Ok(()) => Ok(closed),
        Err(fault) => Err(fault),
    }
}
