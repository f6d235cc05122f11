//! Running generated work.
ghost use Rattle.std.specs.Prelude.{◌≡◌, ◌≤◌, Err, IfOk, IsOk};
ghost use Rattle.ps_config.specs.BuiltIn.{built_in_config};
ghost use Rattle.ps_config.specs.Types.{HasTypes};
ghost use Rattle.ps_script.specs.Generated.{generated};
ghost use Rattle.ps_script.specs.Sound.{IsScript};
ghost use Rattle.writer_group.specs.Standing.{IsGood};
ghost use Rattle.cmd_base.specs.Outside.{wire_of};
ghost use Rattle.cmd_base.specs.Statuses.{IsDone, IsUnwritten};
ghost use Rattle.cmd_base.specs.Links.{UsesLink};
ghost use Rattle.cmd_load.specs.Loads.{LoadEnds, OpensForWork, Summarizes, output_of};

use cmd_base::{Status, status_of, write_text};
use ps_config::{Config, built_in, the_built_in_configuration_is_sound};
use ps_report::load_summary;
use ps_script::{Script, generate};
use report_laws::closed_sessions_are_reported;
use script_player::PlayEnd;
use script_runner::run_script;
use std::alloc::Global;
use std::sync::Wait;
use std::thread::Threads;
use ua_base::{Gate, Link, NoMemory, Sink};

/// Runs `32n` generated writes, of four threads, beside `4n` ticks over the link, with the built-in configuration, and writes the
/// summary of the session. The gate is called before and after each write and each tick.
pub fn load<'w, R: Threads + Wait + Sync, A: Link, G: Gate, K: Sink>(
    rt: &R,
    alloc: Global,
    n: u32,
    lab: &mut A,
    gate: &G,
    out: &mut K,
) -> Status<'w>
    requires least { 1 ≤ n }
    requires most { n ≤ 1024 }
    ensures ends { LoadEnds result n
        (output_of K.written K.faults out.old) (output_of K.written K.faults out.new)
        (wire_of A.told A.patience A.faults A.opened_with A.made A.openings lab.old)
        (wire_of A.told A.patience A.faults A.opened_with A.made A.openings lab.new) }
    ensures silent { ¬ IsDone result → ¬ IsUnwritten result → out.new ≡ out.old }
{
    match summary_of(rt, alloc, n, lab, gate) {
        Ok(text) => write_text(out, &text),
        Err(end) => status_of(end),
    }
}

/// The summary of a session of the generated work.
fn summary_of<R: Threads + Wait + Sync, A: Link, G: Gate>(
    rt: &R,
    alloc: Global,
    n: u32,
    lab: &mut A,
    gate: &G,
) -> Result<Vec<u8>, PlayEnd>
    requires least { 1 ≤ n }
    requires most { n ≤ 1024 }
    ensures summary { IfOk result (λ text. Summarizes n
        (wire_of A.told A.patience A.faults A.opened_with A.made A.openings lab.new) text.items) }
    ensures link { UsesLink (OpensForWork n) (result ≡ Err PlayEnd.Unopened) (IsOk result)
        (wire_of A.told A.patience A.faults A.opened_with A.made A.openings lab.old)
        (wire_of A.told A.patience A.faults A.opened_with A.made A.openings lab.new) }
{
    the_built_in_configuration_is_sound();
    let config = built_in(alloc)?;
    let script = generate(alloc, n)?;
    work_summary(rt, alloc, n, &config, &script, lab, gate)
}

/// The summary of a session of this work, with this configuration.
fn work_summary<R: Threads + Wait + Sync, A: Link, G: Gate>(
    rt: &R,
    alloc: Global,
    n: u32,
    config: &Config,
    script: &Script,
    lab: &mut A,
    gate: &G,
) -> Result<Vec<u8>, PlayEnd>
    requires least { 1 ≤ n }
    requires most { n ≤ 1024 }
    requires config { config.now ≡ built_in_config }
    requires script { script.now ≡ generated n }
    requires good { IsGood config.now }
    requires types { HasTypes config.now }
    requires work { IsScript config.now script.now }
    ensures summary { IfOk result (λ text. Summarizes n
        (wire_of A.told A.patience A.faults A.opened_with A.made A.openings lab.new) text.items) }
    ensures link { UsesLink (OpensForWork n) (result ≡ Err PlayEnd.Unopened) (IsOk result)
        (wire_of A.told A.patience A.faults A.opened_with A.made A.openings lab.old)
        (wire_of A.told A.patience A.faults A.opened_with A.made A.openings lab.new) }
{
    let closed = run_script(rt, alloc, config, script, lab, gate)?;
    closed_sessions_are_reported(config, &closed);
    let ticks = script.ticks() as u64;
    match load_summary(alloc, config, &closed, n, ticks) {
        Ok(text) => Ok(text),
        Err(NoMemory) => Err(PlayEnd::Memory),
    }
}
