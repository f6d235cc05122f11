//! A session played over a tap.
ghost use Rattle.std.specs.Prelude.{◌≡◌, IsOk, IfOk, OnOk, Err};
ghost use Rattle.ps_config.specs.Types.{HasTypes};
ghost use Rattle.ps_script.specs.Sound.{IsScript};
ghost use Rattle.writer_group.specs.Standing.{IsGood};
ghost use Rattle.script_player.specs.Openings.{PerformsOver};
ghost use Rattle.script_player.specs.Plays.{IsPlayOf, opening_of};
ghost use Rattle.json_tap.specs.Keeping.{IsOfLink};
ghost use Rattle.json_tap.specs.Reading.{LinkIsReadAs};
ghost use Rattle.cmd_json.specs.Playing.{IsTapped};

use json_tap::{Inner, JsonLine, Made, Tap, Tapped};
use ps_config::Config;
use ps_report::Closed;
use ps_script::Script;
use script_player::{PlayEnd, play_script};
use std::alloc::Global;
use std::marker::Brand;
use std::sync::Wait;
use ua_base::Link;

/// The lines of a session, and how many of its sent datagrams gave none.
#[derive(Drop)]
pub(crate) struct Written {
    pub lines: Vec<JsonLine>,
    pub skipped: u64,
}

/// Plays a script over a link, and writes what is sent over it.
pub(crate) fn written_play<R: Wait, L: Link>(
    rt: &R,
    alloc: Global,
    config: &Config,
    script: &Script,
    link: &mut L,
) -> Result<Written, PlayEnd>
    requires good { IsGood config.now }
    requires types { HasTypes config.now }
    requires script { IsScript config.now script.now }
    ensures written { IfOk result (λ written. IsTapped config.now script.now (L.told link.new)
        written.lines.items written.skipped) }
    ensures over { PerformsOver L.told L.patience L.opened_with L.faults L.made L.openings
        (opening_of config.now script.now) (IsOk result) (result ≡ Err PlayEnd.Unopened)
        link.old link.new }
{
    let Ended {
        link,
        lines,
        skipped,
        end,
    } = tapped_play::<Brand, R, L>(rt, alloc, Inner { link }, config, script);
    take_back(link);
    match end {
        Ok(_closed) => Ok(Written { lines, skipped }),
        Err(end) => Err(end),
    }
}

/// This use of the link ties it to the one that was lent.
fn take_back<L: Link>(link: &mut L)
    ensures { link.new ≡ link.old }
{
    let _link = link;
}

/// What a play leaves: its link, what was written, and how it ended.
#[derive(Drop)]
struct Ended<'a, L> {
    link: &'a mut L,
    lines: Vec<JsonLine>,
    skipped: u64,
    end: Result<Closed, PlayEnd>,
}

/// Plays a script over a tap, and takes the tap off its link.
fn tapped_play<'a, M: Made, R: Wait, L: Link>(
    rt: &R,
    alloc: Global,
    inner: Inner<'a, L>,
    config: &'a Config,
    script: &Script,
) -> Ended<'a, L>
    requires loan { inner.link.ghost_name ≡ M.loan }
    requires config { config.now ≡ M.config }
    requires told { L.told inner.link.now ≡ M.told }
    requires opening { L.opened_with inner.link.now ≡ M.opening }
    requires good { IsGood config.now }
    requires types { HasTypes config.now }
    requires script { IsScript config.now script.now }
    ensures same_loan { result.link.ghost_name ≡ inner.entry.link.ghost_name }
    ensures played { IfOk result.end (IsPlayOf M.config script.now (L.told result.link.now)) }
    ensures of_sent { OnOk result.end
        (IsOfLink M.config (L.told result.link.now) result.lines.items result.skipped) }
    ensures read_as { OnOk result.end (LinkIsReadAs M.config (L.told result.link.now)) }
    ensures over { PerformsOver L.told L.patience L.opened_with L.faults L.made L.openings
        (opening_of M.config script.now) (IsOk result.end) (result.end ≡ Err PlayEnd.Unopened)
        inner.entry.link.now result.link.now }
{
    let mut tap: Tap<'a, L, M> = Tap::new(alloc, inner, config);
    let end = play_script(rt, alloc, config, script, &mut tap);
    let Tapped {
        link,
        lines,
        skipped,
    } = tap.into_parts();
    Ended {
        link,
        lines,
        skipped,
        end,
    }
}
