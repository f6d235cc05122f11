//! The summary of generated work.
ghost use Rattle.std.specs.Prelude.{◌≡◌, ◌++◌, IfOk, OnOk};
ghost use Rattle.ps_report.specs.Conditions.{IsClosedOf, HoldsRow, HoldRows, readers_of};
ghost use Rattle.ps_report.specs.Reports.{load_versions, load_held_text, load_reader_line, load_text};

use crate::closed::{Closed, History, ReaderEnd};
use crate::held::{put_row, put_waits};
use crate::lines::put_end;
use crate::pieces::{put, put_feed, put_named};
use crate::readers::reader_at;
use dataset_meta::Meta;
use ps_config::{Config, ReadGroupPart, ReaderPart};
use std::alloc::Global;
use ua_base::NoMemory;

/// What `load N` prints: how long the first history is, the ticks without the closing one, and the row that the first reader
/// holds, or else why it waits.
#[tactic(auto, unfolding(crate::specs::Reports::load_text))]
pub fn load_summary(
    alloc: Global,
    config: &Config,
    closed: &Closed,
    n: u32,
    ticks: u64,
) -> Result<Vec<u8>, NoMemory>
    requires { IsClosedOf config.now closed.now }
    ensures { IfOk result (λ text. text.items ≡ load_text config.now closed.now n ticks) }
{
    let mut out = Vec::new(alloc);
    put_named(&mut out, b"load ", u64::from(n))?;
    put_named(
        &mut out,
        b" history ",
        versions(closed.histories.as_slice()),
    )?;
    put_named(&mut out, b" ticks ", ticks)?;
    put_feed(&mut out)?;
    put_first_reader(
        &mut out,
        config.dataset.as_slice(),
        config.readgroup.as_slice(),
        closed.readers.as_slice(),
    )?;
    put_end(&mut out)?;
    Ok(out)
}

/// How long the first history is.
fn versions(histories: &[History]) -> u64
    ensures { result ≡ load_versions histories.now }
{
    match histories {
        [] => 0,
        [first, ..] => first.threads.as_slice().len() as u64,
    }
}

#[tactic(auto, unfolding(crate::specs::Reports::load_reader_line))]
fn put_first_reader(
    out: &mut Vec<u8>,
    sets: &[Meta],
    groups: &[ReadGroupPart],
    ends: &[ReaderEnd],
) -> Result<(), NoMemory>
    requires { HoldRows sets.now (readers_of groups.now) ends.now }
    ensures { OnOk result (out.new.items ≡ out.old.items
        ++ load_reader_line sets.now (readers_of groups.now) ends.now) }
{
    match ends {
        [] => Ok(()),
        [end, ..] => {
            let part = reader_at(groups, 0);
            put(out, b"reader ")?;
            put(out, part.name.as_bytes())?;
            put_held_row(out, sets, part, end)?;
            put_feed(out)
        }
    }
}

#[tactic(auto, unfolding(crate::specs::Reports::load_held_as))]
fn put_held_row(
    out: &mut Vec<u8>,
    sets: &[Meta],
    part: &ReaderPart,
    end: &ReaderEnd,
) -> Result<(), NoMemory>
    requires { HoldsRow sets.now part.now end.now }
    ensures { OnOk result (out.new.items ≡ out.old.items ++ load_held_text sets.now
        part.now end.now) }
{
    match &end.held {
        None => put_waits(out, end.why),
        Some(held) => put_row(out, &sets[usize::from(part.dataset)], &held.row),
    }
}
