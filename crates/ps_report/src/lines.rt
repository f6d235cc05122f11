//! The lines of a report.
ghost use Rattle.std.specs.Prelude.{◌≡◌, ◌++◌, OnOk};
ghost use Rattle.ps_report.specs.Conditions.{HoldsRow};
ghost use Rattle.ps_report.specs.Lines.{log_text, breaks_text, history_line, group_line, writer_line, read_group_line, gaps_line, watch_line, link_line};
ghost use Rattle.ps_report.specs.Reports.{reader_line, end_line};

use crate::causes::put_causes;
use crate::closed::{GroupEnd, LinkEnd, ReadGroupEnd, ReaderEnd, WriterEnd};
use crate::held::put_held;
use crate::pieces::{put, put_component, put_count, put_feed, put_named, put_numbers, put_threads};
use dataset_meta::{Meta, Name32};
use ps_config::ReaderPart;
use pubsub_model::Break;
use ua_base::NoMemory;

#[tactic(auto, unfolding(crate::specs::Lines::history_line))]
pub fn put_history(out: &mut Vec<u8>, name: &Name32, threads: &[u8]) -> Result<(), NoMemory>
    ensures { OnOk result (out.new.items ≡ out.old.items ++ history_line name.now threads.now) }
{
    put(out, b"history ")?;
    put(out, name.as_bytes())?;
    put_count(out, threads.len() as u64)?;
    put_threads(out, threads)?;
    put_feed(out)
}

#[tactic(auto, unfolding(crate::specs::Lines::group_line))]
pub fn put_group(out: &mut Vec<u8>, name: &Name32, end: &GroupEnd) -> Result<(), NoMemory>
    ensures { OnOk result (out.new.items ≡ out.old.items ++ group_line name.now end.now) }
{
    put_component(out, b"group", name, end.state)?;
    put_named(out, b" sent ", end.sent)?;
    put_feed(out)
}

#[tactic(auto, unfolding(crate::specs::Lines::writer_line))]
pub fn put_writer(out: &mut Vec<u8>, name: &Name32, end: &WriterEnd) -> Result<(), NoMemory>
    ensures { OnOk result (out.new.items ≡ out.old.items ++ writer_line name.now end.now) }
{
    let log = end.log.as_slice();
    put_component(out, b"writer", name, end.state)?;
    put_count(out, log.len() as u64)?;
    put_log(out, log)?;
    put_feed(out)
}

/// Place and version of each data frame.
pub fn put_log(out: &mut Vec<u8>, log: &[(u64, u64)]) -> Result<(), NoMemory>
    ensures { OnOk result (out.new.items ≡ out.old.items ++ log_text log.now) }
{
    for (place, version) in log {
        put_named(out, b" ", *place)?;
        put_named(out, b"=", *version)?;
    }
    Ok(())
}

#[tactic(auto, unfolding(crate::specs::Lines::read_group_line))]
pub fn put_read_group(out: &mut Vec<u8>, name: &Name32, end: &ReadGroupEnd) -> Result<(), NoMemory>
    ensures { OnOk result (out.new.items ≡ out.old.items ++ read_group_line name.now end.now) }
{
    put_component(out, b"readgroup", name, end.state)?;
    put(out, b" taken")?;
    put_count(out, end.taken)?;
    put_causes(out, &end.causes)?;
    put_feed(out)
}

#[tactic(auto, unfolding(crate::specs::Reports::reader_line))]
pub fn put_reader(
    out: &mut Vec<u8>,
    sets: &[Meta],
    part: &ReaderPart,
    end: &ReaderEnd,
) -> Result<(), NoMemory>
    requires { HoldsRow sets.now part.now end.now }
    ensures { OnOk result (out.new.items ≡ out.old.items ++ reader_line sets.now part.now end.now) }
{
    put_component(out, b"reader", &part.name, end.state)?;
    put_held(out, sets, part, end)?;
    put_feed(out)
}

#[tactic(auto, unfolding(crate::specs::Lines::gaps_line))]
pub fn put_gaps(
    out: &mut Vec<u8>,
    name: &Name32,
    breaks: u64,
    recent: &[Break],
) -> Result<(), NoMemory>
    ensures { OnOk result (out.new.items ≡ out.old.items ++ gaps_line name.now breaks recent.now) }
{
    put(out, b"gaps ")?;
    put(out, name.as_bytes())?;
    put_count(out, breaks)?;
    put_breaks(out, recent)?;
    put_feed(out)
}

/// The number that was due and the one that came.
fn put_breaks(out: &mut Vec<u8>, breaks: &[Break]) -> Result<(), NoMemory>
    ensures { OnOk result (out.new.items ≡ out.old.items ++ breaks_text breaks.now) }
{
    for at in breaks {
        put_named(out, b" ", u64::from(at.expected))?;
        put_named(out, b"/", u64::from(at.got))?;
    }
    Ok(())
}

#[tactic(auto, unfolding(crate::specs::Lines::watch_line))]
pub fn put_watch(
    out: &mut Vec<u8>,
    thread: u8,
    reader: &Name32,
    counts: &[u64],
) -> Result<(), NoMemory>
    ensures { OnOk result
        (out.new.items ≡ out.old.items ++ watch_line thread reader.now counts.now) }
{
    put_named(out, b"watch ", u64::from(thread))?;
    put(out, b" ")?;
    put(out, reader.as_bytes())?;
    put(out, b":")?;
    put_numbers(out, counts)?;
    put_feed(out)
}

#[tactic(auto, unfolding(crate::specs::Lines::link_line))]
pub fn put_link(out: &mut Vec<u8>, link: &LinkEnd) -> Result<(), NoMemory>
    ensures { OnOk result (out.new.items ≡ out.old.items ++ link_line link.now) }
{
    put_named(out, b"link sent ", link.sent)?;
    put_named(out, b" failed ", link.failed)?;
    put_named(out, b" received ", link.received)?;
    put_named(out, b" broken ", link.broken)?;
    put_named(out, b" long ", link.long)?;
    put_named(out, b" limit ", link.limit)?;
    put_feed(out)
}

/// The last line.
#[tactic(auto, unfolding(crate::specs::Reports::end_line))]
pub fn put_end(out: &mut Vec<u8>) -> Result<(), NoMemory>
    ensures { OnOk result (out.new.items ≡ out.old.items ++ end_line) }
{
    put(out, b"end\n")
}
