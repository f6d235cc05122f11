//! The text of the command.
ghost use Rattle.std.specs.Prelude.{◌≡◌, ◌<◌, ◌++◌, ℕ, List, IfOk, OnOk, length, option_and_then};
ghost use Rattle.pubsub_model.specs.Answers.{version_of as store_in};
ghost use Rattle.ps_config.specs.declared.parts.Config.{Config as ConfigValue};
ghost use Rattle.ps_report.specs.Conditions.{IsClosedOf};
ghost use Rattle.reader_group.specs.Settings.{group_at as read_group_at};
ghost use Rattle.writer_group.specs.Parts.{group_at};
ghost use Rattle.session_model.specs.Closing.{MemberPlace, reader_places, writer_places};
ghost use Rattle.session_model.specs.Deeds.{log_at};
ghost use Rattle.session_laws.specs.Reading.{IsMatchedIn};
ghost use Rattle.gateway_core.specs.Lived.{GatewayStep, plan_again, version_in};
ghost use Rattle.gateway_core.specs.Holding.{IsGateway, KeepsAll};
ghost use Rattle.gateway_core.specs.Standing.{Stands};
ghost use Rattle.cmd_relay.specs.Texts.{IsGatewayOf, IsReaderTextOf, IsReportBegun, IsTextOf, IsWriterTextOf, Wrote, config_of, kept_of, places_in_group, places_in_read_group, reader_line, steps_of};

use crate::held::{Stored, put_relayed};
use crate::matching::matched_writer;
use crate::put::{put_gateway, put_link};
use gateway_core::Gateway;
use ps_config::Config;
use ps_report::{Closed, put_end, report};
use pubsub_engine::version_at;
use std::alloc::Global;
use ua_base::NoMemory;

/// How long the last line of a report is.
const END_LINE: usize = 4;

/// The report of the first session without its end, what the gateway's writers logged, what its readers hold, what its link did,
/// and the end.
pub(crate) fn text_of(
    alloc: Global,
    first: &Config,
    closed: &Closed,
    second: &Config,
    gateway: &Gateway<'_>,
) -> Result<Vec<u8>, NoMemory>
    requires closed { IsClosedOf first.now closed.now }
    requires second { IsGatewayOf second.now gateway.now }
    ensures { IfOk result (λ text. (lived : List GatewayStep) → Stands second.now lived gateway.now
        → IsTextOf first.now closed.now second.now (steps_of gateway.now lived)
        (kept_of gateway.now lived) text.items) }
{
    let mut out = report_begun(alloc, first, closed)?;
    put_writers(&mut out, second, gateway)?;
    put_readers(&mut out, second, gateway)?;
    let [sent, failed, received] = gateway.counts();
    put_link(&mut out, sent, failed, received)?;
    put_end(&mut out)?;
    Ok(out)
}

/// The report without its last line.
fn report_begun(alloc: Global, first: &Config, closed: &Closed) -> Result<Vec<u8>, NoMemory>
    requires { IsClosedOf first.now closed.now }
    ensures { IfOk result (λ text. IsReportBegun first.now closed.now text.items) }
{
    let mut out = report(alloc, first, closed)?;
    out.truncate(out.len() - END_LINE);
    Ok(out)
}

/// The lines of the gateway's writers, over all groups in order.
fn put_writers(out: &mut Vec<u8>, second: &Config, gateway: &Gateway<'_>) -> Result<(), NoMemory>
    requires { IsGatewayOf second.now gateway.now }
    ensures { OnOk result ((lived : List GatewayStep) → Stands second.now lived gateway.now
        → Wrote (IsWriterTextOf second.now gateway.now lived) (writer_places second.now)
        out.old.items out.new.items) }
{
    for g in 0..second.group.as_slice().len() {
        put_group(out, second, gateway, g)?;
    }
    Ok(())
}

/// Those of the writers of a group, after other lines.
fn put_group(
    out: &mut Vec<u8>,
    second: &Config,
    gateway: &Gateway<'_>,
    g: usize,
) -> Result<(), NoMemory>
    requires gateway { IsGatewayOf second.now gateway.now }
    requires within { g < length second.now.group }
    ensures { OnOk result ((lived : List GatewayStep) (places : List MemberPlace) (front : List ℕ)
        → Stands second.now lived gateway.now
        → Wrote (IsWriterTextOf second.now gateway.now lived) places front out.old.items
        → Wrote (IsWriterTextOf second.now gateway.now lived)
        (places ++ places_in_group second.now g) front out.new.items) }
{
    let groups = second.group.as_slice();
    let writers = groups[g].writer.as_slice();
    for w in 0..writers.len() {
        put_gateway(
            out,
            &writers[w].name,
            gateway.writer(g as u8, w as u8).log(),
        )?;
    }
    Ok(())
}

/// The lines of the gateway's readers, over all read groups in order.
fn put_readers(out: &mut Vec<u8>, second: &Config, gateway: &Gateway<'_>) -> Result<(), NoMemory>
    requires { IsGatewayOf second.now gateway.now }
    ensures { OnOk result ((lived : List GatewayStep) → Stands second.now lived gateway.now
        → Wrote (IsReaderTextOf second.now gateway.now lived) (reader_places second.now)
        out.old.items out.new.items) }
{
    for r in 0..second.readgroup.as_slice().len() {
        put_read_group(out, second, gateway, r)?;
    }
    Ok(())
}

/// Those of the readers of a read group, after other lines.
fn put_read_group(
    out: &mut Vec<u8>,
    second: &Config,
    gateway: &Gateway<'_>,
    r: usize,
) -> Result<(), NoMemory>
    requires gateway { IsGatewayOf second.now gateway.now }
    requires within { r < length second.now.readgroup }
    ensures { OnOk result ((lived : List GatewayStep) (places : List MemberPlace) (front : List ℕ)
        → Stands second.now lived gateway.now
        → Wrote (IsReaderTextOf second.now gateway.now lived) places front out.old.items
        → Wrote (IsReaderTextOf second.now gateway.now lived)
        (places ++ places_in_read_group second.now r) front out.new.items) }
{
    let groups = second.readgroup.as_slice();
    let readers = groups[r].reader.as_slice();
    for i in 0..readers.len() {
        put_reader(out, second, gateway, r, i)?;
    }
    Ok(())
}

/// The line of a reader, where it is matched.
fn put_reader(
    out: &mut Vec<u8>,
    second: &Config,
    gateway: &Gateway<'_>,
    r: usize,
    i: usize,
) -> Result<(), NoMemory>
    requires gateway { IsGatewayOf second.now gateway.now }
    requires within { r < length second.now.readgroup }
    requires there { i < length (read_group_at second.now r).reader }
    ensures { OnOk result ((lived : List GatewayStep) → Stands second.now lived gateway.now
        → (text : List ℕ) × IsReaderTextOf second.now gateway.now lived (r, i) text
        × (out.new.items ≡ out.old.items ++ text)) }
{
    let groups = second.readgroup.as_slice();
    match matched_writer(second, &groups[r], i) {
        Some((g, w)) => put_matched(out, second, gateway, r, i, g, w),
        None => Ok(()),
    }
}

/// The line of a reader that is matched to this writer.
fn put_matched(
    out: &mut Vec<u8>,
    second: &Config,
    gateway: &Gateway<'_>,
    r: usize,
    i: usize,
    g: u8,
    w: u8,
) -> Result<(), NoMemory>
    requires gateway { IsGatewayOf second.now gateway.now }
    requires within { r < length second.now.readgroup }
    requires there { i < length (read_group_at second.now r).reader }
    requires group { g < length second.now.group }
    requires matched { IsMatchedIn second.now r i g w }
    ensures { OnOk result ((lived : List GatewayStep) → Stands second.now lived gateway.now
        → out.new.items ≡ out.old.items ++ reader_line second.now
        (steps_of gateway.now lived) (kept_of gateway.now lived) r i g w) }
{
    let groups = second.readgroup.as_slice();
    let readers = groups[r].reader.as_slice();
    let part = &readers[i];
    let reader = gateway.reader(r as u8, i as u8);
    let stored = stored_at(gateway, g, w, part.dataset, reader.number());
    let sets = second.dataset.as_slice();
    let meta = &sets[usize::from(part.dataset)];
    put_relayed(out, &part.name, meta, reader, &stored)
}

/// The store that a writer logged at a number, and the version that it came with.
fn stored_at(gateway: &Gateway<'_>, g: u8, w: u8, set: u8, number: Option<u16>) -> Stored
    requires gateway { IsGateway gateway.now }
    requires keeps { KeepsAll gateway.now }
    requires group { g < length (config_of gateway.now).group }
    requires writer { w < length (group_at (config_of gateway.now) g).writer }
    requires set { set < length (config_of gateway.now).dataset }
    ensures { (second : ConfigValue) (lived : List GatewayStep) → Stands second lived gateway.now
        → let steps = steps_of gateway.now lived in
        (result.store ≡ option_and_then (store_in (log_at (plan_again second) g w steps)) number)
        × (result.version
        ≡ option_and_then (version_in (kept_of gateway.now lived set)) result.store) }
{
    let store = version_at(gateway.writer(g, w).log(), number);
    let version = match store {
        Some(store) => gateway.version_of(set, store),
        None => None,
    };
    Stored { store, version }
}
