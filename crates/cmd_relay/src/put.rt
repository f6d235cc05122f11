//! Lines, each appended to what was written before.
ghost use Rattle.std.specs.Prelude.{◌≡◌, ◌++◌, OnOk};
ghost use Rattle.ps_report.specs.Lines.{number_or_dash};
ghost use Rattle.cmd_relay.specs.Texts.{counts_text, gateway_line, link_line, stored_text};

use dataset_meta::Name32;
use ps_report::{put, put_count, put_feed, put_log, put_named, put_number_or_dash};
use ua_base::NoMemory;

/// A writer's line: place and store of each data frame.
#[tactic(auto, unfolding(crate::specs::Texts::gateway_line))]
pub(crate) fn put_gateway(
    out: &mut Vec<u8>,
    name: &Name32,
    log: &[(u64, u64)],
) -> Result<(), NoMemory>
    ensures { OnOk result (out.new.items ≡ out.old.items ++ gateway_line name.now log.now) }
{
    put(out, b"gateway ")?;
    put(out, name.as_bytes())?;
    put_count(out, log.len() as u64)?;
    put_log(out, log)?;
    put_feed(out)
}

/// The number of a held message, the store that it has, and the version that this came with.
#[tactic(auto, unfolding(crate::specs::Texts::stored_text))]
pub(crate) fn put_stored(
    out: &mut Vec<u8>,
    number: Option<u64>,
    store: Option<u64>,
    version: Option<u64>,
) -> Result<(), NoMemory>
    ensures { OnOk result (out.new.items ≡ out.old.items ++ stored_text number store version) }
{
    put_if_known(out, b" number ", number)?;
    put_if_known(out, b" store ", store)?;
    put_if_known(out, b" version ", version)?;
    put(out, b":")
}

/// A word, and after it the number, or a dash where there is none.
fn put_if_known(out: &mut Vec<u8>, word: &[u8], number: Option<u64>) -> Result<(), NoMemory>
    ensures { OnOk result (out.new.items ≡ out.old.items ++ (word.now ++ number_or_dash number)) }
{
    put(out, word)?;
    put_number_or_dash(out, number)
}

/// What the gateway's link did: sends done, sends failed, and datagrams that came.
#[tactic(auto, unfolding(crate::specs::Texts::link_line))]
pub(crate) fn put_link(
    out: &mut Vec<u8>,
    sent: u64,
    failed: u64,
    received: u64,
) -> Result<(), NoMemory>
    ensures { OnOk result (out.new.items ≡ out.old.items ++ link_line sent failed received) }
{
    put(out, b"gateway ")?;
    put_counts(out, sent, failed, received)?;
    put_feed(out)
}

#[tactic(auto, unfolding(crate::specs::Texts::counts_text))]
fn put_counts(out: &mut Vec<u8>, sent: u64, failed: u64, received: u64) -> Result<(), NoMemory>
    ensures { OnOk result (out.new.items ≡ out.old.items ++ counts_text sent failed received) }
{
    put_named(out, b"link sent ", sent)?;
    put_named(out, b" failed ", failed)?;
    put_named(out, b" received ", received)
}
