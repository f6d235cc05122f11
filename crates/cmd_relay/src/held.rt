//! What a reader of the gateway holds, or why it waits.
ghost use Rattle.std.specs.Prelude.{◌≡◌, ◌++◌, OnOk};
ghost use Rattle.dataset_reader.specs.Reader.{IsReaderOf, kept_by};
ghost use Rattle.cmd_relay.specs.Texts.{relayed_as, relayed_line};

use crate::put::put_stored;
use dataset_meta::{Meta, Name32};
use dataset_reader::Reader;
use ps_report::{put, put_feed, put_row, put_waits};
use ua_base::NoMemory;

/// The store that a reader's message has, and the version that this came with, as far as they are known.
#[derive(Clone, Copy, Debug)]
pub(crate) struct Stored {
    pub(crate) store: Option<u64>,
    pub(crate) version: Option<u64>,
}

/// The line of a reader.
#[tactic(auto, unfolding(crate::specs::Texts::relayed_line))]
pub(crate) fn put_relayed(
    out: &mut Vec<u8>,
    name: &Name32,
    meta: &Meta,
    reader: &Reader,
    stored: &Stored,
) -> Result<(), NoMemory>
    requires { IsReaderOf meta.now reader.now }
    ensures { OnOk result (out.new.items ≡ out.old.items
        ++ relayed_line name.now meta.now.fields (kept_by meta.now.fields reader.now)
        stored.now.store stored.now.version) }
{
    put(out, b"relayed ")?;
    put(out, name.as_bytes())?;
    put_held(out, meta, reader, stored)?;
    put_feed(out)
}

/// What the reader holds, or why it waits.
fn put_held(
    out: &mut Vec<u8>,
    meta: &Meta,
    reader: &Reader,
    stored: &Stored,
) -> Result<(), NoMemory>
    requires { IsReaderOf meta.now reader.now }
    ensures { OnOk result (out.new.items ≡ out.old.items
        ++ relayed_as meta.now.fields (kept_by meta.now.fields reader.now)
        stored.now.store stored.now.version) }
{
    match reader.row() {
        None => put_waits(out, reader.why()),
        Some(row) => {
            let number = wide(reader.number());
            put_stored(out, number, stored.store, stored.version)?;
            put_row(out, meta, row)
        }
    }
}

fn wide(number: Option<u16>) -> Option<u64>
    ensures { result ≡ number }
{
    match number {
        Some(number) => Some(u64::from(number)),
        None => None,
    }
}
