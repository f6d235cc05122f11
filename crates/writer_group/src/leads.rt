//! What the headers of a group's datagrams begin with. It stays from turn to turn, and is kept as bytes.
ghost use Rattle.std.specs.Prelude.{◌≡◌, ◌≤◌, length};
ghost use Rattle.ua_binary.specs.Writing.{laid};
ghost use Rattle.uadp_header.specs.Headers.{header_in, ids_in, publisher_in};
ghost use Rattle.uadp_header.specs.Spelling.{AreIds, IsIds, IsSenders, ids_len};
ghost use Rattle.writer_group.specs.Holding.{CanBeWritten, header_text, settings_in};
ghost use Rattle.writer_group.specs.Leads.{AreLeadsOf, lead_in, lead_of, lead_text, rest_bytes};

use crate::header_parts::HeaderParts;
use crate::laying::{put_rest, put_whole};
use crate::lead::{LEAD_BYTES, Lead};
use crate::load::Load;
use ua_binary::Pen;
use uadp_header::{Header, Ids};

/// What the headers of datagrams with each kind of load begin with.
#[derive(Drop)]
pub(crate) struct Leads {
    listed: Lead,
    chunk: Lead,
    slots: Lead,
}

impl Leads {
    /// Those of the headers that have these parts.
    pub fn new<'a>(parts: &'a HeaderParts<'a>) -> Leads
        requires { CanBeWritten (publisher_in parts.now.publisher) }
        ensures { AreLeadsOf (publisher_in parts.now.publisher) (settings_in parts.now) result }
    {
        Leads {
            listed: lead_of(parts, Ids::List(&[])),
            chunk: lead_of(parts, Ids::Chunk(0)),
            slots: lead_of(parts, Ids::None),
        }
    }

    /// What the header of the datagram with this load begins with, where it has no security.
    #[inline(always)]
    pub fn of(&self, load: Load) -> &[u8]
        ensures { result.now ≡ lead_in self.now load }
    {
        match load {
            Load::Frames { .. } => self.listed.text(),
            Load::Chunk { .. } => self.chunk.text(),
            Load::Slots => self.slots.text(),
        }
    }
}

/// Writes the group's first header with these ids, and keeps what stands before the numbers.
fn lead_of<'a>(parts: &'a HeaderParts<'a>, ids: Ids<'a>) -> Lead
    requires publisher { CanBeWritten (publisher_in parts.now.publisher) }
    requires ids { AreIds (ids_in ids) }
    requires is_ids { IsIds (ids_in ids) }
    requires few { ids_len (ids_in ids) ≤ 2 }
    ensures { lead_text result
        ≡ lead_of (publisher_in parts.now.publisher) (settings_in parts.now) (ids_in ids.entry) }
{
    let header = parts.header(0, ids, None);
    let mut bytes = [0; LEAD_BYTES];
    let mut rest = [0; LEAD_BYTES];
    let end = lay_whole(&mut bytes, &header);
    let len = end - lay_rest(&mut rest, &header);
    Lead { bytes, len }
}

/// Writes a header to the front of the bytes, and tells where it ends.
fn lay_whole(bytes: &mut [u8], header: &Header<'_>) -> usize
    requires senders { IsSenders (header_in header.now) }
    requires room { length (header_text header.now) ≤ length bytes.old }
    ensures laid { bytes.new ≡ laid bytes.old 0 (header_text header.now) }
    ensures end { result ≡ length (header_text header.now) }
{
    let mut pen = Pen { bytes, at: 0 };
    put_whole(&mut pen, header);
    pen.at
}

/// Writes what stands after the lead of a header to the front of the bytes, and tells where it ends.
fn lay_rest(bytes: &mut [u8], header: &Header<'_>) -> usize
    requires ids { AreIds (ids_in header.now.ids) }
    requires room { length (rest_bytes (header_in header.now)) ≤ length bytes.old }
    ensures end { result ≡ length (rest_bytes (header_in header.now)) }
{
    let mut pen = Pen { bytes, at: 0 };
    put_rest(&mut pen, header);
    pen.at
}
