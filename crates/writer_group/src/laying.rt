//! Laying out one datagram without its signature.
ghost use Rattle.std.specs.Prelude.{◌≡◌, ◌<◌, ◌≤◌, ◌+◌, ◌-◌, ◌*◌, ◌/◌, ◌∷◌, ◌++◌, ℕ, List, None, length, slice_range, take, drop};
ghost use Rattle.std.specs.Int.{w16, to_le_bytes};
ghost use Rattle.ua_binary.specs.Wire.{optional};
ghost use Rattle.ua_binary.specs.Writing.{laid, Puts};
ghost use Rattle.uadp_header.specs.Headers.{ChunkOf, header_in, ids_in};
ghost use Rattle.uadp_header.specs.Spelling.{AreIds, IsIds, IsSenders, ids_bytes};
ghost use Rattle.payload_layout.specs.Payloads.{sizes_bytes};
ghost use Rattle.chunker.specs.Spelling.{chunk_bytes, chunk_in};
ghost use Rattle.writer_group.specs.Holding.{HasRoom, IsWithin, all_bytes, cargo_in, chunk_by, frame_at, frames_by, header_text, listed, payload_by, payload_in, spelled_at};
ghost use Rattle.writer_group.specs.Leads.{BeginsWith, lead_bytes, lead_in, rest_bytes};
ghost use Rattle.writer_group.specs.Loading.{IsCargo, IsLoad, HasHeaderOf};

use crate::leads::Leads;
use crate::load::Load;
use crate::slotting::put_slots;
use crate::spelled::{Frames, SpelledFrame};
use chunker::{ChunkPayload, cut, write_chunk};
use fixed_layout::Slots;
use payload_layout::write_sizes;
use ua_binary::Pen;
use uadp_header::{Header, Ids, write_header};

/// What the datagrams of a turn carry, and how.
#[derive(Clone, Copy)]
pub(crate) struct Cargo<'a> {
    /// The bytes in which the frames are spelled.
    pub bytes: &'a [u8],
    pub frames: &'a Frames,
    /// The bytes of a frame that one chunk carries.
    pub room: u32,
    /// The slots of a fixed group.
    pub slots: &'a Slots,
    /// What the headers begin with.
    pub leads: &'a Leads,
}

impl<'a> Cargo<'a> {
    /// The ids in the header of the datagram with this load.
    pub fn ids(&self, load: Load) -> Ids<'a>
        requires cargo { IsCargo self.now }
        requires load { IsLoad (cargo_in self.now) load }
        ensures ids { ids_in result ≡ (payload_in (cargo_in self.now) load).0 }
        ensures are_ids { AreIds (ids_in result) }
        ensures is_ids { IsIds (ids_in result) }
    {
        match load {
            Load::Frames { first, count } => {
                let first = 2 * usize::from(first);
                Ids::List(&self.frames.ids()[first..first + 2 * usize::from(count)])
            }
            Load::Chunk { frame, .. } => chunk_ids(self.frame(frame).id),
            Load::Slots => Ids::None,
        }
    }

    fn frame(&self, index: u8) -> &SpelledFrame
        requires cargo { IsCargo self.now }
        requires within { index < length (listed self.now.frames.now) }
        ensures frame { spelled_at self.now.bytes.now result.now
            ≡ frame_at (cargo_in self.now) index }
        ensures within { IsWithin (length self.now.bytes.now) result.now }
    {
        &self.frames.list()[usize::from(index)]
    }

    /// Lays header and payload at a place of the free bytes. Tells where the payload begins, and where it ends.
    #[inline(always)]
    pub fn lay(&self, free: &mut [u8], at: usize, header: &Header<'_>, load: Load) -> (usize, usize)
        requires cargo { IsCargo self.now }
        requires load { IsLoad (cargo_in self.now) load }
        requires senders { IsSenders (header_in header.now) }
        requires header { HasHeaderOf (cargo_in self.now) load (header_text header.now) }
        requires lead { BeginsWith (lead_in self.now.leads.now load) (header_in header.now) }
        requires room { at + length (header_text header.now)
            + length (payload_by self.now load) ≤ length free.old }
        ensures laid { free.new ≡ laid free.old at (header_text header.now
            ++ payload_by self.now load) }
        ensures payload { result.0 ≡ at + length (header_text header.now) }
        ensures end { result.1 ≡ result.0 + length (payload_by self.now load) }
    {
        let mut pen = Pen { bytes: free, at };
        let payload = self.put_datagram(&mut pen, header, load);
        (payload, pen.at)
    }

    /// Writes header and payload, and tells where the payload begins.
    #[inline(always)]
    fn put_datagram(&self, pen: &mut Pen<'_>, header: &Header<'_>, load: Load) -> usize
        requires cargo { IsCargo self.now }
        requires load { IsLoad (cargo_in self.now) load }
        requires senders { IsSenders (header_in header.now) }
        requires header { HasHeaderOf (cargo_in self.now) load (header_text header.now) }
        requires lead { BeginsWith (lead_in self.now.leads.now load) (header_in header.now) }
        requires room { HasRoom pen.old (header_text header.now) (payload_by self.now load) }
        ensures puts { Puts pen.old pen.new (header_text header.now
            ++ payload_by self.now load) }
        ensures payload { result ≡ pen.old.at + length (header_text header.now) }
    {
        let start = pen.at;
        put_header(pen, self.leads.of(load), header);
        let payload = pen.at;
        self.put(pen, start, load);
        payload
    }

    /// Writes the payload of a datagram that begins at `start`.
    #[inline(always)]
    fn put(&self, pen: &mut Pen<'_>, start: usize, load: Load)
        requires cargo { IsCargo self.now }
        requires load { IsLoad (cargo_in self.now) load }
        requires header { HasHeaderOf (cargo_in self.now) load
            (take (pen.old.at - start) (drop start pen.old.bytes.now)) }
        requires start { start ≤ pen.old.at }
        requires room { pen.old.at + length (payload_by self.now load) ≤ length pen.old.bytes.now }
        ensures { Puts pen.old pen.new (payload_by self.now load) }
    {
        match load {
            Load::Frames { first, count } => self.put_frames(pen, first, count),
            Load::Chunk { frame, index } => self.put_chunk(pen, frame, index),
            Load::Slots => put_slots(pen, start, self.slots, self.bytes, self.frames),
        }
    }

    /// Writes the payload of frames in one datagram.
    #[inline(always)]
    fn put_frames(&self, pen: &mut Pen<'_>, first: u8, count: u8)
        requires cargo { IsCargo self.now }
        requires some { 0 < count }
        requires within { first + count ≤ length (listed self.now.frames.now) }
        requires few { count ≤ 16 }
        requires room { pen.old.at + length (frames_by self.now first count)
            ≤ length pen.old.bytes.now }
        ensures { Puts pen.old pen.new (frames_by self.now first count) }
    {
        let first = usize::from(first);
        let end = first + usize::from(count);
        put_sizes(pen, &self.frames.sizes()[first..end]);
        let (start, behind) = self.range(first, usize::from(count));
        pen.put_bytes(&self.bytes[start..behind]);
    }

    /// Where so many frames begin and end, from the one with this index on: they stand one after another.
    fn range(&self, first: usize, count: usize) -> (usize, usize)
        requires cargo { IsCargo self.now }
        requires some { 0 < count }
        requires within { first + count ≤ length (listed self.now.frames.now) }
        ensures bytes { all_bytes self.now.bytes.now
            (take count (drop first (listed self.now.frames.now)))
            ≡ slice_range self.now.bytes.now result.0 result.1 }
        ensures rising { result.0 ≤ result.1 }
        ensures within { result.1 ≤ length self.now.bytes.now }
    {
        let list = self.frames.list();
        (list[first].start, list[first + count - 1].end)
    }

    /// Writes the payload of a chunk. A call, as that of slots, so that the loop over datagrams stays short.
    #[inline(never)]
    fn put_chunk(&self, pen: &mut Pen<'_>, frame: u8, index: u32)
        requires cargo { IsCargo self.now }
        requires frame { frame < length (listed self.now.frames.now) }
        requires some { 1 ≤ self.now.room }
        requires index { index * self.now.room < length (frame_at (cargo_in self.now) frame).bytes }
        requires room { pen.old.at + length (chunk_by self.now frame index)
            ≤ length pen.old.bytes.now }
        ensures { Puts pen.old pen.new (chunk_by self.now frame index) }
    {
        let frame = self.frame(frame);
        let message = &self.bytes[frame.start..frame.end];
        let (offset, len) = cut(message.len() as u32, self.room, index);
        let chunk = ChunkPayload {
            number: frame.number,
            offset,
            total: message.len() as u32,
            data: &message[offset as usize..(offset + len) as usize],
        };
        put_chunk_payload(pen, &chunk);
    }
}

/// The id in the header of a chunk.
fn chunk_ids<'a>(id: u16) -> Ids<'a>
    ensures ids { ids_in result ≡ ChunkOf id }
    ensures is_ids { IsIds (ids_in result) }
{
    Ids::Chunk(id)
}

/// Writes a header. Without security it begins with what is kept of the group's headers.
#[inline(always)]
fn put_header(pen: &mut Pen<'_>, lead: &[u8], header: &Header<'_>)
    requires senders { IsSenders (header_in header.now) }
    requires lead { BeginsWith lead.now (header_in header.now) }
    requires room { pen.old.at + length (header_text header.now)
        ≤ length pen.old.bytes.now }
    ensures { Puts pen.old pen.new (header_text header.now) }
{
    match header.security {
        None => put_led(pen, lead, header),
        Some(_) => put_whole(pen, header),
    }
}

/// Writes a header that begins with these bytes.
#[inline(always)]
fn put_led(pen: &mut Pen<'_>, lead: &[u8], header: &Header<'_>)
    requires ids { AreIds (ids_in header.now.ids) }
    requires unsecured { (header_in header.now).security ≡ None }
    requires lead { lead.now ≡ lead_bytes (header_in header.now) }
    requires room { pen.old.at + length (header_text header.now)
        ≤ length pen.old.bytes.now }
    ensures { Puts pen.old pen.new (header_text header.now) }
{
    pen.put_bytes(lead);
    put_rest(pen, header);
}

/// Writes the numbers and the ids of a header.
#[inline(always)]
pub(crate) fn put_rest(pen: &mut Pen<'_>, header: &Header<'_>)
    requires ids { AreIds (ids_in header.now.ids) }
    requires room { pen.old.at + length (rest_bytes (header_in header.now))
        ≤ length pen.old.bytes.now }
    ensures { Puts pen.old pen.new (rest_bytes (header_in header.now)) }
{
    put_number_if(pen, header.message_number);
    put_number_if(pen, header.sequence);
    put_ids(pen, &header.ids);
}

#[inline(always)]
fn put_number_if(pen: &mut Pen<'_>, number: Option<u16>)
    requires { pen.old.at + length (optional (to_le_bytes w16) number) ≤ length pen.old.bytes.now }
    ensures { Puts pen.old pen.new (optional (to_le_bytes w16) number) }
{
    if let Some(number) = number {
        pen.put_u16(number);
    }
}

/// A count and the ids, or the id of a chunk's writer.
#[inline(always)]
fn put_ids(pen: &mut Pen<'_>, ids: &Ids<'_>)
    requires ids { AreIds (ids_in ids.now) }
    requires room { pen.old.at + length (ids_bytes (ids_in ids.now)) ≤ length pen.old.bytes.now }
    ensures { Puts pen.old pen.new (ids_bytes (ids_in ids.now)) }
{
    match ids {
        Ids::None => {}
        Ids::List(bytes) => put_counted(pen, bytes),
        Ids::Chunk(id) => pen.put_u16(*id),
    }
}

#[inline(always)]
fn put_counted(pen: &mut Pen<'_>, ids: &[u8])
    requires few { length ids.now ≤ 510 }
    requires room { pen.old.at + length ((length ids.now / 2) ∷ ids.now)
        ≤ length pen.old.bytes.now }
    ensures { Puts pen.old pen.new ((length ids.now / 2) ∷ ids.now) }
{
    pen.put_u8((ids.len() / 2) as u8);
    put_few(pen, ids);
}

/// Writes the bytes: those of one id in one store.
#[inline(always)]
fn put_few(pen: &mut Pen<'_>, bytes: &[u8])
    requires { pen.old.at + length bytes.now ≤ length pen.old.bytes.now }
    ensures { Puts pen.old pen.new bytes.now }
{
    match bytes.len() {
        2 => put_two(pen, bytes),
        _ => pen.put_bytes(bytes),
    }
}

#[inline(always)]
fn put_two(pen: &mut Pen<'_>, bytes: &[u8])
    requires two { length bytes.now ≡ 2 }
    requires room { pen.old.at + length bytes.now ≤ length pen.old.bytes.now }
    ensures { Puts pen.old pen.new bytes.now }
{
    let Some((bytes, _)) = bytes.split_first_chunk::<2>() else {
        unreachable!();
    };
    let bytes = *bytes;
    pen.put_bytes(&bytes);
}

/// Writes a header, all of it.
pub(crate) fn put_whole(pen: &mut Pen<'_>, header: &Header<'_>)
    requires senders { IsSenders (header_in header.now) }
    requires room { pen.old.at + length (header_text header.now)
        ≤ length pen.old.bytes.now }
    ensures { Puts pen.old pen.new (header_text header.now) }
{
    match write_header(pen, header) {
        Ok(()) => {}
        Err(_) => unreachable!(),
    }
}

fn put_sizes(pen: &mut Pen<'_>, sizes: &[u16])
    requires few { length sizes.now ≤ 255 }
    requires room { pen.old.at + length (sizes_bytes sizes.now) ≤ length pen.old.bytes.now }
    ensures { Puts pen.old pen.new (sizes_bytes sizes.now) }
{
    match write_sizes(pen, sizes) {
        Ok(()) => {}
        Err(_) => unreachable!(),
    }
}

fn put_chunk_payload(pen: &mut Pen<'_>, chunk: &ChunkPayload<'_>)
    requires short { length chunk.now.data.now < 2147483648 }
    requires room { pen.old.at + length (chunk_bytes (chunk_in chunk.now))
        ≤ length pen.old.bytes.now }
    ensures { Puts pen.old pen.new (chunk_bytes (chunk_in chunk.now)) }
{
    match write_chunk(pen, chunk) {
        Ok(()) => {}
        Err(_) => unreachable!(),
    }
}
