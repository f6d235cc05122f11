//! Room for the messages of a group that isn't fixed.
ghost use Rattle.std.specs.Prelude.{◌≡◌, ◌==◌, ◌≤◌, ◌<◌, ◌*◌, ◌^◌, ◌||◌, nat_lt, slice_get};
ghost use Rattle.std.specs.Option.{option_map_or};
ghost use Rattle.ps_config.specs.Rooms.{is_fixed, field_front, largest_frame, chunk_room, datagrams_of, datagrams_in, lacks_room};

use crate::header::{header_size, signature_size};
use crate::parts::{GroupPart, WriterPart};
use config_tables::{Layout, Publisher};
use dataset_meta::Meta;
use fixed_layout::raw_size;

/// How many datagrams of a turn there may be.
const MOST_DATAGRAMS: u128 = 1024;

/// Whether a group that isn't fixed lacks room: for one byte in a chunk, or for a turn in which
/// each writer has its longest message, in 1,024 datagrams. A fixed group lacks none.
pub fn lacks_room(publisher: &Publisher, metas: &[Meta], group: &GroupPart) -> bool
    ensures { result ≡ lacks_room publisher.now metas.now group.now }
{
    !is_fixed(group.layout) && lacks_chunk_room(chunk_room(publisher, group), metas, group)
}

fn lacks_chunk_room(room: u32, metas: &[Meta], group: &GroupPart) -> bool
    ensures { result ≡ (room == 0 || nat_lt 1024 (datagrams_in room metas.now group.now.writer)) }
{
    room == 0 || MOST_DATAGRAMS < datagrams_in(room, metas, group.writer.as_slice())
}

/// Whether the messages of a group with this layout stand in slots.
pub fn is_fixed(layout: Layout) -> bool
    ensures { result ≡ is_fixed layout }
{
    matches!(layout, Layout::Fixed)
}

/// The bytes of a message that one chunk carries: what the largest datagram leaves beside the
/// header, 14 bytes of the chunk's own and the signature, and 0 where it leaves nothing.
pub fn chunk_room(publisher: &Publisher, group: &GroupPart) -> u32
    ensures { result ≡ chunk_room publisher.now group.now }
{
    let header = header_size(publisher, &group.header_settings(), true);
    group
        .max_size
        .saturating_sub(header + 14 + signature_size(group.security))
}

fn datagrams_in(room: u32, metas: &[Meta], writers: &[WriterPart]) -> u128
    requires { 0 < room }
    ensures { result ≡ datagrams_in room metas.now writers.now }
{
    let mut datagrams = 0;
    for writer in writers {
        datagrams += u128::from(datagrams_of(room, metas, writer));
    }
    datagrams
}

fn datagrams_of(room: u32, metas: &[Meta], writer: &WriterPart) -> u64
    requires { 0 < room }
    ensures count { result ≡ datagrams_of room metas.now writer.now }
    ensures bound { result < 2 ^ 33 }
{
    let size = largest_at(metas, writer.dataset);
    (u64::from(size) + u64::from(room - 1)) / u64::from(room)
}

fn largest_at(metas: &[Meta], set: u8) -> u32
    ensures size { result ≡ option_map_or largest_frame (slice_get metas.now set) 0 }
{
    match metas.get(usize::from(set)) {
        Some(meta) => largest_frame(meta),
        None => 0,
    }
}

/// The bytes of a data set's longest message, with 14 bytes of front.
pub fn largest_frame(meta: &Meta) -> u32
    ensures size { result ≡ largest_frame meta.now }
    ensures bound { result ≤ 1526 }
{
    14 + field_front(meta.quality()) * meta.fields().len() as u32 + raw_size(meta)
}

fn field_front(quality: bool) -> u32
    ensures front { result ≡ field_front quality }
    ensures bound { result ≤ 8 }
{
    if quality { 8 } else { 3 }
}
