//! Which datagrams a turn makes.
ghost use Rattle.std.specs.Prelude.{◌≡◌, ◌<◌, ◌≤◌, ◌+◌, ◌++◌, ◌∷◌, [], ℕ, true, false, length, slice_index_or, vec_len, vec_capacity};
ghost use Rattle.payload_layout.specs.declared.packing.Pack.{Pack as AnyPack};
ghost use Rattle.ps_config.specs.Rooms.{is_fixed};
ghost use Rattle.writer_group.specs.Making.{loads_in, planned_in};
ghost use Rattle.writer_group.specs.Holding.{listed_sizes};
ghost use Rattle.writer_group.specs.Planning.{chunk_count, chunk_loads, pack_loads_of, planned};

use crate::load::Load;
use crate::settings::Rooms;
use crate::spelled::Frames;
use payload_layout::{Pack, Packs, plan};
use ps_config::{GroupPart, Layout};

/// Pushes what each datagram of a turn carries, whose frames are spelled.
pub(crate) fn plan_loads(group: &GroupPart, rooms: Rooms, frames: &Frames, loads: &mut Vec<Load>)
    requires room { is_fixed group.now.layout ≡ false → 1 ≤ rooms.chunk }
    requires few { length (listed_sizes frames.now) ≤ 16 }
    requires empty { loads.old.items ≡ [] }
    requires left { length (loads_in group.now.layout rooms group.now (listed_sizes frames.now))
        ≤ vec_capacity loads.old }
    ensures planned { loads.new.items
        ≡ loads_in group.now.layout rooms group.now (listed_sizes frames.now) }
    ensures capacity { vec_capacity loads.old ≤ vec_capacity loads.new }
{
    match group.layout {
        Layout::Dynamic => plan_frames(frames.sizes(), rooms, loads),
        Layout::Fixed => {
            if !group.writer.as_slice().is_empty() {
                push_load(Load::Slots, loads);
            }
        }
    }
}

/// Pushes what each datagram of a dynamic turn carries. Without frames nothing is planned, and little for one that fits.
fn plan_frames(sizes: &[u16], rooms: Rooms, loads: &mut Vec<Load>)
    requires room { 1 ≤ rooms.chunk }
    requires few { length sizes.now ≤ 16 }
    requires empty { loads.old.items ≡ [] }
    requires left { length (planned_in rooms sizes.now) ≤ vec_capacity loads.old }
    ensures planned { loads.new.items ≡ planned_in rooms sizes.now }
    ensures capacity { vec_capacity loads.old ≤ vec_capacity loads.new }
{
    if sizes.is_empty() {
        return;
    }
    if fits_alone(sizes, rooms.frame) {
        push_load(Load::Frames { first: 0, count: 1 }, loads);
        return;
    }
    plan_dynamic(sizes, rooms, loads);
}

/// Whether it is one frame, which fits a datagram.
fn fits_alone(sizes: &[u16], frame_room: u32) -> bool
    ensures { result ≡ true → (chunk_room : ℕ)
        → planned frame_room chunk_room sizes.now ≡ Load.Frames 0 1 ∷ [] }
{
    sizes.len() == 1 && u32::from(sizes[0]) <= frame_room
}

/// Pushes what each datagram of a dynamic turn carries, whose frames have these sizes.
fn plan_dynamic(sizes: &[u16], rooms: Rooms, loads: &mut Vec<Load>)
    requires room { 1 ≤ rooms.chunk }
    requires few { length sizes.now ≤ 16 }
    requires empty { loads.old.items ≡ [] }
    requires left { length (planned_in rooms sizes.now) ≤ vec_capacity loads.old }
    ensures planned { loads.new.items ≡ planned_in rooms sizes.now }
    ensures capacity { vec_capacity loads.old ≤ vec_capacity loads.new }
{
    let mut packs = Packs::new();
    plan(sizes, rooms.frame, &mut packs);
    let mut first = 0;
    for index in 0..packs.len() {
        let pack = pack_at(&packs, index);
        push_pack(pack, first, sizes, rooms.chunk, loads);
        first += pack.count;
    }
}

/// The pack with this index.
fn pack_at(packs: &Packs, index: usize) -> Pack
    requires { index < length packs.now.items }
    ensures { (other : AnyPack) → result ≡ slice_index_or packs.now.items index other }
{
    packs.as_slice()[index]
}

/// Pushes what the datagrams of a pack carry, whose first frame has this index.
fn push_pack(pack: Pack, first: u8, sizes: &[u16], room: u32, loads: &mut Vec<Load>)
    requires room { 1 ≤ room }
    requires first { first < length sizes.now }
    requires left { vec_len loads.old + length (pack_loads_of room first pack sizes.now)
        ≤ vec_capacity loads.old }
    ensures pushed { loads.new.items ≡ loads.old.items ++ pack_loads_of room first pack sizes.now }
    ensures capacity { vec_capacity loads.old ≤ vec_capacity loads.new }
{
    if pack.chunked {
        push_chunks(first, sizes[usize::from(first)], room, loads);
    } else {
        push_load(
            Load::Frames {
                first,
                count: pack.count,
            },
            loads,
        );
    }
}

/// Pushes the chunks of a frame of this size.
fn push_chunks(frame: u8, size: u16, room: u32, loads: &mut Vec<Load>)
    requires room { 1 ≤ room }
    requires left { vec_len loads.old + chunk_count room size ≤ vec_capacity loads.old }
    ensures pushed { loads.new.items ≡ loads.old.items ++ chunk_loads room frame size }
    ensures capacity { vec_capacity loads.old ≤ vec_capacity loads.new }
{
    let count = chunks(size, room);
    for index in 0..count {
        push_load(Load::Chunk { frame, index }, loads);
    }
}

/// How many chunks a frame of this size has.
fn chunks(size: u16, room: u32) -> u32
    requires { 1 ≤ room }
    ensures { result ≡ chunk_count room size }
{
    ((u64::from(size) + u64::from(room) - 1) / u64::from(room)) as u32
}

/// Pushes a load that there is room for.
fn push_load(load: Load, loads: &mut Vec<Load>)
    requires { vec_len loads.old < vec_capacity loads.old }
    ensures pushed { loads.new.items ≡ loads.old.items ++ load ∷ [] }
    ensures capacity { vec_capacity loads.old ≤ vec_capacity loads.new }
{
    loads.push_reserved(load);
}
