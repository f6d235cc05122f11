//! The memory that turns need.
ghost use Rattle.std.specs.Prelude.{◌≡◌, ◌<◌, ◌≤◌, ◌^◌, false, length, slice_get};
ghost use Rattle.std.specs.Option.{option_map_or};
ghost use Rattle.ps_config.specs.Rooms.{chunk_room, datagrams_in, datagrams_of, is_fixed, largest_frame};
ghost use Rattle.writer_group.specs.Needs.{datagrams_need, frames_need, group_need};

use crate::load::Load;
use crate::posting::Range;
use dataset_meta::Meta;
use ps_config::{Config, GroupPart, WriterPart, chunk_room, is_fixed, largest_frame};
use std::mem::size_of;

/// The bytes of a turn's frames at most: 16 of them.
const FRAMES_BYTES: u32 = 32_768;

/// The bytes of a turn's datagrams at most.
const DATAGRAMS_BYTES: u32 = 229_376;

/// How many datagrams a turn makes at most.
const MOST_DATAGRAMS: u32 = 1024;

/// What is kept of each datagram beside its bytes: what it carries, and where it stands.
const KEPT_BYTES: u64 = 24;

const _: () = prove!(size_of::<Load>() + size_of::<Range>() == 24);

/// What the turns of a configuration's groups need at most, for frames and datagrams.
#[derive(Clone, Copy, Debug, PartialEq, Eq)]
pub struct Need {
    /// The bytes for the frames of a turn.
    pub frames: u32,
    /// The bytes for its datagrams.
    pub bytes: u32,
    /// How many datagrams it makes.
    pub datagrams: u32,
}

impl Need {
    ghost use Rattle.writer_group.specs.Needs.{larger, largest_need, need_of, reserved_bytes};
    ghost use Rattle.writer_group.specs.Standing.{IsGood};

    /// That of this configuration: of each number the largest among its groups, since all groups use the same memory.
    pub fn of(config: &Config) -> Need
        requires good { IsGood config.now }
        ensures { result ≡ need_of config.now }
    {
        let mut most = Need {
            frames: 0,
            bytes: 0,
            datagrams: 0,
        };
        let groups = config.group.as_slice();
        for group in groups {
            most = most.larger(need_of_group(config, group));
        }
        most
    }

    /// That of the largest turn of any group of any configuration.
    pub fn largest() -> Need
        ensures { result ≡ largest_need }
    {
        Need {
            frames: FRAMES_BYTES,
            bytes: DATAGRAMS_BYTES,
            datagrams: MOST_DATAGRAMS,
        }
    }

    /// The bytes that `Datagrams` takes for it, with what it keeps of each datagram.
    pub fn reserved_bytes(&self) -> u64
        ensures { result ≡ reserved_bytes self.now }
    {
        u64::from(self.frames) + u64::from(self.bytes) + KEPT_BYTES * u64::from(self.datagrams)
    }

    /// Of each number the larger one.
    fn larger(self, other: Need) -> Need
        ensures { result ≡ larger self other }
    {
        Need {
            frames: self.frames.max(other.frames),
            bytes: self.bytes.max(other.bytes),
            datagrams: self.datagrams.max(other.datagrams),
        }
    }
}

/// That of one group.
fn need_of_group(config: &Config, group: &GroupPart) -> Need
    requires room { is_fixed group.now.layout ≡ false
        → 1 ≤ chunk_room config.now.publisher.id group.now }
    requires few { length group.now.writer ≤ 16 }
    requires max_size { group.now.max_size ≤ 65000 }
    ensures { result ≡ group_need config.now.publisher.id config.now.dataset group.now }
{
    let datagrams = datagrams_of_group(config, group);
    Need {
        frames: frames_of_group(group),
        bytes: (datagrams * group.max_size).min(DATAGRAMS_BYTES),
        datagrams,
    }
}

/// The bytes of a group's frames.
fn frames_of_group(group: &GroupPart) -> u32
    requires { length group.now.writer ≤ 16 }
    ensures { result ≡ frames_need group.now }
{
    (2048 * group.writer.as_slice().len() as u32).min(FRAMES_BYTES)
}

/// How many datagrams a turn of a group makes.
fn datagrams_of_group(config: &Config, group: &GroupPart) -> u32
    requires room { is_fixed group.now.layout ≡ false
        → 1 ≤ chunk_room config.now.publisher.id group.now }
    requires few { length group.now.writer ≤ 16 }
    ensures need { result ≡ datagrams_need config.now.publisher.id config.now.dataset group.now }
    ensures bound { result ≤ 1024 }
{
    if is_fixed(group.layout) {
        return 1;
    }
    let room = chunk_room(&config.publisher.id, group);
    let metas = config.dataset.as_slice();
    datagrams_in(room, metas, group.writer.as_slice()).min(u64::from(MOST_DATAGRAMS)) as u32
}

/// How many datagrams the longest frames of writers take, with this room in each.
fn datagrams_in(room: u32, metas: &[Meta], writers: &[WriterPart]) -> u64
    requires room { 1 ≤ room }
    requires few { length writers.now ≤ 16 }
    ensures { result ≡ datagrams_in room metas.now writers.now }
{
    let mut datagrams = 0;
    for writer in writers {
        datagrams += datagrams_of(room, metas, writer);
    }
    datagrams
}

/// How many datagrams a writer's longest frame takes.
fn datagrams_of(room: u32, metas: &[Meta], writer: &WriterPart) -> u64
    requires { 1 ≤ room }
    ensures count { result ≡ datagrams_of room metas.now writer.now }
    ensures bound { result < 2 ^ 33 }
{
    let size = largest_at(metas, writer.dataset);
    (u64::from(size) + u64::from(room - 1)) / u64::from(room)
}

/// The longest frame of the data set with this index.
fn largest_at(metas: &[Meta], set: u8) -> u32
    ensures { result ≡ option_map_or largest_frame (slice_get metas.now set) 0 }
{
    match metas.get(usize::from(set)) {
        Some(meta) => largest_frame(meta),
        None => 0,
    }
}
