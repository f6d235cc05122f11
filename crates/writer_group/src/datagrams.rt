//! The datagrams of a turn.
ghost use Rattle.std.specs.Prelude.{◌≡◌, ◌<◌, ◌≤◌, [], IfOk, length, slice_index_or};
ghost use Rattle.writer_group.specs.Limits.{datagrams_bytes, frames_bytes};
ghost use Rattle.writer_group.specs.Holding.{AreSpelledIn, frames_at};
ghost use Rattle.writer_group.specs.Standing.{AreWithin, HasRoom, HasRoomOf, IsGood, IsReserved, KeepsRoom, datagrams_in};

use crate::load::Load;
use crate::need::Need;
use crate::posting::Range;
use crate::spelled::Frames;
use ps_config::Config;
use std::alloc::Global;
use ua_base::NoMemory;

/// The datagrams of a group's last turn. All groups of a configuration use it, and no turn takes memory.
#[derive(Drop)]
pub struct Datagrams {
    // The bytes of the turn's frames, and where they stand.
    pub(crate) spelled: Vec<u8>,
    pub(crate) frames: Frames,
    // The bytes of its datagrams.
    pub(crate) bytes: Vec<u8>,
    // What each datagram carries.
    pub(crate) loads: Vec<Load>,
    // Where each datagram stands.
    pub(crate) ranges: Vec<Range>,
}

impl Datagrams {
    /// Reserves for the largest turn of any group of any configuration, which makes at most 1,024 datagrams.
    pub fn new(alloc: Global) -> Result<Datagrams, NoMemory>
        ensures reserved { IfOk result IsReserved }
        ensures none { IfOk result (λ out. datagrams_in out ≡ []) }
    {
        Datagrams::with_room(alloc, Need::largest())
    }

    /// Reserves for the largest turn of the configuration's groups (`Need::of`).
    pub fn for_config(alloc: Global, config: &Config) -> Result<Datagrams, NoMemory>
        requires good { IsGood config.now }
        ensures room { IfOk result (HasRoom config.now) }
        ensures none { IfOk result (λ out. datagrams_in out ≡ []) }
    {
        Datagrams::with_room(alloc, Need::of(config))
    }

    /// Reserves so much.
    fn with_room(alloc: Global, need: Need) -> Result<Datagrams, NoMemory>
        requires frames { need.frames ≤ frames_bytes }
        requires bytes { need.bytes ≤ datagrams_bytes }
        ensures room { IfOk result (HasRoomOf need) }
        ensures none { IfOk result (λ out. datagrams_in out ≡ []) }
    {
        let frames_bytes = need.frames as usize;
        let datagrams_bytes = need.bytes as usize;
        let datagrams = need.datagrams as usize;
        Ok(Datagrams {
            spelled: vec![in alloc; 0u8; frames_bytes]?,
            frames: Frames::new(),
            bytes: vec![in alloc; 0u8; datagrams_bytes]?,
            loads: Vec::with_capacity(alloc, datagrams)?,
            ranges: Vec::with_capacity(alloc, datagrams)?,
        })
    }

    /// The datagram with this index, from 0, of the last turn.
    pub fn get(&self, index: u32) -> &[u8]
        requires within { AreWithin self.now }
        requires index { index < length (datagrams_in self.now) }
        ensures is { result.now ≡ slice_index_or (datagrams_in self.now) index [] }
        ensures short { length result.now ≤ datagrams_bytes }
    {
        let range = self.ranges[index as usize];
        &self.bytes[range.start..range.end]
    }

    /// Forgets the last turn: no datagram is left, until the next one.
    pub fn clear(&mut self)
        requires { IsReserved self.old }
        ensures none { datagrams_in self.new ≡ [] }
        ensures reserved { IsReserved self.new }
    {
        self.forget();
    }

    /// Forgets the last turn, with its frames and what its datagrams carried.
    pub(crate) fn forget(&mut self)
        ensures room { KeepsRoom self.old self.new }
        ensures rest { self.new.spelled ≡ self.old.spelled }
        ensures frames { AreSpelledIn self.new.spelled.items self.new.frames }
        ensures none { frames_at self.new.spelled.items self.new.frames ≡ [] }
        ensures loads { self.new.loads.items ≡ [] }
        ensures ranges { self.new.ranges.items ≡ [] }
    {
        self.frames.clear();
        self.loads.clear();
        self.ranges.clear();
    }
}
