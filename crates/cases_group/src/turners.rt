//! A group of writers with the turns that it may still have.
ghost use Rattle.std.specs.Prelude.{◌≡◌, ◌≢◌, ◌<◌, ◌≤◌, All, IsTrue, length, slice_index_or};
ghost use Rattle.ps_config.specs.Headers.{is_secured};
ghost use Rattle.writer_group.specs.Standing.{IsReserved, datagrams_in};

use crate::shown::copied;
use case_lines::{Answer, LineFault, Told};
use dataset_meta::Meta;
use message_guard::Sender;
use ps_config::{Config, GroupPart, Security, is_fixed, lacks_room};
use std::alloc::Global;
use writer_group::{Datagrams, Group, Sampled};

/// How many turns a group may have.
const TURNS: u32 = 64;

/// A group of writers of a configuration.
#[derive(Drop)]
pub struct Turner<'c> {
    part: &'c GroupPart,
    group: Group,
    left: u32,
}

/// When a group has its turn, and which of its writers are on.
#[derive(Clone, Copy)]
pub struct Turning<'a> {
    pub now: u64,
    pub on: &'a [bool],
    pub closing: bool,
}

impl<'c> Turner<'c> {
    ghost use Rattle.std.specs.Prelude.{◌≡◌, ◌<◌, IfOk, length};
    ghost use Rattle.message_guard.specs.Senders.{IsSender};
    ghost use Rattle.writer_group.specs.Standing.{IsGood, IsReserved};
    ghost use Rattle.cases_group.specs.Kept.{AreRows, GrowsAt, IsTurner};

    /// The group before its first turn.
    pub fn new(
        alloc: Global,
        config: &'c Config,
        _metas: &[Meta],
        index: u8,
    ) -> Result<Turner<'c>, LineFault>
        requires good { IsGood config.now }
        requires metas { _metas.now ≡ config.now.dataset }
        requires index { index < length config.now.group }
        ensures { IfOk result (IsTurner config.now _metas.now) }
    {
        let Ok(group) = Group::new(alloc, config, index, TURNS) else {
            return Err(LineFault::Memory);
        };
        Ok(Turner {
            part: part_at(config, index),
            group,
            left: TURNS,
        })
    }

    /// The key group, where the group is secured.
    pub fn keygroup(&self) -> Option<u8> {
        self.part.keygroup
    }

    /// A turn of an unsecured group. Its datagrams are put behind those that are kept, and the answer is how many they are.
    pub fn turn(
        &mut self,
        alloc: Global,
        config: &Config,
        metas: &[Meta],
        rows: &[Sampled],
        turning: &Turning<'_>,
        out: &mut Datagrams,
        kept: &mut Vec<Vec<u8>>,
    ) -> Result<u32, LineFault>
        requires turner { IsTurner config.now metas.now self.old }
        requires rows { AreRows metas.now rows.now }
        requires reserved { IsReserved out.old }
        ensures turner { IsTurner config.now metas.now self.new }
        ensures reserved { IsReserved out.new }
    {
        if is_secured(self.part.security) || !may_turn(self.part, self.left, turning.on) {
            return Err(LineFault::Condition);
        }
        let count = self.group.tick(
            config,
            metas,
            turning.now,
            rows,
            turning.on,
            None,
            turning.closing,
            out,
        );
        self.left -= 1;
        keep(alloc, out, count, kept)
    }

    /// A turn of a secured group, whose sender this is.
    pub fn secured_turn(
        &mut self,
        alloc: Global,
        config: &Config,
        metas: &[Meta],
        rows: &[Sampled],
        turning: &Turning<'_>,
        sender: &mut Sender,
        out: &mut Datagrams,
        kept: &mut Vec<Vec<u8>>,
    ) -> Result<u32, LineFault>
        requires turner { IsTurner config.now metas.now self.old }
        requires rows { AreRows metas.now rows.now }
        requires sender { IsSender sender.old }
        requires reserved { IsReserved out.old }
        ensures turner { IsTurner config.now metas.now self.new }
        ensures sender { IsSender sender.new }
        ensures reserved { IsReserved out.new }
    {
        if sender.spent()
            || !is_secured(self.part.security)
            || !may_turn(self.part, self.left, turning.on)
        {
            return Err(LineFault::Condition);
        }
        let count = self.group.tick(
            config,
            metas,
            turning.now,
            rows,
            turning.on,
            Some(sender),
            turning.closing,
            out,
        );
        self.left -= 1;
        keep(alloc, out, count, kept)
    }

    /// Makes all writers fresh where the key group is the group's.
    pub fn refresh_all(&mut self, config: &Config, metas: &[Meta], keygroup: usize)
        requires { IsTurner config.now metas.now self.old }
        ensures { IsTurner config.now metas.now self.new }
    {
        let Some(own) = self.part.keygroup else {
            return;
        };
        if usize::from(own) != keygroup {
            return;
        }
        // a configuration has no more writers
        for index in 0u8..16 {
            self.refresh(config, metas, index);
        }
    }

    /// Makes a writer fresh, where it is there.
    pub fn refresh(&mut self, _config: &Config, _metas: &[Meta], index: u8)
        requires { IsTurner _config.now _metas.now self.old }
        ensures { IsTurner _config.now _metas.now self.new }
    {
        if usize::from(index) < self.part.writer.as_slice().len() {
            self.group.refresh(index);
        }
    }

    /// The group where this data set has a field more: of a dynamic group the only writer may be of it, which is fresh then, and
    /// of others none.
    pub fn grown(
        mut self,
        config: &Config,
        _old: &[Meta],
        new: &[Meta],
        set: usize,
    ) -> Result<Turner<'c>, LineFault>
        requires turner { IsTurner config.now _old.now self }
        requires grows { GrowsAt set _old.now new.now }
        ensures { IfOk result (IsTurner config.now new.now) }
    {
        if lacks_room(&config.publisher.id, new, self.part) {
            return Err(LineFault::Condition);
        }
        if writes_none(self.part, set) {
            return Ok(self);
        }
        if is_fixed(self.part.layout) || self.part.writer.as_slice().len() != 1 {
            return Err(LineFault::Condition);
        }
        self.group.refresh(0);
        Ok(self)
    }

    /// Whether a turn is due.
    pub fn is_due(&self, now: u64) -> bool {
        self.group.due(now)
    }

    /// Place and version of each data frame of a writer.
    pub fn log(&self, alloc: Global, _config: &Config, _metas: &[Meta], index: u8) -> Answer
        requires { IsTurner _config.now _metas.now self.now }
    {
        if usize::from(index) >= self.part.writer.as_slice().len() {
            return Err(LineFault::Condition);
        }
        let mut told = Told::new(alloc);
        told.say("log");
        for (place, version) in self.group.writer(index).log() {
            told.fill(" #=#", &[*place, *version]);
        }
        told.answer()
    }
}

/// Whether no writer of the group is of this data set.
fn writes_none(part: &GroupPart, set: usize) -> bool
    ensures { IsTrue result → All (λ writer. writer.dataset ≢ set) part.now.writer }
{
    for writer in part.writer.as_slice() {
        if usize::from(writer.dataset) == set {
            return false;
        }
    }
    true
}

fn part_at(config: &Config, index: u8) -> &GroupPart
    requires { index < length config.now.group }
    ensures { result.now ≡ slice_index_or config.now.group index result.now }
{
    &config.group.as_slice()[usize::from(index)]
}

fn is_secured(security: Security) -> bool
    ensures { result ≡ is_secured security }
{
    match security {
        Security::None => false,
        Security::Sign | Security::Encrypt => true,
    }
}

/// Whether the group has a turn left, and the truth values are as many as its writers.
fn may_turn(part: &GroupPart, left: u32, on: &[bool]) -> bool
    ensures left { IsTrue result → 1 ≤ left }
    ensures on { IsTrue result → length on.now ≡ length part.now.writer }
{
    left >= 1 && on.len() == part.writer.as_slice().len()
}

/// Puts the datagrams of a turn behind those that are kept; tells how many they are.
fn keep(
    alloc: Global,
    out: &Datagrams,
    count: u32,
    kept: &mut Vec<Vec<u8>>,
) -> Result<u32, LineFault>
    requires reserved { IsReserved out.now }
    requires count { count ≡ length (datagrams_in out.now) }
{
    for index in 0..count {
        kept.push(copied(alloc, out.get(index))?)?;
    }
    Ok(count)
}
