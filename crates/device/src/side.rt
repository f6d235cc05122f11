//! A group of writers, of a configuration that its publisher keeps.
ghost use Rattle.std.specs.Prelude.{◌≡◌, ◌<◌, ◌≤◌, IfOk, IfSome, IfNone, Some, None, All, length, min, slice_index_or};
ghost use Rattle.std.specs.Bool.{OnFalse, OnTrue};
ghost use Rattle.message_guard.specs.Senders.{IsSender};
ghost use Rattle.ps_config.specs.declared.parts.Config.{Config as ConfigValue};
ghost use Rattle.writer_group.specs.Parts.{group_at};
ghost use Rattle.writer_group.specs.Standing.{AreRowsOf, HasRoom, IsGood, KeepsTo, TellsDue, TellsMoment, TellsNextNumber, index_of, writer_count};
ghost use Rattle.device.specs.Coming.{AreRefreshed, all_writers};
ghost use Rattle.device.specs.Due.{HasTurnDue, SitsOut, TellsFirst};
ghost use Rattle.ps_config.specs.Beginning.{config_beginning};
ghost use Rattle.device.specs.Restarts.{HasSideBegun, IsTurned, IsUnturned};
ghost use Rattle.device.specs.Sides.{HasComeOn, HasNumbered, HasSwitched, HasTurned, HasWriter, IsOpeningSide, IsSide, MayNotTurn, MayTurn, numbered, sender_for};

use message_guard::Sender;
use ps_config::{Config, GroupPart};
use std::alloc::Global;
use ua_base::NoMemory;
use writer_group::{Datagrams, Group, Sampled};

/// How many turns a group may have in its life: at one a millisecond, 146 million years.
const TURNS: u64 = 4_611_686_018_427_387_904;

/// A group of writers, which are all on at first, with its place in the configuration.
#[derive(Drop)]
pub struct Side {
    pub index: u8,
    pub group: Group,
    pub on: Vec<bool>,
}

impl Side {
    /// The group with this index, before its first turn. No turn takes memory.
    pub fn new(alloc: Global, config: &Config, index: u8) -> Result<Side, NoMemory>
        requires good { IsGood config.now }
        requires index { index < length config.now.group }
        ensures side { IfOk result (IsSide config.now) }
        ensures opening { IfOk result (IsOpeningSide config.now index) }
    {
        let count = part_of(config, index).writer.as_slice().len();
        Ok(Side {
            index,
            group: Group::lasting(alloc, config, index, TURNS, 0)?,
            on: vec![in alloc; true; count]?,
        })
    }

    /// Whether the group is due at `now`, in milliseconds (`Group::due`).
    pub fn is_due(&self, now: u64) -> bool
        ensures { TellsDue self.now.group now result }
    {
        self.group.due(now)
    }

    /// The moment for a turn that comes at `now` (`Group::moment_of`).
    pub fn moment_of(&self, now: u64) -> u64
        ensures { TellsMoment self.now.group now result }
    {
        self.group.moment_of(now)
    }

    /// The next turn sends key frames.
    pub fn refresh(&mut self, config: &Config)
        requires { IsSide config.now self.old }
        ensures side { IsSide config.now self.new }
        ensures refreshed { AreRefreshed (all_writers config.now self.old) self.old self.new }
    {
        let count = writer_count_of(config, self.index);
        for writer in 0..count {
            self.group.refresh(writer as u8);
        }
    }

    /// Whether there is a writer with this index.
    pub fn has_writer(&self, config: &Config, writer: u8) -> bool
        requires { IsSide config.now self.now }
        ensures there { OnTrue result (HasWriter writer self.now) }
        ensures not { OnFalse result (¬ HasWriter writer self.now) }
    {
        let index = usize::from(writer);
        if index >= self.on.len() {
            return false;
        }
        index < part_of(config, self.index).writer.as_slice().len()
    }

    /// The number that the next data message of the writer with this index takes. None where there is no such writer.
    pub fn next_number(&self, config: &Config, writer: u8) -> Option<u16>
        requires { IsSide config.now self.now }
        ensures next { IfSome result (TellsNextNumber self.now.group writer) }
        ensures none { IfNone result (writer_count self.now.group ≤ writer) }
    {
        if usize::from(writer) >= part_of(config, self.index).writer.as_slice().len() {
            return None;
        }
        Some(self.group.next_number(writer))
    }

    /// Whether the group had no turn yet: it is due an interval after moment 0.
    pub fn is_unturned(&self, config: &Config) -> bool
        requires { IsSide config.now self.now }
        ensures unturned { OnTrue result (IsUnturned config.now self.now) }
        ensures turned { OnFalse result (IsTurned config.now self.now) }
    {
        let interval = u64::from(part_of(config, self.index).interval);
        match self.group.due_from() {
            None => false,
            Some(moment) => moment == interval,
        }
    }

    /// The writer with this index begins anew, with this number as that of its first data message (`Group::begin_at`).
    pub fn begin_at(&mut self, _config: &Config, writer: u8, number: u16)
        requires side { IsSide _config.now self.old }
        requires writer { HasWriter writer self.old }
        ensures side { IsSide (config_beginning self.old.index writer number _config.now) self.new }
        ensures begun { HasSideBegun writer number self.old self.new }
    {
        self.group.begin_at(writer, number);
    }

    /// Switches the writer with this index on or off.
    pub fn switch(&mut self, _config: &Config, writer: u8, on: bool)
        requires side { IsSide _config.now self.old }
        requires writer { HasWriter writer self.old }
        ensures side { IsSide _config.now self.new }
        ensures switched { HasSwitched writer on self.old self.new }
    {
        refresh_if(&mut self.group, writer, on);
        self.on[usize::from(writer)] = on;
    }

    /// The key group with whose keys the group's datagrams are secured. None where they aren't.
    pub fn keygroup(&self, config: &Config) -> Option<u8>
        requires { IsSide config.now self.now }
        ensures { result ≡ (group_at config.now self.now.index).keygroup }
    {
        part_of(config, self.index).keygroup
    }

    /// Whether the group may have a turn with these rows, where these are the senders of the configuration's key groups
    /// (`Group::may_tick`).
    pub fn may_turn(&self, config: &Config, rows: &[Sampled], senders: &[Sender]) -> bool
        requires good { IsGood config.now }
        requires side { IsSide config.now self.now }
        requires rows { AreRowsOf config.now.dataset rows.now }
        requires senders { All IsSender senders.now }
        ensures may { OnTrue result (MayTurn config.now rows.now
            (sender_for config.now senders.now self.now.index) self.now) }
        ensures not { OnFalse result (MayNotTurn config.now rows.now
            (sender_for config.now senders.now self.now.index) self.now) }
    {
        match self.keygroup(config) {
            None => self.group.may_tick(config, rows, &self.on, None),
            Some(keygroup) => {
                let k = usize::from(keygroup);
                if k >= senders.len() {
                    return false;
                }
                self.group
                    .may_tick(config, rows, &self.on, Some(&senders[k]))
            }
        }
    }

    /// The first moment from `now` on, in milliseconds, at which the group is due. None where it may have no turn.
    pub fn next_due(
        &self,
        config: &Config,
        now: u64,
        rows: &[Sampled],
        senders: &[Sender],
    ) -> Option<u64>
        requires good { IsGood config.now }
        requires side { IsSide config.now self.now }
        requires rows { AreRowsOf config.now.dataset rows.now }
        requires senders { All IsSender senders.now }
        ensures { TellsFirst now (λ t. SitsOut config.now rows.now senders.now t self.now)
            (λ t. HasTurnDue config.now rows.now senders.now t self.now) result }
    {
        if !self.may_turn(config, rows, senders) {
            return None;
        }
        match self.group.due_from() {
            None => None,
            Some(moment) => Some(moment.max(now)),
        }
    }

    /// A turn at this moment with these rows of the configuration's data sets, if the group may have one (`Group::may_tick`): its
    /// datagrams are in `out`, in place of those of the turn before. The answer is how many there are; none where it may not, and
    /// then nothing changes. The senders are those of the configuration's key groups.
    pub fn turn(
        &mut self,
        config: &Config,
        moment: u64,
        rows: &[Sampled],
        senders: &mut [Sender],
        out: &mut Datagrams,
    ) -> Option<u32>
        requires good { IsGood config.now }
        requires side { IsSide config.now self.old }
        requires rows { AreRowsOf config.now.dataset rows.now }
        requires senders { All IsSender senders.old }
        requires reserved { HasRoom config.now out.old }
        ensures side { IsSide config.now self.new }
        ensures senders { All IsSender senders.new }
        ensures reserved { HasRoom config.now out.new }
        ensures turned { IfSome result (HasTurned config.now moment rows.now
            (sender_for config.now senders.old self.old.index) self.old self.new out.new) }
        ensures not { IfNone result (self.new ≡ self.old) }
        ensures out_stays { IfNone result (out.new ≡ out.old) }
        ensures senders_stay { IfNone result (senders.new ≡ senders.old) }
        ensures may_not { IfNone result (MayNotTurn config.now rows.now
            (sender_for config.now senders.old self.old.index) self.old) }
        ensures numbers { IfSome result (λ made.
            HasNumbered config.now self.old.index made senders.old senders.new) }
    {
        match self.keygroup(config) {
            None => self.turn_plain(config, moment, rows, out),
            Some(keygroup) => {
                let k = usize::from(keygroup);
                if k >= senders.len() {
                    return None;
                }
                self.turn_secured(config, moment, rows, &mut senders[k], out)
            }
        }
    }

    /// The turn of a group that isn't secured.
    fn turn_plain(
        &mut self,
        config: &Config,
        moment: u64,
        rows: &[Sampled],
        out: &mut Datagrams,
    ) -> Option<u32>
        requires good { IsGood config.now }
        requires side { IsSide config.now self.old }
        requires rows { AreRowsOf config.now.dataset rows.now }
        requires reserved { HasRoom config.now out.old }
        ensures side { IsSide config.now self.new }
        ensures reserved { HasRoom config.now out.new }
        ensures turned { IfSome result (HasTurned config.now moment rows.now None
            self.old self.new out.new) }
        ensures not { IfNone result (self.new ≡ self.old) }
        ensures out_stays { IfNone result (out.new ≡ out.old) }
        ensures may_not { IfNone result (MayNotTurn config.now rows.now None self.old) }
    {
        if !self.group.may_tick(config, rows, &self.on, None) {
            return None;
        }
        let metas = config.dataset.as_slice();
        Some(
            self.group
                .tick_within(config, metas, moment, rows, &self.on, None, false, out),
        )
    }

    /// The turn of a secured group.
    fn turn_secured(
        &mut self,
        config: &Config,
        moment: u64,
        rows: &[Sampled],
        sender: &mut Sender,
        out: &mut Datagrams,
    ) -> Option<u32>
        requires good { IsGood config.now }
        requires side { IsSide config.now self.old }
        requires rows { AreRowsOf config.now.dataset rows.now }
        requires sender { IsSender sender.old }
        requires reserved { HasRoom config.now out.old }
        ensures side { IsSide config.now self.new }
        ensures sender { IsSender sender.new }
        ensures reserved { HasRoom config.now out.new }
        ensures turned { IfSome result (HasTurned config.now moment rows.now (Some sender.old)
            self.old self.new out.new) }
        ensures not { IfNone result (self.new ≡ self.old) }
        ensures out_stays { IfNone result (out.new ≡ out.old) }
        ensures sender_stays { IfNone result (sender.new ≡ sender.old) }
        ensures may_not { IfNone result
            (MayNotTurn config.now rows.now (Some sender.old) self.old) }
        ensures numbers { IfSome result (λ made.
            sender.new ≡ numbered config.now self.old.index made sender.old) }
    {
        if !self.group.may_tick(config, rows, &self.on, Some(sender)) {
            return None;
        }
        let metas = config.dataset.as_slice();
        let sender = Some(sender);
        Some(
            self.group
                .tick_within(config, metas, moment, rows, &self.on, sender, false, out),
        )
    }
}

/// The group of the configuration with this index.
fn part_of(config: &Config, index: u8) -> &GroupPart
    requires { index < length config.now.group }
    ensures { result.now ≡ slice_index_or config.now.group index result.now }
{
    &config.group.as_slice()[usize::from(index)]
}

/// How many writers the group has, as far as a byte has their indexes.
fn writer_count_of(config: &Config, index: u8) -> usize
    requires { index < length config.now.group }
    ensures { result ≡ min (length (group_at config.now index).writer) 256 }
{
    part_of(config, index).writer.as_slice().len().min(256)
}

/// The next frame of a writer that is switched on is a key frame.
fn refresh_if(group: &mut Group, writer: u8, on: bool)
    requires { writer < writer_count group.old }
    ensures come_on { HasComeOn writer on group.old group.new }
    ensures index { index_of group.new ≡ index_of group.old }
    ensures keeps_to { (config : ConfigValue)
        → KeepsTo config group.old → KeepsTo config group.new }
{
    if on {
        group.refresh(writer);
    }
}
