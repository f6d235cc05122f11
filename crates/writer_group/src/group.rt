//! Groups of writers.
ghost use Rattle.std.specs.Prelude.{◌≡◌, ◌↔◌, ◌<◌, ◌≤◌, ◌*◌, ◌^◌, All, List, ℕ, IfNone, IfOk, IfSome, IsTrue, length, slice_index_or, vec_len};
ghost use Rattle.std.specs.Option.{ForSome, option_copied};
ghost use Rattle.message_guard.specs.Senders.{IsSender};
ghost use Rattle.ps_config.specs.Beginning.{config_beginning};
ghost use Rattle.writer_group.specs.Limits.{longest_frame, most_datagrams};
ghost use Rattle.writer_group.specs.Lending.{lent_in, left_in};
ghost use Rattle.writer_group.specs.Answering.{HaveAnswered, MayAnswer, MayGo};
ghost use Rattle.writer_group.specs.Making.{AreSpelled, passed, spelled_in};
ghost use Rattle.writer_group.specs.Standing.{datagrams_in, index_of, writer_count, AreLogged, AreRowsOf, GoesOnAt, GoesOnBegun, GoesOnRefreshed, HasBegun, HasRoomFor, IsLoggedIn, IsNeverDue, KeepsLogs, KeepsOnLogging, KeepsRoom, KeepsTo, HasTickedAt, IsFreshAt, IsGood, IsInOrder, IsMadeAt, IsRefreshed, IsReserved, IsSenderAfter, IsSenderFor, IsMadeBeginning, IsStillMade, IsWriterIn, MayTickAt, MayTurnAt, TellsDue, TellsDueFrom, TellsMoment, TellsNextNumber, input_of};
ghost use Rattle.writer_group.specs.Turns.{GroupDeed, told_of};

use crate::answering::answer_all;
use crate::datagrams::Datagrams;
use crate::header_parts::HeaderParts;
use crate::leads::Leads;
use crate::planning::plan_loads;
use crate::sampled::Sampled;
use crate::settings::{Rooms, a_class_id_is_whole, rooms_of};
use crate::setup::{slots_of, writers_of};
use dataset_meta::Meta;
use dataset_writer::Writer;
use fixed_layout::Slots;
use message_guard::Sender;
use ps_config::{Config, GroupPart, Security};
use std::alloc::Global;
use ua_base::NoMemory;

/// A group of writers, between its turns.
#[derive(Drop)]
pub struct Group {
    index: u8,
    interval: u32,
    writers: Vec<Writer>,
    pub(crate) rooms: Rooms,
    pub(crate) slots: Slots,
    pub(crate) leads: Leads,
    // How many datagrams were made, modulo 65536.
    pub(crate) made: u16,
    // The moment of the last turn that wasn't the closing one, at first 0.
    turned_at: u64,
}

impl Group {
    /// The group with this index in the configuration, before its first turn, with room for what so many turns log.
    pub fn new(alloc: Global, config: &Config, index: u8, turns: u32) -> Result<Group, NoMemory>
        requires good { IsGood config.now }
        requires index { index < length config.now.group }
        ensures index { IfOk result (λ group. index_of group ≡ index) }
        ensures made { IfOk result (IsMadeAt config.now index) }
        ensures stands { IfOk result (IsFreshAt config.now index) }
        ensures goes_on { IfOk result (MayTurnAt config.now index turns) }
        ensures logged { IfOk result (AreLogged turns) }
        ensures keeps { IfOk result KeepsLogs }
        ensures keeps_to { IfOk result (KeepsTo config.now) }
    {
        Group::lasting(alloc, config, index, u64::from(turns), turns)
    }

    /// The same group, for as many turns as a device has in its life: the log of each of its writers keeps the first `logged` data
    /// frames, and no turn takes memory.
    pub fn lasting(
        alloc: Global,
        config: &Config,
        index: u8,
        turns: u64,
        logged: u32,
    ) -> Result<Group, NoMemory>
        requires good { IsGood config.now }
        requires index { index < length config.now.group }
        requires turns { turns ≤ 2 ^ 62 }
        ensures index { IfOk result (λ group. index_of group ≡ index) }
        ensures made { IfOk result (IsMadeAt config.now index) }
        ensures stands { IfOk result (IsFreshAt config.now index) }
        ensures goes_on { IfOk result (MayTurnAt config.now index turns) }
        ensures logged { IfOk result (AreLogged logged) }
        ensures keeps { turns ≤ logged → IfOk result KeepsLogs }
        ensures keeps_to { IfOk result (KeepsTo config.now) }
    {
        let group = part_of(config, index);
        let writers = writers_of(alloc, group, turns, logged)?;
        let parts = HeaderParts::new(&config.publisher.id, group, 0);
        let leads = Leads::new(&parts);
        Ok(Group {
            index,
            interval: group.interval,
            writers,
            rooms: rooms_of(&config.publisher.id, group),
            slots: slots_of(config, group),
            leads,
            made: 0,
            turned_at: 0,
        })
    }

    /// The writer with this index in the group.
    pub fn writer(&self, index: u8) -> &Writer
        requires { index < writer_count self.now }
        ensures stands { IsWriterIn self.now index result.now }
        ensures logs { IsLoggedIn self.now result.now }
    {
        &self.writers[usize::from(index)]
    }

    /// The number that the next data frame of the writer with this index takes.
    pub fn next_number(&self, index: u8) -> u16
        requires { index < writer_count self.now }
        ensures { TellsNextNumber self.now index result }
    {
        self.writer(index).next_number()
    }

    /// Makes the writer fresh: its next turn sends a key frame, and its data set may have grown.
    pub fn refresh(&mut self, index: u8)
        requires { index < writer_count self.old }
        ensures index { index_of self.new ≡ index_of self.old }
        ensures made { IsStillMade self.old self.new }
        ensures stands { IsRefreshed index self.old self.new }
        ensures goes_on { GoesOnRefreshed index self.old self.new }
        ensures logs { KeepsOnLogging self.old self.new }
        ensures keeps_to { (config : Config) → KeepsTo config self.old → KeepsTo config self.new }
    {
        self.writers[usize::from(index)].refresh();
    }

    /// The writer begins anew, as before its first turn, with this number as that of its first data frame. The group is then one of
    /// the configuration with that first number.
    pub fn begin_at(&mut self, index: u8, first_number: u16)
        requires { index < writer_count self.old }
        ensures index { index_of self.new ≡ index_of self.old }
        ensures made { IsMadeBeginning index first_number self.old self.new }
        ensures stands { HasBegun index first_number self.old self.new }
        ensures goes_on { GoesOnBegun index first_number self.old self.new }
        ensures logged { (most : ℕ) → AreLogged most self.old → AreLogged most self.new }
        ensures keeps_to { (config : Config) → KeepsTo config self.old
            → KeepsTo (config_beginning (index_of self.old) index first_number config) self.new }
    {
        self.writers[usize::from(index)].begin_at(first_number);
    }

    /// Whether the publishing interval has passed since the last turn that wasn't the closing one, or since moment 0.
    pub fn due(&self, now: u64) -> bool
        ensures { TellsDue self.now now result }
    {
        u64::from(self.interval) <= now.saturating_sub(self.turned_at)
    }

    /// The moment from which on the group is due: a publishing interval after the last turn that wasn't the closing one, or after
    /// moment 0, in milliseconds. None where 64 bits don't hold it.
    pub fn due_from(&self) -> Option<u64>
        ensures from { IfSome result (TellsDueFrom self.now) }
        ensures never { IfNone result (IsNeverDue self.now) }
    {
        self.turned_at.checked_add(u64::from(self.interval))
    }

    /// The moment for a turn that comes at `now`: the greatest multiple of the publishing interval that has passed, in
    /// milliseconds. `due` counts from the moment of the last turn. So a turn that comes late gives `tick` this moment, and the
    /// next one is due at the next multiple, however late this one came.
    pub fn moment_of(&self, now: u64) -> u64
        ensures moment { TellsMoment self.now now result }
        ensures passed { result ≤ now }
    {
        let interval = u64::from(self.interval).max(1);
        now - now % interval
    }

    /// Whether the group may have a turn of the configuration's data sets with these rows. One row is there for each data set, and
    /// a truth value for each writer. No writer has had all its turns. The sender is there exactly where the group is secured, and
    /// isn't spent.
    pub fn may_tick(
        &self,
        config: &Config,
        rows: &[Sampled],
        on: &[bool],
        sender: Option<&Sender>,
    ) -> bool
        requires good { IsGood config.now }
        requires keeps_to { KeepsTo config.now self.now }
        requires rows { AreRowsOf config.now.dataset rows.now }
        requires sender { ForSome sender (λ s. IsSender s.now) }
        ensures { IsTrue result ↔ MayTickAt config.now config.now.dataset rows.now on.now
            (option_copied sender.entry) self.now }
    {
        self.is_in_order(config, part_of(config, self.index), rows, on, sender)
    }

    /// A turn at the moment `now` (OPC 10000-14 6.2.6). The writers that are `on` answer with the rows sampled for their data sets,
    /// whose metas now are `metas`. Their frames become datagrams in `out`, in place of those of the turn before. The sender, where
    /// the group is secured, was turned to `now` and isn't spent; the metas of an accepted script leave room for the frames. The
    /// answer is how many datagrams there are. `closing` where no other turn comes: each writer then sends a key frame, and the
    /// turn doesn't count for `due`.
    pub fn tick(
        &mut self,
        config: &Config,
        metas: &[Meta],
        now: u64,
        rows: &[Sampled],
        on: &[bool],
        sender: Option<&mut Sender>,
        closing: bool,
        out: &mut Datagrams,
    ) -> u32
        requires good { IsGood config.now }
        requires index { index_of self.old < length config.now.group }
        requires turn { MayTickAt config.now metas.now rows.now on.now (lent_in sender) self.old }
        requires reserved { IsReserved out.old }
        ensures stands { HasTickedAt config.now
            (input_of now closing metas.now rows.now on.now (lent_in sender.entry))
            self.old self.new out.new }
        ensures goes_on { GoesOnAt config.now metas.now self.old self.new }
        ensures logs { KeepsOnLogging self.old self.new }
        ensures made { IsMadeAt config.now (index_of self.old) self.new }
        ensures index { index_of self.new ≡ index_of self.old }
        ensures count { result ≡ length (datagrams_in out.new) }
        ensures few { result ≤ most_datagrams }
        ensures sender_stays { IfSome (left_in sender.exit) IsSender }
        ensures sender { IsSenderAfter config.now (index_of self.old) result (lent_in sender.entry)
            (left_in sender.exit) }
        ensures reserved { IsReserved out.new }
        ensures keeps_to { metas.now ≡ config.now.dataset → KeepsTo config.now self.new }
    {
        match sender {
            None => self.tick_within(config, metas, now, rows, on, None, closing, out),
            Some(sender) => {
                self.tick_within(config, metas, now, rows, on, Some(sender), closing, out)
            }
        }
    }

    /// The same, with room for the turns of this configuration's groups alone, as `Datagrams::for_config` reserves it.
    pub fn tick_within(
        &mut self,
        config: &Config,
        metas: &[Meta],
        now: u64,
        rows: &[Sampled],
        on: &[bool],
        sender: Option<&mut Sender>,
        closing: bool,
        out: &mut Datagrams,
    ) -> u32
        requires good { IsGood config.now }
        requires index { index_of self.old < length config.now.group }
        requires turn { MayTickAt config.now metas.now rows.now on.now (lent_in sender) self.old }
        requires room { HasRoomFor config.now metas.now out.old }
        ensures stands { HasTickedAt config.now
            (input_of now closing metas.now rows.now on.now (lent_in sender.entry))
            self.old self.new out.new }
        ensures goes_on { GoesOnAt config.now metas.now self.old self.new }
        ensures logs { KeepsOnLogging self.old self.new }
        ensures made { IsMadeAt config.now (index_of self.old) self.new }
        ensures index { index_of self.new ≡ index_of self.old }
        ensures count { result ≡ length (datagrams_in out.new) }
        ensures few { result ≤ most_datagrams }
        ensures sender_stays { IfSome (left_in sender.exit) IsSender }
        ensures sender { IsSenderAfter config.now (index_of self.old) result (lent_in sender.entry)
            (left_in sender.exit) }
        ensures room { KeepsRoom out.old out.new }
        ensures keeps_to { metas.now ≡ config.now.dataset → KeepsTo config.now self.new }
    {
        let group = part_of(config, self.index);
        a_class_id_is_whole(group);
        self.answer(group, metas, now, rows, on, closing, out);
        plan_loads(group, self.rooms, &out.frames, &mut out.loads);
        match sender {
            None => {
                self.post(config, group, out);
                self.finish(now, closing, out)
            }
            Some(sender) => {
                self.post_sealed(config, group, sender, out);
                self.finish(now, closing, out)
            }
        }
    }

    /// Whether what is tested of a turn holds.
    fn is_in_order(
        &self,
        config: &Config,
        group: &GroupPart,
        rows: &[Sampled],
        on: &[bool],
        sender: Option<&Sender>,
    ) -> bool
        requires { ForSome sender (λ s. IsSender s.now) }
        ensures { IsTrue result ↔ IsInOrder config.now group.now rows.now on.now
            (option_copied sender.entry) self.now }
    {
        rows.len() == config.dataset.as_slice().len()
            && on.len() == self.writers.len()
            && has_turns(&self.writers)
            && is_sender_for(group, sender)
    }

    /// Forgets the last turn, has those of the writers that are on, and spells their frames.
    fn answer(
        &mut self,
        group: &GroupPart,
        metas: &[Meta],
        now: u64,
        rows: &[Sampled],
        on: &[bool],
        closing: bool,
        out: &mut Datagrams,
    )
        requires may { MayAnswer group.now metas.now rows.now on.now self.old.writers.items }
        requires frames { longest_frame * length on.now ≤ vec_len out.old.spelled }
        ensures answered { (past : List GroupDeed)
            → HaveAnswered group.now (told_of now closing metas.now rows.now) on.now past
            self.old.writers.items self.new.writers.items (spelled_in out.new) }
        ensures goes_on { MayGo group.now metas.now self.old.writers.items self.new.writers.items }
        ensures rest { self.new ≡ record self.old { writers = self.new.writers } }
        ensures spelled { AreSpelled group.now metas.now out.new }
        ensures room { KeepsRoom out.old out.new }
    {
        out.forget();
        answer_all(
            &mut self.writers,
            group,
            metas,
            now,
            rows,
            on,
            closing,
            &mut out.spelled,
            &mut out.frames,
        );
    }

    /// Counts the datagrams that were made, and tells how many.
    fn finish(&mut self, now: u64, closing: bool, out: &Datagrams) -> u32
        requires few { length (datagrams_in out.now) ≤ most_datagrams }
        ensures passed { self.new ≡ passed now closing result self.old }
        ensures count { result ≡ length (datagrams_in out.now) }
    {
        let made = out.ranges.len() as u16;
        self.pass(now, closing, made);
        u32::from(made)
    }

    /// Counts the datagrams of a turn, and keeps its moment where it isn't the closing one.
    fn pass(&mut self, now: u64, closing: bool, count: u16)
        ensures { self.new ≡ passed now closing count self.old }
    {
        self.made = self.made.wrapping_add(count);
        if !closing {
            self.turned_at = now;
        }
    }
}

fn part_of(config: &Config, index: u8) -> &GroupPart
    requires { index < length config.now.group }
    ensures { result.now ≡ slice_index_or config.now.group index result.now }
{
    &config.group.as_slice()[usize::from(index)]
}

/// Whether each writer has a turn left.
fn has_turns(writers: &[Writer]) -> bool
    ensures { IsTrue result ↔ All (λ writer. 1 ≤ writer.left) writers.now }
{
    writers.iter().all(|writer| writer.left() > 0)
}

/// Whether the sender is there exactly where the group is secured, and isn't spent.
fn is_sender_for(group: &GroupPart, sender: Option<&Sender>) -> bool
    requires { ForSome sender (λ s. IsSender s.now) }
    ensures { IsTrue result ↔ IsSenderFor group.now (option_copied sender.entry) }
{
    let secured = group.security != Security::None;
    match sender {
        None => !secured,
        Some(sender) => secured && !sender.spent(),
    }
}
