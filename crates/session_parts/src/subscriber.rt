//! The subscriber's part: read groups, and what they made of what came.
ghost use Rattle.std.specs.Prelude.{◌≡◌, ◌≤◌, ◌<◌, length, take};
ghost use Rattle.pubsub_model.specs.declared.reading.Why.TheVariants.{Restarted};
ghost use Rattle.pubsub_states.specs.Components.{IsAmong, counts_of};
ghost use Rattle.pubsub_states.specs.Changes.{flags_in};
ghost use Rattle.pubsub_states.specs.States.{state_of, is_operational};
ghost use Rattle.pubsub_states.specs.declared.component.Component.TheVariants.{ReadGroup as ReadGroupOf, Reader as ReaderOf};
ghost use Rattle.reader_group.specs.Groups.{index_of, reader_count, IsMadeOf};
ghost use Rattle.reader_group.specs.Settings.{group_at as read_group_at};
ghost use Rattle.ps_config.specs.declared.parts.Config.{Config as ConfigValue};
ghost use Rattle.ua_base.specs.Journal.{Got};
ghost use Rattle.writer_group.specs.Standing.{IsGood};
ghost use Rattle.session_parts.specs.Holding.{HoldSubscriber};
ghost use Rattle.session_parts.specs.Pumping.{Hands, IsOperationalIn, MayHand, TellsGroup, TellsReader, TellsReaders, HasReaders, AreReadersOn, HandsOn};
ghost use Rattle.session_parts.specs.Befalling.{HaveExpired, HaveStoppedBelow, IsStoppedBelow, IsStoppedIf, StaysMadeOf, StillHold};

use crate::tally::Tally;
use ps_config::{Config, MOST_READERS, ReadGroupPart};
use pubsub_model::Why;
use pubsub_states::{Component, Tree, ids_are_places_in_order};
use reader_group::ReaderGroup;

/// The subscriber's part of a configuration (OPC 10000-14 6.2.8, ReaderGroup).
#[derive(Drop)]
pub struct Subscriber {
    /// Its read groups, in its order.
    pub groups: Vec<ReaderGroup>,
    /// What each of them answered to the datagrams that it was given.
    pub tallies: Vec<Tally>,
}

impl Subscriber {
    /// Looks at the timers of all readers at the moment, in milliseconds (OPC 10000-14, MessageReceiveTimeout): a reader whose
    /// timer has run out is cut, is late, and isn't ready.
    pub fn expire(&mut self, moment: u64)
        ensures holds { StillHold self.old self.new }
        ensures read { HaveExpired moment self.old self.new }
        ensures rest { self.new ≡ record self.old { groups = self.new.groups } }
    {
        for r in 0..self.groups.len() {
            self.groups[r].expire(moment);
        }
    }

    /// Cuts the readers at or below a component: each forgets its row and its last number.
    pub fn stop_below(&mut self, config: &Config, component: Component)
        requires good { IsGood config.now }
        requires holds { HoldSubscriber config.now self.old }
        ensures holds { HoldSubscriber config.now self.new }
        ensures read { HaveStoppedBelow config.now component self.old self.new }
        ensures rest { self.new ≡ record self.old { groups = self.new.groups } }
    {
        for r in 0..self.groups.len() {
            stop_below(
                &mut self.groups[r],
                read_group_part(config, r),
                r as u8,
                component,
            );
        }
    }

    /// Tells the tree which readers are late, as a fault, and which are ready (OPC 10000-14 6.2.1, PubSubState).
    pub fn tell(&self, config: &Config, tree: &mut Tree)
        requires good { IsGood config.now }
        requires holds { HoldSubscriber config.now self.now }
        requires tree { tree.old.counts ≡ counts_of config.now }
        ensures counts { tree.new.counts ≡ tree.old.counts }
        ensures told { TellsReaders config.now self.now tree.old tree.new }
    {
        for r in 0..self.groups.len() {
            tell_readers(&self.groups[r], read_group_part(config, r), r as u8, tree);
        }
    }

    /// Gives a datagram to each Operational read group at the moment, in milliseconds, and counts the answer of each. Opening
    /// decrypts in place, so each is given a copy but the last one, which is given the datagram itself: its bytes may change.
    pub fn hand_on(
        &mut self,
        config: &Config,
        tree: &Tree,
        moment: u64,
        datagram: &mut [u8],
        copy: &mut [u8],
    )
        requires good { IsGood config.now }
        requires holds { HoldSubscriber config.now self.old }
        requires tree { tree.now.counts ≡ counts_of config.now }
        requires copy { length copy.old ≡ length datagram.old }
        ensures holds { HoldSubscriber config.now self.new }
        ensures got { HandsOn config.now (Got datagram.old) tree.now moment self.old self.new }
    {
        let Some(last) = self.groups.len().checked_sub(1) else {
            return;
        };
        for r in 0..last {
            self.hand_copy(config, tree, moment, r, datagram, copy);
        }
        self.hand(config, tree, moment, last, datagram);
    }

    /// Gives a copy of a datagram to a read group, if it is Operational.
    fn hand_copy(
        &mut self,
        config: &Config,
        tree: &Tree,
        moment: u64,
        r: usize,
        datagram: &[u8],
        copy: &mut [u8],
    )
        requires may { MayHand config.now tree.now r self.old }
        requires copy { length copy.old ≡ length datagram.now }
        ensures holds { HoldSubscriber config.now self.new }
        ensures hands { Hands config.now tree.now moment r datagram.now self.old self.new }
    {
        if !receives(tree, r as u8) {
            return;
        }
        copy.copy_from_slice(datagram);
        self.give(config, tree, moment, r, copy);
    }

    /// Gives a datagram to a read group, if it is Operational.
    fn hand(&mut self, config: &Config, tree: &Tree, moment: u64, r: usize, datagram: &mut [u8])
        requires may { MayHand config.now tree.now r self.old }
        ensures holds { HoldSubscriber config.now self.new }
        ensures hands { Hands config.now tree.now moment r datagram.old self.old self.new }
    {
        if !receives(tree, r as u8) {
            return;
        }
        self.give(config, tree, moment, r, datagram);
    }

    /// An Operational read group is given a datagram, and its answer is counted.
    fn give(&mut self, config: &Config, tree: &Tree, moment: u64, r: usize, datagram: &mut [u8])
        requires may { MayHand config.now tree.now r self.old }
        requires receives { IsOperationalIn tree.now (ReadGroupOf r) }
        ensures holds { HoldSubscriber config.now self.new }
        ensures hands { Hands config.now tree.now moment r datagram.old self.old self.new }
    {
        let count = read_group_part(config, r).reader.as_slice().len();
        let on = readers_on(tree, r as u8, count);
        let answer = self.groups[r].datagram(config, moment, &on[..count], datagram);
        self.tallies[r].note(&answer);
    }
}

/// Whether a read group is Operational.
fn receives(tree: &Tree, read_group: u8) -> bool
    requires { IsAmong tree.now.counts (ReadGroupOf read_group) }
    ensures { result ≡ is_operational (state_of (flags_in tree.now) (ReadGroupOf read_group)) }
{
    tree.state_of(Component::ReadGroup { read_group })
        .is_operational()
}

/// Whether each of so many readers of a read group is enabled.
fn readers_on(tree: &Tree, read_group: u8, count: usize) -> [bool; MOST_READERS]
    requires few { count ≤ 16 }
    requires there { HasReaders tree.now read_group count }
    ensures { AreReadersOn tree.now read_group count (take count result) }
{
    let mut on = [false; MOST_READERS];
    for i in 0..count {
        let reader = i as u8;
        on[i] = tree.is_enabled(Component::Reader { read_group, reader });
    }
    on
}

/// Cuts the readers of a read group that are at or below a component.
fn stop_below(group: &mut ReaderGroup, part: &ReadGroupPart, r: u8, component: Component)
    requires few { length part.now.reader ≤ 16 }
    requires made { (config : ConfigValue) × IsMadeOf config group.old }
    requires count { reader_count group.old ≡ length part.now.reader }
    ensures index { index_of group.new ≡ index_of group.old }
    ensures made { StaysMadeOf group.old group.new }
    ensures stands { IsStoppedBelow component r part.now group.old group.new }
{
    for i in 0..part.reader.as_slice().len() {
        let reader = Component::Reader {
            read_group: r,
            reader: i as u8,
        };
        cut_if(group, i as u8, component.is_at_or_above(reader));
    }
}

/// Where it is at or below the component, a reader is cut.
fn cut_if(group: &mut ReaderGroup, reader: u8, is_below: bool)
    requires there { reader < reader_count group.old }
    ensures index { index_of group.new ≡ index_of group.old }
    ensures made { StaysMadeOf group.old group.new }
    ensures stands { IsStoppedIf is_below reader group.old group.new }
{
    if is_below {
        group.cut(reader, Why::Restarted);
    }
}

/// Tells the tree of each reader of a read group.
fn tell_readers(group: &ReaderGroup, part: &ReadGroupPart, read_group: u8, tree: &mut Tree)
    requires few { length part.now.reader ≤ 16 }
    requires made { reader_count group.now ≡ length part.now.reader }
    requires there { HasReaders tree.old read_group (length part.now.reader) }
    ensures { TellsGroup group.now read_group (length part.now.reader) tree.old tree.new }
{
    for i in 0..part.reader.as_slice().len() {
        tell_reader(group, read_group, i as u8, tree);
    }
}

/// Tells the tree whether a reader is late, and whether it is ready.
fn tell_reader(group: &ReaderGroup, read_group: u8, reader: u8, tree: &mut Tree)
    requires within { reader < reader_count group.now }
    requires there { IsAmong tree.old.counts (ReaderOf read_group reader) }
    ensures { TellsReader group.now read_group reader tree.old tree.new }
{
    ids_are_places_in_order();
    let id = tree
        .components()
        .id(Component::Reader { read_group, reader });
    tree.fault(id, group.is_late(reader));
    tree.ready(id, group.is_ready(reader));
}

/// The read group with this index, as the configuration has it.
pub fn read_group_part(config: &Config, r: usize) -> &ReadGroupPart
    requires { r < length config.now.readgroup }
    ensures { result.now ≡ read_group_at config.now r }
{
    &config.readgroup.as_slice()[r]
}
