//! Receives, and the counts of them.
ghost use Rattle.std.specs.Prelude.{true, false, ◌≡◌, ◌<◌, ◌≤◌, ◌↔◌, IsTrue, IsSome, IfOk, length, take, if◌then◌else◌};
ghost use Rattle.ua_base.specs.Cause.{counted_if};
ghost use Rattle.ua_base.specs.Journal.{Got};
ghost use Rattle.ua_base.specs.Journal.{Tells};
ghost use Rattle.ua_base.specs.Links.{KeepsLink};
ghost use Rattle.ua_base.specs.Net.{FitsBuffer, Receives as BringsInto, nothings_in};
ghost use Rattle.pubsub_states.specs.Components.{counts_of};
ghost use Rattle.writer_group.specs.Standing.{IsGood};
ghost use Rattle.session_model.specs.Counts.{longest_datagram, most_taken};
ghost use Rattle.session_parts.specs.Holding.{HasBuffers, HoldSubscriber};
ghost use Rattle.session_parts.specs.Pumping.{Counts, HandsOn, PumpsTo, ReceivesOne, HasNoCounts};

use crate::subscriber::Subscriber;
use ps_config::Config;
use pubsub_states::Tree;
use std::alloc::Global;
use ua_base::{Link, NoMemory, Pumped, Received};

/// The longest datagram that a session receives.
const BUFFER_BYTES: usize = 65_536;

/// The most datagrams that a pump takes.
const MOST_DATAGRAMS: u32 = 65_536;

/// The datagram that came, a copy for a read group to decrypt in place, and counts. A count stops at 2^64 - 1.
#[derive(Drop)]
pub struct Receiving {
    buffer: Vec<u8>,
    copy: Vec<u8>,
    /// The datagrams that came whole.
    pub received: u64,
    /// The receives that failed.
    pub broken: u64,
    /// The datagrams of more than 65,536 bytes, which were dropped.
    pub long: u64,
    /// The pumps that ended because they took 65,536 datagrams.
    pub limit: u64,
}

impl Receiving {
    /// Room for the longest datagram, twice, and no receive counted. An error says that memory ran out.
    pub fn new(alloc: Global) -> Result<Receiving, NoMemory>
        ensures room { IfOk result HasBuffers }
        ensures counts { IfOk result HasNoCounts }
    {
        Ok(Receiving {
            buffer: vec![in alloc; 0u8; BUFFER_BYTES]?,
            copy: vec![in alloc; 0u8; BUFFER_BYTES]?,
            received: 0,
            broken: 0,
            long: 0,
            limit: 0,
        })
    }

    /// Receives until nothing waits, a receive fails, or 65,536 datagrams were taken, those of more than 65,536 bytes included,
    /// which are dropped. Each of the others is passed on to the Operational read groups at this moment, in milliseconds. The
    /// answer is how many were taken, and whether the pump ended for that.
    pub fn pump<L: Link>(
        &mut self,
        config: &Config,
        tree: &Tree,
        moment: u64,
        subscriber: &mut Subscriber,
        link: &mut L,
    ) -> Pumped
        requires open { IsSome (L.opened_with link.old) }
        requires good { IsGood config.now }
        requires holds { HoldSubscriber config.now subscriber.old }
        requires tree { tree.now.counts ≡ counts_of config.now }
        requires room { HasBuffers self.old }
        ensures holds { HoldSubscriber config.now subscriber.new }
        ensures room { HasBuffers self.new }
        ensures pumps { PumpsTo config.now tree.now moment result.taken self.old self.new
            subscriber.old subscriber.new (L.told link.old) (L.told link.new) }
        ensures limit { IsTrue result.limit ↔ (result.taken ≡ most_taken) }
        ensures link { KeepsLink L.told L.patience L.opened_with L.faults L.made L.openings
            1 link.old link.new }
    {
        for taken in 0..MOST_DATAGRAMS {
            if !self.receive(config, tree, moment, subscriber, link) {
                return Pumped {
                    taken,
                    limit: false,
                };
            }
        }
        self.note_limit()
    }

    /// As many datagrams were taken as a pump takes.
    fn note_limit(&mut self) -> Pumped
        ensures taken { result.taken ≡ most_taken }
        ensures limit { result.limit ≡ true }
        ensures counts { self.new ≡ record self.old { limit = counted_if true self.old.limit } }
    {
        self.limit = self.limit.saturating_add(1);
        Pumped {
            taken: MOST_DATAGRAMS,
            limit: true,
        }
    }

    /// Receives once, counts it, and passes on what came. Whether a datagram was taken.
    fn receive<L: Link>(
        &mut self,
        config: &Config,
        tree: &Tree,
        moment: u64,
        subscriber: &mut Subscriber,
        link: &mut L,
    ) -> bool
        requires open { IsSome (L.opened_with link.old) }
        requires good { IsGood config.now }
        requires holds { HoldSubscriber config.now subscriber.old }
        requires tree { tree.now.counts ≡ counts_of config.now }
        requires room { HasBuffers self.old }
        ensures holds { HoldSubscriber config.now subscriber.new }
        ensures room { HasBuffers self.new }
        ensures receives { ReceivesOne config.now tree.now moment result self.old self.new
            subscriber.old subscriber.new (L.told link.old) (L.told link.new) }
        ensures link { KeepsLink L.told L.patience L.opened_with L.faults L.made L.openings
            (if result then 0 else 1) link.old link.new }
    {
        match self.take_in(link) {
            Received::Datagram(count) => self.hand_on(
                config,
                tree,
                moment,
                count as usize,
                subscriber,
            ),
            Received::Long(_) => self.note_long(),
            Received::Nothing => false,
            Received::Failed => self.note_broken(),
        }
    }

    /// Receives into the buffer.
    fn take_in<L: Link>(&mut self, link: &mut L) -> Received
        requires open { IsSome (L.opened_with link.old) }
        requires room { HasBuffers self.old }
        ensures entry { Tells (L.told link.old) (L.told link.new)
            (BringsInto result self.new.buffer.items) }
        ensures sizes { FitsBuffer result self.new.buffer.items }
        ensures room { HasBuffers self.new }
        ensures rest { self.new ≡ record self.old { buffer = self.new.buffer } }
        ensures link { KeepsLink L.told L.patience L.opened_with L.faults L.made L.openings
            (nothings_in result) link.old link.new }
    {
        link.receive(&mut self.buffer)
    }

    /// A datagram of so many bytes stands at the front of the buffer: it is counted, and passed on.
    fn hand_on(
        &mut self,
        config: &Config,
        tree: &Tree,
        moment: u64,
        end: usize,
        subscriber: &mut Subscriber,
    ) -> bool
        requires good { IsGood config.now }
        requires holds { HoldSubscriber config.now subscriber.old }
        requires tree { tree.now.counts ≡ counts_of config.now }
        requires room { HasBuffers self.old }
        requires end { end ≤ longest_datagram }
        ensures taken { result ≡ true }
        ensures holds { HoldSubscriber config.now subscriber.new }
        ensures room { HasBuffers self.new }
        ensures counts { Counts (Got (take end self.old.buffer.items)) self.old self.new }
        ensures hands { HandsOn config.now (Got (take end self.old.buffer.items)) tree.now moment
            subscriber.old subscriber.new }
    {
        self.received = self.received.saturating_add(1);
        hand_front(
            config,
            tree,
            moment,
            end,
            &mut self.buffer,
            &mut self.copy,
            subscriber,
        );
        true
    }

    /// A datagram was longer than the buffer, and was dropped; it was taken.
    fn note_long(&mut self) -> bool
        ensures taken { result ≡ true }
        ensures counts { self.new ≡ record self.old { long = counted_if true self.old.long } }
    {
        self.long = self.long.saturating_add(1);
        true
    }

    /// A receive failed; nothing was taken.
    fn note_broken(&mut self) -> bool
        ensures taken { result ≡ false }
        ensures counts { self.new ≡ record self.old { broken = counted_if true self.old.broken } }
    {
        self.broken = self.broken.saturating_add(1);
        false
    }
}

/// Hands on the datagram of so many bytes at the front of a buffer.
fn hand_front(
    config: &Config,
    tree: &Tree,
    moment: u64,
    end: usize,
    buffer: &mut [u8],
    copy: &mut [u8],
    subscriber: &mut Subscriber,
)
    requires good { IsGood config.now }
    requires holds { HoldSubscriber config.now subscriber.old }
    requires tree { tree.now.counts ≡ counts_of config.now }
    requires buffer { end ≤ length buffer.old }
    requires copy { end ≤ length copy.old }
    ensures holds { HoldSubscriber config.now subscriber.new }
    ensures hands { HandsOn config.now (Got (take end buffer.old)) tree.now moment
        subscriber.old subscriber.new }
{
    subscriber.hand_on(config, tree, moment, &mut buffer[..end], &mut copy[..end]);
}
