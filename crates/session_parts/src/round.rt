//! What a session and a gateway alike go round with: time, states, what is sent and what is received.
ghost use Rattle.std.specs.Prelude.{◌≡◌, ◌<◌, ◌≤◌, ◌^◌, ◌↔◌, IsTrue, IsSome, IfOk, List, length};
ghost use Rattle.dataset_meta.specs.Metas.{MetaData};
ghost use Rattle.group_keys.specs.Ring.{key_sets};
ghost use Rattle.ua_base.specs.Links.{KeepsLink};
ghost use Rattle.pubsub_states.specs.Components.{counts_of};
ghost use Rattle.writer_group.specs.Standing.{IsGood};
ghost use Rattle.session_model.specs.Counts.{most_taken};
ghost use Rattle.session_parts.specs.Befalling.{HaveStoppedBelow};
ghost use Rattle.session_parts.specs.Holding.{AreAllLogged, AreStillLogged, HoldSubscriber, MayAllGoOn};
ghost use Rattle.session_parts.specs.Pumping.{TellsReaders};
ghost use Rattle.session_parts.specs.Renewing.{IsTokenKept};
ghost use Rattle.session_parts.specs.Rounds.{HoldRound, IsUnstepped, MayTickRound, RoundBegun, RoundHalts, RoundPumps, RoundRenews, RoundTicks};
ghost use Rattle.session_parts.specs.Ticking.{AllGoOnAfter};

use crate::making::{publisher_of, subscriber_of};
use crate::publisher::{Publisher, Told};
use crate::receiving::Receiving;
use crate::subscriber::Subscriber;
use group_keys::Ring;
use ps_config::Config;
use pubsub_states::{Component, Tree};
use std::alloc::Global;
use ua_base::{Link, NoMemory, Pumped, Ticked};

/// A configuration at work over a link: publisher and subscriber, the time that they were given, and their states. All memory was
/// taken when it was opened.
#[derive(Drop)]
pub struct Round {
    /// Milliseconds since it was opened.
    pub moment: u64,
    /// The components, with their states.
    pub tree: Tree,
    pub publisher: Publisher,
    pub subscriber: Subscriber,
    pub receiving: Receiving,
}

impl Round {
    /// Before the first step: each group may have so many turns, and the log of each writer keeps its first `logged` data frames.
    /// An error says that memory ran out.
    pub fn open(alloc: Global, config: &Config, turns: u64, logged: u32) -> Result<Round, NoMemory>
        requires good { IsGood config.now }
        requires turns { turns ≤ 2 ^ 62 }
        ensures holds { IfOk result (HoldRound config.now) }
        ensures stands { IfOk result
            (λ round. (full : List MetaData) → IsUnstepped config.now full round) }
        ensures goes_on { IfOk result
            (λ round. MayAllGoOn config.now config.now.dataset turns round.publisher.groups.items) }
        ensures logged { IfOk result
            (λ round. AreAllLogged logged round.publisher.groups.items) }
    {
        let mut tree = Tree::new(alloc, config)?;
        let publisher = publisher_of(alloc, config, turns, logged)?;
        publisher.tell(config, &mut tree);
        Ok(Round {
            moment: 0,
            tree,
            publisher,
            subscriber: subscriber_of(alloc, config)?,
            receiving: Receiving::new(alloc)?,
        })
    }

    /// A tick: time comes to the given moment, then each group has its part. Want of memory comes from a send of the link
    /// alone, and ends the tick there.
    pub fn tick<L: Link>(&mut self, told: &Told<'_>, link: &mut L) -> Ticked
        requires open { IsSome (L.opened_with link.old) }
        requires may { MayTickRound told.now self.old }
        ensures holds { HoldRound told.now.config.now self.new }
        ensures moment { self.new.moment ≡ told.now.moment }
        ensures goes_on { AllGoOnAfter told.now self.old.publisher self.new.publisher }
        ensures logs { AreStillLogged
            self.old.publisher.groups.items self.new.publisher.groups.items }
        ensures ticked { result ≡ Ticked.Done
            → RoundTicks told.now self.old self.new (L.told link.old) (L.told link.new) }
        ensures halted { result ≡ Ticked.Memory
            → RoundHalts told.now self.old (L.told link.old) (L.told link.new) }
        ensures memory { result ≡ Ticked.Memory → IsTrue L.takes_memory }
        ensures link { KeepsLink L.told L.patience L.opened_with L.faults L.made L.openings
            0 link.old link.new }
    {
        self.begin(told);
        self.publisher.pass_all(told, &mut self.tree, link)
    }

    /// What comes before the groups' parts: time goes on, senders turn to it, timers expire, no group has a failed send any more,
    /// and the tree is informed.
    fn begin(&mut self, told: &Told<'_>)
        requires good { IsGood told.now.config.now }
        requires holds { HoldRound told.now.config.now self.old }
        ensures holds { HoldRound told.now.config.now self.new }
        ensures begun { RoundBegun told.now self.old self.new }
    {
        self.moment = told.moment;
        self.publisher.come_to(told.config, told.moment);
        self.subscriber.expire(told.moment);
        self.publisher.clear();
        self.subscriber.tell(told.config, &mut self.tree);
        self.publisher.tell(told.config, &mut self.tree);
    }

    /// Receives what came, as `Receiving::pump` does, and tells the tree of the readers.
    pub fn pump<L: Link>(&mut self, config: &Config, link: &mut L) -> Pumped
        requires open { IsSome (L.opened_with link.old) }
        requires good { IsGood config.now }
        requires holds { HoldRound config.now self.old }
        ensures holds { HoldRound config.now self.new }
        ensures pumped { RoundPumps config.now result.taken self.old self.new
            (L.told link.old) (L.told link.new) }
        ensures limit { IsTrue result.limit ↔ (result.taken ≡ most_taken) }
        ensures rest { self.new ≡ record self.old {
          tree = self.new.tree;
          subscriber = self.new.subscriber;
          receiving = self.new.receiving;
        } }
        ensures link { KeepsLink L.told L.patience L.opened_with L.faults L.made L.openings
            1 link.old link.new }
    {
        let pumped = self.receiving.pump(
            config,
            &self.tree,
            self.moment,
            &mut self.subscriber,
            link,
        );
        self.subscriber.tell(config, &mut self.tree);
        pumped
    }

    /// Cuts the readers at or below a component, and tells the tree of the readers.
    pub fn stop_below(&mut self, config: &Config, component: Component)
        requires good { IsGood config.now }
        requires subscriber { HoldSubscriber config.now self.old.subscriber }
        requires tree { self.old.tree.counts ≡ counts_of config.now }
        ensures subscriber { HoldSubscriber config.now self.new.subscriber }
        ensures counts { self.new.tree.counts ≡ self.old.tree.counts }
        ensures stopped { HaveStoppedBelow config.now component
            self.old.subscriber self.new.subscriber }
        ensures groups { self.new.subscriber ≡ record self.old.subscriber {
          groups = self.new.subscriber.groups;
        } }
        ensures told { TellsReaders config.now self.new.subscriber self.old.tree self.new.tree }
        ensures rest { self.new ≡ record self.old {
          tree = self.new.tree;
          subscriber = self.new.subscriber;
        } }
    {
        self.subscriber.stop_below(config, component);
        self.subscriber.tell(config, &mut self.tree);
    }

    /// A key group goes on with another ring, of the same key length: the read groups that share its keys, and its sender. The
    /// answer is whether the ring has the sender's token in use, with the same keys.
    pub fn renew(&mut self, config: &Config, key_group: u8, ring: Ring) -> bool
        requires holds { HoldRound config.now self.old }
        requires there { key_group < length config.now.keygroup }
        ensures holds { HoldRound config.now self.new }
        ensures kept { IsTokenKept key_group (key_sets ring)
            self.old.publisher.senders.items result }
        ensures renewed { RoundRenews config.now key_group (key_sets ring) self.old self.new }
        ensures groups { self.new.publisher.groups ≡ self.old.publisher.groups }
        ensures moment { self.new.moment ≡ self.old.moment }
    {
        self.subscriber.renew(config, key_group, &ring);
        self.publisher.renew(key_group, ring)
    }
}
