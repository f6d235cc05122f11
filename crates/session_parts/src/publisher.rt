//! The publisher's part: senders, groups with their turns, and what came of their sends.
ghost use Rattle.std.specs.Prelude.{◌≡◌, Some, None, ◌||◌, [], ◌≤◌, ◌<◌, ℕ, List, Bool, IsTrue, IsSome, IfSome, length, slice_index_or, take, vec_len, true, false};
ghost use Rattle.dataset_meta.specs.Metas.{MetaData};
ghost use Rattle.ua_base.specs.Links.{KeepsLink};
ghost use Rattle.pubsub_states.specs.Components.{IsAmong, counts_of};
ghost use Rattle.pubsub_states.specs.States.{state_of, is_operational};
ghost use Rattle.pubsub_states.specs.declared.component.Component.TheVariants.{Group as GroupOf, Writer as WriterOf};
ghost use Rattle.ps_config.specs.declared.parts.Config.{Config as ConfigValue};
ghost use Rattle.writer_group.specs.Standing.{IsGood, IsMadeFor, IsReserved, MayGoOn, datagrams_in, index_of, writer_count, GoesOnRefreshed, IsRefreshed, IsStillMade, KeepsOnLogging};
ghost use Rattle.writer_group.specs.Limits.{most_datagrams};
ghost use Rattle.ps_config.specs.declared.parts.GroupPart.{GroupPart as PartValue};
ghost use Rattle.session_model.specs.Deeds.{Deed, RefreshedBelow, is_spent, rekeyed, writers_on, has_turn};
ghost use Rattle.writer_group.specs.Parts.{group_at};
ghost use Rattle.session_parts.specs.Holding.{AreGroups, AreStillLogged, HoldPublisher};
ghost use Rattle.session_parts.specs.Standing.{HavePast, HaveSent};
ghost use Rattle.session_parts.specs.Refreshed.{AllGoOn, AllGoOnGrown, GoesOn, GoesOnGrown, HaveDone, HaveDoneIf, HaveRefreshedSet, IsRefreshedBelow, IsRefreshedIf, IsRefreshedOf, StaysMadeFor};
ghost use Rattle.session_parts.specs.Ticking.{TickData, ClearsSends, IsBefore, HasNoted, MayPassAll, MayTurn, TakesTurn, KnowsSpent, TurnEach, MayPass, OthersStay, TellsFaults, is_spent_by, now_of, AllGoOnAfter, AreSent, AreWritersOn, GoesOnAfter, HasItsTurn, HasPart, HaveParts, IsAdvancedBy, IsSent, IsUnspent, is_changed_in, is_faulty, HasHalted, HaveHalted, IsUnsent, SendsHalt};
ghost use Rattle.message_guard.specs.Senders.{IsSender};
ghost use Rattle.session_parts.specs.declared.sends.GroupSends.{GroupSends as SendsOf};

use crate::sends::{GroupSends, LinkSends};
use dataset_meta::Meta;
use message_guard::Sender;
use ps_config::{Config, GroupPart, MOST_WRITERS};
use pubsub_states::{Component, Tree, ids_are_places_in_order};
use ua_base::{Link, Sent, Ticked};
use writer_group::{Datagrams, Group, Sampled};

/// The publisher's part of a configuration (OPC 10000-14 6.2.6, WriterGroup).
#[derive(Drop)]
pub struct Publisher {
    /// Its groups, in its order.
    pub groups: Vec<Group>,
    /// The senders of its key groups, in its order. Groups with one key group share its sender.
    pub senders: Vec<Sender>,
    /// The datagrams of the last turn, of whichever group.
    pub out: Datagrams,
    /// What came of the sends of each group.
    pub sends: Vec<GroupSends>,
    /// What came of all sends.
    pub link: LinkSends,
}

/// What all groups are given of a tick.
#[derive(Clone, Copy)]
pub struct Told<'a> {
    pub config: &'a Config,
    /// The present meta of each data set.
    pub metas: &'a [Meta],
    /// The row of each data set that was sampled for the tick.
    pub rows: &'a [Sampled],
    /// The moment that the tick comes to, in milliseconds.
    pub moment: u64,
    /// Whether it is the closing tick, in which each Operational group has its turn.
    pub closing: bool,
}

impl Publisher {
    /// Each sender turns to the moment, in milliseconds. A changed token refreshes the writers of its groups: the next frame
    /// of each is a key frame.
    pub fn come_to(&mut self, config: &Config, moment: u64)
        requires good { IsGood config.now }
        requires holds { HoldPublisher config.now self.old }
        ensures holds { HoldPublisher config.now self.new }
        ensures past { (metas : List MetaData) (deeds : List Deed)
            → HaveSent config.now deeds self.old.senders.items
            → HavePast config.now metas deeds self.old.groups.items
            → HavePast config.now metas (rekeyed config.now moment deeds) self.new.groups.items }
        ensures senders { (deeds : List Deed) → HaveSent config.now deeds self.old.senders.items
            → HaveSent config.now (rekeyed config.now moment deeds) self.new.senders.items }
        ensures goes_on { AllGoOn config.now self.old.groups.items self.new.groups.items }
        ensures logs { AreStillLogged self.old.groups.items self.new.groups.items }
        ensures rest { self.new ≡ record self.old {
          groups = self.new.groups;
          senders = self.new.senders;
        } }
    {
        let is_changed = self.turn_senders(moment);
        for g in 0..self.groups.len() {
            let is_new = is_rekeyed(group_part(config, g), &is_changed);
            self.refresh_if(config, g as u8, is_new);
        }
    }

    /// Turns all senders to the moment; which of their tokens changed.
    fn turn_senders(&mut self, moment: u64) -> [bool; 4]
        requires few { vec_len self.old.senders ≤ 4 }
        ensures each { TurnEach moment self.old.senders.items self.new.senders.items result }
        ensures rest { self.new ≡ record self.old { senders = self.new.senders } }
    {
        let mut is_changed = [false; 4];
        for k in 0..self.senders.len() {
            is_changed[k] = self.senders[k].turn_to(moment);
        }
        is_changed
    }

    /// Where the token of a group is new, its writers are refreshed.
    fn refresh_if(&mut self, config: &Config, group: u8, is_new: bool)
        requires good { IsGood config.now }
        requires groups { AreGroups config.now self.old.groups.items }
        ensures groups { AreGroups config.now self.new.groups.items }
        ensures past { HaveDoneIf config.now is_new (RefreshedBelow (GroupOf group))
            self.old.groups.items self.new.groups.items }
        ensures goes_on { AllGoOn config.now self.old.groups.items self.new.groups.items }
        ensures logs { AreStillLogged self.old.groups.items self.new.groups.items }
        ensures rest { self.new ≡ record self.old { groups = self.new.groups } }
    {
        if !is_new {
            return;
        }
        self.refresh_below(config, Component::Group { group });
    }

    /// The writers at or below a component are refreshed: the next frame of each is a key frame.
    pub fn refresh_below(&mut self, config: &Config, component: Component)
        requires good { IsGood config.now }
        requires groups { AreGroups config.now self.old.groups.items }
        ensures groups { AreGroups config.now self.new.groups.items }
        ensures past { HaveDone config.now (RefreshedBelow component)
            self.old.groups.items self.new.groups.items }
        ensures goes_on { AllGoOn config.now self.old.groups.items self.new.groups.items }
        ensures logs { AreStillLogged self.old.groups.items self.new.groups.items }
        ensures rest { self.new ≡ record self.old { groups = self.new.groups } }
    {
        for g in 0..self.groups.len() {
            refresh_below(
                &mut self.groups[g],
                group_part(config, g),
                g as u8,
                component,
            );
        }
    }

    /// The writers of the data set with this index are refreshed. Its meta may be another from now on, and the next frame
    /// of each is a key frame.
    pub fn refresh_set(&mut self, config: &Config, set: u8)
        requires good { IsGood config.now }
        requires groups { AreGroups config.now self.old.groups.items }
        ensures groups { AreGroups config.now self.new.groups.items }
        ensures past { HaveRefreshedSet config.now set self.old.groups.items self.new.groups.items }
        ensures goes_on { AllGoOnGrown config.now set self.old.groups.items self.new.groups.items }
        ensures logs { AreStillLogged self.old.groups.items self.new.groups.items }
        ensures rest { self.new ≡ record self.old { groups = self.new.groups } }
    {
        for g in 0..self.groups.len() {
            refresh_set(&mut self.groups[g], group_part(config, g), set);
        }
    }

    /// A tick begins: no group has a failed send. The counts stay.
    pub fn clear(&mut self)
        ensures sends { ClearsSends self.old.sends.items self.new.sends.items }
        ensures rest { self.new ≡ record self.old { sends = self.new.sends } }
    {
        for g in 0..self.sends.len() {
            self.sends[g].is_failing = false;
        }
    }

    /// Tells the tree which groups have a fault (OPC 10000-14 6.2.1, PubSubState): those whose last send failed, and those
    /// whose sender has less than 1,024 numbers left under its token.
    pub fn tell(&self, config: &Config, tree: &mut Tree)
        requires good { IsGood config.now }
        requires holds { HoldPublisher config.now self.now }
        requires tree { tree.old.counts ≡ counts_of config.now }
        ensures counts { tree.new.counts ≡ tree.old.counts }
        ensures faults { TellsFaults config.now self.now tree.old tree.new }
    {
        ids_are_places_in_order();
        for g in 0..self.groups.len() {
            let id = tree.components().id(Component::Group { group: g as u8 });
            tree.fault(id, self.has_fault(group_part(config, g), g));
        }
    }

    /// Whether the last send of a group failed, or its sender is spent.
    fn has_fault(&self, group: &GroupPart, g: usize) -> bool
        requires within { g < vec_len self.now.sends }
        requires keyed { IfSome group.now.keygroup (λ k. k < length self.now.senders.items) }
        ensures { (d : SendsOf) → result ≡ is_faulty self.now group.now g d }
    {
        if self.sends[g].is_failing {
            return true;
        }
        self.is_spent(group)
    }

    /// Whether a group is secured, and its sender has less than 1,024 numbers left under its token.
    fn is_spent(&self, group: &GroupPart) -> bool
        requires { IfSome group.now.keygroup (λ k. k < length self.now.senders.items) }
        ensures { result ≡ is_spent_by self.now.senders.items group.now.keygroup }
    {
        match group.keygroup {
            Some(k) => self.senders[usize::from(k)].spent(),
            None => false,
        }
    }

    /// The parts of all groups in a tick, in order, once the senders came to its moment. Want of memory comes from a send of
    /// the link alone, and ends the tick there: the groups after it have no turn.
    pub fn pass_all<L: Link>(&mut self, told: &Told<'_>, tree: &mut Tree, link: &mut L) -> Ticked
        requires open { IsSome (L.opened_with link.old) }
        requires may { MayPassAll told.now self.old tree.old }
        ensures holds { HoldPublisher told.now.config.now self.new }
        ensures tree { tree.new.counts ≡ tree.old.counts }
        ensures goes_on { AllGoOnAfter told.now self.old self.new }
        ensures logs { AreStillLogged self.old.groups.items self.new.groups.items }
        ensures passed { result ≡ Ticked.Done → HaveParts told.now self.old self.new
            tree.old tree.new (L.told link.old) (L.told link.new) }
        ensures halted { result ≡ Ticked.Memory → HaveHalted told.now self.old self.new tree.old
            (L.told link.old) (L.told link.new) }
        ensures memory { result ≡ Ticked.Memory → IsTrue L.takes_memory }
        ensures link { KeepsLink L.told L.patience L.opened_with L.faults L.made L.openings
            0 link.old link.new }
    {
        for g in 0..self.groups.len() {
            match self.pass(told, g, tree, link) {
                Ticked::Done => {}
                Ticked::Memory => return Ticked::Memory,
            }
        }
        Ticked::Done
    }

    /// The part of one group in a tick (OPC 10000-14 6.2.6, PublishingInterval): its turn, if it has one, and one send of each
    /// datagram of it, in order; then the tree is informed of faults. A send that fails is counted, and the next datagram is sent
    /// all the same. Want of memory comes from a send of the link alone; the datagrams after it aren't sent.
    fn pass<L: Link>(&mut self, told: &Told<'_>, g: usize, tree: &mut Tree, link: &mut L) -> Ticked
        requires open { IsSome (L.opened_with link.old) }
        requires may { MayPass told.now g self.old tree.old }
        ensures holds { HoldPublisher told.now.config.now self.new }
        ensures tree { tree.new.counts ≡ tree.old.counts }
        ensures spent { KnowsSpent told.now.config.now self.new.senders.items tree.new }
        ensures goes_on { GoesOnAfter told.now g self.old self.new }
        ensures logs { AreStillLogged self.old.groups.items self.new.groups.items }
        ensures others { OthersStay g self.old.groups.items self.new.groups.items }
        ensures passes { result ≡ Ticked.Done → HasPart told.now g self.old self.new
            tree.old tree.new (L.told link.old) (L.told link.new) }
        ensures halted { result ≡ Ticked.Memory → HasHalted told.now g self.old self.new tree.old
            (L.told link.old) (L.told link.new) }
        ensures memory { result ≡ Ticked.Memory → IsTrue L.takes_memory }
        ensures link { KeepsLink L.told L.patience L.opened_with L.faults L.made L.openings
            0 link.old link.new }
    {
        if !self.has_turn(told, g, tree) {
            return Ticked::Done;
        }
        let count = self.turn(told, g, tree);
        let ticked = self.send_all(g, count, link);
        self.tell(told.config, tree);
        ticked
    }

    /// The group is Operational, and due or it is the closing tick.
    fn has_turn(&self, told: &Told<'_>, g: usize, tree: &Tree) -> bool
        requires may { MayPass told.now g self.now tree.now }
        ensures unspent { IsTrue result → IsUnspent told.now g self.now }
        ensures has { (t : TickData) (so_far : List Deed) (done : List Bool)
            → IsBefore t g so_far done told.now self.now tree.now
            → result ≡ has_turn t.plan t.before (now_of t) t.closing so_far g }
    {
        let group = Component::Group { group: g as u8 };
        if !tree.state_of(group).is_operational() {
            return false;
        }
        told.closing || self.groups[g].due(told.moment)
    }

    /// A turn of the group's Operational writers; how many datagrams it makes.
    fn turn(&mut self, told: &Told<'_>, g: usize, tree: &Tree) -> u32
        requires may { MayPass told.now g self.old tree.now }
        requires unspent { IsUnspent told.now g self.old }
        ensures turned { HasItsTurn told.now g self.old self.new tree.now }
        ensures holds { HoldPublisher told.now.config.now self.new }
        ensures goes_on { GoesOnAfter told.now g self.old self.new }
        ensures logs { AreStillLogged self.old.groups.items self.new.groups.items }
        ensures others { OthersStay g self.old.groups.items self.new.groups.items }
        ensures count { result ≡ length (datagrams_in self.new.out) }
        ensures few { result ≤ most_datagrams }
        ensures rest { self.new ≡ record self.old {
          groups = self.new.groups;
          senders = self.new.senders;
          out = self.new.out;
        } }
    {
        let part = group_part(told.config, g);
        let count = part.writer.as_slice().len();
        let all_on = writers_on(tree, g as u8, count);
        let on = &all_on[..count];
        let group = &mut self.groups[g];
        match part.keygroup {
            None => turn_open(group, told, g, on, &mut self.out),
            Some(k) => turn_secured(
                group,
                told,
                g,
                on,
                &mut self.senders[usize::from(k)],
                &mut self.out,
            ),
        }
    }

    /// Sends the datagrams of the last turn in order.
    fn send_all<L: Link>(&mut self, g: usize, count: u32, link: &mut L) -> Ticked
        requires open { IsSome (L.opened_with link.old) }
        requires group { g < vec_len self.old.sends }
        requires reserved { IsReserved self.old.out }
        requires count { count ≡ length (datagrams_in self.old.out) }
        ensures sent { result ≡ Ticked.Done → AreSent g (datagrams_in self.old.out)
            self.old self.new (L.told link.old) (L.told link.new) }
        ensures halted { result ≡ Ticked.Memory → SendsHalt g (datagrams_in self.old.out)
            self.old self.new (L.told link.old) (L.told link.new) }
        ensures memory { result ≡ Ticked.Memory → IsTrue L.takes_memory }
        ensures link { KeepsLink L.told L.patience L.opened_with L.faults L.made L.openings
            0 link.old link.new }
        ensures count { vec_len self.new.sends ≡ vec_len self.old.sends }
        ensures rest { self.new ≡ record self.old {
          sends = self.new.sends;
          link = self.new.link;
        } }
    {
        for i in 0..count {
            match self.send_one(g, i, link) {
                Ticked::Done => {}
                Ticked::Memory => return Ticked::Memory,
            }
        }
        Ticked::Done
    }

    /// Sends one of them.
    fn send_one<L: Link>(&mut self, g: usize, i: u32, link: &mut L) -> Ticked
        requires open { IsSome (L.opened_with link.old) }
        requires group { g < vec_len self.old.sends }
        requires reserved { IsReserved self.old.out }
        requires index { i < length (datagrams_in self.old.out) }
        ensures sent { result ≡ Ticked.Done → IsSent g
            (slice_index_or (datagrams_in self.old.out) i []) self.old self.new
            (L.told link.old) (L.told link.new) }
        ensures unsent { result ≡ Ticked.Memory → IsUnsent self.old self.new
            (L.told link.old) (L.told link.new) }
        ensures memory { result ≡ Ticked.Memory → IsTrue L.takes_memory }
        ensures link { KeepsLink L.told L.patience L.opened_with L.faults L.made L.openings
            0 link.old link.new }
        ensures count { vec_len self.new.sends ≡ vec_len self.old.sends }
        ensures rest { self.new ≡ record self.old {
          sends = self.new.sends;
          link = self.new.link;
        } }
    {
        match link.send(self.out.get(i)) {
            Sent::Done => self.note(g, true),
            Sent::Failed => self.note(g, false),
            Sent::Memory => return Ticked::Memory,
        }
        Ticked::Done
    }

    /// Counts a send of a group.
    fn note(&mut self, g: usize, is_done: bool)
        requires { g < vec_len self.old.sends }
        ensures noted { HasNoted g is_done self.old self.new }
        ensures count { vec_len self.new.sends ≡ vec_len self.old.sends }
        ensures rest { self.new ≡ record self.old {
          sends = self.new.sends;
          link = self.new.link;
        } }
    {
        self.sends[g].note(is_done);
        self.link.note(is_done);
    }
}

/// A turn of a group that isn't secured.
pub fn turn_open(
    group: &mut Group,
    told: &Told<'_>,
    g: usize,
    on: &[bool],
    out: &mut Datagrams,
) -> u32
    requires may { MayTurn told.now g on.now None group.old }
    requires reserved { IsReserved out.old }
    ensures turned { TakesTurn told.now g on.now None result group.old group.new out.new }
    ensures few { result ≤ most_datagrams }
{
    group.tick(
        told.config,
        told.metas,
        told.moment,
        told.rows,
        on,
        None,
        told.closing,
        out,
    )
}

/// A turn of a secured group.
pub fn turn_secured(
    group: &mut Group,
    told: &Told<'_>,
    g: usize,
    on: &[bool],
    sender: &mut Sender,
    out: &mut Datagrams,
) -> u32
    requires may { MayTurn told.now g on.now (Some sender.old) group.old }
    requires reserved { IsReserved out.old }
    ensures turned { TakesTurn told.now g on.now (Some sender.old) result
        group.old group.new out.new }
    ensures few { result ≤ most_datagrams }
    ensures sender { IsAdvancedBy told.now g result sender.old sender.new }
    ensures sender_is { IsSender sender.new }
{
    group.tick(
        told.config,
        told.metas,
        told.moment,
        told.rows,
        on,
        Some(sender),
        told.closing,
        out,
    )
}

/// Whether each of so many writers of a group is Operational.
fn writers_on(tree: &Tree, group: u8, count: usize) -> [bool; MOST_WRITERS]
    requires few { count ≤ 16 }
    requires there { (w : ℕ) → w < count → IsAmong tree.now.counts (WriterOf group w) }
    ensures { AreWritersOn tree.now group count (take count result) }
{
    let mut on = [false; MOST_WRITERS];
    for w in 0..count {
        let writer = w as u8;
        on[w] = tree
            .state_of(Component::Writer { group, writer })
            .is_operational();
    }
    on
}

/// Whether a group is secured, and the token of its key group changed.
fn is_rekeyed(group: &GroupPart, is_changed: &[bool; 4]) -> bool
    requires { IfSome group.now.keygroup (λ k. k < 4) }
    ensures { result ≡ is_changed_in is_changed.now group.now.keygroup }
{
    match group.keygroup {
        Some(k) => is_changed[usize::from(k)],
        None => false,
    }
}

/// The writers of a group at or below a component are refreshed.
fn refresh_below(group: &mut Group, part: &GroupPart, g: u8, component: Component)
    requires few { length part.now.writer ≤ 16 }
    requires made { (config : ConfigValue) × IsMadeFor config part.now group.old }
    ensures index { index_of group.new ≡ index_of group.old }
    ensures made { StaysMadeFor part.now group.old group.new }
    ensures stands { IsRefreshedBelow component g part.now group.old group.new }
    ensures goes_on { GoesOn part.now group.old group.new }
    ensures logs { KeepsOnLogging group.old group.new }
{
    for w in 0..part.writer.as_slice().len() {
        let writer = Component::Writer {
            group: g,
            writer: w as u8,
        };
        refresh_if(group, w as u8, component.is_at_or_above(writer));
    }
}

/// Where it is at or below the component, a writer is refreshed.
fn refresh_if(group: &mut Group, writer: u8, is_below: bool)
    requires there { writer < writer_count group.old }
    ensures index { index_of group.new ≡ index_of group.old }
    ensures made { IsStillMade group.old group.new }
    ensures stands { IsRefreshedIf is_below writer group.old group.new }
    ensures goes_on { (metas : ℕ → MetaData) (part : PartValue) (turns : ℕ)
        → MayGoOn metas part turns group.old → MayGoOn metas part turns group.new }
    ensures logs { KeepsOnLogging group.old group.new }
{
    if !is_below {
        return;
    }
    group.refresh(writer);
}

/// The writers of a group that are of this data set are refreshed.
fn refresh_set(group: &mut Group, part: &GroupPart, set: u8)
    requires few { length part.now.writer ≤ 16 }
    requires made { (config : ConfigValue) × IsMadeFor config part.now group.old }
    ensures index { index_of group.new ≡ index_of group.old }
    ensures made { StaysMadeFor part.now group.old group.new }
    ensures stands { IsRefreshedOf set part.now group.old group.new }
    ensures goes_on { GoesOnGrown set part.now group.old group.new }
    ensures logs { KeepsOnLogging group.old group.new }
{
    for w in 0..part.writer.as_slice().len() {
        let is_of = part.writer.as_slice()[w].dataset == set;
        refresh_grown(group, w as u8, is_of);
    }
}

/// Where its data set is the one that may have grown, a writer is refreshed.
fn refresh_grown(group: &mut Group, writer: u8, is_of: bool)
    requires there { writer < writer_count group.old }
    ensures index { index_of group.new ≡ index_of group.old }
    ensures made { IsStillMade group.old group.new }
    ensures kept { is_of ≡ false → group.new ≡ group.old }
    ensures stands { is_of ≡ true → IsRefreshed writer group.old group.new }
    ensures goes_on { is_of ≡ true → GoesOnRefreshed writer group.old group.new }
    ensures logs { KeepsOnLogging group.old group.new }
{
    if is_of {
        group.refresh(writer);
    }
}

/// The group with this index, as the configuration has it.
pub fn group_part(config: &Config, g: usize) -> &GroupPart
    requires { g < length config.now.group }
    ensures { result.now ≡ group_at config.now g }
{
    &config.group.as_slice()[g]
}
