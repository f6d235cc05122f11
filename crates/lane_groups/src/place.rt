//! A group in its lane.
ghost use Rattle.std.specs.Prelude.{◌≡◌, ◌<◌, ◌≤◌, [], ℕ, List, true, None, Some, IfOk, IfSome, length, replicate};
ghost use Rattle.message_guard.specs.Senders.{numbers_left};
ghost use Rattle.session_model.specs.Deeds.{Deed, has_turn, sender_of};
ghost use Rattle.session_parts.specs.Ticking.{MayTurn, TakesTurn};
ghost use Rattle.writer_group.specs.Limits.{most_datagrams};
ghost use Rattle.writer_group.specs.Parts.{group_at};
ghost use Rattle.writer_group.specs.Standing.{IsGood, IsReserved};
ghost use Rattle.lane_groups.specs.Deeds.{plan_of};
ghost use Rattle.lane_groups.specs.Places.{HasPast, HasWriters, IsForgotten, IsNewPlace, IsPlaceOf, IsRefreshed, IsRefreshedIf};
ghost use Rattle.lane_groups.specs.Passing.{HasAdvanced, MayPass, MayPassIf, Passes, PassesIf, Turns, spent_in};

use message_guard::Sender;
use ps_config::{Config, MOST_WRITERS};
use session_parts::{Told, group_part, turn_open, turn_secured};
use std::alloc::Global;
use ua_base::NoMemory;
use writer_group::{Datagrams, Group, a_datagram_is_not_empty};

/// A group with the datagrams of its last turn.
#[derive(Drop)]
pub(crate) struct Place {
    pub group: Group,
    pub out: Datagrams,
    /// How many datagrams there are.
    pub count: u32,
}

/// The part of one group in a turn of its lane. A group that stands in another lane has none.
pub(crate) fn pass(
    place: &mut Option<Place>,
    told: &Told<'_>,
    g: usize,
    sender: &mut Option<Sender>,
)
    requires { MayPassIf told.now g place.old sender.old }
    ensures { PassesIf told.now g place.old place.new sender.old sender.new }
{
    match place {
        Some(place) => place.pass(told, g, sender),
        None => {}
    }
}

/// The first so many writers of a group are refreshed, if the group stands in the lane: the next frame of each is a key frame.
pub(crate) fn refresh(place: &mut Option<Place>, writers: usize)
    requires few { writers ≤ 16 }
    requires made { IfSome place.old (λ p. HasWriters writers p.group) }
    ensures { IsRefreshedIf writers place.old place.new }
{
    match place {
        Some(place) => refresh_all(&mut place.group, writers),
        None => {}
    }
}

impl Place {
    /// The group with this index before its first turn, with room in its logs for so many turns.
    pub fn new(alloc: Global, config: &Config, g: u8, turns: u32) -> Result<Place, NoMemory>
        requires good { IsGood config.now }
        requires index { g < length config.now.group }
        ensures { IfOk result (IsNewPlace config.now g turns) }
    {
        let group = Group::new(alloc, config, g, turns)?;
        let out = Datagrams::new(alloc)?;
        Ok(Place {
            group,
            out,
            count: 0,
        })
    }

    /// Its turn, if it has one.
    fn pass(&mut self, told: &Told<'_>, g: usize, sender: &mut Option<Sender>)
        requires may { MayPass told.now g self.old sender.old }
        ensures { Passes told.now g self.old self.new sender.old sender.new }
    {
        a_datagram_is_not_empty();
        self.forget();
        if self.has_turn(told, sender) {
            self.turn(told, g, sender);
        }
    }

    /// Forgets the datagrams of the last turn.
    fn forget(&mut self)
        requires { IsReserved self.old.out }
        ensures { IsForgotten self.old self.new }
    {
        self.out.clear();
        self.count = 0;
    }

    /// It is due or the turn is the closing one, and its sender isn't spent.
    fn has_turn(&self, told: &Told<'_>, sender: &Option<Sender>) -> bool
        ensures unspent { result ≡ true → IfSome sender.now (λ s. most_datagrams ≤ numbers_left s) }
        ensures has { (g : ℕ) (deeds : List Deed) → IsPlaceOf told.now.config.now g self.now
            → HasPast told.now.config.now deeds g self.now
            → sender.now ≡ sender_of told.now.config.now g deeds
            → result ≡ has_turn (plan_of told.now.config.now) []
            told.now.moment told.now.closing deeds g }
    {
        if is_spent(sender) {
            return false;
        }
        told.closing || self.group.due(told.moment)
    }

    /// A turn of all its writers.
    fn turn(&mut self, told: &Told<'_>, g: usize, sender: &mut Option<Sender>)
        requires may { MayPass told.now g self.old sender.old }
        requires unspent { IfSome sender.old (λ s. most_datagrams ≤ numbers_left s) }
        ensures { Turns told.now g self.old self.new sender.old sender.new }
    {
        let count = writers_in(told.config, g);
        let all_on = every_on();
        let on = &all_on[..count];
        let made = turn_with(&mut self.group, told, g, on, sender, &mut self.out);
        self.count = made;
    }
}

fn every_on() -> [bool; MOST_WRITERS]
    ensures { result ≡ replicate 16 true }
{
    [true; MOST_WRITERS]
}

/// How many writers a group has.
pub(crate) fn writers_in(config: &Config, g: usize) -> usize
    requires { g < length config.now.group }
    ensures { result ≡ length (group_at config.now g).writer }
{
    group_part(config, g).writer.as_slice().len()
}

/// Whether there is a sender, and it has fewer than 1,024 numbers left under its token.
fn is_spent(sender: &Option<Sender>) -> bool
    ensures { result ≡ spent_in sender.now }
{
    match sender {
        Some(sender) => sender.spent(),
        None => false,
    }
}

fn refresh_all(group: &mut Group, writers: usize)
    requires few { writers ≤ 16 }
    requires made { HasWriters writers group.old }
    ensures { IsRefreshed writers group.old group.new }
{
    for w in 0..writers {
        group.refresh(w as u8);
    }
}

/// A turn of a group, with its sender where it is secured.
fn turn_with(
    group: &mut Group,
    told: &Told<'_>,
    g: usize,
    on: &[bool],
    sender: &mut Option<Sender>,
    out: &mut Datagrams,
) -> u32
    requires may { MayTurn told.now g on.now sender.old group.old }
    requires reserved { IsReserved out.old }
    ensures turned { TakesTurn told.now g on.now sender.old result group.old group.new out.new }
    ensures few { result ≤ most_datagrams }
    ensures sender { HasAdvanced told.now g result sender.old sender.new }
{
    match sender {
        None => turn_open(group, told, g, on, out),
        Some(sender) => turn_secured(group, told, g, on, sender, out),
    }
}
