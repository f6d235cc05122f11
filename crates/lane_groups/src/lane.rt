//! A lane: what one thread runs.
ghost use Rattle.std.specs.Prelude.{◌≡◌, ◌<◌, IfSome, is_some, length, slice_index_or};
ghost use Rattle.message_guard.specs.Senders.{IsSender};
ghost use Rattle.writer_group.specs.Standing.{IsGood};
ghost use Rattle.lane_groups.specs.Finding.{HasDatagram, IsFound, count_of, datagram_of};
ghost use Rattle.lane_groups.specs.Lanes.{HasMade, IsGroupIn, IsLane, IsLoggedIn, IsMadeIn, has_group, made_by};
ghost use Rattle.lane_groups.specs.Passing.{AreRefreshable, AreRefreshed, HasCome, HaveBegun, HavePassed, IsToldBy, MayPassAll};

use crate::place::{Place, pass, refresh, writers_in};
use crate::turn::{TurnIn, Work};
use group_threads::Maker;
use message_guard::Sender;
use ps_config::Config;
use session_parts::Told;
use writer_group::Group;

/// A key group with all its groups and its sender, or groups that aren't secured.
#[derive(Drop)]
pub struct Lane {
    // The key group.
    pub(crate) keygroup: Option<u8>,
    pub(crate) sender: Option<Sender>,
    // For each group of the configuration, in its order, whether it stands in this lane.
    pub(crate) places: Vec<Option<Place>>,
}

impl<'a> Maker<Work<'a>> for Lane {
    ghost use Rattle.std.specs.Prelude.{◌≡◌, ◌+◌, ◌<◌, length, slice_index_or};
    ghost use Rattle.group_threads.specs.Pairs.{AreDatagrams, no_pair};
    ghost use Rattle.lane_groups.specs.Lanes.{HasMade, HasTurn, MayTurn, made_by};

    ghost turn_count = { λ work. length work.turns.now };

    ghost made = { made_by };

    ghost has_made = { HasMade };

    ghost may_turn = { MayTurn };

    ghost turns = { HasTurn };

    fn turn(&mut self, work: &Work<'a>, number: u32)
        requires number { number < length work.now.turns.now }
        requires may { MayTurn work.now number self.old }
        ensures turns { HasTurn work.now number self.old self.new }
        ensures next { MayTurn work.now (number + 1) self.new }
        ensures has_made { HasMade self.new }
        ensures fit { AreDatagrams (made_by self.new) }
    {
        let turn = turn_at(work.turns, number);
        let told = told_of(work.config, turn);
        self.begin(work.config, turn.now);
        self.pass_all(&told);
    }

    fn count(&self) -> u32
        requires { HasMade self.now }
        ensures { result ≡ length (made_by self.now) }
    {
        let mut count = 0;
        for g in 0..self.places.len() {
            let place = &self.places[g];
            count += count_in(place);
        }
        count
    }

    fn group(&self, index: u32) -> u8
        requires has_made { HasMade self.now }
        requires index { index < length (made_by self.now) }
        ensures { result ≡ (slice_index_or (made_by self.now) index no_pair).group }
    {
        let (g, _) = self.find(index);
        g as u8
    }

    fn datagram(&self, index: u32) -> &[u8]
        requires has_made { HasMade self.now }
        requires index { index < length (made_by self.now) }
        ensures { result.now ≡ (slice_index_or (made_by self.now) index no_pair).datagram }
    {
        let (g, k) = self.find(index);
        datagram_in(&self.places[g], k)
    }
}

impl Lane {
    /// The group with this index of the configuration, if it stands in the lane.
    pub fn group(&self, index: u8) -> Option<&Group>
        ensures there { is_some result ≡ has_group self.now index }
        ensures stands { IfSome result (λ group. IsGroupIn self.now index group.now) }
        ensures made { IfSome result (λ group. IsMadeIn self.now index group.now) }
        ensures logs { IfSome result (λ group. IsLoggedIn self.now index group.now) }
    {
        let g = usize::from(index);
        if g >= self.places.len() {
            return None;
        }
        match &self.places[g] {
            Some(place) => Some(&place.group),
            None => None,
        }
    }

    /// The sender turns to the moment, in milliseconds, and a changed token refreshes the writers of all groups.
    fn begin(&mut self, config: &Config, moment: u64)
        requires good { IsGood config.now }
        requires lane { IsLane config.now self.old }
        ensures keygroup { self.new.keygroup ≡ self.old.keygroup }
        ensures begun { HaveBegun config.now moment self.old.keygroup
            self.old.places.items self.new.places.items self.old.sender self.new.sender }
    {
        if self.come_to(moment) {
            self.refresh(config);
        }
    }

    /// The sender turns to the moment, if there is one. Whether its token changed.
    fn come_to(&mut self, moment: u64) -> bool
        requires { IfSome self.old.sender IsSender }
        ensures come { HasCome moment self.old.sender result self.new.sender }
        ensures rest { self.new ≡ record self.old { sender = self.new.sender } }
    {
        match &mut self.sender {
            Some(sender) => sender.turn_to(moment),
            None => false,
        }
    }

    /// The writers of all groups are refreshed: the next frame of each is a key frame.
    fn refresh(&mut self, config: &Config)
        requires good { IsGood config.now }
        requires count { length self.old.places.items ≡ length config.now.group }
        requires placed { AreRefreshable config.now self.old.places.items }
        ensures refreshed { AreRefreshed config.now self.old.places.items self.new.places.items }
        ensures rest { self.new ≡ record self.old { places = self.new.places } }
    {
        for g in 0..self.places.len() {
            refresh(&mut self.places[g], writers_in(config, g));
        }
    }

    /// The parts of all groups in a turn, in order.
    fn pass_all(&mut self, told: &Told<'_>)
        requires { MayPassAll told.now self.old.keygroup self.old.places.items self.old.sender }
        ensures keygroup { self.new.keygroup ≡ self.old.keygroup }
        ensures passed { HavePassed told.now (length told.now.config.now.group) self.old.keygroup
            self.old.places.items self.new.places.items self.old.sender self.new.sender }
    {
        for g in 0..self.places.len() {
            pass(&mut self.places[g], told, g, &mut self.sender);
        }
    }

    /// The place of a datagram of the last turn, and its index there.
    fn find(&self, index: u32) -> (usize, u32)
        requires has_made { HasMade self.now }
        requires index { index < length (made_by self.now) }
        ensures { IsFound self.now.places.items index result.0 result.1 }
    {
        let mut left = index;
        for g in 0..self.places.len() {
            let place = &self.places[g];
            let count = count_in(place);
            if left < count {
                return (g, left);
            }
            left -= count;
        }
        unreachable!()
    }
}

/// How many datagrams the last turn of a group made.
fn count_in(place: &Option<Place>) -> u32
    ensures { result ≡ count_of place.now }
{
    match place {
        Some(place) => place.count,
        None => 0,
    }
}

/// A datagram of the last turn of a group.
fn datagram_in(place: &Option<Place>, k: u32) -> &[u8]
    requires { HasDatagram place.now k }
    ensures { result.now ≡ datagram_of place.now k }
{
    match place {
        Some(place) => place.out.get(k),
        None => unreachable!(),
    }
}

fn turn_at(turns: &[TurnIn], number: u32) -> &TurnIn
    requires { number < length turns.now }
    ensures { result.now ≡ slice_index_or turns.now number result.now }
{
    &turns[number as usize]
}

/// What groups are given of a turn. No data set grows.
fn told_of<'a>(config: &'a Config, turn: &'a TurnIn) -> Told<'a>
    ensures { IsToldBy result config.entry.now turn.entry.now }
{
    Told {
        config,
        metas: config.dataset.as_slice(),
        rows: turn.rows.as_slice(),
        moment: turn.now,
        closing: turn.closing,
    }
}
