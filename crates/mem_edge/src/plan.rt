//! What a send queues beside its own datagram, by number: sorted once, when the link is opened.
ghost use Rattle.std.specs.Prelude.{◌≡◌, map, IfOk};
ghost use Rattle.std.specs.List.{enumerate_from, filter_map};
ghost use Rattle.std.specs.Option.{option_map_or};
ghost use Rattle.mem_edge.specs.Contents.{injections};
ghost use Rattle.mem_edge.specs.Holds.{hold_of};
ghost use Rattle.mem_edge.specs.Queueing.{copies_of};

use crate::timetable::Timetable;
use std::alloc::{AllocError, Global};
use ua_base::Fate;

/// The fates by their datagrams' numbers, the held datagrams by the numbers that they wait for, and the injected
/// ones by the numbers after which they come.
#[derive(Drop)]
pub struct Plan {
    pub fates: Timetable<Fate>,
    pub held: Timetable<usize>,
    pub injected: Timetable<usize>,
}

/// The number that a datagram with this fate waits for, and its own.
fn hold(number: u64, fate: Fate) -> Option<(u64, usize)>
    ensures { result ≡ hold_of number fate }
{
    match fate {
        Fate::Hold { after } => Some((after, number as usize)),
        Fate::Again { after } => Some((after, number as usize)),
        Fate::Drop => None,
        Fate::Repeat { .. } => None,
    }
}

// The datagrams that wait for others.
fn holds(alloc: Global, fates: &[(u64, Fate)]) -> Result<Vec<(u64, usize)>, AllocError>
    ensures { IfOk result (λ held. held.items ≡ filter_map (λ f. hold_of f.0 f.1) fates.now) }
{
    fates
        .iter()
        .filter_map(|fate| hold(fate.0, fate.1))
        .collect(alloc)
}

// The injected datagrams' numbers, each with its place in the list.
fn places(alloc: Global, injected: &[(u64, Vec<u8>)]) -> Result<Vec<(u64, usize)>, AllocError>
    ensures { IfOk result (λ placed. placed.items
        ≡ map (λ e. (e.1.0, e.0)) (enumerate_from 0 injected.now)) }
{
    injected
        .iter()
        .enumerate()
        .map(|(place, pair)| (pair.0, place))
        .collect(alloc)
}

/// How often a datagram with this fate comes when it is sent.
fn copies(fate: Fate) -> usize
    ensures { result ≡ copies_of fate }
{
    match fate {
        Fate::Drop => 0,
        Fate::Repeat { times } => times as usize,
        Fate::Hold { .. } => 0,
        Fate::Again { .. } => 1,
    }
}

impl Plan {
    ghost use Rattle.mem_edge.specs.Plans.{IsPlan};
    ghost use Rattle.mem_edge.specs.Queueing.{fate_of};

    /// Nothing is planned.
    pub fn empty(alloc: Global) -> Plan {
        Plan {
            fates: Timetable::empty(alloc),
            held: Timetable::empty(alloc),
            injected: Timetable::empty(alloc),
        }
    }

    pub fn new(
        alloc: Global,
        fates: &[(u64, Fate)],
        injected: &[(u64, Vec<u8>)],
    ) -> Result<Plan, AllocError>
        ensures { IfOk result (IsPlan fates.now (injections injected.now)) }
    {
        let fates = Timetable::new(Vec::from_slice(alloc, fates)?)?;
        let held = Timetable::new(holds(alloc, &fates.pairs)?)?;
        let injected = Timetable::new(places(alloc, injected)?)?;
        Ok(Plan {
            fates,
            held,
            injected,
        })
    }

    /// How often the datagram of this number comes when it is sent.
    pub fn copies(&self, number: u64) -> usize
        ensures { result ≡ option_map_or copies_of (fate_of self.now.fates.pairs.items number) 1 }
    {
        match self.fates.at(number).first() {
            Some(fate) => copies(fate.1),
            None => 1,
        }
    }
}
