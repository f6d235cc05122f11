//! The lanes of a configuration.
ghost use Rattle.std.specs.Prelude.{◌≡◌, ◌+◌, ◌<◌, ◌==◌, true, false, None, IfOk, is_some, length};
ghost use Rattle.std.specs.Option.{option_map_or};
ghost use Rattle.writer_group.specs.Parts.{group_at};
ghost use Rattle.writer_group.specs.Standing.{IsGood};
ghost use Rattle.reader_group.specs.Settings.{keygroup_at};
ghost use Rattle.lane_groups.specs.Making.{AreKeyedLanes, AreNewPlaces, IsKeyedLane, IsNewPlaceIf, IsOpenLane, LanesTo, is_member};
ghost use Rattle.lane_groups.specs.Running.{AreLanes};

use crate::lane::Lane;
use crate::place::Place;
use ps_config::{Config, KeyGroupPart};
use session_parts::{group_part, sender_of};
use std::alloc::Global;
use ua_base::NoMemory;

/// Which groups stand in a lane: those of a key group, or one.
#[derive(Clone, Copy)]
enum Members {
    KeyGroup(u8),
    Group(u8),
}

/// The lanes of a configuration before their first turns, with room in the logs of their groups for so many turns: one for each
/// key group, and one for each group that isn't secured. An error says that memory ran out.
pub fn lanes_of(alloc: Global, config: &Config, turns: u32) -> Result<Vec<Lane>, NoMemory>
    requires good { IsGood config.now }
    ensures { IfOk result (λ lanes. AreLanes config.now turns lanes.items) }
{
    let mut lanes = keyed_lanes(alloc, config, turns)?;
    for g in 0..config.group.as_slice().len() {
        add_open(alloc, config, g, turns, &mut lanes)?;
    }
    Ok(lanes)
}

/// Adds the lane of a group, if the group isn't secured.
fn add_open(
    alloc: Global,
    config: &Config,
    g: usize,
    turns: u32,
    lanes: &mut Vec<Lane>,
) -> Result<(), NoMemory>
    requires good { IsGood config.now }
    requires index { g < length config.now.group }
    ensures { IfOk result (λ _. LanesTo config.now turns g lanes.old.items
        → LanesTo config.now turns (g + 1) lanes.new.items) }
{
    if is_open(config, g) {
        lanes.push(open_lane(alloc, config, g as u8, turns)?)?;
    }
    Ok(())
}

/// A lane for each key group.
fn keyed_lanes(alloc: Global, config: &Config, turns: u32) -> Result<Vec<Lane>, NoMemory>
    requires good { IsGood config.now }
    ensures { IfOk result (λ lanes. AreKeyedLanes config.now turns lanes.items) }
{
    let mut lanes = Vec::new(alloc);
    for k in 0..config.keygroup.as_slice().len() {
        lanes.push(keyed_lane(alloc, config, k as u8, turns)?)?;
    }
    Ok(lanes)
}

/// Whether a group isn't secured.
fn is_open(config: &Config, g: usize) -> bool
    requires { g < length config.now.group }
    ensures unsecured { result ≡ true → (group_at config.now g).keygroup ≡ None }
    ensures keyed { result ≡ false → is_some (group_at config.now g).keygroup ≡ true }
{
    match group_part(config, g).keygroup {
        Some(_) => false,
        None => true,
    }
}

/// The groups of a key group, with its sender.
fn keyed_lane(alloc: Global, config: &Config, k: u8, turns: u32) -> Result<Lane, NoMemory>
    requires good { IsGood config.now }
    requires index { k < length config.now.keygroup }
    ensures { IfOk result (IsKeyedLane config.now turns k) }
{
    let places = places_of(alloc, config, Members::KeyGroup(k), turns)?;
    Ok(Lane {
        keygroup: Some(k),
        sender: Some(sender_of(keygroup_part(config, usize::from(k)))),
        places,
    })
}

/// The key group with this index, as the configuration has it.
fn keygroup_part(config: &Config, k: usize) -> &KeyGroupPart
    requires { k < length config.now.keygroup }
    ensures { result.now ≡ keygroup_at config.now k }
{
    &config.keygroup.as_slice()[k]
}

/// A group that isn't secured.
fn open_lane(alloc: Global, config: &Config, index: u8, turns: u32) -> Result<Lane, NoMemory>
    requires good { IsGood config.now }
    requires index { index < length config.now.group }
    requires unsecured { (group_at config.now index).keygroup ≡ None }
    ensures { IfOk result (IsOpenLane config.now turns index) }
{
    let places = places_of(alloc, config, Members::Group(index), turns)?;
    Ok(Lane {
        keygroup: None,
        sender: None,
        places,
    })
}

fn places_of(
    alloc: Global,
    config: &Config,
    members: Members,
    turns: u32,
) -> Result<Vec<Option<Place>>, NoMemory>
    requires good { IsGood config.now }
    ensures { IfOk result (λ places. AreNewPlaces config.now turns members places.items) }
{
    let mut places = Vec::new(alloc);
    for g in 0..config.group.as_slice().len() {
        places.push(place_if(alloc, config, members, g as u8, turns)?)?;
    }
    Ok(places)
}

/// The place of a group, if it is among the members.
fn place_if(
    alloc: Global,
    config: &Config,
    members: Members,
    g: u8,
    turns: u32,
) -> Result<Option<Place>, NoMemory>
    requires good { IsGood config.now }
    requires index { g < length config.now.group }
    ensures { IfOk result (IsNewPlaceIf config.now g turns (is_member config.now members g)) }
{
    if !has(config, members, g) {
        return Ok(None);
    }
    Ok(Some(Place::new(alloc, config, g, turns)?))
}

fn has(config: &Config, members: Members, g: u8) -> bool
    requires { g < length config.now.group }
    ensures { result ≡ is_member config.now members g }
{
    match members {
        Members::KeyGroup(k) => is_of(group_part(config, usize::from(g)).keygroup, k),
        Members::Group(other) => g == other,
    }
}

fn is_of(keygroup: Option<u8>, k: u8) -> bool
    ensures { result ≡ option_map_or (λ other. other == k) keygroup false }
{
    match keygroup {
        Some(other) => other == k,
        None => false,
    }
}
