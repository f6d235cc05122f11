//! The components of a configuration in the order of their ids.
ghost use Rattle.std.specs.Prelude.{◌≡◌, ◌+◌, ◌≤◌, ◌∷◌, ◌++◌, IfOk, OnOk, All, length, map, position, slice_index, sum};
ghost use Rattle.std.specs.List.{range_with_len};
ghost use Rattle.std.specs.Str.{bytes_eq};
ghost use Rattle.pubsub_states.specs.Components.{components, counts_of, families, before_family, IsAmong};
ghost use Rattle.pubsub_states.specs.Names.{name_of};
ghost use Rattle.pubsub_states.specs.Halves.{head_of, member_of};
ghost use Rattle.pubsub_states.specs.Listed.{AreHeadIds};

use crate::component::Component;
use crate::half::Half;
use arrayvec::ArrayVec;
use ps_config::{Config, GroupPart, ReadGroupPart};
use std::alloc::Global;
use std::marker::Model;
use ua_base::NoMemory;

/// The components of a configuration. Their ids count from 0: root, connection, each group followed by
/// its writers, each read group followed by its readers.
#[derive(Drop)]
pub struct Components {
    writers: ArrayVec<u8, 4>,
    readers: ArrayVec<u8, 4>,
    // The ids of the groups and of the read groups, and after the last of each the id that comes next.
    group_ids: [u8; 5],
    read_group_ids: [u8; 5],
    in_order: Vec<Component>,
}

impl Model for Components {
    ghost use Rattle.pubsub_states.specs.Components.{Counts};
    ghost use Rattle.pubsub_states.specs.Listed.{IsListed};

    ghost Value = { Counts };

    ghost view = { λ c. record { writers = c.writers.items; readers = c.readers.items } };

    ghost invariant = { λ c. IsListed c.writers.items c.readers.items c.group_ids c.read_group_ids
        c.in_order.items };
}

impl Components {
    ghost use Rattle.std.specs.Prelude.{◌≡◌, ◌+◌, ◌≤◌, Some, IfOk, IfSome, length, slice_get, slice_index};
    ghost use Rattle.ps_config.specs.Sound.{IsFew};
    ghost use Rattle.pubsub_states.specs.Components.{counts_of, components, IsAmong, IsId, id_of, first_read_group, before_family};
    ghost use Rattle.pubsub_states.specs.Names.{id_named};

    pub fn new(alloc: Global, config: &Config) -> Result<Components, NoMemory>
        requires { IsFew config.now }
        ensures { IfOk result (λ made. made ≡ counts_of config.now) }
    {
        let writers = writer_counts(config.group.as_slice());
        let readers = reader_counts(config.readgroup.as_slice());
        let in_order = listed(alloc, writers.as_slice(), readers.as_slice())?;
        let group_ids = head_ids(2, writers.as_slice());
        let read_group_ids = head_ids(group_ids[writers.len()], readers.as_slice());
        Ok(Components {
            writers,
            readers,
            group_ids,
            read_group_ids,
            in_order,
        })
    }

    /// All of them, in the order of their ids.
    pub fn as_slice(&self) -> &[Component]
        ensures all { result.now ≡ components self.now }
        ensures few { length result.now ≤ 42 }
    {
        &self.in_order
    }

    /// The component that has an id.
    pub fn component(&self, id: u8) -> Component
        requires { IsId self.now id }
        ensures place { slice_get (components self.now) id ≡ Some result }
        ensures among { IsAmong self.now result }
        ensures id { id_of self.now result ≡ id }
    {
        self.in_order[usize::from(id)]
    }

    pub fn id(&self, component: Component) -> u8
        requires { IsAmong self.now component }
        ensures id { result ≡ id_of self.now component }
        ensures among { IsId self.now result }
    {
        match component {
            Component::Root => 0,
            Component::Connection => 1,
            Component::Group { group } => self.group_id(group),
            Component::Writer { group, writer } => self.group_id(group) + 1 + writer,
            Component::ReadGroup { read_group } => self.read_group_id(read_group),
            Component::Reader { read_group, reader } => {
                self.read_group_id(read_group) + 1 + reader
            }
        }
    }

    /// The id of the component that a script means by a name.
    pub fn id_named(&self, config: &Config, name: &[u8]) -> Option<u8>
        requires { self.now ≡ counts_of config.now }
        ensures named { result ≡ id_named config.now name.now }
        ensures among { IfSome result (IsId self.now) }
    {
        position_named(&self.in_order, config, name)
    }

    fn group_id(&self, group: u8) -> u8
        requires { group ≤ length self.now.writers }
        ensures id { result ≡ 2 + before_family self.now.writers group }
        ensures room { result + slice_index self.now.writers group ≤ 22 }
    {
        self.group_ids[usize::from(group)]
    }

    fn read_group_id(&self, read_group: u8) -> u8
        requires { read_group ≤ length self.now.readers }
        ensures id { result ≡ first_read_group self.now
            + before_family self.now.readers read_group }
        ensures room { result + slice_index self.now.readers read_group ≤ 42 }
    {
        self.read_group_ids[usize::from(read_group)]
    }
}

/// The components in the order of their ids, of so many writers of each group and readers of each read group.
fn listed(alloc: Global, writers: &[u8], readers: &[u8]) -> Result<Vec<Component>, NoMemory>
    requires few_groups { length writers.now ≤ 4 }
    requires few_read_groups { length readers.now ≤ 4 }
    ensures { IfOk result (λ list. list.items
        ≡ components (record { writers = writers.now; readers = readers.now })) }
{
    let mut list = Vec::new(alloc);
    list.push(Component::Root)?;
    list.push(Component::Connection)?;
    push_half(&mut list, Half::Publishing, writers)?;
    push_half(&mut list, Half::Subscribing, readers)?;
    Ok(list)
}

fn push_half(list: &mut Vec<Component>, half: Half, counts: &[u8]) -> Result<(), NoMemory>
    requires { length counts.now ≤ 4 }
    ensures { OnOk result (list.new.items
        ≡ list.old.items ++ families (head_of half) (member_of half) 0 counts.now) }
{
    for (group, count) in counts.iter().enumerate() {
        push_family(list, half, group as u8, *count)?;
    }
    Ok(())
}

fn push_family(list: &mut Vec<Component>, half: Half, group: u8, count: u8) -> Result<(), NoMemory>
    ensures { OnOk result (list.new.items ≡ list.old.items ++ head_of half group ∷ map
        (member_of half group) (range_with_len 0 count)) }
{
    list.push(half.head(group))?;
    for index in 0..count {
        list.push(half.member(group, index))?;
    }
    Ok(())
}

fn position_named(components: &[Component], config: &Config, name: &[u8]) -> Option<u8>
    requires among { All (IsAmong (counts_of config.now)) components.now }
    requires few { length components.now ≤ 42 }
    ensures { result ≡ position (λ component. bytes_eq (name_of config.now component) name.now)
        components.now }
{
    for (id, component) in components.iter().enumerate() {
        if component.name(config) == name {
            return Some(id as u8);
        }
    }
    None
}

fn writer_counts(groups: &[GroupPart]) -> ArrayVec<u8, 4>
    requires few { length groups.now ≤ 4 }
    requires small { All (λ group. length group.writer ≤ 16) groups.now }
    ensures { result.items ≡ map (λ group. length group.writer) groups.now }
{
    let mut counts = ArrayVec::new();
    for group in groups {
        counts.push(group.writer.as_slice().len() as u8);
    }
    counts
}

fn reader_counts(groups: &[ReadGroupPart]) -> ArrayVec<u8, 4>
    requires few { length groups.now ≤ 4 }
    requires small { All (λ group. length group.reader ≤ 16) groups.now }
    ensures { result.items ≡ map (λ group. length group.reader) groups.now }
{
    let mut counts = ArrayVec::new();
    for group in groups {
        counts.push(group.reader.as_slice().len() as u8);
    }
    counts
}

/// The id of the head of each family, the first of which has this id, and of what comes after the last family.
fn head_ids(first: u8, counts: &[u8]) -> [u8; 5]
    requires first { first ≤ 22 }
    requires few { length counts.now ≤ 4 }
    requires small { sum counts.now ≤ 16 }
    ensures { AreHeadIds first counts.now result }
{
    let mut ids = [first; 5];
    for family in 0..counts.len() + 1 {
        ids[family] = first + before_family(counts, family as u8);
    }
    ids
}

/// How many components stand before the head of a family: the heads before it with their members.
fn before_family(counts: &[u8], family: u8) -> u8
    requires there { family ≤ length counts.now }
    requires few { length counts.now ≤ 4 }
    requires small { sum counts.now ≤ 16 }
    ensures before { result ≡ before_family counts.now family }
    ensures room { result + slice_index counts.now family ≤ 20 }
{
    family + total(&counts[..usize::from(family)])
}

fn total(numbers: &[u8]) -> u8
    requires { sum numbers.now ≤ 16 }
    ensures { result ≡ sum numbers.now }
{
    numbers.iter().sum()
}
