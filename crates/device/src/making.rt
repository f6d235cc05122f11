//! The parts of a new publisher, and of a new subscriber.
ghost use Rattle.std.specs.Prelude.{◌≡◌, ◌≤◌, IfNone, IfOk, IfSome, All, length};
ghost use Rattle.std.specs.List.{AllZip};
ghost use Rattle.group_keys.specs.Ring.{key_sets};
ghost use Rattle.message_guard.specs.Senders.{IsSender};
ghost use Rattle.ps_config.specs.Sound.{IsKeyGroup};
ghost use Rattle.writer_group.specs.Standing.{AreRowsOf, IsGood};
ghost use Rattle.device.specs.Sides.{AreOpeningListenings, AreOpeningSides, HasLongKeys, IsConfiguredRing, IsKeyedBy, IsListening, IsOpeningRow, IsOpeningSender, IsResumed, IsSide, IsUnkeyed};

use crate::listening::Listening;
use crate::side::Side;
use dataset_meta::Meta;
use group_keys::Ring;
use message_guard::Sender;
use ps_config::{Config, KeyGroupPart, Policy, ring_of};
use row_words::Row;
use std::alloc::Global;
use ua_base::NoMemory;
use writer_group::Sampled;

/// An opening row of each data set.
#[inline(never)]
pub fn rows_of(alloc: Global, metas: &[Meta]) -> Result<Vec<Sampled>, NoMemory>
    ensures rows { IfOk result (λ rows. AreRowsOf metas.now rows.items) }
    ensures opening { IfOk result (λ rows. AllZip IsOpeningRow metas.now rows.items) }
    ensures count { IfOk result (λ rows. length rows.items ≡ length metas.now) }
{
    let mut rows = Vec::new(alloc);
    for meta in metas {
        let row = Row::opening_of(meta);
        rows.push(Sampled { row, version: 0 })?;
    }
    Ok(rows)
}

/// A sender of each key group, which goes on behind the numbers that the configuration tells of.
#[inline(never)]
pub fn senders_of(alloc: Global, keygroups: &[KeyGroupPart]) -> Result<Vec<Sender>, NoMemory>
    requires { All IsKeyGroup keygroups.now }
    ensures senders { IfOk result (λ senders. All IsSender senders.items) }
    ensures opening { IfOk result (λ senders. AllZip IsOpeningSender keygroups.now senders.items) }
    ensures count { IfOk result (λ senders. length senders.items ≡ length keygroups.now) }
{
    let mut senders = Vec::new(alloc);
    for keygroup in keygroups {
        let sender = sender_with(keygroup, ring_of(keygroup), 0, keygroup.used);
        senders.push(sender)?;
    }
    Ok(senders)
}

/// The ring of each key group's keys.
#[inline(never)]
pub fn rings_of(alloc: Global, keygroups: &[KeyGroupPart]) -> Result<Vec<Ring>, NoMemory>
    requires { All IsKeyGroup keygroups.now }
    ensures opening { IfOk result (λ rings. AllZip IsConfiguredRing keygroups.now rings.items) }
{
    let mut rings = Vec::new(alloc);
    for keygroup in keygroups {
        rings.push(ring_of(keygroup))?;
    }
    Ok(rings)
}

/// The same ring once more.
pub fn copy_of(ring: &Ring) -> Ring
    ensures { key_sets result ≡ key_sets ring.now }
{
    match ring.clone() {
        Ok(copy) => copy,
        Err(_) => unreachable!(),
    }
}

/// The sender of a key group with this ring, behind so many numbers.
#[inline(always)]
pub fn sender_with(keygroup: &KeyGroupPart, ring: Ring, now: u64, used: u32) -> Sender
    ensures sender { IsSender result }
    ensures resumed { IsResumed keygroup.now (key_sets ring) now used result }
{
    Sender::resume(ring, keygroup.random, keygroup.first_block, now, used)
}

/// The groups, in the configuration's order.
#[inline(never)]
pub fn sides_of(alloc: Global, config: &Config) -> Result<Vec<Side>, NoMemory>
    requires { IsGood config.now }
    ensures sides { IfOk result (λ sides. All (IsSide config.now) sides.items) }
    ensures opening { IfOk result (λ sides. AreOpeningSides config.now sides.items) }
    ensures count { IfOk result (λ sides. length sides.items ≡ length config.now.group) }
{
    let mut sides = Vec::new(alloc);
    for g in 0..config.group.as_slice().len() {
        let side = Side::new(alloc, config, g as u8)?;
        sides.push(side)?;
    }
    Ok(sides)
}

/// The read groups, in the configuration's order.
#[inline(never)]
pub fn listenings_of(alloc: Global, config: &Config) -> Result<Vec<Listening>, NoMemory>
    requires { IsGood config.now }
    ensures groups { IfOk result (λ groups. All (IsListening config.now) groups.items) }
    ensures opening { IfOk result (λ groups. AreOpeningListenings config.now groups.items) }
    ensures count { IfOk result (λ groups. length groups.items ≡ length config.now.readgroup) }
{
    let mut groups = Vec::new(alloc);
    for g in 0..config.readgroup.as_slice().len() {
        let listening = Listening::new(alloc, config, g as u8)?;
        groups.push(listening)?;
    }
    Ok(groups)
}

/// Whether the key group with this index has keys of AES-256. None where there is no such key group.
pub fn has_long_keys(config: &Config, keygroup: u8) -> Option<bool>
    ensures long { IfSome result (HasLongKeys config.now keygroup) }
    ensures none { IfNone result (length config.now.keygroup ≤ keygroup) }
{
    let keygroups = config.keygroup.as_slice();
    let index = usize::from(keygroup);
    if index >= keygroups.len() {
        return None;
    }
    Some(matches!(keygroups[index].policy, Policy::Aes256))
}

/// The key group of the read group with this index. None where there is no such read group, or where it isn't secured.
pub fn keygroup_of(config: &Config, group: u8) -> Option<u8>
    ensures keyed { IfSome result (IsKeyedBy config.now group) }
    ensures none { IfNone result (IsUnkeyed config.now group) }
{
    let groups = config.readgroup.as_slice();
    let index = usize::from(group);
    if index >= groups.len() {
        return None;
    }
    groups[index].keygroup
}
