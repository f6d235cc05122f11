//! What a read group is made of: its part of the configuration, and its readers.
ghost use Rattle.std.specs.Prelude.{◌≡◌, ◌<◌, ◌≤◌, length, slice_index_or, Contains, IfOk};
ghost use Rattle.ps_config.specs.Sound.{IsSound};
ghost use Rattle.reader_group.specs.Groups.{AreNew, AreReadersOf};

use crate::member::Member;
use ps_config::{Config, ReadGroupPart};
use std::alloc::Global;
use ua_base::NoMemory;

/// The part of the read group with this index.
pub(crate) fn part_at(config: &Config, index: u8) -> &ReadGroupPart
    requires { index < length config.now.readgroup }
    ensures { result.now ≡ slice_index_or config.now.readgroup index result.now }
{
    &config.readgroup.as_slice()[usize::from(index)]
}

/// The readers of a read group of this configuration, before anything.
#[inline(never)]
pub(crate) fn new_members(
    alloc: Global,
    config: &Config,
    group: &ReadGroupPart,
) -> Result<Vec<Member>, NoMemory>
    requires sound { IsSound config.now }
    requires group { Contains config.now.readgroup group.now }
    ensures few { IfOk result (λ made. length made.items ≤ 16) }
    ensures members { IfOk result (λ made. AreNew group.now made.items) }
    ensures readers { IfOk result (λ made. AreReadersOf group.now made.items) }
{
    let mut members = Vec::new(alloc);
    for reader in group.reader.as_slice() {
        members.push(Member::new(reader))?;
    }
    Ok(members)
}
