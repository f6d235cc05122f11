//! The readers that a gateway's data sets come from.
ghost use Rattle.std.specs.Prelude.{◌≡◌, ◌<◌, ◌≤◌, ◌++◌, ℕ, List, IfOk, OnOk, length, map, slice_get, Some};
ghost use Rattle.ps_config.specs.Sound.{readers};
ghost use Rattle.writer_group.specs.Standing.{IsGood};
ghost use Rattle.gateway_core.specs.Sources.{HaveSources};

use dataset_meta::Name32;
use ps_config::{Config, ReaderPart};
use std::alloc::Global;
use ua_base::NoMemory;

/// For each data set of the second configuration the reader of the first one that has its name, by
/// the index over all read groups.
pub(crate) fn sources_in(
    alloc: Global,
    first: &Config,
    second: &Config,
) -> Result<Vec<u8>, NoMemory>
    requires good { IsGood first.now }
    requires sources { (sources : List ℕ) × HaveSources first.now second.now sources }
    ensures sources { IfOk result (λ found. HaveSources first.now second.now found.items) }
{
    let names = reader_names(alloc, first)?;
    let mut sources = Vec::new(alloc);
    for meta in second.dataset.as_slice() {
        sources.push(place_of(&names, meta.name()))?;
    }
    Ok(sources)
}

/// The place of a name among these.
fn place_of(names: &[Name32], name: &Name32) -> u8
    requires few { length names.now ≤ 16 }
    requires there { (k : ℕ) × (slice_get names.now k ≡ Some name.now) }
    ensures { slice_get names.now result ≡ Some name.now }
{
    for k in 0..names.len() {
        if names[k] == *name {
            return k as u8;
        }
    }
    unreachable!()
}

/// The names of the readers, over all read groups in order.
fn reader_names(alloc: Global, config: &Config) -> Result<Vec<Name32>, NoMemory>
    ensures { IfOk result
        (λ names. names.items ≡ map (λ reader. reader.name) (readers config.now)) }
{
    let mut names = Vec::new(alloc);
    for group in config.readgroup.as_slice() {
        add_names(&mut names, group.reader.as_slice())?;
    }
    Ok(names)
}

/// After other names those of these readers.
fn add_names(names: &mut Vec<Name32>, readers: &[ReaderPart]) -> Result<(), NoMemory>
    ensures { OnOk result (names.new.items
        ≡ names.old.items ++ map (λ reader. reader.name) readers.now) }
{
    for reader in readers {
        names.push(reader.name)?;
    }
    Ok(())
}
