//! The names that lines speak of.
ghost use Rattle.std.specs.Prelude.{◌≡◌, ◌++◌, ◌∷◌, map, flat_map, option_copied, slice_get, length, ◌<◌, IfOk, IfSome, OnOk, IsTrue};
ghost use Rattle.dataset_meta.specs.Names.{is_name};
ghost use Rattle.config_tables.specs.Words.{kind_named};
ghost use Rattle.ps_config.specs.Sound.{component_names, group_names, read_group_names};
ghost use Rattle.ps_script.specs.Names.{reader_names, named, set_named};

use config_tables::kind_named;
use dataset_meta::{Meta, Name32};
use ps_config::{Config, GroupPart, ReadGroupPart, ReaderPart, WriterPart};
use std::alloc::{AllocError, Global};
use ua_values::Kind;

/// The names of all components, in the order of their ids: root, connection, each group before its
/// writers, each read group before its readers.
pub(crate) fn component_names(alloc: Global, config: &Config) -> Result<Vec<Name32>, AllocError>
    ensures { IfOk result (λ names. names.items ≡ component_names config.now) }
{
    let mut names = Vec::new(alloc);
    names.push(name_of("root"))?;
    names.push(name_of("connection"))?;
    add_groups(&mut names, config.group.as_slice())?;
    add_read_groups(&mut names, config.readgroup.as_slice())?;
    Ok(names)
}

fn name_of(text: &str) -> Name32
    requires { IsTrue (is_name text.now) }
    ensures { result ≡ text.now }
{
    match Name32::new(text.as_bytes()) {
        Some(name) => name,
        None => unreachable!(),
    }
}

fn add_groups(names: &mut Vec<Name32>, groups: &[GroupPart]) -> Result<(), AllocError>
    ensures { OnOk result (names.new.items ≡ names.old.items ++ flat_map group_names groups.now) }
{
    for group in groups {
        names.push(group.name)?;
        add_writers(names, group.writer.as_slice())?;
    }
    Ok(())
}

fn add_writers(names: &mut Vec<Name32>, writers: &[WriterPart]) -> Result<(), AllocError>
    ensures { OnOk result (names.new.items
        ≡ names.old.items ++ map (λ writer. writer.name) writers.now) }
{
    for writer in writers {
        names.push(writer.name)?;
    }
    Ok(())
}

fn add_read_groups(names: &mut Vec<Name32>, groups: &[ReadGroupPart]) -> Result<(), AllocError>
    ensures { OnOk result (names.new.items
        ≡ names.old.items ++ flat_map read_group_names groups.now) }
{
    for group in groups {
        names.push(group.name)?;
        add_readers(names, group.reader.as_slice())?;
    }
    Ok(())
}

fn add_readers(names: &mut Vec<Name32>, readers: &[ReaderPart]) -> Result<(), AllocError>
    ensures { OnOk result (names.new.items
        ≡ names.old.items ++ map (λ reader. reader.name) readers.now) }
{
    for reader in readers {
        names.push(reader.name)?;
    }
    Ok(())
}

/// The names of the readers of all read groups, in order.
#[tactic(auto, unfolding(crate::specs::Names::reader_names))]
pub(crate) fn reader_names(alloc: Global, config: &Config) -> Result<Vec<Name32>, AllocError>
    ensures { IfOk result (λ names. names.items ≡ reader_names config.now) }
{
    let mut names = Vec::new(alloc);
    for group in config.readgroup.as_slice() {
        add_readers(&mut names, group.reader.as_slice())?;
    }
    Ok(names)
}

/// The place of a name among others.
pub(crate) fn named(names: &[Name32], name: &[u8]) -> Option<usize>
    ensures place { result ≡ named names.now name.now }
    ensures bound { IfSome result (λ index. index < length names.now) }
{
    names.iter().position(|other| other.as_bytes() == name)
}

/// The place of the data set with this name.
pub(crate) fn set_named(metas: &[Meta], name: &[u8]) -> Option<usize>
    ensures place { result ≡ set_named metas.now name.now }
    ensures bound { IfSome result (λ index. index < length metas.now) }
{
    metas.iter().position(|meta| meta.name().as_bytes() == name)
}

/// The data set at this place.
pub(crate) fn meta_at(metas: &[Meta], set: usize) -> Option<&Meta>
    ensures { option_copied result ≡ slice_get metas.now set }
{
    metas.get(set)
}

/// The kind with this name (OPC 10000-6 5.1.2, built-in types).
pub(crate) fn kind_spelled(word: &[u8]) -> Option<Kind>
    ensures { result ≡ kind_named word.now }
{
    match str::from_utf8(word) {
        Ok(name) => kind_named(name),
        Err(_) => None,
    }
}
