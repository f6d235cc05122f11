//! The configuration that accepted tables are.
ghost use Rattle.std.specs.Prelude.{◌≡◌, IfOk, map};
ghost use Rattle.toml.specs.View.{table_view};
ghost use Rattle.config_tables.specs.declared.place.Part.TheVariants.{DataSet, KeyGroup, Group, ReadGroup};
ghost use Rattle.ps_config.specs.Configs.{encrypting_at, index_at, data_set_of, writer_of, group_of, reader_of, read_group_of, key_of, key_group_of, publisher_part, config_of};
ghost use Rattle.dataset_meta.specs.Metas.{IsMeta};
ghost use Rattle.ps_config.specs.Fields.{elements_of, field_of, fields_of, outer_tables, publisher_members};
ghost use Rattle.ps_config.specs.Metas.{HaveMetas};
ghost use Rattle.config_tables.specs.Places.{index_of};
ghost use Rattle.config_tables.specs.Values.{at_most};
ghost use Rattle.config_tables.specs.Seen.{seen};

use crate::faults::index_named;
use crate::fields::{field_of, name_of};
use crate::parts::{
    Config, GroupPart, KeyBytes, KeyGroupPart, KeyPart, Parts, PublisherPart, ReadGroupPart,
    ReaderPart, WriterPart,
};
use crate::settings::{
    MAX_16, MAX_32, class_id_of, layout_of, numbering_of, policy_of, publisher_at, publisher_table,
    security_of,
};
use config_tables::{
    Key, Part, Placed, Policy, Publisher, hex_bytes, number_of, text_if, text_of, truth_of,
};
use dataset_meta::{Field, Meta, fields_have_one_fault};
use std::alloc::{AllocError, Global};
use toml::Table;

/// The configuration that accepted tables are.
#[tactic(auto, unfolding(crate::specs::Configs::config_of))]
pub(crate) fn config_of(alloc: Global, tables: &[Placed]) -> Result<Config, AllocError>
    requires { HaveMetas (map seen tables.now) }
    ensures { IfOk result (λ config. config ≡ config_of (map seen tables.now)) }
{
    Ok(Config {
        publisher: publisher_of(tables),
        dataset: data_sets_of(alloc, tables)?,
        keygroup: key_groups_of(alloc, tables)?,
        group: groups_of(alloc, tables)?,
        readgroup: read_groups_of(alloc, tables)?,
    })
}

#[tactic(auto, unfolding(crate::specs::Configs::publisher_part))]
fn publisher_of(tables: &[Placed]) -> PublisherPart
    ensures { result ≡ publisher_part (publisher_members (map seen tables.now)) }
{
    match publisher_table(tables) {
        Some(table) => publisher_part(table),
        None => PublisherPart {
            id: Publisher::U8(0),
            port: 0,
        },
    }
}

#[tactic(auto, unfolding(crate::specs::Configs::publisher_part))]
fn publisher_part(table: &Table) -> PublisherPart
    ensures { result ≡ publisher_part (table_view table.now) }
{
    PublisherPart {
        id: publisher_at(table, Key::Id),
        port: number_of(table, Key::Port, MAX_16, 0) as u16,
    }
}

fn data_sets_of(alloc: Global, tables: &[Placed]) -> Result<Parts<Meta>, AllocError>
    requires { HaveMetas (map seen tables.now) }
    ensures { IfOk result (λ parts. parts
        ≡ map (data_set_of (map seen tables.now)) (outer_tables DataSet (map seen tables.now))) }
{
    let mut parts = Vec::new(alloc);
    for placed in tables {
        if placed.place.is_outer(Part::DataSet) {
            parts.push(data_set_of(alloc, tables, placed)?)?;
        }
    }
    Ok(Parts::new(parts))
}

#[tactic(auto, unfolding(crate::specs::Configs::data_set_of))]
fn data_set_of(alloc: Global, tables: &[Placed], placed: &Placed) -> Result<Meta, AllocError>
    requires { IsMeta (fields_of (map seen tables.now) (index_of placed.now.place)) }
    ensures { IfOk result (λ part. part ≡ data_set_of (map seen tables.now) (seen placed.now)) }
{
    let table = placed.table;
    let major = number_of(table, Key::Major, MAX_32, 1) as u32;
    let minor = number_of(table, Key::Minor, MAX_32, 0) as u32;
    let fields = fields_of(alloc, tables, placed.place.index())?;
    let quality = truth_of(table, Key::Quality, false);
    match Meta::new(name_of(table), fields, major, minor, quality) {
        Ok(meta) => Ok(meta),
        Err(_) => {
            fields_have_one_fault();
            unreachable!()
        }
    }
}

fn fields_of(alloc: Global, tables: &[Placed], index: usize) -> Result<Vec<Field>, AllocError>
    ensures { IfOk result (λ fields. fields.items ≡ fields_of (map seen tables.now) index) }
{
    let mut fields = Vec::new(alloc);
    for placed in tables {
        if placed.place.is_inner_of(Part::DataSet, index) {
            fields.push(field_of(placed))?;
        }
    }
    Ok(fields)
}

fn groups_of(alloc: Global, tables: &[Placed]) -> Result<Parts<GroupPart>, AllocError>
    ensures { IfOk result (λ parts. parts
        ≡ map (group_of (map seen tables.now)) (outer_tables Group (map seen tables.now))) }
{
    let mut parts = Vec::new(alloc);
    for placed in tables {
        if placed.place.is_outer(Part::Group) {
            parts.push(group_of(alloc, tables, placed)?)?;
        }
    }
    Ok(Parts::new(parts))
}

#[tactic(auto, unfolding(crate::specs::Configs::group_of))]
fn group_of(alloc: Global, tables: &[Placed], placed: &Placed) -> Result<GroupPart, AllocError>
    ensures { IfOk result (λ part. part ≡ group_of (map seen tables.now) (seen placed.now)) }
{
    let table = placed.table;
    Ok(GroupPart {
        name: name_of(table),
        id: number_of(table, Key::Id, MAX_16, 0) as u16,
        interval: number_of(table, Key::Interval, 3600000, 0) as u32,
        max_size: number_of(table, Key::MaxSize, 65000, 1400) as u32,
        layout: layout_of(table),
        security: security_of(table),
        keygroup: index_of(tables, table, Part::KeyGroup, Key::KeyGroup),
        version: number_of(table, Key::Version, MAX_32, 0) as u32,
        sequence: truth_of(table, Key::Sequence, true),
        message_number: truth_of(table, Key::MessageNumber, false),
        class_id: class_id_of(table),
        writer: writers_of(alloc, tables, placed.place.index())?,
    })
}

fn writers_of(
    alloc: Global,
    tables: &[Placed],
    index: usize,
) -> Result<Parts<WriterPart>, AllocError>
    ensures { IfOk result (λ parts. parts
        ≡ map (writer_of (map seen tables.now)) (elements_of Group index (map seen tables.now))) }
{
    let mut parts = Vec::new(alloc);
    for placed in tables {
        if placed.place.is_inner_of(Part::Group, index) {
            parts.push(writer_of(tables, placed))?;
        }
    }
    Ok(Parts::new(parts))
}

#[tactic(auto, unfolding(crate::specs::Configs::writer_of))]
fn writer_of(tables: &[Placed], placed: &Placed) -> WriterPart
    ensures { result ≡ writer_of (map seen tables.now) (seen placed.now) }
{
    let table = placed.table;
    WriterPart {
        name: name_of(table),
        id: number_of(table, Key::Id, MAX_16, 0) as u16,
        dataset: index_of(tables, table, Part::DataSet, Key::DataSet).unwrap_or(0),
        key_frame_count: number_of(table, Key::KeyFrameCount, MAX_16, 1) as u32,
        keep_alive: number_of(table, Key::KeepAlive, 3600000, 0),
        first_number: number_of(table, Key::FirstNumber, MAX_16, 0) as u16,
        versions: truth_of(table, Key::Versions, false),
        offset: number_of(table, Key::Offset, 65000, 0) as u32,
        size: number_of(table, Key::Size, 65000, 0) as u32,
    }
}

fn read_groups_of(alloc: Global, tables: &[Placed]) -> Result<Parts<ReadGroupPart>, AllocError>
    ensures { IfOk result (λ parts. parts
        ≡ map (read_group_of (map seen tables.now))
        (outer_tables ReadGroup (map seen tables.now))) }
{
    let mut parts = Vec::new(alloc);
    for placed in tables {
        if placed.place.is_outer(Part::ReadGroup) {
            parts.push(read_group_of(alloc, tables, placed)?)?;
        }
    }
    Ok(Parts::new(parts))
}

#[tactic(auto, unfolding(crate::specs::Configs::read_group_of))]
fn read_group_of(
    alloc: Global,
    tables: &[Placed],
    placed: &Placed,
) -> Result<ReadGroupPart, AllocError>
    ensures { IfOk result (λ part. part ≡ read_group_of (map seen tables.now) (seen placed.now)) }
{
    let table = placed.table;
    Ok(ReadGroupPart {
        name: name_of(table),
        publisher: publisher_at(table, Key::Publisher),
        group: number_of(table, Key::Group, MAX_16, 0) as u16,
        version: number_of(table, Key::Version, MAX_32, 0) as u32,
        class_id: class_id_of(table),
        layout: layout_of(table),
        security: security_of(table),
        keygroup: index_of(tables, table, Part::KeyGroup, Key::KeyGroup),
        reader: readers_of(alloc, tables, placed.place.index())?,
    })
}

fn readers_of(
    alloc: Global,
    tables: &[Placed],
    index: usize,
) -> Result<Parts<ReaderPart>, AllocError>
    ensures { IfOk result (λ parts. parts
        ≡ map (reader_of (map seen tables.now))
        (elements_of ReadGroup index (map seen tables.now))) }
{
    let mut parts = Vec::new(alloc);
    for placed in tables {
        if placed.place.is_inner_of(Part::ReadGroup, index) {
            parts.push(reader_of(tables, placed))?;
        }
    }
    Ok(Parts::new(parts))
}

#[tactic(auto, unfolding(crate::specs::Configs::reader_of))]
fn reader_of(tables: &[Placed], placed: &Placed) -> ReaderPart
    ensures { result ≡ reader_of (map seen tables.now) (seen placed.now) }
{
    let table = placed.table;
    ReaderPart {
        name: name_of(table),
        writer: number_of(table, Key::Writer, MAX_16, 0) as u16,
        dataset: index_of(tables, table, Part::DataSet, Key::DataSet).unwrap_or(0),
        timeout: number_of(table, Key::Timeout, 3600000, 0),
        numbering: numbering_of(table),
        offset: number_of(table, Key::Offset, 65000, 0) as u32,
        size: number_of(table, Key::Size, 65000, 0) as u32,
    }
}

fn key_groups_of(alloc: Global, tables: &[Placed]) -> Result<Parts<KeyGroupPart>, AllocError>
    ensures { IfOk result (λ parts. parts
        ≡ map (key_group_of (map seen tables.now)) (outer_tables KeyGroup (map seen tables.now))) }
{
    let mut parts = Vec::new(alloc);
    for placed in tables {
        if placed.place.is_outer(Part::KeyGroup) {
            parts.push(key_group_of(alloc, tables, placed)?)?;
        }
    }
    Ok(Parts::new(parts))
}

#[tactic(auto, unfolding(crate::specs::Configs::key_group_of))]
fn key_group_of(
    alloc: Global,
    tables: &[Placed],
    placed: &Placed,
) -> Result<KeyGroupPart, AllocError>
    ensures { IfOk result (λ part. part ≡ key_group_of (map seen tables.now) (seen placed.now)) }
{
    let table = placed.table;
    Ok(KeyGroupPart {
        name: name_of(table),
        policy: policy_of(table),
        random: hex_bytes::<4>(text_of(table, Key::Random)),
        first_block: number_of(table, Key::FirstBlock, 1, 1) as u32,
        used: number_of(table, Key::Used, MAX_32, 0) as u32,
        key: keys_of(alloc, tables, placed.place.index())?,
    })
}

fn keys_of(alloc: Global, tables: &[Placed], index: usize) -> Result<Parts<KeyPart>, AllocError>
    ensures { IfOk result (λ parts. parts
        ≡ map key_of (elements_of KeyGroup index (map seen tables.now))) }
{
    let mut parts = Vec::new(alloc);
    for placed in tables {
        if placed.place.is_inner_of(Part::KeyGroup, index) {
            parts.push(key_of(placed))?;
        }
    }
    Ok(Parts::new(parts))
}

#[tactic(auto, unfolding(crate::specs::Configs::key_of))]
fn key_of(placed: &Placed) -> KeyPart
    ensures { result ≡ key_of (seen placed.now) }
{
    let table = placed.table;
    KeyPart {
        token: number_of(table, Key::Token, MAX_32, 0) as u32,
        from: number_of(table, Key::From, 1 << 40, 0),
        signing: hex_bytes::<32>(text_of(table, Key::Signing)),
        encrypting: encrypting_of(placed),
        nonce: hex_bytes::<4>(text_of(table, Key::Nonce)),
    }
}

fn encrypting_of(placed: &Placed) -> KeyBytes
    ensures { result ≡ encrypting_at (seen placed.now) }
{
    let text = text_of(placed.table, Key::Encrypting);
    match policy_of(placed.outer) {
        Policy::Aes128 => KeyBytes::new(&hex_bytes::<16>(text)),
        Policy::Aes256 => KeyBytes::new(&hex_bytes::<32>(text)),
    }
}

/// The index of the element that the text at a key names.
fn index_of(tables: &[Placed], table: &Table, part: Part, key: Key) -> Option<u8>
    ensures { result ≡ index_at part key (map seen tables.now) (table_view table.now) }
{
    match text_if(table, key) {
        Some(name) => match index_named(tables, part, name) {
            Some(index) => short(index),
            None => None,
        },
        None => None,
    }
}

fn short(index: usize) -> Option<u8>
    ensures { result ≡ at_most 255 index }
{
    if index <= 255 {
        Some(index as u8)
    } else {
        None
    }
}
