//! The built-in configuration.
ghost use Rattle.std.specs.Prelude.{◌≡◌, ◌∷◌, [], IfOk, IsTrue};
ghost use Rattle.dataset_meta.specs.Names.{is_name};
ghost use Rattle.ps_config.specs.BuiltIn.{number_field, demo, built_in_writer, built_in_group, built_in_reader, built_in_read_group, built_in_config};

use crate::parts::{
    Config, GroupPart, Parts, PublisherPart, ReadGroupPart, ReaderPart, WriterPart,
};
use config_tables::{Layout, NumberingWord, Publisher, Security};
use dataset_meta::{Field, Meta, Name32, fields_have_one_fault};
use std::alloc::Global;
use ua_base::NoMemory;
use ua_values::Kind;

/// The configuration that is taken where none is given. Its data set `demo` has four fields `a`, `b`, `c` and `d` of
/// the kind UInt32. Its group `g1` has a writer `w1` of it, and its read group `rg1` a reader `r1` of that writer.
#[tactic(auto, unfolding(crate::specs::BuiltIn::built_in_config))]
pub fn built_in(alloc: Global) -> Result<Config, NoMemory>
    ensures { IfOk result (λ config. config ≡ built_in_config) }
{
    Ok(Config {
        publisher: PublisherPart {
            id: Publisher::U8(5),
            port: 0,
        },
        dataset: one(alloc, demo(alloc)?)?,
        keygroup: Parts::new(Vec::new(alloc)),
        group: one(alloc, group(alloc)?)?,
        readgroup: one(alloc, read_group(alloc)?)?,
    })
}

fn one<T: Drop>(alloc: Global, part: T) -> Result<Parts<T>, NoMemory>
    ensures { IfOk result (λ parts. parts ≡ part ∷ []) }
{
    let mut parts = Vec::new(alloc);
    parts.push(part)?;
    Ok(Parts::new(parts))
}

#[tactic(auto, unfolding(crate::specs::BuiltIn::demo))]
fn demo(alloc: Global) -> Result<Meta, NoMemory>
    ensures { IfOk result (λ meta. meta ≡ demo) }
{
    let fields = Vec::from_array(
        alloc,
        [
            number_field("a"),
            number_field("b"),
            number_field("c"),
            number_field("d"),
        ],
    )?;
    fields_have_one_fault();
    match Meta::new(named("demo"), fields, 1, 0, false) {
        Ok(meta) => Ok(meta),
        Err(_) => unreachable!(),
    }
}

fn number_field(name: &str) -> Field
    requires { IsTrue (is_name name.now) }
    ensures { result ≡ number_field name.now }
{
    Field {
        name: named(name),
        kind: Kind::UInt32,
        cap: 0,
    }
}

fn named(name: &str) -> Name32
    requires { IsTrue (is_name name.now) }
    ensures { result ≡ name.now }
{
    match Name32::new(name.as_bytes()) {
        Some(name) => name,
        None => unreachable!(),
    }
}

#[tactic(auto, unfolding(crate::specs::BuiltIn::built_in_group))]
fn group(alloc: Global) -> Result<GroupPart, NoMemory>
    ensures { IfOk result (λ group. group ≡ built_in_group) }
{
    Ok(GroupPart {
        name: named("g1"),
        id: 1,
        interval: 100,
        max_size: 1400,
        layout: Layout::Dynamic,
        security: Security::None,
        keygroup: None,
        version: 0,
        sequence: true,
        message_number: false,
        class_id: None,
        writer: one(alloc, writer())?,
    })
}

#[tactic(auto, unfolding(crate::specs::BuiltIn::built_in_writer))]
fn writer() -> WriterPart
    ensures { result ≡ built_in_writer }
{
    WriterPart {
        name: named("w1"),
        id: 1,
        dataset: 0,
        key_frame_count: 1,
        keep_alive: 0,
        first_number: 0,
        versions: false,
        offset: 0,
        size: 0,
    }
}

#[tactic(auto, unfolding(crate::specs::BuiltIn::built_in_read_group))]
fn read_group(alloc: Global) -> Result<ReadGroupPart, NoMemory>
    ensures { IfOk result (λ group. group ≡ built_in_read_group) }
{
    Ok(ReadGroupPart {
        name: named("rg1"),
        publisher: Publisher::U8(5),
        group: 1,
        version: 0,
        class_id: None,
        layout: Layout::Dynamic,
        security: Security::None,
        keygroup: None,
        reader: one(alloc, reader())?,
    })
}

#[tactic(auto, unfolding(crate::specs::BuiltIn::built_in_reader))]
fn reader() -> ReaderPart
    ensures { result ≡ built_in_reader }
{
    ReaderPart {
        name: named("r1"),
        writer: 1,
        dataset: 0,
        timeout: 0,
        numbering: NumberingWord::Message,
        offset: 0,
        size: 0,
    }
}
