//! What tells one configuration from another, for which stored numbers aren't.
ghost use Rattle.std.specs.Prelude.{◌≡◌, ◌++◌, flat_map};
ghost use Rattle.device.specs.Fingerprints.{Adds, dataset_bytes, field_bytes, fingerprint_of, group_bytes, id_bytes, key_bits, keygroup_bytes, kind_number, listed, number, place_number, text, wide, writer_bytes};

use dataset_meta::{Field, Meta};
use ps_config::{Config, GroupPart, KeyGroupPart, Policy, Publisher, WriterPart};
use sha2::{Digest, Sha256};
use ua_values::Kind;

/// The SHA-256 of who publishes, with which key groups, groups and data sets. Keys, addresses and first numbers don't count.
pub fn fingerprint_of(config: &Config) -> [u8; 32]
    ensures { result ≡ fingerprint_of config.now }
{
    let mut hasher = Sha256::new();
    add_id(&mut hasher, &config.publisher.id);
    add_keygroups(&mut hasher, config.keygroup.as_slice());
    add_groups(&mut hasher, config.group.as_slice());
    add_datasets(&mut hasher, config.dataset.as_slice());
    hasher.finalize()
}

/// The PublisherId, behind the bits of its type.
fn add_id(hasher: &mut Sha256, id: &Publisher)
    ensures { Adds (id_bytes id.now) hasher.old hasher.new }
{
    match id {
        Publisher::U8(id) => add_id_number(hasher, 8, u64::from(*id)),
        Publisher::U16(id) => add_id_number(hasher, 16, u64::from(*id)),
        Publisher::U32(id) => add_id_number(hasher, 32, u64::from(*id)),
        Publisher::U64(id) => add_id_number(hasher, 64, *id),
        Publisher::Text(id) => {
            add_number(hasher, 0);
            add_text(hasher, id.as_bytes());
        }
    }
}

fn add_id_number(hasher: &mut Sha256, bits: u32, id: u64)
    ensures { Adds (number bits ++ wide id) hasher.old hasher.new }
{
    add_number(hasher, bits);
    add_wide(hasher, id);
}

fn add_keygroups(hasher: &mut Sha256, parts: &[KeyGroupPart])
    ensures { Adds (listed keygroup_bytes parts.now) hasher.old hasher.new }
{
    add_wide(hasher, parts.len() as u64);
    for k in 0..parts.len() {
        add_keygroup(hasher, &parts[k]);
    }
}

/// Its name, and how long its keys are.
fn add_keygroup(hasher: &mut Sha256, part: &KeyGroupPart)
    ensures { Adds (keygroup_bytes part.now) hasher.old hasher.new }
{
    add_text(hasher, part.name.as_bytes());
    add_number(hasher, key_bits(part.policy));
}

fn add_groups(hasher: &mut Sha256, parts: &[GroupPart])
    ensures { Adds (listed group_bytes parts.now) hasher.old hasher.new }
{
    add_wide(hasher, parts.len() as u64);
    for g in 0..parts.len() {
        add_group(hasher, &parts[g]);
    }
}

/// Its id, its key group, and its writers.
fn add_group(hasher: &mut Sha256, part: &GroupPart)
    ensures { Adds (group_bytes part.now) hasher.old hasher.new }
{
    add_number(hasher, u32::from(part.id));
    add_number(hasher, place_number(part.keygroup));
    add_writers(hasher, part.writer.as_slice());
}

fn add_writers(hasher: &mut Sha256, parts: &[WriterPart])
    ensures { Adds (listed writer_bytes parts.now) hasher.old hasher.new }
{
    add_wide(hasher, parts.len() as u64);
    for w in 0..parts.len() {
        add_writer(hasher, &parts[w]);
    }
}

/// Its id, and its data set.
fn add_writer(hasher: &mut Sha256, part: &WriterPart)
    ensures { Adds (writer_bytes part.now) hasher.old hasher.new }
{
    add_number(hasher, u32::from(part.id));
    add_number(hasher, u32::from(part.dataset));
}

fn add_datasets(hasher: &mut Sha256, metas: &[Meta])
    ensures { Adds (listed dataset_bytes metas.now) hasher.old hasher.new }
{
    add_wide(hasher, metas.len() as u64);
    for d in 0..metas.len() {
        add_dataset(hasher, &metas[d]);
    }
}

/// Its name, its versions, and the kinds of its fields.
fn add_dataset(hasher: &mut Sha256, meta: &Meta)
    ensures { Adds (dataset_bytes meta.now) hasher.old hasher.new }
{
    add_text(hasher, meta.name().as_bytes());
    add_number(hasher, meta.major());
    add_number(hasher, meta.minor());
    add_fields(hasher, meta.fields());
}

fn add_fields(hasher: &mut Sha256, fields: &[Field])
    ensures { Adds (listed field_bytes fields.now) hasher.old hasher.new }
{
    add_wide(hasher, fields.len() as u64);
    for f in 0..fields.len() {
        add_field(hasher, &fields[f]);
    }
}

/// Its kind.
fn add_field(hasher: &mut Sha256, field: &Field)
    ensures { Adds (field_bytes field.now) hasher.old hasher.new }
{
    add_number(hasher, kind_number(field.kind));
}

/// A text, behind its length.
fn add_text(hasher: &mut Sha256, bytes: &[u8])
    ensures { Adds (text bytes.now) hasher.old hasher.new }
{
    add_wide(hasher, bytes.len() as u64);
    hasher.update(bytes);
}

/// A number of 64 bits, little-endian.
fn add_wide(hasher: &mut Sha256, n: u64)
    ensures { Adds (wide n) hasher.old hasher.new }
{
    let bytes = n.to_le_bytes();
    hasher.update(&bytes[..]);
}

/// A number of 32 bits, little-endian.
fn add_number(hasher: &mut Sha256, n: u32)
    ensures { Adds (number n) hasher.old hasher.new }
{
    let bytes = n.to_le_bytes();
    hasher.update(&bytes[..]);
}

fn key_bits(policy: Policy) -> u32
    ensures { result ≡ key_bits policy }
{
    match policy {
        Policy::Aes128 => 128,
        Policy::Aes256 => 256,
    }
}

/// A place that may be none: 0, or one more than it.
fn place_number(place: Option<u8>) -> u32
    ensures { result ≡ place_number place }
{
    match place {
        None => 0,
        Some(place) => u32::from(place) + 1,
    }
}

/// The number of the built-in type (OPC 10000-6 5.1.2).
fn kind_number(kind: Kind) -> u32
    ensures { result ≡ kind_number kind }
{
    match kind {
        Kind::Boolean => 1,
        Kind::SByte => 2,
        Kind::Byte => 3,
        Kind::Int16 => 4,
        Kind::UInt16 => 5,
        Kind::Int32 => 6,
        Kind::UInt32 => 7,
        Kind::Int64 => 8,
        Kind::UInt64 => 9,
        Kind::Float => 10,
        Kind::Double => 11,
        Kind::String => 12,
        Kind::DateTime => 13,
        Kind::Guid => 14,
        Kind::ByteString => 15,
        Kind::StatusCode => 19,
    }
}
