//! What there is: counts, names, indexes by names, and what a field is.
ghost use Rattle.std.specs.Prelude.{◌≡◌, ◌≢◌, ◌<◌, ◌≤◌, IfNone, IfSome, length};
ghost use Rattle.std.specs.Bool.{OnFalse, OnTrue};
ghost use Rattle.uapubsub_c.specs.Answers.{Asks, OfConfig};
ghost use Rattle.uapubsub_c.specs.Handles.{IsReady};
ghost use Rattle.uapubsub_c.specs.Laying.{LaysName};
ghost use Rattle.uapubsub_c.specs.Listing.{GetsName, IsInfoOf, IsNamed, TellsCount, TellsField, TellsIndex, TellsName};

use crate::handle::Handle;
use crate::laying::lay_whole;
use crate::listed::Listed;
use crate::status::{Status, tell};
use dataset_meta::{Meta, Name32};
use ps_config::Config;
use std::alloc::Global;
use ua_binary::number_of;

/// How many parts are looked at for a name: no list of a configuration has more.
const MOST_PARTS: usize = 256;

/// What a field is, as C sees it.
#[repr(C)]
#[derive(Clone, Copy)]
pub struct FieldInfo {
    /// The number of its built-in type (OPC 10000-6 section 5.1.2).
    pub kind: u32,
    /// How many bytes a String or a ByteString may have; else 0.
    pub cap: u32,
    /// 1 where each value has a status of its own, else 0.
    pub quality: u32,
}

/// How many parts the list with this number has, of the data set, the group or the read group with the index `of`.
#[unsafe(no_mangle)]
pub extern "C" fn uapubsub_count(
    alloc: Global,
    handle: &mut Handle,
    list: u32,
    of: u32,
    count: &mut usize,
) -> u32
    requires { IsReady handle.old }
    ensures { Asks (OfConfig (TellsCount list of))
        handle.old result count.old count.new handle.new }
{
    let answer = handle.ask_config(alloc, |config| count_of(config, list, of));
    tell(answer, count)
}

fn count_of(config: &Config, list: u32, of: u32) -> Result<usize, Status>
    ensures { TellsCount list of config.now result }
{
    let Some(list) = Listed::numbered(list) else {
        return Err(Status::NoKind);
    };
    match list.count(config, of as usize) {
        Some(count) => Ok(count),
        None => Err(Status::Index),
    }
}

/// The index of the part of this name in the list with this number.
#[unsafe(no_mangle)]
pub extern "C" fn uapubsub_index(
    alloc: Global,
    handle: &mut Handle,
    list: u32,
    of: u32,
    name: &[u8],
    index: &mut u32,
) -> u32
    requires { IsReady handle.old }
    ensures { Asks (OfConfig (TellsIndex list of name.now))
        handle.old result index.old index.new handle.new }
{
    let answer = handle.ask_config(alloc, |config| index_of(config, list, of, name));
    tell(answer, index)
}

fn index_of(config: &Config, list: u32, of: u32, name: &[u8]) -> Result<u32, Status>
    ensures { TellsIndex list of name.now config.now result }
{
    let Some(list) = Listed::numbered(list) else {
        return Err(Status::NoKind);
    };
    match place_of(config, list, of as usize, name) {
        Some(index) => Ok(index),
        None => Err(Status::Index),
    }
}

/// The first place of the name in the list.
fn place_of(config: &Config, list: Listed, of: usize, name: &[u8]) -> Option<u32>
    ensures named { IfSome result (λ index. IsNamed config.now list of index name.now) }
    ensures none { IfNone result
        ((index : _) → index < MOST_PARTS → ¬ IsNamed config.now list of index name.now) }
{
    for index in 0..MOST_PARTS {
        if is_named(config, list, of, index, name) {
            return Some(index as u32);
        }
    }
    None
}

/// Whether the part with this index is there, and has this name.
fn is_named(config: &Config, list: Listed, of: usize, index: usize, name: &[u8]) -> bool
    ensures named { OnTrue result (IsNamed config.now list of index name.now) }
    ensures not { OnFalse result (¬ IsNamed config.now list of index name.now) }
{
    let Some(told) = list.name(config, of, index) else {
        return false;
    };
    if !is_name(&told, name) {
        return false;
    }
    true
}

fn is_name(told: &Name32, name: &[u8]) -> bool
    ensures yes { OnTrue result (told.now ≡ name.now) }
    ensures no { OnFalse result (told.now ≢ name.now) }
{
    told.as_bytes() == name
}

/// The name of the part with this index in the list with this number: its bytes are laid at the front of the buffer, and `count` is how
/// many there are.
#[unsafe(no_mangle)]
pub extern "C" fn uapubsub_name(
    alloc: Global,
    handle: &mut Handle,
    list: u32,
    of: u32,
    index: u32,
    buffer: &mut [u8],
    count: &mut usize,
) -> u32
    requires { IsReady handle.old }
    ensures { GetsName list of index handle.old
        (λ answer. LaysName answer result buffer.old buffer.new count.old count.new) handle.new }
{
    let answer = handle.ask_config(alloc, |config| name_of(config, list, of, index));
    lay_name(&answer, buffer, count)
}

/// Lays the bytes of an answer that is a name.
fn lay_name(answer: &Result<Name32, Status>, buffer: &mut [u8], count: &mut usize) -> u32
    ensures { LaysName answer.now result buffer.old buffer.new count.old count.new }
{
    match answer {
        Ok(name) => lay_whole(name.as_bytes(), buffer, count),
        Err(status) => status.number(),
    }
}

fn name_of(config: &Config, list: u32, of: u32, index: u32) -> Result<Name32, Status>
    ensures { TellsName list of index config.now result }
{
    let Some(list) = Listed::numbered(list) else {
        return Err(Status::NoKind);
    };
    match list.name(config, of as usize, index as usize) {
        Some(name) => Ok(name),
        None => Err(Status::Index),
    }
}

/// What the field with this index of the data set with this index is.
#[unsafe(no_mangle)]
pub extern "C" fn uapubsub_field_info(
    alloc: Global,
    handle: &mut Handle,
    set: u32,
    field: u32,
    info: &mut FieldInfo,
) -> u32
    requires { IsReady handle.old }
    ensures { Asks (OfConfig (TellsField set field))
        handle.old result info.old info.new handle.new }
{
    let answer = handle.ask_config(alloc, |config| field_of(config, set, field));
    tell(answer, info)
}

fn field_of(config: &Config, set: u32, field: u32) -> Result<FieldInfo, Status>
    ensures { TellsField set field config.now result }
{
    let metas = config.dataset.as_slice();
    let index = set as usize;
    if index >= metas.len() {
        return Err(Status::Index);
    }
    match info_of(&metas[index], field as usize) {
        Some(info) => Ok(info),
        None => Err(Status::Index),
    }
}

/// What the field with this index is.
fn info_of(meta: &Meta, index: usize) -> Option<FieldInfo>
    ensures info { IfSome result (IsInfoOf meta.now index) }
    ensures none { IfNone result (length meta.now.fields ≤ index) }
{
    let fields = meta.fields();
    if index >= fields.len() {
        return None;
    }
    let field = &fields[index];
    Some(FieldInfo {
        kind: u32::from(number_of(field.kind)),
        cap: u32::from(field.cap),
        quality: u32::from(meta.quality()),
    })
}
