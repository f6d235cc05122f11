//! Which data sets of a second configuration have a source.
ghost use Rattle.std.specs.Prelude.{◌≡◌, ◌<◌, IfSome, None, true, length};
ghost use Rattle.reader_group.specs.Settings.{group_at as read_group_at};
ghost use Rattle.writer_group.specs.Standing.{IsGood};
ghost use Rattle.cmd_relay.specs.Sources.{AreAlike, AreSourced, HasSource, HasSourceIn, IsNamed, IsSourceAt, IsUnsourced};

use crate::matching::matched_writer;
use config_tables::NumberingWord;
use dataset_meta::{Field, Meta};
use ps_config::{Config, ReaderPart};

/// The first data set of the second configuration that has no source in the first (C26).
pub fn unsourced(first: &Config, second: &Config) -> Option<u32>
    requires first { IsGood first.now }
    requires second { IsGood second.now }
    ensures none { result ≡ None → AreSourced first.now second.now }
    ensures some { IfSome result (IsUnsourced first.now second.now) }
{
    let sets = second.dataset.as_slice();
    for set in 0..sets.len() {
        if !has_source(first, &sets[set]) {
            return Some(set as u32);
        }
    }
    None
}

/// Whether a reader of the first configuration is the data set's source.
fn has_source(first: &Config, meta: &Meta) -> bool
    requires { IsGood first.now }
    ensures yes { result ≡ true → HasSource first.now meta.now }
    ensures no { HasSource first.now meta.now → result ≡ true }
{
    for r in 0..first.readgroup.as_slice().len() {
        if has_source_in(first, r, meta) {
            return true;
        }
    }
    false
}

/// Whether a reader of the read group with this index is.
fn has_source_in(first: &Config, r: usize, meta: &Meta) -> bool
    requires good { IsGood first.now }
    requires within { r < length first.now.readgroup }
    ensures yes { result ≡ true → HasSourceIn first.now r meta.now }
    ensures no { HasSourceIn first.now r meta.now → result ≡ true }
{
    for i in 0..first.readgroup.as_slice()[r].reader.as_slice().len() {
        if is_source(first, r, i, meta) {
            return true;
        }
    }
    false
}

/// Whether this reader of it is.
fn is_source(first: &Config, r: usize, i: usize, meta: &Meta) -> bool
    requires good { IsGood first.now }
    requires within { r < length first.now.readgroup }
    requires there { i < length (read_group_at first.now r).reader }
    ensures yes { result ≡ true → IsSourceAt first.now r i meta.now }
    ensures no { IsSourceAt first.now r i meta.now → result ≡ true }
{
    let group = &first.readgroup.as_slice()[r];
    let reader = &group.reader.as_slice()[i];
    let own = &first.dataset.as_slice()[usize::from(reader.dataset)];
    is_named(reader, meta) && is_alike(own, meta) && matched_writer(first, group, i).is_some()
}

/// Whether the reader has the data set's name, and goes by the numbers of messages.
fn is_named(reader: &ReaderPart, meta: &Meta) -> bool
    ensures yes { result ≡ true → IsNamed reader.now meta.now }
    ensures no { IsNamed reader.now meta.now → result ≡ true }
{
    reader.name == *meta.name() && reader.numbering == NumberingWord::Message
}

/// Whether both have the same fields, major version and quality.
fn is_alike(own: &Meta, meta: &Meta) -> bool
    ensures yes { result ≡ true → AreAlike own.now meta.now }
    ensures no { AreAlike own.now meta.now → result ≡ true }
{
    has_fields(own, meta.fields())
        && own.major() == meta.major()
        && has_quality(own, meta.quality())
}

fn has_fields(own: &Meta, fields: &[Field]) -> bool
    ensures yes { result ≡ true → own.now.fields ≡ fields.now }
    ensures no { own.now.fields ≡ fields.now → result ≡ true }
{
    let mine = own.fields();
    if mine.len() != fields.len() {
        return false;
    }
    for k in 0..mine.len() {
        if !is_same_field(&mine[k], &fields[k]) {
            return false;
        }
    }
    true
}

fn is_same_field(one: &Field, other: &Field) -> bool
    ensures yes { result ≡ true → one.now ≡ other.now }
    ensures no { one.now ≡ other.now → result ≡ true }
{
    one.name == other.name && one.kind == other.kind && one.cap == other.cap
}

fn has_quality(own: &Meta, quality: bool) -> bool
    ensures yes { result ≡ true → own.now.quality ≡ quality }
    ensures no { own.now.quality ≡ quality → result ≡ true }
{
    if quality {
        own.quality()
    } else {
        !own.quality()
    }
}
