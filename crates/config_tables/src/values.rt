//! What stands at a table's keys, and what is wrong with it.
ghost use Rattle.std.specs.Prelude.{◌≡◌, ◌≤◌, is_some, option_map, option_copied, option_and_then};
ghost use Rattle.std.specs.List.{list_all};
ghost use Rattle.std.specs.Char.{is_ascii_hexdigit};
ghost use Rattle.toml.specs.Data.{as_str, as_table};
ghost use Rattle.toml.specs.View.{view, table_view, array_view};
ghost use Rattle.dataset_meta.specs.Names.{is_name};
ghost use Rattle.config_tables.specs.Values.{value_at, text_or, text_at, number_at, natural, at_most, truth_at, unless, is_word, is_hex, key_digits, are_tables, text_fault, value_fault, row_fault};
ghost use Rattle.config_tables.specs.Seen.{seen};

use crate::class_id::guid_spelled;
use crate::document::{Placed, value_at};
use crate::fault::Fault;
use crate::grammar::{Choice, Form, Row, Spelling};
use crate::key::Key;
use crate::publisher::Publisher;
use crate::words::{Layout, NumberingWord, Policy, Security, kind_named};
use dataset_meta::Name32;
use toml::value::Array;
use toml::{Table, Value};

/// The value at a key.
pub fn value_of(table: &Table, key: Key) -> Option<&Value>
    ensures { option_map (λ v. view v.now) result ≡ value_at key (table_view table.now) }
{
    value_at(table, key.text())
}

/// The text at a key, else the empty one.
pub fn text_of(table: &Table, key: Key) -> &str
    ensures { result.now ≡ text_at key (table_view table.now) }
{
    text_or(table, key, "")
}

/// The text at a key, else the default.
pub fn text_or<'a>(table: &'a Table, key: Key, default: &'a str) -> &'a str
    ensures { result.now ≡ text_or default.now key (table_view table.now) }
{
    match text_if(table, key) {
        Some(text) => text,
        None => default,
    }
}

/// The text at a key.
pub fn text_if(table: &Table, key: Key) -> Option<&str>
    ensures { option_copied result ≡ option_and_then as_str (value_at key (table_view table.now)) }
{
    match value_of(table, key) {
        Some(value) => value.as_str(),
        None => None,
    }
}

/// The number at a key where it is at most this, else the default.
pub fn number_of(table: &Table, key: Key, most: u64, default: u64) -> u64
    ensures number { result ≡ number_at key most default (table_view table.now) }
    ensures bound { default ≤ most → result ≤ most }
{
    match value_of(table, key) {
        Some(value) => match value.as_integer() {
            Some(n) => natural(n, most).unwrap_or(default),
            None => default,
        },
        None => default,
    }
}

fn natural(n: i64, most: u64) -> Option<u64>
    ensures { result ≡ option_and_then (at_most most) (natural n) }
{
    if n < 0 {
        return None;
    }
    let n = n as u64;
    if n <= most { Some(n) } else { None }
}

/// The truth value at a key, else the default.
pub fn truth_of(table: &Table, key: Key, default: bool) -> bool
    ensures { result ≡ truth_at key default (table_view table.now) }
{
    match value_of(table, key) {
        Some(value) => value.as_bool().unwrap_or(default),
        None => default,
    }
}

/// What is wrong with the value at a row's key.
pub fn row_fault(placed: &Placed, row: &Row) -> Option<Fault>
    ensures { result ≡ row_fault (seen placed.now) row.now }
{
    match value_of(placed.table, row.key) {
        Some(value) => value_fault(placed.outer, row.form, value),
        None => None,
    }
}

fn value_fault(outer: &Table, form: Form, value: &Value) -> Option<Fault>
    ensures { result ≡ value_fault (table_view outer.now) form (view value.now) }
{
    match form {
        Form::Truth => unless(value.is_bool(), Fault::WrongType),
        Form::Number(least, most) => match value.as_integer() {
            Some(n) => unless(least <= n && n <= most, Fault::BadNumber),
            None => Some(Fault::WrongType),
        },
        Form::Text(spelling) => match value.as_str() {
            Some(text) => text_fault(outer, spelling, text),
            None => Some(Fault::WrongType),
        },
        Form::Table => unless(value.is_table(), Fault::WrongType),
        Form::Tables => match value.as_array() {
            Some(items) => unless(are_tables(items), Fault::WrongType),
            None => Some(Fault::WrongType),
        },
    }
}

fn unless(holds: bool, fault: Fault) -> Option<Fault>
    ensures { result ≡ unless holds fault }
{
    if holds { None } else { Some(fault) }
}

fn are_tables(items: &Array) -> bool
    ensures { result ≡ are_tables (array_view items.now) }
{
    holds_tables(items)
}

fn holds_tables(items: &[Value]) -> bool
    ensures { result ≡ list_all (λ item. is_some (as_table (view item))) items.now }
{
    items.iter().all(|item| item.is_table())
}

fn text_fault(outer: &Table, spelling: Spelling, text: &str) -> Option<Fault>
    ensures { result ≡ text_fault (table_view outer.now) spelling text.now }
{
    match spelling {
        Spelling::Name => unless(Name32::new(text.as_bytes()).is_some(), Fault::BadName),
        Spelling::Reference(_) => None,
        Spelling::Publisher => unless(Publisher::named(text).is_some(), Fault::BadPublisher),
        Spelling::Guid => unless(guid_spelled(text).is_some(), Fault::BadUuid),
        Spelling::Word(choice) => unless(is_word(choice, text), Fault::BadChoice),
        Spelling::Hex(count) => unless(is_hex(text, count), Fault::BadHex),
        Spelling::KeyHex => unless(is_hex(text, key_digits(outer)), Fault::BadHex),
    }
}

fn is_word(choice: Choice, word: &str) -> bool
    ensures { result ≡ is_word choice word.now }
{
    match choice {
        Choice::Kind => kind_named(word).is_some(),
        Choice::Policy => Policy::named(word).is_some(),
        Choice::Layout => Layout::named(word).is_some(),
        Choice::Security => Security::named(word).is_some(),
        Choice::Numbering => NumberingWord::named(word).is_some(),
    }
}

fn is_hex(text: &str, count: usize) -> bool
    ensures { result ≡ is_hex count text.now }
{
    text.len() == count && has_hex_digits(text.as_bytes())
}

fn has_hex_digits(bytes: &[u8]) -> bool
    ensures { result ≡ list_all is_ascii_hexdigit bytes.now }
{
    bytes.iter().all(|byte| byte.is_ascii_hexdigit())
}

fn key_digits(keygroup: &Table) -> usize
    ensures { result ≡ key_digits (table_view keygroup.now) }
{
    if text_of(keygroup, Key::Policy) == "aes256" {
        64
    } else {
        32
    }
}
