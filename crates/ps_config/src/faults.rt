//! The faults of a table, each by itself.
ghost use Rattle.std.specs.Prelude.{◌≡◌, ◌==◌, map, filter, position, count_by, not, option_and_then, ◌&&◌, string_bytes};
ghost use Rattle.std.specs.Str.{bytes_eq};
ghost use Rattle.std.specs.List.{list_any};
ghost use Rattle.std.specs.BTreeMap.{keys};
ghost use Rattle.toml.specs.Data.{as_str};
ghost use Rattle.toml.specs.View.{table_view};
ghost use Rattle.dataset_meta.specs.Fields.{is_sized};
ghost use Rattle.config_tables.specs.Values.{value_at};
ghost use Rattle.ps_config.specs.Faults.{is_listed, any_key, has_unknown_key, lacks, has_missing_key, is_fault, has_value_fault, is_past_limit, is_reserved, has_double_name, id_of, has_double_id, is_bad_field, has_no_fields, is_too_wide, has_key_fault, is_keep_alive_short, index_named, referred, names_nothing, has_unknown_ref};
ghost use Rattle.dataset_meta.specs.Metas.{words_of};
ghost use Rattle.ps_config.specs.Fields.{name_of, fields_of};
ghost use Rattle.config_tables.specs.Places.{counts_with, shares_names, shares_ids, is_outer, is_inner_of};
ghost use Rattle.config_tables.specs.declared.place.Part.TheVariants.{DataSet};
ghost use Rattle.config_tables.specs.Seen.{seen};

use crate::fields::{field_of, kind_of, text_name_of};
use crate::header::is_secured;
use crate::settings::security_of;
use config_tables::{
    Fault, Form, Key, Part, Place, Placed, Row, Spelling, number_of, row_fault, rows_of, text_if,
    value_of,
};
use toml::Table;
use ua_values::Kind;

/// A key that isn't listed.
pub(crate) fn has_unknown_key(placed: &Placed) -> bool
    ensures { result ≡ has_unknown_key (seen placed.now) }
{
    has_unlisted(rows_of(placed.place), placed.table)
}

fn has_unlisted(rows: &[Row], table: &Table) -> bool
    ensures { result ≡ list_any (λ key. not (is_listed rows.now (string_bytes key)))
        (keys table.now) }
{
    table.keys().any(|key| !is_listed(rows, key.as_str()))
}

fn is_listed(rows: &[Row], key: &str) -> bool
    ensures { result ≡ is_listed rows.now key.now }
{
    rows.iter().any(|row| key == row.key.text())
}

/// A listed key that has to be there and isn't.
pub(crate) fn has_missing_key(placed: &Placed) -> bool
    ensures { result ≡ has_missing_key (seen placed.now) }
{
    rows_of(placed.place).iter().any(|row| lacks(placed, row))
}

fn lacks(placed: &Placed, row: &Row) -> bool
    ensures { result ≡ lacks (seen placed.now) row.now }
{
    row.is_required && value_of(placed.table, row.key).is_none()
}

/// The value at some key has this fault.
pub(crate) fn has_value_fault(placed: &Placed, fault: Fault) -> bool
    ensures { result ≡ has_value_fault fault (seen placed.now) }
{
    rows_of(placed.place)
        .iter()
        .any(|row| is_fault(fault, row_fault(placed, row)))
}

fn is_fault(fault: Fault, found: Option<Fault>) -> bool
    ensures { result ≡ is_fault fault found }
{
    match found {
        Some(found) => fault.is(found),
        None => false,
    }
}

/// One more than may be counted together.
pub(crate) fn is_past_limit(before: &[Placed], placed: &Placed) -> bool
    ensures { result ≡ is_past_limit (map seen before.now) (seen placed.now) }
{
    placed.place.limit() <= count_with(before, placed.place)
}

fn count_with(before: &[Placed], place: Place) -> usize
    ensures { result ≡ count_by (λ s. counts_with place s.place) before.now }
{
    before
        .iter()
        .filter(|other| place.counts_with(other.place))
        .count()
}

/// An earlier table has the name, or it is one that no component may have.
#[tactic(auto, using(crate::proofs::Seeing::any_seen))]
pub(crate) fn has_double_name(before: &[Placed], placed: &Placed) -> bool
    ensures { result ≡ has_double_name (map seen before.now) (seen placed.now) }
{
    is_name_taken(before, placed)
        || (placed.place.is_component() && is_reserved(text_name_of(placed)))
}

fn is_name_taken(before: &[Placed], placed: &Placed) -> bool
    ensures { result ≡ list_any (λ s. shares_names placed.now.place (seen s).place
        && bytes_eq (name_of (seen placed.now)) (name_of (seen s))) before.now }
{
    before.iter().any(|other| placed.place.shares_names(other.place)
        && text_name_of(placed) == text_name_of(other))
}

fn is_reserved(name: &str) -> bool
    ensures { result ≡ is_reserved name.now }
{
    name == "root" || name == "connection"
}

/// An earlier table has the id.
#[tactic(auto, using(crate::proofs::Seeing::any_seen))]
pub(crate) fn has_double_id(before: &[Placed], placed: &Placed) -> bool
    ensures { result ≡ has_double_id (map seen before.now) (seen placed.now) }
{
    is_id_taken(before, placed)
}

fn is_id_taken(before: &[Placed], placed: &Placed) -> bool
    ensures { result ≡ list_any (λ s. shares_ids placed.now.place (seen s).place
        && id_of (seen placed.now) == id_of (seen s)) before.now }
{
    before.iter().any(|other| placed.place.shares_ids(other.place) && id_of(placed) == id_of(other))
}

fn id_of(placed: &Placed) -> u64
    ensures { result ≡ id_of (seen placed.now) }
{
    let key = if placed.place.is_inner(Part::ReadGroup) {
        Key::Writer
    } else {
        Key::Id
    };
    number_of(placed.table, key, 65535, 0)
}

/// A text or a byte string without a cap, or another field with one.
pub(crate) fn is_bad_field(placed: &Placed) -> bool
    ensures { result ≡ is_bad_field (seen placed.now) }
{
    placed.place.is_inner(Part::DataSet)
        && is_sized(kind_of(placed)) != value_of(placed.table, Key::Cap).is_some()
}

fn is_sized(kind: Kind) -> bool
    ensures { result ≡ is_sized kind }
{
    matches!(kind, Kind::String | Kind::ByteString)
}

/// A data set without fields.
#[tactic(auto, using(crate::proofs::Seeing::any_seen))]
pub(crate) fn has_no_fields(tables: &[Placed], placed: &Placed) -> bool
    ensures { result ≡ has_no_fields (map seen tables.now) (seen placed.now) }
{
    match placed.place {
        Place::Outer(Part::DataSet, index) => !has_field(tables, index),
        _ => false,
    }
}

fn has_field(tables: &[Placed], index: usize) -> bool
    ensures { result ≡ list_any (λ s. is_inner_of DataSet index s.place) tables.now }
{
    tables
        .iter()
        .any(|other| other.place.is_inner_of(Part::DataSet, index))
}

/// A data set whose rows take more than 125 words.
pub(crate) fn is_too_wide(tables: &[Placed], placed: &Placed) -> bool
    ensures { result ≡ is_too_wide (map seen tables.now) (seen placed.now) }
{
    placed.place.is_outer(Part::DataSet) && 125 < words_of(tables, placed.place.index())
}

fn words_of(tables: &[Placed], index: usize) -> u128
    ensures { result ≡ words_of (fields_of (map seen tables.now) index) }
{
    let mut words = 0;
    let mut count = 0;
    for placed in tables {
        if placed.place.is_inner_of(Part::DataSet, index) {
            words += u128::from(field_of(placed).words());
            count += 1;
        }
    }
    words + (count + 1) / 2
}

/// Which element of an array has the name.
pub(crate) fn index_named(tables: &[Placed], part: Part, name: &str) -> Option<usize>
    ensures { result ≡ index_named part name.now (map seen tables.now) }
{
    position_named(tables, part, name)
}

fn position_named(tables: &[Placed], part: Part, name: &str) -> Option<usize>
    ensures { result ≡ position (λ t. bytes_eq name.now (name_of (seen t)))
        (filter (λ t. is_outer part t.place) tables.now) }
{
    tables
        .iter()
        .filter(|other| other.place.is_outer(part))
        .position(|other| name == text_name_of(other))
}

/// A reference that names no element.
pub(crate) fn has_unknown_ref(tables: &[Placed], placed: &Placed) -> bool
    ensures { result ≡ has_unknown_ref (map seen tables.now) (seen placed.now) }
{
    rows_of(placed.place)
        .iter()
        .any(|row| names_nothing(tables, placed, row))
}

fn names_nothing(tables: &[Placed], placed: &Placed, row: &Row) -> bool
    ensures { result ≡ names_nothing (map seen tables.now) (referred row.now.form)
        (option_and_then as_str (value_at row.now.key (table_view placed.now.table.now))) }
{
    let Form::Text(Spelling::Reference(part)) = row.form else {
        return false;
    };
    match text_if(placed.table, row.key) {
        Some(name) => index_named(tables, part, name).is_none(),
        None => false,
    }
}

/// Security without a key group, or a key group without security.
pub(crate) fn has_key_fault(placed: &Placed) -> bool
    ensures { result ≡ has_key_fault (seen placed.now) }
{
    (placed.place.is_outer(Part::Group) || placed.place.is_outer(Part::ReadGroup))
        && is_secured(security_of(placed.table)) != value_of(placed.table, Key::KeyGroup).is_some()
}

/// A keep-alive time that isn't 0 and is below the group's interval.
pub(crate) fn is_keep_alive_short(placed: &Placed) -> bool
    ensures { result ≡ is_keep_alive_short (seen placed.now) }
{
    let keep_alive = number_of(placed.table, Key::KeepAlive, 3600000, 0);
    placed.place.is_inner(Part::Group)
        && (0 < keep_alive && keep_alive < number_of(placed.outer, Key::Interval, 3600000, 0))
}
