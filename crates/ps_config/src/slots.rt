//! The faults of slots.
ghost use Rattle.std.specs.Prelude.{◌≡◌, ◌≤◌, ◌<◌, ◌^◌, ◌&&◌, map};
ghost use Rattle.std.specs.List.{list_any};
ghost use Rattle.std.specs.Option.{option_map};
ghost use Rattle.toml.specs.View.{table_view};
ghost use Rattle.config_tables.specs.Places.{shares_outer};
ghost use Rattle.config_tables.specs.Seen.{seen};
ghost use Rattle.ps_config.specs.Fields.{fields_of, set_named, width_named};
ghost use Rattle.ps_config.specs.Slots.{is_slot, offset_of, size_of, overlaps, header_of_fixed, overlaps_header, has_slot_clash, front_length, is_slot_small, slot_limit, is_slot_past, has_quality, is_not_for_fixed};
ghost use Rattle.fixed_layout.specs.Spelling.{raw_size};

use crate::fields::{field_of, text_name_of};
use crate::header::{header_size, signature_size};
use crate::rooms::is_fixed;
use crate::settings::{layout_of, publisher_id_of, security_of, settings_of};
use config_tables::{Key, Part, Placed, number_of, text_of, truth_of};
use fixed_layout::raw_width;
use toml::Table;

/// A writer that can't be in a fixed group.
pub(crate) fn is_not_for_fixed(tables: &[Placed], placed: &Placed) -> bool
    ensures { result ≡ is_not_for_fixed (map seen tables.now) (seen placed.now) }
{
    placed.place.is_inner(Part::Group)
        && (is_fixed(layout_of(placed.outer))
            && (number_of(placed.table, Key::KeyFrameCount, 65535, 1) != 1
                || 0 < number_of(placed.table, Key::KeepAlive, 3600000, 0)
                || has_quality(tables, placed)))
}

fn has_quality(tables: &[Placed], placed: &Placed) -> bool
    ensures { result ≡ has_quality (map seen tables.now) (seen placed.now) }
{
    match set_named(tables, placed) {
        Some(set) => truth_of(set.table, Key::Quality, false),
        None => false,
    }
}

/// A slot has a byte in common with an earlier one of its group, or a writer's slot with the
/// header.
#[tactic(auto, using(crate::proofs::Seeing::any_seen))]
pub(crate) fn has_slot_clash(tables: &[Placed], before: &[Placed], placed: &Placed) -> bool
    ensures { result
        ≡ has_slot_clash (map seen tables.now) (map seen before.now) (seen placed.now) }
{
    is_slot(placed) && (overlaps_one(before, placed) || overlaps_header(tables, placed))
}

fn is_slot(placed: &Placed) -> bool
    ensures { result ≡ is_slot (seen placed.now) }
{
    (placed.place.is_inner(Part::Group) || placed.place.is_inner(Part::ReadGroup))
        && is_fixed(layout_of(placed.outer))
}

fn overlaps_one(before: &[Placed], placed: &Placed) -> bool
    ensures { result ≡ list_any (λ s. shares_outer placed.now.place (seen s).place
        && overlaps (seen placed.now) (seen s)) before.now }
{
    before.iter().any(|other| placed.place.shares_outer(other.place) && overlaps(placed, other))
}

fn overlaps(one: &Placed, other: &Placed) -> bool
    ensures { result ≡ overlaps (seen one.now) (seen other.now) }
{
    0 < size_of(one)
        && (0 < size_of(other)
            && (offset_of(one) < offset_of(other) + size_of(other)
                && offset_of(other) < offset_of(one) + size_of(one)))
}

fn offset_of(placed: &Placed) -> u64
    ensures offset { result ≡ offset_of (seen placed.now) }
    ensures bound { result ≤ 65000 }
{
    number_of(placed.table, Key::Offset, 65000, 0)
}

fn size_of(placed: &Placed) -> u64
    ensures size { result ≡ size_of (seen placed.now) }
    ensures bound { result ≤ 65000 }
{
    number_of(placed.table, Key::Size, 65000, 0)
}

fn overlaps_header(tables: &[Placed], placed: &Placed) -> bool
    ensures { result ≡ overlaps_header (map seen tables.now) (seen placed.now) }
{
    placed.place.is_inner(Part::Group)
        && (0 < size_of(placed) && offset_of(placed) < header_of_fixed(tables, placed.outer))
}

fn header_of_fixed(tables: &[Placed], group: &Table) -> u64
    ensures { result ≡ header_of_fixed (map seen tables.now) (table_view group.now) }
{
    let publisher = publisher_id_of(tables);
    u64::from(header_size(&publisher, &settings_of(group), false))
}

/// A slot is smaller than its message.
pub(crate) fn is_slot_small(tables: &[Placed], placed: &Placed) -> bool
    ensures { result ≡ is_slot_small (map seen tables.now) (seen placed.now) }
{
    is_slot(placed)
        && u128::from(size_of(placed))
            < u128::from(front_length(placed)) + width_named(tables, placed)
}

fn front_length(placed: &Placed) -> u64
    ensures length { result ≡ front_length (seen placed.now) }
    ensures bound { result ≤ 11 }
{
    if placed.place.is_inner(Part::Group) && truth_of(placed.table, Key::Versions, false) {
        11
    } else {
        3
    }
}

fn width_named(tables: &[Placed], placed: &Placed) -> u128
    ensures width { result ≡ width_named (map seen tables.now) (seen placed.now) }
    ensures bound { result < 2 ^ 100 }
{
    match set_named(tables, placed) {
        Some(set) => raw_size(tables, set.place.index()),
        None => 0,
    }
}

/// The data set that a writer or a reader names.
fn set_named<'a>(tables: &[Placed<'a>], placed: &Placed) -> Option<Placed<'a>>
    ensures { option_map seen result ≡ set_named (map seen tables.now) (seen placed.now) }
{
    let name = text_of(placed.table, Key::DataSet);
    for other in tables {
        if other.place.is_outer(Part::DataSet) && name == text_name_of(other) {
            return Some(*other);
        }
    }
    None
}

/// The bytes of a row of a data set as RawData.
fn raw_size(tables: &[Placed], index: usize) -> u128
    ensures size { result ≡ raw_size (fields_of (map seen tables.now) index) }
    ensures bound { result < 2 ^ 100 }
{
    let mut size = 0;
    for placed in tables {
        if placed.place.is_inner_of(Part::DataSet, index) {
            size += u128::from(raw_width(&field_of(placed)));
        }
    }
    size
}

/// A slot, and the signature after it, go past the datagram's end.
pub(crate) fn is_slot_past(placed: &Placed) -> bool
    ensures { result ≡ is_slot_past (seen placed.now) }
{
    let signature = signature_size(security_of(placed.outer));
    is_slot(placed)
        && slot_limit(placed) < offset_of(placed) + size_of(placed) + u64::from(signature)
}

fn slot_limit(placed: &Placed) -> u64
    ensures { result ≡ slot_limit (seen placed.now) }
{
    if placed.place.is_inner(Part::Group) {
        number_of(placed.outer, Key::MaxSize, 65000, 1400)
    } else {
        65000
    }
}
