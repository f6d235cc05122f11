//! What refuses a document's tables, and where.
ghost use Rattle.std.specs.Prelude.{◌≡◌, ◌≢◌, map};
ghost use Rattle.config_tables.specs.Seen.{seen};
ghost use Rattle.config_tables.specs.declared.fault.Fault.TheVariants.{FrameLarge};
ghost use Rattle.ps_config.specs.Configs.{config_of};
ghost use Rattle.ps_config.specs.Refusals.{stands, table_faults, first_at, refusal_by};

use crate::faults::{
    has_double_id, has_double_name, has_key_fault, has_missing_key, has_no_fields, has_unknown_key,
    has_unknown_ref, has_value_fault, is_bad_field, is_keep_alive_short, is_past_limit,
    is_too_wide,
};
use crate::key_order::has_no_order;
use crate::parts::Config;
use crate::rooms::lacks_room;
use crate::slots::{has_slot_clash, is_not_for_fixed, is_slot_past, is_slot_small};
use config_tables::{Fault, Part, Place, Placed};

/// The first of the faults that stands anywhere, but for the last, and the first table at which it
/// stands.
pub(crate) fn table_refusal(tables: &[Placed]) -> Option<(Fault, Place)>
    ensures { result ≡ refusal_by table_faults (map seen tables.now) }
{
    for fault in faults() {
        if let Some(place) = first_at(*fault, tables) {
            return Some((*fault, place));
        }
    }
    None
}

/// The faults that tables have, in the order in which they are judged: all but the first, which is
/// the document's, and the last.
#[tactic(auto, unfolding(crate::specs::Refusals::table_faults))]
fn faults() -> &'static [Fault]
    ensures { result.now ≡ table_faults }
{
    let faults = Fault::all();
    &faults[1..24]
}

fn first_at(fault: Fault, tables: &[Placed]) -> Option<Place>
    requires { fault ≢ FrameLarge }
    ensures { result ≡ first_at fault (map seen tables.now) }
{
    for (index, placed) in tables.iter().enumerate() {
        if stands(fault, tables, &tables[..index], placed) {
            return Some(placed.place);
        }
    }
    None
}

/// The fault stands at this table, with these before it.
#[tactic(auto, unfolding(crate::specs::Refusals::stands))]
fn stands(fault: Fault, tables: &[Placed], before: &[Placed], placed: &Placed) -> bool
    requires { fault ≢ FrameLarge }
    ensures { result ≡ stands fault (map seen tables.now) (map seen before.now) (seen placed.now) }
{
    match fault {
        Fault::UnknownKey => has_unknown_key(placed),
        Fault::MissingKey => has_missing_key(placed),
        Fault::TooMany => is_past_limit(before, placed),
        Fault::DoubleName => has_double_name(before, placed),
        Fault::BadField => is_bad_field(placed),
        Fault::NoFields => has_no_fields(tables, placed),
        Fault::UnknownRef => has_unknown_ref(tables, placed),
        Fault::DoubleId => has_double_id(before, placed),
        Fault::KeyNeeded => has_key_fault(placed),
        Fault::KeepAliveShort => is_keep_alive_short(placed),
        Fault::TooWide => is_too_wide(tables, placed),
        Fault::KeyOrder => has_no_order(tables, placed),
        Fault::FixedOnlyKeys => is_not_for_fixed(tables, placed),
        Fault::SlotClash => has_slot_clash(tables, before, placed),
        Fault::SlotSmall => is_slot_small(tables, placed),
        Fault::SlotPast => is_slot_past(placed),
        Fault::FrameLarge => unreachable!(),
        _ => has_value_fault(placed, fault),
    }
}

/// The first group, of the configuration that the tables are, that lacks room for its messages.
#[tactic(auto, unfolding(crate::specs::Refusals::stands))]
pub(crate) fn first_large(tables: &[Placed], config: &Config) -> Option<Place>
    requires { config.now ≡ config_of (map seen tables.now) }
    ensures { result ≡ first_at FrameLarge (map seen tables.now) }
{
    let groups = config.group.as_slice();
    let metas = config.dataset.as_slice();
    let mut index = 0;
    for placed in tables {
        if placed.place.is_outer(Part::Group) {
            if lacks_room(&config.publisher.id, metas, &groups[index]) {
                return Some(placed.place);
            }
            index += 1;
        }
    }
    None
}
