//! The order of a key group's keys.
ghost use Rattle.std.specs.Prelude.{◌≡◌, map};
ghost use Rattle.config_tables.specs.Seen.{seen};
ghost use Rattle.ps_config.specs.Faults.{rises, is_above, starts_at_zero, moments_in, numbers_in, are_in_order, has_no_order};

use config_tables::{Key, Part, Placed, number_of};

/// A key group without key, whose tokens or moments don't rise, or whose first moment isn't 0.
pub(crate) fn has_no_order(tables: &[Placed], placed: &Placed) -> bool
    ensures { result ≡ has_no_order (map seen tables.now) (seen placed.now) }
{
    placed.place.is_outer(Part::KeyGroup) && !are_in_order(tables, placed.place.index())
}

fn are_in_order(tables: &[Placed], index: usize) -> bool
    ensures { result ≡ are_in_order index (map seen tables.now) }
{
    starts_at_zero(tables, index)
        && (rises(tables, index, Key::From, 1 << 40)
            && rises(tables, index, Key::Token, 4294967295))
}

fn starts_at_zero(tables: &[Placed], index: usize) -> bool
    ensures { result ≡ starts_at_zero (moments_in index (map seen tables.now)) }
{
    for placed in tables {
        if placed.place.is_inner_of(Part::KeyGroup, index) {
            return number_of(placed.table, Key::From, 1 << 40, 0) == 0;
        }
    }
    false
}

fn rises(tables: &[Placed], index: usize, key: Key, most: u64) -> bool
    ensures { result ≡ rises (numbers_in key most index (map seen tables.now)) }
{
    let mut last = None;
    for placed in tables {
        if placed.place.is_inner_of(Part::KeyGroup, index) {
            let number = number_of(placed.table, key, most, 0);
            if !is_above(last, number) {
                return false;
            }
            last = Some(number);
        }
    }
    true
}

fn is_above(last: Option<u64>, number: u64) -> bool
    ensures { result ≡ is_above last number }
{
    match last {
        Some(last) => last < number,
        None => true,
    }
}
