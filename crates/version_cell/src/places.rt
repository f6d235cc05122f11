//! Steps of the words that several calls make.
ghost use Rattle.std.specs.Prelude.{◌≡◌, ◌++◌, ℕ, List, []};
ghost use Rattle.crossbeam_utils.specs.Seq.{cell_view, IsSamePass};
ghost use Rattle.version_cell.specs.Views.{joined};
ghost use Rattle.version_cell.specs.Steps.{Closes, Reads};
ghost use Rattle.version_cell.specs.Strips.{table_of};

use crate::rule::{Loads, LoadsAtLast, Longer};
use crate::strip::{Place, Strip};
use row_words::Row;
use std::sync::Wait;

/// One load. The words that it finds are the head, which is those before a row, and the row.
pub(crate) fn load_words<R: Wait>(
    rt: &R,
    words: &Strip,
    place: &mut Place,
    head: &mut [u64; 26],
    row: &mut Row,
)
    requires { place.old.table_id ≡ table_of words.now }
    ensures same { IsSamePass place.old place.new }
    ensures reads { let found = head.new ++ row.new.words in
        Reads (cell_view place.old) found found (cell_view place.new) }
{
    words.load_as::<Loads, R>(rt, place, head, row);
}

/// The place takes in what another has seen that has made no step yet, and a load ends the join.
pub(crate) fn join_places<R: Wait>(rt: &R, words: &Strip, place: &mut Place, other: Place)
    requires own { place.old.table_id ≡ table_of words.now }
    requires other { other.table_id ≡ place.old.table_id }
    requires unmoved { other.me.1 ≡ [] }
    ensures same { IsSamePass place.old place.new }
    ensures closes { (x : List ℕ)
        × Closes (joined (cell_view place.old) (cell_view other)) x x (cell_view place.new) }
{
    words.join_pass::<Longer>(place, other);
    words.load_as::<LoadsAtLast, R>(rt, place, &mut [0; 26], &mut Row::opening());
}
