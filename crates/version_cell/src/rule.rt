//! What a pass knows, the rule of a cell, and what each step tells. No value of these types is made: the rule speaks of them.
use atomic_table::{Join, Split};
use crossbeam_utils::rule::{Outcome, Protocol};
use std::collections::LinkedList;

/// An entry of a history: who made it, and the words of the row that it left.
pub struct Entry {
    pub author: u64,
    pub row: LinkedList<u64>,
}

/// What a pass knows.
pub struct View {
    /// The entries that it has seen, a beginning of the history.
    pub seen: LinkedList<Entry>,
    /// Its number, where it may write.
    pub author: Option<u64>,
    /// How many numbers it knows to be given.
    pub count: u64,
    /// The quotas and the shape.
    pub terms: Option<LinkedList<u64>>,
    /// Between a join and the load that ends it the two lists that were joined, its own first.
    pub olds: LinkedList<LinkedList<Entry>>,
}

/// The rule: there is one history, of which each pass has seen a beginning, and the words spell its length and its last row.
/// A cell of N words keeps the first N of 151 words, and behind those all are 0.
pub struct OneHistory<const N: usize>;

impl<const N: usize> Protocol<[u64; N], View> for OneHistory<N> {
    ghost use Rattle.version_cell.specs.Views.{blank};
    ghost use Rattle.version_cell.specs.Rule.{Kept};
    ghost use Rattle.version_cell.specs.Widths.{widened};

    ghost holds = { λ words views. Kept (widened N words) views };

    ghost first = { blank };
}

/// A load, by which the pass sees the whole history.
pub struct Loads;

impl Outcome<[u64; 151], View> for Loads {
    ghost use Rattle.version_cell.specs.Steps.{Reads};

    ghost then = { Reads };
}

/// The load that ends a join.
pub struct LoadsAtLast;

impl Outcome<[u64; 151], View> for LoadsAtLast {
    ghost use Rattle.version_cell.specs.Steps.{Closes};

    ghost then = { Closes };
}

/// An exchange: a write where it wins, a load where it loses.
pub struct Exchanges;

impl Outcome<[u64; 151], View> for Exchanges {
    ghost use Rattle.version_cell.specs.Steps.{Tries};

    ghost then = { Tries };
}

/// A write with nothing compared.
pub struct Stores;

impl Outcome<[u64; 151], View> for Stores {
    ghost use Rattle.version_cell.specs.Steps.{Writes};

    ghost then = { Writes };
}

/// An exchange that takes a number where it wins, and is a load where it loses.
pub struct Enrolling;

impl Outcome<[u64; 151], View> for Enrolling {
    ghost use Rattle.version_cell.specs.Steps.{Enrols};

    ghost then = { Enrols };
}

/// A new pass with no number that has seen as much.
pub struct Copies;

impl Split<View> for Copies {
    ghost use Rattle.version_cell.specs.Views.{copied};

    ghost left = { λ v. v };

    ghost right = { copied };
}

/// The whole view goes to a new pass. Only one that has made no step yet can be joined.
pub struct Moves;

impl Split<View> for Moves {
    ghost use Rattle.version_cell.specs.Views.{blank};

    ghost left = { λ _. blank };

    ghost right = { λ v. v };
}

/// The pass takes in what another has seen.
pub struct Longer;

impl Join<View> for Longer {
    ghost use Rattle.version_cell.specs.Views.{joined, blank};

    ghost both = { joined };

    ghost spent = { blank };
}
