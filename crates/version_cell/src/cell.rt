//! The cell of a data set, and what a write is answered.
use crate::strip::Strip;
use dataset_meta::Meta;
use std::marker::Model;
use std::sync::atomic::{AtomicU64, Ordering};

/// The rows of a data set, one after another. Its words are the version (the number of entries), the count of numbers given, the
/// quotas of the eight authors, the 16 words of the shape of the meta, and the last row: its first 8, 32, 80 or all 125 words,
/// the fewest behind which each row of the meta is 0. To a contract it is its name, the meta and the quotas; what stands in it is
/// known only by what its passes have seen.
#[derive(Drop)]
pub struct Cell {
    pub(crate) words: Strip,
    pub(crate) meta: Meta,
    // The quotas, and behind them the shape.
    pub(crate) terms: [u64; 24],
    // The highest version that a call has answered. No clause speaks of it.
    pub(crate) newest: AtomicU64,
}

impl Model for Cell {
    ghost use Rattle.version_cell.specs.Cells.{CellData};

    ghost Value = { CellData };

    ghost use Rattle.version_cell.specs.CellFields.{cell_by, HasTerms};

    ghost view = { cell_by };

    ghost invariant = { HasTerms };
}

/// What one exchange is answered.
#[derive(Clone, Copy, Debug, PartialEq, Eq)]
pub enum Wrote {
    /// The entry is made; its version.
    Wrote(u64),
    /// Another entry came before. The pass has seen it, and no entry is made. The version that the pass has now.
    Moved { version: u64 },
    /// The pass has made as many entries as its number's quota, and no exchange was made.
    Full { quota: u64 },
}

/// What a write is answered that goes on until an exchange wins.
#[derive(Clone, Copy, Debug, PartialEq, Eq)]
pub enum Placed {
    /// The entry is made; its version.
    Wrote(u64),
    /// The pass has made as many entries as its number's quota, and no exchange was made.
    Full { quota: u64 },
}

impl Cell {
    ghost use Rattle.std.specs.Prelude.{◌≡◌};
    ghost use Rattle.version_cell.specs.Cells.{IsCell};

    /// The meta of the rows.
    pub fn meta(&self) -> &Meta
        ensures meta { result.now ≡ self.now.meta }
        ensures cell { IsCell self.now }
    {
        &self.meta
    }

    // Whether each call that has ended answered this version or a lower one.
    #[inline(always)]
    pub(crate) fn is_newest(&self, version: u64) -> bool {
        self.newest.load(Ordering::SeqCst) == version
    }

    // A call tells the version that it answers before it ends.
    #[inline(always)]
    pub(crate) fn tell(&self, version: u64) {
        self.newest.fetch_max(version, Ordering::SeqCst);
    }
}
