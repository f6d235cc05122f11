//! The token of one caller.
ghost use Rattle.std.specs.Prelude.{◌≡◌, length};
ghost use Rattle.version_cell.specs.Histories.{row_after};
ghost use Rattle.version_cell.specs.Passes.{SeesLawful};

use crate::strip::Place;
use row_words::Row;
use std::marker::Model;

/// The token of one caller of a cell, with the front that it has seen: the version and the row. To a contract it is the cell's
/// name and terms, the entries that it has seen, and its number.
#[derive(Drop)]
pub struct Pass {
    pub(crate) place: Place,
    pub(crate) version: u64,
    pub(crate) row: Row,
    pub(crate) author: Option<u8>,
    // How many entries of its number there are.
    pub(crate) made: u64,
}

impl Model for Pass {
    ghost use Rattle.version_cell.specs.Known.{Known};

    ghost Value = { Known };

    ghost use Rattle.version_cell.specs.Front.{known_by, IsFront};

    ghost view = { known_by };

    ghost invariant = { IsFront };
}

impl Pass {
    /// How many entries it has seen.
    pub fn version(&self) -> u64
        ensures { result ≡ length self.now.seen }
    {
        self.version
    }

    /// The row of the last entry that it has seen, or the opening row.
    pub fn row(&self) -> &Row
        ensures row { result.now.words ≡ row_after self.entry.now.seen }
        ensures lawful { SeesLawful self.entry.now }
    {
        &self.row
    }

    /// Its number, where it may write.
    pub fn author(&self) -> Option<u8>
        ensures { result ≡ self.now.author }
    {
        self.author
    }
}
