//! Stores by the only author of a cell.
ghost use Rattle.std.specs.Prelude.{◌≡◌, ◌<◌, length, Some};
ghost use Rattle.row_words.specs.Belonging.{Belongs};
ghost use Rattle.version_cell.specs.Terms.{IsSole, quota};
ghost use Rattle.version_cell.specs.Passes.{Adds, IsPassOf, SeesLawful};

use crate::cell::Cell;
use crate::pass::Pass;
use crate::rule::Stores;
use crate::spelling::spelled;
use row_words::{Row, words_belong_by_shape};
use std::sync::Wait;

impl Cell {
    /// An entry of number 0 where the terms let nobody else make one: it has seen all entries, so the row is put in place of the
    /// last one's with nothing compared. The answer is the entry's version. The contract doesn't count the steps.
    pub fn store<R: Wait>(&self, rt: &R, pass: &mut Pass, row: &Row) -> u64
        requires own { IsPassOf self.now pass.old }
        requires author { pass.old.author ≡ Some 0 }
        requires sole { IsSole pass.old.terms }
        requires left { length pass.old.seen < quota 0 pass.old.terms }
        requires row { Belongs self.now.meta row.now.words }
        ensures stored { Adds pass.old pass.new row.now.words }
        ensures version { result ≡ length pass.new.seen }
        ensures lawful { SeesLawful pass.new }
    {
        words_belong_by_shape();
        let terms = &self.terms;
        let version = pass.version + 1;
        let next = spelled(version, 8, row, terms);
        self.words.swap_as::<Stores, R>(rt, &mut pass.place, &next);
        pass.version = version;
        pass.row = *row;
        pass.made += 1;
        self.tell(version);
        version
    }
}
