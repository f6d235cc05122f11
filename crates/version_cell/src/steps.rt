//! The calls of a cell.
ghost use Rattle.std.specs.Prelude.{◌≡◌, length, IsSome};
ghost use Rattle.row_words.specs.Patches.{IsPatchOf};
ghost use Rattle.version_cell.specs.Passes.{IsPassOf, Joins, SeesLawful, SeesMore, Tried, WasPlaced, shared_by};

use crate::cell::{Cell, Placed, Wrote};
use crate::pass::Pass;
use crate::places::{join_places, load_words};
use crate::rule::{Copies, Exchanges, Moves};
use crate::spelling::{row_in, spelled};
use row_words::{Patch, patched_words_belong, words_belong_by_shape};
use std::sync::Wait;

impl Cell {
    /// The answer is the version that the pass has then seen. One load of the words, and none where no call has answered a later
    /// version than the pass has seen. The contract binds the answer to what the pass has seen, and that to what it had seen before;
    /// it doesn't say that the load is made now.
    pub fn read<R: Wait>(&self, rt: &R, pass: &mut Pass) -> u64
        requires own { IsPassOf self.now pass.old }
        ensures seen { SeesMore pass.old pass.new }
        ensures version { result ≡ length pass.new.seen }
        ensures lawful { SeesLawful pass.new }
    {
        if self.is_newest(pass.version) {
            return pass.version;
        }
        let mut head = [0u64; 26];
        load_words(rt, &self.words, &mut pass.place, &mut head, &mut pass.row);
        pass.version = head[0];
        self.tell(head[0]);
        pass.version
    }

    /// One exchange that expects what the pass has seen, and lays the patch into the last row of it. `Full` comes exactly where
    /// the pass has made as many entries as its number's quota, and then no exchange is made. The contract doesn't count the
    /// steps of the other answers.
    pub fn try_write<R: Wait>(&self, rt: &R, pass: &mut Pass, patch: &Patch) -> Wrote
        requires own { IsPassOf self.now pass.old }
        requires numbered { IsSome pass.old.author }
        requires patch { IsPatchOf self.now.meta patch.now }
        ensures tried { Tried self.now patch.now pass.old pass.new result }
        ensures lawful { SeesLawful pass.new }
    {
        let Some(author) = pass.author else {
            unreachable!()
        };
        let quota = self.terms[author as usize];
        if pass.made >= quota {
            return Wrote::Full { quota };
        }
        words_belong_by_shape();
        patched_words_belong();
        let mut row = pass.row;
        patch.lay(&self.meta, &mut row);
        let front = spelled(pass.version, 8, &pass.row, &self.terms);
        let next = spelled(pass.version + 1, 8, &row, &self.terms);
        match self
            .words
            .compare_exchange_as::<Exchanges, R>(rt, &mut pass.place, &front, &next)
        {
            Ok(_) => {
                pass.version += 1;
                pass.row = row;
                pass.made += 1;
                self.tell(pass.version);
                Wrote::Wrote(pass.version)
            }
            Err(words) => {
                pass.version = words[0];
                pass.row = row_in(&words);
                self.tell(pass.version);
                Wrote::Moved {
                    version: pass.version,
                }
            }
        }
    }

    /// Exchanges until one wins. `Full` comes exactly where it does for `try_write`.
    pub fn write<R: Wait>(&self, rt: &R, pass: &mut Pass, patch: &Patch) -> Placed
        requires own { IsPassOf self.now pass.old }
        requires numbered { IsSome pass.old.author }
        requires patch { IsPatchOf self.now.meta patch.now }
        ensures placed { WasPlaced self.now patch.now pass.old pass.new result }
        ensures lawful { SeesLawful pass.new }
    {
        for _ in rt.forever() {
            match self.try_write(rt, pass, patch) {
                Wrote::Wrote(version) => return Placed::Wrote(version),
                Wrote::Full { quota } => return Placed::Full { quota },
                Wrote::Moved { .. } => {}
            }
        }
        unreachable!()
    }

    /// A pass with no number that has seen as much.
    pub fn split(&self, pass: &mut Pass) -> Pass
        requires own { IsPassOf self.now pass.old }
        ensures same { pass.new ≡ pass.old }
        ensures given { result ≡ shared_by pass.old }
    {
        let place = self.words.split_pass::<Copies>(&mut pass.place);
        Pass {
            place,
            version: pass.version,
            row: pass.row,
            author: None,
            made: 0,
        }
    }

    /// The pass takes in what the other has seen. The other's number is spent, and its entries stay in the longer list.
    pub fn join<R: Wait>(&self, rt: &R, pass: &mut Pass, other: Pass)
        requires own { IsPassOf self.now pass.old }
        requires other { IsPassOf self.now other }
        ensures joins { Joins pass.old other pass.new }
        ensures lawful { SeesLawful pass.new }
    {
        let Pass {
            mut place,
            version,
            row,
            ..
        } = other;
        let moved = self.words.split_pass::<Moves>(&mut place);
        join_places(rt, &self.words, &mut pass.place, moved);
        if pass.version < version {
            pass.version = version;
            pass.row = row;
        }
    }
}
