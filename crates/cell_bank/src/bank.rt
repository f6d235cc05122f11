//! The bank, and what its calls do to a set of passes.
ghost use Rattle.std.specs.Prelude.{◌≡◌, ◌<◌, length, map, All, IsSome, IfOk};
ghost use Rattle.row_words.specs.Belonging.{Belongs};
ghost use Rattle.row_words.specs.Patches.{IsPatchOf};
ghost use Rattle.version_cell.specs.Cells.{IsCell};
ghost use Rattle.version_cell.specs.Histories.{row_after};
ghost use Rattle.version_cell.specs.Passes.{SeesLawful, SeesMore, Tried, WasPlaced, shared_by};
ghost use Rattle.version_cell.specs.Sets.{cell_at, pass_at, ArePassesOf, ChangesAt, EachSeesLawful, JoinEach};

use row_words::{Patch, Row};
use std::alloc::Global;
use std::marker::Model;
use std::sync::Wait;
use ua_base::NoMemory;
use version_cell::{Cell, Passes, Placed, Wrote, histories_are_the_models, join_each, split_each};

/// One cell for each data set. To a contract it is the list of its cells, in the order of the data sets.
#[derive(Drop)]
pub struct Bank {
    pub(crate) cells: Vec<Cell>,
}

impl Model for Bank {
    ghost use Rattle.std.specs.Prelude.{List};
    ghost use Rattle.version_cell.specs.Cells.{CellData};

    ghost Value = { List CellData };

    ghost view = { λ b. b.cells.items };
}

impl Bank {
    /// One load of the cell of a data set, and the answer is the version that its pass has then seen, as `Cell::read`.
    pub fn read<R: Wait>(&self, rt: &R, passes: &mut Passes, set: u8) -> u64
        requires own { ArePassesOf self.now passes.old }
        requires set { set < length self.now }
        ensures seen { SeesMore (pass_at passes.old set) (pass_at passes.new set) }
        ensures version { result ≡ length (pass_at passes.new set).seen }
        ensures lawful { SeesLawful (pass_at passes.new set) }
        ensures others { ChangesAt set passes.old passes.new }
        ensures own { ArePassesOf self.now passes.new }
    {
        let pass = &mut passes.items[usize::from(set)];
        self.cells[usize::from(set)].read(rt, pass)
    }

    /// One load of the cell of a data set, and the answer is what its pass has then seen: the version, and its row, which belongs to
    /// the cell's meta.
    pub fn sample<R: Wait>(&self, rt: &R, passes: &mut Passes, set: u8) -> (u64, Row)
        requires own { ArePassesOf self.now passes.old }
        requires set { set < length self.now }
        ensures seen { SeesMore (pass_at passes.old set) (pass_at passes.new set) }
        ensures version { result.0 ≡ length (pass_at passes.new set).seen }
        ensures row { result.1.words ≡ row_after (pass_at passes.new set).seen }
        ensures belongs { All IsCell self.now → Belongs (cell_at self.now set).meta result.1.words }
        ensures lawful { SeesLawful (pass_at passes.new set) }
        ensures others { ChangesAt set passes.old passes.new }
        ensures own { ArePassesOf self.now passes.new }
    {
        histories_are_the_models();
        let version = self.read(rt, passes, set);
        (version, *passes.pass(set).row())
    }

    /// One exchange of the cell of a data set, as `Cell::try_write`.
    pub fn try_write<R: Wait>(&self, rt: &R, set: u8, passes: &mut Passes, patch: &Patch) -> Wrote
        requires own { ArePassesOf self.now passes.old }
        requires set { set < length self.now }
        requires numbered { IsSome (pass_at passes.old set).author }
        requires patch { IsPatchOf (cell_at self.now set).meta patch.now }
        ensures tried { Tried (cell_at self.now set) patch.now
            (pass_at passes.old set) (pass_at passes.new set) result }
        ensures lawful { SeesLawful (pass_at passes.new set) }
        ensures others { ChangesAt set passes.old passes.new }
        ensures own { ArePassesOf self.now passes.new }
    {
        let pass = &mut passes.items[usize::from(set)];
        self.cells[usize::from(set)].try_write(rt, pass, patch)
    }

    /// Exchanges of the cell of a data set until one wins, as `Cell::write`.
    pub fn write<R: Wait>(&self, rt: &R, set: u8, passes: &mut Passes, patch: &Patch) -> Placed
        requires own { ArePassesOf self.now passes.old }
        requires set { set < length self.now }
        requires numbered { IsSome (pass_at passes.old set).author }
        requires patch { IsPatchOf (cell_at self.now set).meta patch.now }
        ensures placed { WasPlaced (cell_at self.now set) patch.now
            (pass_at passes.old set) (pass_at passes.new set) result }
        ensures lawful { SeesLawful (pass_at passes.new set) }
        ensures others { ChangesAt set passes.old passes.new }
        ensures own { ArePassesOf self.now passes.new }
    {
        let pass = &mut passes.items[usize::from(set)];
        self.cells[usize::from(set)].write(rt, pass, patch)
    }

    /// Passes with no number that have seen as much.
    pub fn split(&self, alloc: Global, passes: &mut Passes) -> Result<Passes, NoMemory>
        requires own { ArePassesOf self.now passes.old }
        ensures same { passes.new ≡ passes.old }
        ensures given { IfOk result (λ given. given ≡ map shared_by passes.old) }
        ensures own { IfOk result (λ given. ArePassesOf self.now given) }
    {
        Ok(Passes {
            items: split_each(alloc, &self.cells, &mut passes.items)?,
        })
    }

    /// Each pass takes in what the other's of its data set has seen, whose number is spent.
    pub fn join<R: Wait>(&self, rt: &R, passes: &mut Passes, other: Passes)
        requires own { ArePassesOf self.now passes.old }
        requires other { ArePassesOf self.now other }
        ensures joins { JoinEach passes.old other passes.new }
        ensures lawful { EachSeesLawful passes.new }
        ensures own { ArePassesOf self.now passes.new }
    {
        join_each(rt, &self.cells, &mut passes.items, other.items);
    }
}
