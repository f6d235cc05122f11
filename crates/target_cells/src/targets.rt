//! The cells of the readers, and what looks at them.
ghost use Rattle.std.specs.Prelude.{◌≡◌, ◌<◌, length, map, IfOk};
ghost use Rattle.row_words.specs.Belonging.{Belongs};
ghost use Rattle.version_cell.specs.Passes.{SeesLawful, SeesMore, Adds, shared_by};
ghost use Rattle.version_cell.specs.Sets.{cell_at, pass_at, ArePassesOf, ChangesAt, EachSeesLawful, JoinEach};
ghost use Rattle.target_cells.specs.Keeping.{AreLevel, AreSound};

use crate::keeper::Keeper;
use crate::storing::{level_each, store};
use dataset_meta::Meta;
use row_words::Row;
use std::alloc::Global;
use std::marker::Model;
use std::sync::Wait;
use ua_base::NoMemory;
use version_cell::{Cell, Passes, join_each, split_each};

/// One cell for each reader, whose versions are the reader's stores: the first stored row is version 1. To a contract it is the
/// list of its cells, in the order of the readers, and how many stores each may have.
#[derive(Drop)]
pub struct Targets {
    pub(crate) cells: Vec<Cell>,
    pub(crate) limit: u64,
}

impl Model for Targets {
    ghost use Rattle.target_cells.specs.Keeping.{TargetsData, AreSound};

    ghost Value = { TargetsData };

    ghost view = { λ t. record { cells = t.cells.items; limit = t.limit } };

    ghost invariant = { λ t. AreSound (record { cells = t.cells.items; limit = t.limit }) };
}

impl Targets {
    /// The meta of a reader's rows.
    pub fn meta(&self, reader: u8) -> &Meta
        requires { reader < length self.now.cells }
        ensures meta { result.now ≡ (cell_at self.now.cells reader).meta }
        ensures sound { AreSound self.now }
    {
        self.cells[usize::from(reader)].meta()
    }

    /// Stores the row that a reader holds, and answers how many stores of it there are now. The keeper has seen them all, since
    /// nobody else makes one.
    pub fn store<R: Wait>(&self, rt: &R, keeper: &mut Keeper, reader: u8, row: &Row) -> u64
        requires own { ArePassesOf self.now.cells keeper.old }
        requires reader { reader < length self.now.cells }
        requires left { length (pass_at keeper.old reader).seen < self.now.limit }
        requires row { Belongs (cell_at self.now.cells reader).meta row.now.words }
        ensures stored { Adds (pass_at keeper.old reader) (pass_at keeper.new reader)
            row.now.words }
        ensures count { result ≡ length (pass_at keeper.new reader).seen }
        ensures lawful { SeesLawful (pass_at keeper.new reader) }
        ensures others { ChangesAt reader keeper.old keeper.new }
        ensures own { ArePassesOf self.now.cells keeper.new }
        ensures sound { AreSound self.now }
    {
        let pass = &mut keeper.items[usize::from(reader)];
        store(rt, &self.cells[usize::from(reader)], pass, row)
    }

    /// One load of the cell of a reader, and the answer is how many of its stores the pass has then seen, as `Cell::read`.
    pub fn look<R: Wait>(&self, rt: &R, passes: &mut Passes, reader: u8) -> u64
        requires own { ArePassesOf self.now.cells passes.old }
        requires reader { reader < length self.now.cells }
        ensures seen { SeesMore (pass_at passes.old reader) (pass_at passes.new reader) }
        ensures count { result ≡ length (pass_at passes.new reader).seen }
        ensures lawful { SeesLawful (pass_at passes.new reader) }
        ensures others { ChangesAt reader passes.old passes.new }
        ensures own { ArePassesOf self.now.cells passes.new }
        ensures sound { AreSound self.now }
    {
        let pass = &mut passes.items[usize::from(reader)];
        self.cells[usize::from(reader)].read(rt, pass)
    }

    /// The passes see exactly the stores that the keeper has made.
    pub fn level<R: Wait>(&self, rt: &R, keeper: &mut Keeper, passes: &mut Passes)
        requires keeper { ArePassesOf self.now.cells keeper.old }
        requires own { ArePassesOf self.now.cells passes.old }
        ensures same { keeper.new ≡ keeper.old }
        ensures level { AreLevel keeper.old passes.old passes.new }
        ensures lawful { EachSeesLawful passes.new }
        ensures own { ArePassesOf self.now.cells passes.new }
        ensures sound { AreSound self.now }
    {
        level_each(rt, &self.cells, &mut keeper.items, &mut passes.items);
    }

    /// Passes that have seen as much.
    pub fn split(&self, alloc: Global, passes: &mut Passes) -> Result<Passes, NoMemory>
        requires own { ArePassesOf self.now.cells passes.old }
        ensures same { passes.new ≡ passes.old }
        ensures given { IfOk result (λ given. given ≡ map shared_by passes.old) }
        ensures own { IfOk result (λ given. ArePassesOf self.now.cells given) }
        ensures sound { AreSound self.now }
    {
        Ok(Passes {
            items: split_each(alloc, &self.cells, &mut passes.items)?,
        })
    }

    /// Each pass takes in what the other's of its reader has seen.
    pub fn join<R: Wait>(&self, rt: &R, passes: &mut Passes, other: Passes)
        requires own { ArePassesOf self.now.cells passes.old }
        requires other { ArePassesOf self.now.cells other }
        ensures joins { JoinEach passes.old other passes.new }
        ensures lawful { EachSeesLawful passes.new }
        ensures own { ArePassesOf self.now.cells passes.new }
        ensures sound { AreSound self.now }
    {
        join_each(rt, &self.cells, &mut passes.items, other.items);
    }
}
