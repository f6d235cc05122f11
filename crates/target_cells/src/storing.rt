//! Stores of one cell by its sole author.
ghost use Rattle.std.specs.Prelude.{◌≡◌, ◌<◌, length};
ghost use Rattle.row_words.specs.Belonging.{Belongs};
ghost use Rattle.version_cell.specs.Terms.{quota};
ghost use Rattle.version_cell.specs.Passes.{IsPassOf, Adds, SeesLawful};
ghost use Rattle.target_cells.specs.Keeping.{IsKeeper, AreKeepers, IsLevel, AreLevel};
ghost use Rattle.version_cell.specs.Sets.{ArePassesOf, EachSeesLawful};

use row_words::Row;
use std::sync::Wait;
use version_cell::{Cell, Pass};

// Nobody else makes an entry, so nothing is compared.
pub(crate) fn store<R: Wait>(rt: &R, cell: &Cell, pass: &mut Pass, row: &Row) -> u64
    requires own { IsPassOf cell.now pass.old }
    requires keeper { IsKeeper pass.old }
    requires left { length pass.old.seen < quota 0 pass.old.terms }
    requires row { Belongs cell.now.meta row.now.words }
    ensures stored { Adds pass.old pass.new row.now.words }
    ensures count { result ≡ length pass.new.seen }
    ensures lawful { SeesLawful pass.new }
    ensures keeper { IsKeeper pass.new }
{
    cell.store(rt, pass, row)
}

// Each pass sees exactly what the keeper has stored.
pub(crate) fn level_each<R: Wait>(
    rt: &R,
    cells: &[Cell],
    keeper: &mut Vec<Pass>,
    passes: &mut Vec<Pass>,
)
    requires keeper { ArePassesOf cells.now keeper.old.items }
    requires sole { AreKeepers keeper.old.items }
    requires own { ArePassesOf cells.now passes.old.items }
    ensures same { keeper.new.items ≡ keeper.old.items }
    ensures level { AreLevel keeper.old.items passes.old.items passes.new.items }
    ensures lawful { EachSeesLawful passes.new.items }
    ensures own { ArePassesOf cells.now passes.new.items }
{
    for k in 0..cells.len() {
        let stored = &mut keeper[k];
        let pass = &mut passes[k];
        level(rt, &cells[k], stored, pass);
    }
}

// The keeper takes in what the pass has seen, which it has made itself, and then the pass what the keeper has.
fn level<R: Wait>(rt: &R, cell: &Cell, keeper: &mut Pass, pass: &mut Pass)
    requires keeper { IsPassOf cell.now keeper.old }
    requires sole { IsKeeper keeper.old }
    requires own { IsPassOf cell.now pass.old }
    ensures same { keeper.new ≡ keeper.old }
    ensures level { IsLevel keeper.old pass.old pass.new }
    ensures lawful { SeesLawful pass.new }
{
    let seen = cell.split(pass);
    cell.join(rt, keeper, seen);
    let stored = cell.split(keeper);
    cell.join(rt, pass, stored);
}
