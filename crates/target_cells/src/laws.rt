//! Laws of the cells of readers, each the contract of a function that does nothing.
ghost use Rattle.std.specs.Prelude.{ℕ, ◌<◌, List, length};
ghost use Rattle.version_cell.specs.Known.{Known};
ghost use Rattle.version_cell.specs.Terms.{IsSole};
ghost use Rattle.version_cell.specs.Sets.{ArePassesOf, pass_at};
ghost use Rattle.target_cells.specs.Keeping.{AreKept, TargetsData};

/// The passes of cells that have a keeper know that number 0 alone makes entries there.
pub fn keepers_are_sole_authors()
    ensures { (targets : TargetsData) (passes : List Known) (reader : ℕ) → AreKept targets
        → ArePassesOf targets.cells passes → reader < length targets.cells
        → IsSole (pass_at passes reader).terms }
{}
