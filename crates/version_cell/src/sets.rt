//! Steps of a pass of each of several cells.
ghost use Rattle.std.specs.Prelude.{◌≡◌, length, map, IfOk};
ghost use Rattle.version_cell.specs.Passes.{shared_by};
ghost use Rattle.version_cell.specs.Sets.{ArePassesOf, EachSeesLawful, JoinEach};

use crate::cell::Cell;
use crate::pass::Pass;
use std::alloc::Global;
use std::sync::Wait;
use ua_base::NoMemory;

/// A pass with no number for each of these, which has seen as much.
pub fn split_each(
    alloc: Global,
    cells: &[Cell],
    passes: &mut Vec<Pass>,
) -> Result<Vec<Pass>, NoMemory>
    requires own { ArePassesOf cells.now passes.old.items }
    ensures same { passes.new.items ≡ passes.old.items }
    ensures given { IfOk result (λ given. given.items ≡ map shared_by passes.old.items) }
    ensures own { IfOk result (λ given. ArePassesOf cells.now given.items) }
{
    let mut given = Vec::new(alloc);
    for k in 0..cells.len() {
        let pass = &mut passes[k];
        given.push(cells[k].split(pass))?;
    }
    Ok(given)
}

/// Each pass takes in the other of its cell, whose number is spent.
pub fn join_each<R: Wait>(rt: &R, cells: &[Cell], passes: &mut Vec<Pass>, others: Vec<Pass>)
    requires own { ArePassesOf cells.now passes.old.items }
    requires other { ArePassesOf cells.now others.items }
    ensures joins { JoinEach passes.old.items others.items passes.new.items }
    ensures lawful { EachSeesLawful passes.new.items }
    ensures own { ArePassesOf cells.now passes.new.items }
{
    let mut k = 0;
    for other in others {
        let pass = &mut passes[k];
        cells[k].join(rt, pass, other);
        k += 1;
    }
}
