//! Many calls of a cell.
ghost use Rattle.std.specs.Prelude.{All, IsSome};
ghost use Rattle.row_words.specs.Patches.{IsPatchOf};
ghost use Rattle.version_cell.specs.Passes.{IsPassOf};

use row_words::Patch;
use std::sync::Wait;
use std::thread::{Threads, for_each_mut};
use version_cell::{Cell, Pass, Placed};

pub fn read_all<R: Wait>(rt: &R, cell: &Cell, pass: &mut Pass, calls: u32)
    requires own { IsPassOf cell.now pass.old }
    ensures own { IsPassOf cell.now pass.new }
{
    for _ in 0..calls {
        cell.read(rt, pass);
    }
}

/// Single exchanges, each of which expects what the pass has seen.
pub fn try_all<R: Wait>(rt: &R, cell: &Cell, pass: &mut Pass, patch: &Patch, calls: u32)
    requires own { IsPassOf cell.now pass.old }
    requires numbered { IsSome pass.old.author }
    requires patch { IsPatchOf cell.now.meta patch.now }
    ensures own { IsPassOf cell.now pass.new }
{
    for _ in 0..calls {
        cell.try_write(rt, pass, patch);
    }
}

/// Writes on a thread for each pass.
pub fn write_beside<R: Threads + Wait + Sync>(
    rt: &R,
    cell: &Cell,
    passes: &mut [Pass],
    patch: &Patch,
    calls: u32,
)
    requires passes { All (λ pass. IsPassOf cell.now pass × IsSome pass.author) passes.old }
    requires patch { IsPatchOf cell.now.meta patch.now }
{
    for_each_mut(
        rt,
        passes,
        8,
        &|_: usize, pass: &mut Pass|
            requires { IsPassOf cell.now pass.old × IsSome pass.old.author
                × IsPatchOf cell.now.meta patch.now }
        { write_all(rt, cell, pass, patch, calls) },
    );
}

// Writes. Ends where the pass is full.
fn write_all<R: Wait>(rt: &R, cell: &Cell, pass: &mut Pass, patch: &Patch, calls: u32)
    requires own { IsPassOf cell.now pass.old }
    requires numbered { IsSome pass.old.author }
    requires patch { IsPatchOf cell.now.meta patch.now }
    ensures own { IsPassOf cell.now pass.new }
{
    for _ in 0..calls {
        if let Placed::Full { .. } = cell.write(rt, pass, patch) {
            return;
        }
    }
}
