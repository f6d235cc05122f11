//! Cases of `version_cell`.
ghost use Rattle.std.specs.Prelude.{◌≡◌, ◌<◌, length, IfOk, IsSome};
ghost use Rattle.row_words.specs.Patches.{IsPatchOf};
ghost use Rattle.version_cell.specs.Passes.{IsPassOf};

use crate::fields::{DataSets, patch_of};
use crate::shown::{Answered, done, given, seen, tried, version, written};
use case_lines::{Answer, CaseLine, LineFault};
use row_words::Patch;
use std::alloc::Global;
use std::marker::Model;
use std::sync::Wait;
use version_cell::{Cell, Pass};

/// A cell with its passes: those of the numbers 0 to 7, the first one, which has no number, and then those that were split.
#[derive(Drop)]
pub struct CellCase {
    cell: Cell,
    passes: Vec<Pass>,
}

impl Model for CellCase {
    ghost use Rattle.std.specs.Prelude.{List};
    ghost use Rattle.version_cell.specs.Known.{Known};
    ghost use Rattle.version_cell.specs.Cells.{CellData};
    ghost use Rattle.cases_cell.specs.Cases.{ArePasses};

    ghost Value = { CellData × List Known };

    ghost view = { λ c. (c.cell, c.passes.items) };

    ghost invariant = { λ c. ArePasses c.cell c.passes.items };
}

impl CellCase {
    /// `new`: a cell of the last data set
    pub fn new<R: Wait>(rt: &R, alloc: Global, sets: &DataSets) -> Result<CellCase, LineFault> {
        if sets.metas.is_empty() || sets.quotas.len() != sets.metas.len() {
            return Err(LineFault::Missing);
        }
        let last = sets.metas.len() - 1;
        let Ok(made) = Cell::new(rt, alloc, &sets.metas[last], &sets.quotas[last]) else {
            return Err(LineFault::Memory);
        };
        let (cell, first, mut passes) = made;
        passes.push(first)?;
        Ok(CellCase { cell, passes })
    }

    /// A call with a pass by its place. The call's answer, and behind it what the pass has then seen.
    pub fn answer<R: Wait>(
        &mut self,
        rt: &R,
        alloc: Global,
        call: &str,
        line: &mut CaseLine,
    ) -> Answer {
        let place = self.place(line)?;
        match call {
            "split" => self.split(alloc, place),
            "join" => self.join(rt, alloc, place),
            _ => self.step(rt, alloc, call, place, line),
        }
    }

    /// The place of a pass.
    fn place(&self, line: &mut CaseLine) -> Result<usize, LineFault>
        ensures { IfOk result (λ place. place < length self.now.1) }
    {
        let place = usize::from(line.u8());
        if place >= self.passes.len() {
            return Err(LineFault::Condition);
        }
        Ok(place)
    }

    /// A call that takes a step of one pass, or none.
    fn step<R: Wait>(
        &mut self,
        rt: &R,
        alloc: Global,
        call: &str,
        place: usize,
        line: &CaseLine,
    ) -> Answer
        requires { place < length self.old.1 }
    {
        let pass = &mut self.passes[place];
        let answer = called(rt, &self.cell, pass, call, line)?;
        seen(alloc, &answer, self.cell.meta(), pass)
    }

    /// What a pass has seen, with no step.
    fn seen(&self, alloc: Global, answer: &Answered, place: usize) -> Answer {
        if place >= self.passes.len() {
            return Err(LineFault::Condition);
        }
        seen(alloc, answer, self.cell.meta(), &self.passes[place])
    }

    /// `split PASS`: the place of the new pass
    fn split(&mut self, alloc: Global, place: usize) -> Answer
        requires { place < length self.old.1 }
    {
        let pass = &mut self.passes[place];
        let shared = self.cell.split(pass);
        let new = self.passes.len();
        self.passes.push(shared)?;
        self.seen(alloc, &given(new), new)
    }

    /// `join PASS`: takes in the last pass
    fn join<R: Wait>(&mut self, rt: &R, alloc: Global, place: usize) -> Answer {
        let Some(other) = self.passes.pop() else {
            return Err(LineFault::Condition);
        };
        if place >= self.passes.len() {
            return Err(LineFault::Condition);
        }
        let pass = &mut self.passes[place];
        self.cell.join(rt, pass, other);
        self.seen(alloc, &done("joined"), place)
    }
}

/// `show PASS`, `read PASS`, `try_write PASS INDEX=VALUE ..`, `write PASS INDEX=VALUE ..`
fn called<R: Wait>(
    rt: &R,
    cell: &Cell,
    pass: &mut Pass,
    call: &str,
    line: &CaseLine,
) -> Result<Answered, LineFault>
    requires { IsPassOf cell.now pass.old }
    ensures { IsPassOf cell.now pass.new }
{
    match call {
        "show" => Ok(done("seen")),
        "read" => Ok(version(cell.read(rt, pass))),
        "try_write" | "write" => write(rt, cell, pass, call, line),
        _ => Err(LineFault::Call),
    }
}

fn write<R: Wait>(
    rt: &R,
    cell: &Cell,
    pass: &mut Pass,
    call: &str,
    line: &CaseLine,
) -> Result<Answered, LineFault>
    requires { IsPassOf cell.now pass.old }
    ensures { IsPassOf cell.now pass.new }
{
    let patch = patch_of(cell.meta(), line)?;
    if pass.author().is_none() {
        return Err(LineFault::Condition);
    }
    if call == "try_write" {
        return Ok(try_once(rt, cell, pass, &patch));
    }
    Ok(try_on(rt, cell, pass, &patch))
}

fn try_once<R: Wait>(rt: &R, cell: &Cell, pass: &mut Pass, patch: &Patch) -> Answered
    requires own { IsPassOf cell.now pass.old }
    requires numbered { IsSome pass.old.author }
    requires patch { IsPatchOf cell.now.meta patch.now }
    ensures { IsPassOf cell.now pass.new }
{
    tried(cell.try_write(rt, pass, patch))
}

fn try_on<R: Wait>(rt: &R, cell: &Cell, pass: &mut Pass, patch: &Patch) -> Answered
    requires own { IsPassOf cell.now pass.old }
    requires numbered { IsSome pass.old.author }
    requires patch { IsPatchOf cell.now.meta patch.now }
    ensures { IsPassOf cell.now pass.new }
{
    written(cell.write(rt, pass, patch))
}
