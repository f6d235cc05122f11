//! Cases of `target_cells`.
ghost use Rattle.std.specs.Prelude.{◌≡◌, ◌<◌, All, IfOk, length};
ghost use Rattle.version_cell.specs.Sets.{ArePassesOf};

use crate::fields::{DataSets, row_of};
use crate::shown::{Answered, done, given, seen, text, version};
use case_lines::{Answer, CaseLine, LineFault, number};
use dataset_meta::Meta;
use std::alloc::Global;
use std::marker::Model;
use std::sync::Wait;
use target_cells::{Keeper, Targets};
use version_cell::Passes;

/// Cells of readers with their keeper and sets of passes: the first one, and then those that were split.
#[derive(Drop)]
pub struct TargetsCase {
    targets: Targets,
    metas: Vec<Meta>,
    readers: Vec<u8>,
    keeper: Keeper,
    // These are levelled before each store, and tell how many there are.
    count: Passes,
    watches: Vec<Passes>,
    limit: u64,
}

impl Model for TargetsCase {
    ghost use Rattle.cases_cell.specs.Cases.{TargetsValue, AreTargets};

    ghost Value = { TargetsValue };

    ghost view = { λ c. record {
      targets = c.targets;
      metas = c.metas.items;
      readers = c.readers.items;
      keeper = c.keeper;
      count = c.count;
      watches = c.watches.items;
      limit = c.limit;
    } };

    ghost invariant = { λ c. AreTargets (record {
      targets = c.targets;
      metas = c.metas.items;
      readers = c.readers.items;
      keeper = c.keeper;
      count = c.count;
      watches = c.watches.items;
      limit = c.limit;
    }) };
}

impl TargetsCase {
    /// `new LIMIT SET ..`: a cell for each reader of these data sets, each for so many stores
    pub fn new<R: Wait>(
        rt: &R,
        alloc: Global,
        sets: DataSets,
        line: &mut CaseLine,
    ) -> Result<TargetsCase, LineFault> {
        let limit = u64::from(line.u16());
        let DataSets { metas, .. } = sets;
        let readers = readers_of(alloc, line, &metas)?;
        let Ok(made) = Targets::new(rt, alloc, &metas, &readers, limit) else {
            return Err(LineFault::Memory);
        };
        let (targets, keeper, mut first) = made;
        let Ok(count) = targets.split(alloc, &mut first) else {
            return Err(LineFault::Memory);
        };
        let mut watches = Vec::new(alloc);
        watches.push(first)?;
        Ok(TargetsCase {
            targets,
            metas,
            readers,
            keeper,
            count,
            watches,
            limit,
        })
    }

    /// `store READER INDEX=VALUE ..`, a call with a set of passes by its place, `split`, `join` and `level`, or with a reader as
    /// well. The call's answer, and behind it what the pass of the reader has then seen.
    pub fn answer<R: Wait>(
        &mut self,
        rt: &R,
        alloc: Global,
        call: &str,
        line: &mut CaseLine,
    ) -> Answer {
        if call == "store" {
            return text(alloc, &version(self.store(rt, line)?));
        }
        let place = self.place(line)?;
        match call {
            "split" => self.split(alloc, place),
            "join" => self.join(rt, alloc, place),
            "level" => self.level(rt, alloc, place),
            _ => self.step(rt, alloc, call, place, line),
        }
    }

    /// The place of a set of passes.
    fn place(&self, line: &mut CaseLine) -> Result<usize, LineFault>
        ensures { IfOk result (λ place. place < length self.now.watches) }
    {
        let place = usize::from(line.u8());
        if place >= self.watches.len() {
            return Err(LineFault::Condition);
        }
        Ok(place)
    }

    /// `store READER INDEX=VALUE ..`: stores the opening row with the changes laid in
    fn store<R: Wait>(&mut self, rt: &R, line: &mut CaseLine) -> Result<u64, LineFault> {
        let reader = line.left.u8()?;
        if usize::from(reader) >= self.readers.len() {
            return Err(LineFault::Condition);
        }
        let set = usize::from(self.readers[usize::from(reader)]);
        let row = row_of(&self.metas[set], line)?;
        self.targets.level(rt, &mut self.keeper, &mut self.count);
        if self.count.pass(reader).version() >= self.limit {
            return Err(LineFault::Condition);
        }
        Ok(self.targets.store(rt, &mut self.keeper, reader, &row))
    }

    /// `show PLACE READER`, `look PLACE READER`
    fn step<R: Wait>(
        &mut self,
        rt: &R,
        alloc: Global,
        call: &str,
        place: usize,
        line: &mut CaseLine,
    ) -> Answer
        requires { place < length self.old.watches }
    {
        let reader = line.u8();
        if usize::from(reader) >= self.readers.len() {
            return Err(LineFault::Condition);
        }
        let meta = &self.metas[usize::from(self.readers[usize::from(reader)])];
        let passes = &mut self.watches[place];
        let answer = called(rt, &self.targets, passes, reader, call)?;
        seen(alloc, &answer, meta, passes.pass(reader))
    }

    /// `level PLACE`
    fn level<R: Wait>(&mut self, rt: &R, alloc: Global, place: usize) -> Answer
        requires { place < length self.old.watches }
    {
        let passes = &mut self.watches[place];
        self.targets.level(rt, &mut self.keeper, passes);
        text(alloc, &done("level"))
    }

    /// `split PLACE`: the place of the new set of passes
    fn split(&mut self, alloc: Global, place: usize) -> Answer
        requires { place < length self.old.watches }
    {
        let passes = &mut self.watches[place];
        let Ok(shared) = self.targets.split(alloc, passes) else {
            return Err(LineFault::Memory);
        };
        let new = self.watches.len();
        self.watches.push(shared)?;
        text(alloc, &given(new))
    }

    /// `join PLACE`: takes in the last set of passes
    fn join<R: Wait>(&mut self, rt: &R, alloc: Global, place: usize) -> Answer {
        let Some(other) = self.watches.pop() else {
            return Err(LineFault::Condition);
        };
        if place >= self.watches.len() {
            return Err(LineFault::Condition);
        }
        let passes = &mut self.watches[place];
        self.targets.join(rt, passes, other);
        text(alloc, &done("joined"))
    }
}

fn called<R: Wait>(
    rt: &R,
    targets: &Targets,
    passes: &mut Passes,
    reader: u8,
    call: &str,
) -> Result<Answered, LineFault>
    requires own { ArePassesOf targets.now.cells passes.old }
    requires reader { reader < length targets.now.cells }
    ensures own { ArePassesOf targets.now.cells passes.new }
{
    match call {
        "look" => Ok(version(targets.look(rt, passes, reader))),
        "show" => Ok(done("seen")),
        _ => Err(LineFault::Call),
    }
}

fn readers_of(alloc: Global, line: &CaseLine, metas: &[Meta]) -> Result<Vec<u8>, LineFault>
    ensures { IfOk result (λ readers. All (λ set. set < length metas.now) readers.items) }
{
    let mut readers = Vec::new(alloc);
    for word in line.words() {
        let set = number::<u8>(word)?;
        if usize::from(set) >= metas.len() {
            return Err(LineFault::Condition);
        }
        readers.push(set)?;
    }
    Ok(readers)
}
