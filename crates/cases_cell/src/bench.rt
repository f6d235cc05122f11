//! The calls by their names, and what is kept from line to line.
use crate::banks::BankCase;
use crate::cells::CellCase;
use crate::fields::DataSets;
use crate::targets::TargetsCase;
use case_lines::{Answer, Answers, CaseLine, LineFault};
use std::alloc::Global;
use std::sync::Wait;

/// What is kept from line to line: the data sets that no line has used yet, a cell, a bank and targets.
#[derive(Drop)]
pub struct Bench {
    alloc: Global,
    sets: DataSets,
    cell: Option<CellCase>,
    bank: Option<BankCase>,
    targets: Option<TargetsCase>,
}

impl<R: Wait> Answers<R> for Bench {
    fn answer(&mut self, rt: &R, line: &mut CaseLine<'_>) -> Answer {
        match line.word() {
            "data" => self.sets.push(self.alloc, line),
            "cell" => self.cell(rt, line),
            "bank" => self.bank(rt, line),
            "targets" => self.targets(rt, line),
            _ => Err(LineFault::Call),
        }
    }
}

impl Bench {
    pub fn new(alloc: Global) -> Bench {
        Bench {
            alloc,
            sets: DataSets::new(alloc),
            cell: None,
            bank: None,
            targets: None,
        }
    }

    /// The sets of the lines `data` since the last line that used them.
    fn taken(&mut self) -> DataSets {
        std::mem::replace(&mut self.sets, DataSets::new(self.alloc))
    }

    fn cell<R: Wait>(&mut self, rt: &R, line: &mut CaseLine) -> Answer {
        let call = line.word();
        if call == "new" {
            let sets = self.taken();
            self.cell = Some(CellCase::new(rt, self.alloc, &sets)?);
            return Ok(None);
        }
        let Some(case) = &mut self.cell else {
            return Err(LineFault::Missing);
        };
        case.answer(rt, self.alloc, call, line)
    }

    fn bank<R: Wait>(&mut self, rt: &R, line: &mut CaseLine) -> Answer {
        let call = line.word();
        if call == "new" {
            let sets = self.taken();
            self.bank = Some(BankCase::new(rt, self.alloc, sets)?);
            return Ok(None);
        }
        let Some(case) = &mut self.bank else {
            return Err(LineFault::Missing);
        };
        case.answer(rt, self.alloc, call, line)
    }

    fn targets<R: Wait>(&mut self, rt: &R, line: &mut CaseLine) -> Answer {
        let call = line.word();
        if call == "new" {
            let sets = self.taken();
            self.targets = Some(TargetsCase::new(rt, self.alloc, sets, line)?);
            return Ok(None);
        }
        let Some(case) = &mut self.targets else {
            return Err(LineFault::Missing);
        };
        case.answer(rt, self.alloc, call, line)
    }
}
