//! Cases of `cell_bank`.
ghost use Rattle.std.specs.Prelude.{◌≡◌, ◌<◌, length, IfOk};
ghost use Rattle.version_cell.specs.Sets.{cell_at, ArePassesOf};

use crate::fields::{DataSets, patch_of};
use crate::shown::{Answered, done, given, seen, text, tried, version, written};
use case_lines::{Answer, CaseLine, LineFault};
use cell_bank::Bank;
use dataset_meta::Meta;
use std::alloc::Global;
use std::marker::Model;
use std::sync::Wait;
use version_cell::Passes;

/// A bank with its sets of passes: those of the numbers 0 to 7, the first one, which has no numbers, and then those that were
/// split.
#[derive(Drop)]
pub struct BankCase {
    bank: Bank,
    metas: Vec<Meta>,
    hands: Vec<Passes>,
}

impl Model for BankCase {
    ghost use Rattle.cases_cell.specs.Cases.{BankValue, IsBank};

    ghost Value = { BankValue };

    ghost view = { λ c. record { bank = c.bank; metas = c.metas.items; hands = c.hands.items } };

    ghost invariant = { λ c. IsBank
        (record { bank = c.bank; metas = c.metas.items; hands = c.hands.items }) };
}

impl BankCase {
    /// `new`: a bank of the data sets
    pub fn new<R: Wait>(rt: &R, alloc: Global, sets: DataSets) -> Result<BankCase, LineFault> {
        if sets.quotas.len() != sets.metas.len() {
            return Err(LineFault::Missing);
        }
        let Ok(made) = Bank::new(rt, alloc, &sets.metas, &sets.quotas) else {
            return Err(LineFault::Memory);
        };
        let (bank, first, mut hands) = made;
        hands.push(first)?;
        let DataSets { metas, .. } = sets;
        Ok(BankCase { bank, metas, hands })
    }

    /// A call with a set of passes by its place, `split` and `join`, or with a data set as well. The call's answer, and behind it
    /// what the pass of the data set has then seen.
    pub fn answer<R: Wait>(
        &mut self,
        rt: &R,
        alloc: Global,
        call: &str,
        line: &mut CaseLine,
    ) -> Answer {
        let place = self.place(line)?;
        match call {
            "split" => self.split(alloc, place),
            "join" => self.join(rt, alloc, place),
            _ => self.step(rt, alloc, call, place, line),
        }
    }

    /// The place of a set of passes.
    fn place(&self, line: &mut CaseLine) -> Result<usize, LineFault>
        ensures { IfOk result (λ place. place < length self.now.hands) }
    {
        let place = usize::from(line.u8());
        if place >= self.hands.len() {
            return Err(LineFault::Condition);
        }
        Ok(place)
    }

    /// A call that takes a step of the pass of one data set, or none.
    fn step<R: Wait>(
        &mut self,
        rt: &R,
        alloc: Global,
        call: &str,
        place: usize,
        line: &mut CaseLine,
    ) -> Answer
        requires { place < length self.old.hands }
    {
        let set = line.u8();
        if usize::from(set) >= self.metas.len() {
            return Err(LineFault::Condition);
        }
        let meta = &self.metas[usize::from(set)];
        let passes = &mut self.hands[place];
        let answer = called(rt, &self.bank, meta, passes, set, call, line)?;
        seen(alloc, &answer, meta, passes.pass(set))
    }

    /// `split HAND`: the place of the new set of passes
    fn split(&mut self, alloc: Global, place: usize) -> Answer
        requires { place < length self.old.hands }
    {
        let passes = &mut self.hands[place];
        let Ok(shared) = self.bank.split(alloc, passes) else {
            return Err(LineFault::Memory);
        };
        let new = self.hands.len();
        self.hands.push(shared)?;
        text(alloc, &given(new))
    }

    /// `join HAND`: takes in the last set of passes
    fn join<R: Wait>(&mut self, rt: &R, alloc: Global, place: usize) -> Answer {
        let Some(other) = self.hands.pop() else {
            return Err(LineFault::Condition);
        };
        if place >= self.hands.len() {
            return Err(LineFault::Condition);
        }
        let passes = &mut self.hands[place];
        self.bank.join(rt, passes, other);
        text(alloc, &done("joined"))
    }
}

/// `show HAND SET`, `read HAND SET`, `try_write HAND SET INDEX=VALUE ..`, `write HAND SET INDEX=VALUE ..`
fn called<R: Wait>(
    rt: &R,
    bank: &Bank,
    meta: &Meta,
    passes: &mut Passes,
    set: u8,
    call: &str,
    line: &CaseLine,
) -> Result<Answered, LineFault>
    requires own { ArePassesOf bank.now passes.old }
    requires set { set < length bank.now }
    requires meta { meta.now ≡ (cell_at bank.now set).meta }
    ensures own { ArePassesOf bank.now passes.new }
{
    match call {
        "show" => return Ok(done("seen")),
        "read" => return Ok(version(bank.read(rt, passes, set))),
        "try_write" | "write" => {}
        _ => return Err(LineFault::Call),
    }
    let patch = patch_of(meta, line)?;
    if passes.pass(set).author().is_none() {
        return Err(LineFault::Condition);
    }
    if call == "try_write" {
        return Ok(tried(bank.try_write(rt, set, passes, &patch)));
    }
    Ok(written(bank.write(rt, set, passes, &patch)))
}
