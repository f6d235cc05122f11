//! Calls that are named to fail, each looked up in constant time, since a link's calls come one after another.
ghost use Rattle.std.specs.Prelude.{◌≡◌, ◌<◌, ◌^◌, ℕ, List, IfOk};
ghost use Rattle.std.specs.Bool.{OnTrue};
ghost use Rattle.mem_edge.specs.Calls.{is_named, next_call};

use std::alloc::{AllocError, Global};

/// The numbers of the calls that fail, each once and in rising order; those before `next` are of calls that are over.
#[derive(Drop)]
pub struct Failing {
    numbers: Vec<u64>,
    next: usize,
}

impl Failing {
    ghost use Rattle.mem_edge.specs.Failings.{ahead_in, IsAhead};

    pub fn none(alloc: Global) -> Failing {
        Failing {
            numbers: Vec::new(alloc),
            next: 0,
        }
    }

    /// Sorts the numbers. The next call is the first, 0.
    pub fn new(alloc: Global, fails: &[u64]) -> Result<Failing, AllocError>
        ensures { IfOk result (λ failing. IsAhead fails.now 0 (ahead_in failing)) }
    {
        let mut numbers = Vec::from_slice(alloc, fails)?;
        numbers.sort_unstable();
        numbers.dedup();
        Ok(Failing { numbers, next: 0 })
    }

    /// Whether the next call fails, which has this number.
    pub fn names(&self, number: u128) -> bool
        ensures value { (fails : List ℕ) → IsAhead fails number (ahead_in self.now)
            → result ≡ is_named fails number }
        ensures bound { OnTrue result (number < 2 ^ 64) }
    {
        match self.numbers.get(self.next) {
            Some(fail) => *fail as u128 == number,
            None => false,
        }
    }

    /// The call of this number is over.
    pub fn pass(&mut self, number: u128)
        ensures { (fails : List ℕ) → IsAhead fails number (ahead_in self.old)
            → IsAhead fails (next_call number) (ahead_in self.new) }
    {
        let Some(fail) = self.numbers.get(self.next) else {
            return;
        };
        if *fail as u128 == number {
            self.next += 1;
        }
    }
}
