//! Pairs of a number and what belongs to it, in rising order of number.
ghost use Rattle.std.specs.Prelude.{◌≡◌, ℕ, ◌==◌, filter, IfOk};
ghost use Rattle.std.specs.List.Sorted.{IsNonDecreasingBy};

use std::alloc::{AllocError, Global};

#[derive(Drop)]
pub struct Timetable<T> {
    pub pairs: Vec<(u64, T)>,
    ghost rising: { IsNonDecreasingBy (λ p. p.0) pairs.items },
}

impl<T: Drop> Timetable<T> {
    pub fn empty(alloc: Global) -> Timetable<T> {
        Timetable {
            pairs: Vec::new(alloc),
        }
    }

    /// Sorts the pairs. Those of one number stay in their order.
    pub fn new(pairs: Vec<(u64, T)>) -> Result<Timetable<T>, AllocError>
        ensures { IfOk result (λ table. (number : ℕ) →
            filter (λ p. p.0 == number) table.pairs.items
            ≡ filter (λ p. p.0 == number) pairs.items) }
    {
        let mut pairs = pairs;
        pairs.sort_by_key(|pair| pair.0)?;
        Ok(Timetable { pairs })
    }

    /// The pairs of a number.
    pub fn at(&self, number: u64) -> &[(u64, T)]
        ensures { result.now ≡ filter (λ p. p.0 == number) self.now.pairs.items }
    {
        let start = self.pairs.partition_point(|pair| pair.0 < number);
        let later = &self.pairs[start..];
        let count = later.partition_point(|pair| pair.0 <= number);
        &later[..count]
    }
}
