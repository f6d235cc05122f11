//! The machine's clock.
use crate::ending::Fault;
use std::time::{Clock, Instant};

/// A clock that began at 0, and that no change of the date moves.
#[derive(Drop)]
pub struct Stopwatch {
    start: Instant,
}

impl Stopwatch {
    pub fn new<R: Clock>(rt: &R) -> Result<Stopwatch, Fault> {
        match Instant::now(rt) {
            Ok(start) => Ok(Stopwatch { start }),
            Err(_) => Err(Fault::NoClock),
        }
    }

    /// How many whole milliseconds have passed.
    pub fn elapsed<R: Clock>(&self, rt: &R) -> Result<u64, Fault> {
        match self.start.elapsed(rt) {
            Ok(passed) => Ok(u64::try_from(passed.as_millis()).unwrap_or(u64::MAX)),
            Err(_) => Err(Fault::NoClock),
        }
    }
}
