//! Ticks of the machine's clock.
use example_parts::{Fault, Stopwatch};
use std::thread;
use std::time::{Clock, Duration};

/// Moments that are multiples of an interval, in milliseconds since the start. What a tick comes too late is carried: the next one
/// comes so much earlier.
#[derive(Drop)]
pub struct Pace {
    watch: Stopwatch,
    interval: u64,
    moment: u64,
}

impl Pace {
    pub fn new<R: Clock>(rt: &R, interval: u64) -> Result<Pace, Fault> {
        Ok(Pace {
            watch: Stopwatch::new(rt)?,
            interval,
            moment: 0,
        })
    }

    /// Sleeps until the next moment, and tells it. Moments that went by meanwhile are passed over.
    pub fn next<R: Clock>(&mut self, rt: &R) -> Result<u64, Fault> {
        let due = self.moment.saturating_add(self.interval);
        let before = self.watch.elapsed(rt)?;
        if before < due {
            thread::sleep(rt, Duration::from_millis(due - before));
        }
        let now = self.watch.elapsed(rt)?.max(due);
        self.moment = now - now % self.interval.max(1);
        Ok(self.moment)
    }
}
