//! Rows of `receive_timer`.
use case_lines::{Answer, CaseLine, yes_or_no};
use receive_timer::Timer;
use std::alloc::Global;

/// The timer that the lines speak of.
#[derive(Drop)]
pub struct TimerRows {
    timer: Timer,
}

impl TimerRows {
    pub fn new() -> TimerRows {
        TimerRows {
            timer: Timer::new(0),
        }
    }

    /// `timer LIMIT`
    pub fn limit(&mut self, line: &mut CaseLine) -> Answer {
        self.timer = Timer::new(line.u64());
        Ok(None)
    }

    /// `seen NOW`
    pub fn seen(&mut self, line: &mut CaseLine) -> Answer {
        self.timer.seen(line.u64());
        Ok(None)
    }

    /// `clear`
    pub fn clear(&mut self) -> Answer {
        self.timer.clear();
        Ok(None)
    }

    /// `due NOW`: yes or no
    pub fn due(&self, alloc: Global, line: &mut CaseLine) -> Answer {
        yes_or_no(alloc, self.timer.due(line.u64()))
    }
}
