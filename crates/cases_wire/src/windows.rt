//! Rows of `replay_window`.
use case_lines::{Answer, CaseLine, said, two};
use replay_window::{Seen, Window};
use std::alloc::Global;

/// The window that the lines speak of.
#[derive(Drop)]
pub struct WindowRows {
    window: Window,
}

impl WindowRows {
    pub fn new() -> WindowRows {
        WindowRows {
            window: Window::new(),
        }
    }

    /// `window`: a new one
    pub fn anew(&mut self) -> Answer {
        self.window = Window::new();
        Ok(None)
    }

    /// `number_seen N`: fresh, repeated, or old and the greatest number taken
    pub fn test(&self, alloc: Global, line: &mut CaseLine) -> Answer {
        told_seen(alloc, self.window.test(line.u32()))
    }

    /// `number_taken N`: the same, and the number is taken where it is fresh
    pub fn take(&mut self, alloc: Global, line: &mut CaseLine) -> Answer {
        let number = line.u32();
        let seen = self.window.test(number);
        if let Seen::Fresh = seen {
            self.window.take(number);
        }
        told_seen(alloc, seen)
    }
}

fn told_seen(alloc: Global, seen: Seen) -> Answer {
    match seen {
        Seen::Fresh => said(alloc, "fresh"),
        Seen::Repeated => said(alloc, "repeated"),
        Seen::TooOld { high } => two(alloc, &"old", &high),
    }
}
