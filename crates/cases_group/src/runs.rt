//! Many answers in one line.
use case_lines::{Answer, Told};
use std::alloc::Global;

/// Answers in a row; those that are equal are told once, with the numbers of the first and the last, which count from 0.
#[derive(Drop)]
pub struct Runs {
    told: Told,
    answer: String,
    first: usize,
    count: usize,
}

impl Runs {
    pub fn new(alloc: Global) -> Runs {
        Runs {
            told: Told::new(alloc),
            answer: String::new(alloc),
            first: 0,
            count: 0,
        }
    }

    /// The next answer.
    pub fn add(&mut self, answer: String) {
        if answer.as_str() != self.answer.as_str() {
            self.end();
            self.first = self.count;
            self.answer = answer;
        }
        self.count = self.count.wrapping_add(1);
    }

    /// The answers so far.
    pub fn answer(mut self) -> Answer {
        self.end();
        self.told.answer()
    }

    /// Tells the answers that are equal to the last one, where there is one.
    fn end(&mut self) {
        if self.count == 0 {
            return;
        }
        let last = self.count.wrapping_sub(1);
        self.told.apart("; ");
        self.told.fill("#", &[self.first as u64]);
        if self.first != last {
            self.told.fill("-#", &[last as u64]);
        }
        self.told.named(" ", Some(self.answer.as_str()));
    }
}
