//! What became of datagrams.
use crate::text::{Piece, fill, put_counts};
use example_parts::Fault;
use reader_group::Taken;
use std::alloc::Global;

/// How many datagrams were taken, how many were refused for each cause in the order in which causes came first, what became of the
/// parts of those that were taken, and how many receives failed or brought a datagram that is too long.
#[derive(Drop)]
pub struct Counts {
    taken: u64,
    parts: u64,
    matched: u64,
    bad: u64,
    refused: Vec<(&'static str, u64)>,
    failed: u64,
}

impl Counts {
    pub fn new(alloc: Global) -> Counts {
        Counts {
            taken: 0,
            parts: 0,
            matched: 0,
            bad: 0,
            refused: Vec::new(alloc),
            failed: 0,
        }
    }

    /// A datagram was taken.
    pub fn take(&mut self, taken: &Taken) {
        self.taken = self.taken.saturating_add(1);
        self.parts = self.parts.saturating_add(u64::from(taken.parts));
        self.matched = self.matched.saturating_add(u64::from(taken.matched));
        self.bad = self.bad.saturating_add(u64::from(taken.bad));
    }

    /// A datagram was refused for this cause.
    pub fn refuse(&mut self, word: &'static str) -> Result<(), Fault> {
        for entry in self.refused.iter_mut() {
            if entry.0 == word {
                entry.1 = entry.1.saturating_add(1);
                return Ok(());
            }
        }
        self.refused.push((word, 1))?;
        Ok(())
    }

    /// A receive failed, or brought a datagram that is too long.
    pub fn fail(&mut self) {
        self.failed = self.failed.saturating_add(1);
    }

    /// All counts, where so many messages were lost. Causes that didn't come stay out.
    pub fn put(&self, out: &mut Vec<u8>, lost: u64) -> Result<(), Fault> {
        fill(
            out,
            "taken #, matched # of #, unreadable #, lost #, failed #, refused",
            &[
                Piece::Number(self.taken),
                Piece::Number(self.matched),
                Piece::Number(self.parts),
                Piece::Number(self.bad),
                Piece::Number(lost),
                Piece::Number(self.failed),
            ],
        )?;
        put_counts(out, &self.refused)
    }
}
