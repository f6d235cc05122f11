//! Counts for each turn of each lane.
use std::alloc::{AllocError, Global};
use std::sync::atomic::{AtomicU64, Ordering};

/// There are fewer lanes and turns than these.
const LANES: u32 = 4;

const TURNS: u32 = 8;

/// A count for each lane and turn, from 0.
#[derive(Drop)]
pub struct Counts {
    counts: Vec<AtomicU64>,
}

impl Counts {
    pub fn new(alloc: Global) -> Result<Counts, AllocError> {
        let mut counts = Vec::new(alloc);
        for _ in 0..LANES * TURNS {
            counts.push(AtomicU64::new(0))?;
        }
        Ok(Counts { counts })
    }

    /// One more. Where there is no such lane or turn, nothing is counted.
    pub fn add(&self, lane: u32, turn: u32) {
        if let Some(count) = self.counts.get(place(lane, turn)) {
            count.fetch_add(1, Ordering::SeqCst);
        }
    }

    pub fn of(&self, lane: u32, turn: u32) -> u64 {
        match self.counts.get(place(lane, turn)) {
            Some(count) => count.load(Ordering::SeqCst),
            None => 0,
        }
    }

    /// Of all lanes and turns.
    pub fn total(&self) -> u64 {
        let mut total = 0u64;
        for count in &self.counts {
            total = total.saturating_add(count.load(Ordering::SeqCst));
        }
        total
    }
}

// Where the count stands: past all others where there is no such lane or turn.
fn place(lane: u32, turn: u32) -> usize {
    if lane < LANES && turn < TURNS {
        (TURNS * lane + turn) as usize
    } else {
        usize::MAX
    }
}
