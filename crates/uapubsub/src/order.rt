//! A gate that holds items until others have come to it or are answered, and counts its calls.
use std::alloc::Global;
use std::sync::Wait;
use std::sync::atomic::{AtomicU64, Ordering};
use std::test::Fail;
use std::thread::yield_now;
use ua_base::Gate;

/// A thread has so many items at most. The publisher is thread 8.
const ITEMS: u32 = 32;

/// An item of a thread, from 0; a tick is an item of thread 8.
#[derive(Clone, Copy, PartialEq, Eq)]
pub struct Item {
    pub thread: u32,
    pub k: u32,
}

/// What an item waits for.
#[derive(Clone, Copy)]
pub enum Until {
    /// Another item has come to the gate.
    Came(Item),
    /// Another item was answered.
    Answered(Item),
}

/// Holds items. A hold ends after 10,000,000 turns, and is then counted; after one no further call is held.
#[derive(Drop)]
pub struct Order {
    holds: Vec<(Item, Until)>,
    came: Vec<AtomicU64>,
    answered: Vec<AtomicU64>,
    missed: AtomicU64,
}

impl Order {
    pub fn new(alloc: Global, holds: Vec<(Item, Until)>) -> Result<Order, Fail> {
        Ok(Order {
            holds,
            came: counts(alloc)?,
            answered: counts(alloc)?,
            missed: AtomicU64::new(0),
        })
    }

    /// How many holds ended by themselves, and how many calls were of no item that there may be.
    pub fn missed(&self) -> u64 {
        self.missed.load(Ordering::SeqCst)
    }

    /// How many calls there were, before and after an item.
    pub fn calls(&self, item: Item) -> (u64, u64) {
        (count_of(&self.came, item), count_of(&self.answered, item))
    }

    /// How many calls there were, before and after all items.
    pub fn all_calls(&self) -> (u64, u64) {
        (total(&self.came), total(&self.answered))
    }

    fn hold(&self, until: Until) {
        for _ in 0..10_000_000u32 {
            let there = match until {
                Until::Came(item) => count_of(&self.came, item),
                Until::Answered(item) => count_of(&self.answered, item),
            };
            if there > 0 || self.missed() > 0 {
                return;
            }
            yield_now();
        }
        self.miss();
    }

    fn miss(&self) {
        self.missed.fetch_add(1, Ordering::SeqCst);
    }

    fn note(&self, counts: &[AtomicU64], item: Item) {
        match counts.get(place(item)) {
            Some(count) => {
                count.fetch_add(1, Ordering::SeqCst);
            }
            None => self.miss(),
        }
    }
}

fn counts(alloc: Global) -> Result<Vec<AtomicU64>, Fail> {
    let mut counts = Vec::new(alloc);
    for _ in 0..9 * ITEMS {
        counts.push(AtomicU64::new(0))?;
    }
    Ok(counts)
}

// Where an item's count stands: past all others where there is no such item.
fn place(item: Item) -> usize {
    if item.thread < 9 && item.k < ITEMS {
        (ITEMS * item.thread + item.k) as usize
    } else {
        usize::MAX
    }
}

fn count_of(counts: &[AtomicU64], item: Item) -> u64 {
    match counts.get(place(item)) {
        Some(count) => count.load(Ordering::SeqCst),
        None => 0,
    }
}

fn total(counts: &[AtomicU64]) -> u64 {
    let mut total = 0u64;
    for count in counts {
        total = total.saturating_add(count.load(Ordering::SeqCst));
    }
    total
}

impl Gate for Order {
    fn before<R: Wait>(&self, _: &R, thread: u32, k: u32) {
        let item = Item { thread, k };
        self.note(&self.came, item);
        for (held, until) in &self.holds {
            if *held == item {
                self.hold(*until);
            }
        }
    }

    fn after<R: Wait>(&self, _: &R, thread: u32, k: u32) {
        self.note(&self.answered, Item { thread, k });
    }
}
