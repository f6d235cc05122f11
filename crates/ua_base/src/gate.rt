//! A gate before and after each item of a thread, by which a test orders threads.
use std::sync::Wait;

/// The k-th item of a thread is counted from 0. The publisher is thread 8, and its items are its ticks.
pub trait Gate: Sync {
    /// Called before the item. It may wait, and so it may never return.
    fn before<R: Wait>(&self, rt: &R, thread: u32, k: u32);

    /// Called after the item. It may wait, and so it may never return.
    fn after<R: Wait>(&self, rt: &R, thread: u32, k: u32);
}
