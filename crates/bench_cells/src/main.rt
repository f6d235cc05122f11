//! Times the calls of one cell, for `bench/cells`. Each line of the input is a measure, and is printed again with the nanoseconds
//! that it took. The cell has 34 words in a line that begins with `narrow`, and 151 in one that begins with `wide`.
//!
//!     narrow|wide read N | narrow|wide try_write N | narrow|wide threads T N
//!
//! `read` and `try_write` make N calls on this thread. With `threads` each of T threads, 1 to 8, writes N times on the same cell.
#![tactic(auto)]

mod calls;
mod measure;
mod sample;

use measure::Measure;
use std::io;

fn main(rt: HostRuntime) -> io::Result<()> {
    for line in rt.lines(rt.alloc()) {
        let line = line?;
        let text = line.as_str();
        match Measure::of(text) {
            Some(measure) => match measure.take(&rt, rt.alloc())? {
                Some(taken) => println!(rt; "{text} {}", taken.as_nanos())?,
                None => println!(rt; "{text} not taken")?,
            },
            None => println!(rt; "{text} is no measure")?,
        }
    }
    Ok(())
}
