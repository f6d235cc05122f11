//! Cases of the crates of cells, one a line, on one thread: what writes and reads of a cell, of a bank and of readers' targets are
//! answered. Each line is printed again, with what the call answers behind ` -> `. Lines that begin with `#`, and empty ones, are
//! printed as they are.
#![tactic(auto)]

mod banks;
mod bench;
mod cells;
mod fields;
mod shown;
mod targets;

use bench::Bench;
use case_lines::answer_lines;
use std::io;

fn main(rt: HostRuntime) -> io::Result<()> {
    let mut bench = Bench::new(rt.alloc());
    answer_lines(&rt, rt.alloc(), &mut bench)
}
