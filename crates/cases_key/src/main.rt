//! Cases of the key service, one a line: a call and its arguments. Each line is printed again, with what the call answers behind
//! ` -> `. Lines that begin with `#`, and empty ones, are printed as they are.
#![tactic(auto)]

mod answers;
mod bench;
mod read_back;
mod rings;
mod shown;
mod wire;

use bench::Bench;
use case_lines::answer_lines;
use std::io;

fn main(rt: HostRuntime) -> io::Result<()> {
    let mut bench = Bench::new(rt.alloc());
    answer_lines(&rt, rt.alloc(), &mut bench)
}
