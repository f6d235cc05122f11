//! Cases of what users write and read, one a line: a call and its arguments. Each line is printed again, with what the call
//! answers behind ` -> `; an answer of several lines begins below it. Lines that begin with `#`, and empty ones, are printed as
//! they are, and so is `with TEXT`, which gives the configuration of the lines behind it, at first `built_in`.
#![tactic(auto)]

mod bench;
mod configs;
mod reports;
mod scripts;
mod states;
mod values;

use crate::bench::Bench;
use case_lines::answer_lines;
use std::io;

fn main(rt: HostRuntime) -> io::Result<()> {
    let mut bench = Bench::new(rt.alloc())?;
    answer_lines(&rt, rt.alloc(), &mut bench)
}
