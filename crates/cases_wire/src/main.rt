//! Cases of the crates of the wire and of rows, one a line: a call and its arguments, of what writers send and what readers hold,
//! too. Each line is printed again, with what the call answers behind ` -> `. Lines
//! that begin with `#`, and empty ones, are printed as they are.
#![tactic(auto)]

mod bench;
mod calls;
mod fields;
mod frames;
mod guards;
mod header_parts;
mod headers;
mod joiners;
mod metas;
mod numbers;
mod payloads;
mod random;
mod readers;
mod security;
mod senders;
mod shown;
mod slots;
mod timers;
mod values;
mod windows;
mod writers;

use bench::Bench;
use case_lines::answer_lines;
use std::io;

fn main(rt: HostRuntime) -> io::Result<()> {
    let mut bench = Bench::new(rt.alloc());
    answer_lines(&rt, rt.alloc(), &mut bench)
}
