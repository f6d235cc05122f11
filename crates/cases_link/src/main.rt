//! Rows of a link in memory, one a line: fates, injected datagrams and failing calls, and then the datagrams that are
//! sent, and the receives between them. After these is received until nothing waits. Each line is printed again, with
//! what is received behind ` -> `, in order: a datagram's text, `text*N` for N equal ones in a row, `long(N)` for one of
//! N bytes that is over the room of 8, `failed` for a receive that fails, and `nothing` where a word `receive` finds that
//! nothing waits. A text has 1 to 1,000 letters and digits, and is none of these words. Lines that begin with `#`, and
//! empty ones, are printed as they are.
//!
//!     fate K drop | fate K repeat N | fate K hold K | fate K again K
//!     inject K TEXT | flood K N TEXT (injects N times) | failsend K | failreceive K
//!     send TEXT .. (up to the next word `receive`) | receive
#![tactic(auto)]

mod fates;
mod heard;
mod row;

use heard::Heard;
use row::Row;
use std::io;

fn main(rt: HostRuntime) -> io::Result<()> {
    for line in rt.lines(rt.alloc()) {
        let line = line?;
        let text = line.as_str();
        if text.is_empty() || text.starts_with('#') {
            println!(rt; "{text}")?;
            continue;
        }
        let mut heard = Heard::new(rt.alloc());
        match Row::read(rt.alloc(), text) {
            Ok(row) => match row.play(&mut heard) {
                Ok(()) => println!(rt; "{text} ->{heard}")?,
                Err(fault) => println!(rt; "{text} -> not played: {fault:?}")?,
            },
            Err(fault) => println!(rt; "{text} -> not a row: {fault:?}")?,
        }
    }
    Ok(())
}
