//! A device that keeps a key service in the place of a file: the publisher's sender and the subscriber's read group pull ten
//! rings, one after another, while one session goes on (OPC 10000-14 8.3.2, GetSecurityKeys). While each ring stands the token
//! rolls over, with datagrams of the old token on their way. A line for each ring tells what became of its datagrams, and the
//! status is 0 where all of them are as expected.
#![tactic(auto)]

mod configuration;
mod fault;
mod keys;
mod session;
mod tally;

use crate::fault::Fault;
use crate::session::Session;
use crate::tally::Tally;
use std::alloc::Global;
use std::process::ExitCode;

/// How many rings each device pulls.
const RINGS: u32 = 10;

/// What becomes of the datagrams of a ring: the last one of the old token comes too late.
const EXPECTED: Tally = Tally {
    sent: 4,
    taken: 3,
    late: 1,
};

fn main(rt: HostRuntime) -> ExitCode {
    match run(&rt, rt.alloc()) {
        Ok(true) => ExitCode::from(0),
        Ok(false) => ExitCode::from(1),
        Err(fault) => {
            let _ = eprintln!(rt; "rings: {fault}");
            ExitCode::from(1)
        }
    }
}

/// Prints a line for each ring, and one for all. The answer is whether all went as expected.
fn run<R: Print>(rt: &R, alloc: Global) -> Result<bool, Fault> {
    let mut session = Session::open(alloc)?;
    all_rings(rt, &mut session)
}

fn all_rings<R: Print>(rt: &R, session: &mut Session) -> Result<bool, Fault> {
    let (mut total, mut as_expected) = (Tally::default(), true);
    for index in 0..RINGS {
        let tally = one_ring(rt, session, index + 1)?;
        total.add(&tally);
        as_expected = as_expected && tally == EXPECTED;
    }
    let (token, number) = session.standing()?;
    let word = if as_expected { "as" } else { "not as" };
    println!(rt;
        "{word} expected: {RINGS} rings, {total}; the sender stands at token {token}, number {number}"
    )?;
    Ok(as_expected)
}

/// Each device pulls a ring, the turns come while it stands, and its line tells of them.
fn one_ring<R: Print>(rt: &R, session: &mut Session, index: u32) -> Result<Tally, Fault> {
    let from = session.pull()?;
    let tally = session.turns()?;
    let ((to, _), (row, why)) = (session.standing()?, session.held()?);
    println!(rt; "ring {index}: token {from} to {to}, {tally}; holds row {row}, cut by {why}")?;
    Ok(tally)
}
