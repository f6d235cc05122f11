//! A subscriber that goes on: it takes what comes over a link, and prints a line whenever a reader holds another row, begins to wait
//! or recovers, whenever what hangs on its values goes to its safe state or leaves it, and whenever a datagram or a message isn't taken
//! for another cause than before. Where a datagram has a token that it doesn't know, it reads its keys anew. On a terminal it may show
//! the same lines again and again in place.
#![tactic(auto)]

mod cause;
mod counts;
mod faults;
mod heard;
mod key_file;
mod listener;
mod listening;
mod live;
mod news;
mod refusing;
mod text;
mod untaken;

use crate::key_file::KeyFile;
use crate::listener::{View, unwritten};
use crate::listening::listen;
use example_parts::{Fault, Program, Words, configuration, link_to, words_of};
use std::alloc::Global;
use std::io::IsTerminal;
use std::net::Net;
use std::process::ExitCode;
use std::rt::{Env, Files};
use std::sync::Wait;
use std::time::{Clock, Duration};
use udp_edge::UdpLink;

/// How long a receive waits at most, in milliseconds: so late a timeout may be seen.
const WAIT_MS: u64 = 10;

fn main(rt: HostRuntime) -> ExitCode {
    let on_terminal = rt.stdout().is_terminal();
    match run(&rt, rt.alloc(), on_terminal) {
        Ok(()) => ExitCode::from(0),
        Err(fault) => {
            let _ = eprintln!(rt; "example_subscriber: {fault}");
            ExitCode::from(fault.status())
        }
    }
}

/// The words are the configuration's file, the publisher's address, to which nothing is sent, how many seconds it listens, and
/// whether it shows a live view, which is had on a terminal alone, and reads keys.
fn run<R: Files + Env + AllocGlobal + Print + Input + Clock + Net + Wait>(
    rt: &R,
    alloc: Global,
    on_terminal: bool,
) -> Result<(), Fault> {
    let words = words_of(rt, alloc, Program::Subscriber)?;
    let (live, keys) = options_of(&words)?;
    let config = configuration(rt, alloc, words.config.as_str())?;
    let wait = Duration::from_millis(WAIT_MS);
    let mut link = link_to(rt, alloc, words.peer, config.publisher.port, wait)?;
    tell_address(rt, &link)?;
    let ms = words.count.saturating_mul(1000);
    let view = if live && on_terminal {
        View::Live { next: 0, drawn: 0 }
    } else {
        View::News
    };
    let file = KeyFile::new(words.config.as_str());
    listen(rt, alloc, &config, ms, view, keys, file, &mut link)
}

/// Whether there is a live view, and whether keys are read.
fn options_of(words: &Words) -> Result<(bool, bool), Fault> {
    match words.options.as_slice() {
        [] => Ok((false, false)),
        [live] if live.as_str() == "--live" => Ok((true, false)),
        [live, keys] if live.as_str() == "--live" && keys.as_str() == "--keys" => Ok((true, true)),
        _ => Err(Fault::BadWords(Program::Subscriber)),
    }
}

/// Where it listens: with port 0 the machine chose the port.
fn tell_address<R: Print + Net>(rt: &R, link: &UdpLink<'_, R>) -> Result<(), Fault> {
    match link.address() {
        Some(address) => println!(rt; "0: listens at {address}").map_err(unwritten),
        None => Ok(()),
    }
}
