//! The subscriber's loop.
ghost use Rattle.std.specs.Prelude.{IsSome};
ghost use Rattle.writer_group.specs.Standing.{IsGood};
ghost use Rattle.example_subscriber.specs.Listeners.{IsListener};

use crate::key_file::KeyFile;
use crate::listener::{Listener, View};
use example_parts::{Fault, Stopwatch};
use message_guard::OpenFault;
use ps_config::Config;
use reader_group::{Refusal, Taken};
use std::alloc::Global;
use std::io::Read;
use std::rt::Files;
use std::sync::Wait;
use std::time::Clock;
use ua_base::{Link, Received};

/// The longest datagram that is taken.
const MOST_BYTES: usize = 65_536;

/// Listens for so many milliseconds, or until a key ends it, with a look at the readers after each datagram and each wait.
pub fn listen<R: Files + Print + Input + Clock + Wait, L: Link>(
    rt: &R,
    alloc: Global,
    config: &Config,
    ms: u64,
    view: View,
    keys: bool,
    mut file: KeyFile<'_>,
    link: &mut L,
) -> Result<(), Fault>
    requires good { IsGood config.now }
    requires open { IsSome (L.opened_with link.old) }
{
    let mut listener = Listener::new(alloc, config, view)?;
    let mut buffer = vec![in alloc; 0u8; MOST_BYTES]?;
    let watch = Stopwatch::new(rt)?;
    for _ in rt.forever() {
        let now = hear(
            rt,
            alloc,
            config,
            &watch,
            &mut file,
            &mut listener,
            &mut buffer,
            link,
        )?;
        if ms <= now || keys && ends(rt) {
            return listener.tell_counts(rt, now);
        }
    }
    unreachable!()
}

/// One receive, and what it and the time that passed meanwhile bring. The answer is the moment.
fn hear<R: Files + Print + Clock, L: Link>(
    rt: &R,
    alloc: Global,
    config: &Config,
    watch: &Stopwatch,
    file: &mut KeyFile<'_>,
    listener: &mut Listener<'_>,
    buffer: &mut [u8],
    link: &mut L,
) -> Result<u64, Fault>
    requires good { IsGood config.now }
    requires open { IsSome (L.opened_with link.old) }
    requires listener { IsListener listener.old }
    ensures open { IsSome (L.opened_with link.new) }
    ensures listener { IsListener listener.new }
{
    let received = link.receive(buffer);
    let now = watch.elapsed(rt)?;
    listener.expire(now);
    listener.show(rt, now)?;
    match received {
        Received::Datagram(count) => {
            let datagram = &mut buffer[..count as usize];
            take(rt, alloc, config, now, file, listener, datagram)?;
            listener.show(rt, now)?;
            Ok(now)
        }
        Received::Long(_) | Received::Failed => {
            listener.fail();
            Ok(now)
        }
        Received::Nothing => Ok(now),
    }
}

/// What a datagram brings. One with a token that none of the keys has is given once more, where the file has keys now.
fn take<R: Files + Print>(
    rt: &R,
    alloc: Global,
    config: &Config,
    now: u64,
    file: &mut KeyFile<'_>,
    listener: &mut Listener<'_>,
    datagram: &mut [u8],
) -> Result<(), Fault>
    requires good { IsGood config.now }
    requires listener { IsListener listener.old }
    ensures listener { IsListener listener.new }
{
    let first = listener.give(now, datagram);
    if !asks_for_keys(&first) || !finds_keys(rt, alloc, config, now, file, listener) {
        return listener.count(&first);
    }
    let last = listener.give(now, datagram);
    if !asks_for_keys(&last) {
        listener.tell_keys(rt, now)?;
    }
    listener.count(&last)
}

/// Whether a datagram has a token that none of the group's keys has.
fn asks_for_keys(answer: &Result<Taken, Refusal>) -> bool {
    matches!(answer, Err(Refusal::Guard(OpenFault::UnknownToken { .. })))
}

/// Goes on with the keys that the file has now, where it has some. The answer is whether it has.
fn finds_keys<R: Files>(
    rt: &R,
    alloc: Global,
    config: &Config,
    now: u64,
    file: &mut KeyFile<'_>,
    listener: &mut Listener<'_>,
) -> bool
    requires good { IsGood config.now }
    requires listener { IsListener listener.old }
    ensures listener { IsListener listener.new }
{
    match file.ring(rt, alloc, now, config) {
        Some(ring) => {
            listener.renew(ring);
            true
        }
        None => false,
    }
}

/// Whether the key q was pressed. The terminal is one whose reads don't wait.
fn ends<R: Input>(rt: &R) -> bool {
    let mut key = [0u8; 1];
    match rt.reader().read(&mut key) {
        Ok(1) => key[0] == b'q',
        _ => false,
    }
}
