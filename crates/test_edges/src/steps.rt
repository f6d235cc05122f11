//! Calls of folders, sinks and links, each with the answer that it is to give.
ghost use Rattle.std.specs.Prelude.{IsSome};
ghost use Rattle.ua_base.specs.Fates.{AreFates};

use std::alloc::Global;
use std::fmt::Debug;
use std::process::Abort;
use ua_base::{Fate, Folder, Link, Opened, ReadEnd, Received, Sent, Sink, WriteEnd};

/// More bytes than any datagram of the tests has.
const MAX_BYTES: usize = 100_000;

/// A call of a link, and what it is to answer.
#[derive(Clone, Copy)]
pub(crate) enum Step<'a> {
    Send(&'a [u8], Sent),
    /// A receive with room for so many bytes, and the bytes that come.
    Receive(usize, Received, &'a [u8]),
}

/// Opens a link without fates.
pub(crate) fn opens<L: Link>(rt: &impl Abort, link: &mut L, port: u16)
    ensures { IsSome (L.opened_with link.new) }
{
    opens_with(rt, link, port, &[]);
}

/// Opens a link.
pub(crate) fn opens_with<L: Link>(rt: &impl Abort, link: &mut L, port: u16, fates: &[(u64, Fate)])
    requires { AreFates fates.now }
    ensures { IsSome (L.opened_with link.new) }
{
    let opened = link.open(port, fates);
    assert!(rt; opened == Opened::Done);
}

/// Tries to open a link where the port can't be had.
pub(crate) fn refuses<L: Link>(rt: &impl Abort, link: &mut L, port: u16) {
    let opened = link.open(port, &[]);
    assert!(rt; opened == Opened::Failed);
}

/// Makes the calls of a link that is open, one after another.
pub(crate) fn play<L: Link>(rt: &impl Abort, alloc: Global, link: &mut L, steps: &[Step<'_>])
    requires { IsSome (L.opened_with link.old) }
    ensures { IsSome (L.opened_with link.new) }
{
    for step in steps {
        match step {
            Step::Send(datagram, want) => send(rt, link, datagram, *want),
            Step::Receive(room, want, bytes) => receive(rt, alloc, link, *room, *want, bytes),
        }
    }
}

fn send<L: Link>(rt: &impl Abort, link: &mut L, datagram: &[u8], want: Sent)
    requires { IsSome (L.opened_with link.old) }
    ensures { IsSome (L.opened_with link.new) }
{
    assert!(rt; datagram.len() < MAX_BYTES);
    let got = link.send(datagram);
    same(rt, got, want);
}

fn receive<L: Link>(
    rt: &impl Abort,
    alloc: Global,
    link: &mut L,
    room: usize,
    want: Received,
    bytes: &[u8],
)
    requires { IsSome (L.opened_with link.old) }
    ensures { IsSome (L.opened_with link.new) }
{
    let mut into = vec![in alloc; 0u8; room].expect(rt, "memory");
    let got = link.receive(&mut into);
    same(rt, got, want);
    assert!(rt; into.starts_with(bytes));
}

/// Writes once.
pub(crate) fn write<S: Sink>(rt: &impl Abort, sink: &mut S, bytes: &[u8], want: WriteEnd) {
    let got = sink.write(bytes);
    same(rt, got, want);
}

/// Reads a file, of which so many bytes are allowed, and these come.
pub(crate) fn read<F: Folder>(
    rt: &impl Abort,
    folder: &mut F,
    name: &str,
    limit: u32,
    into: &mut Vec<u8>,
    want: ReadEnd,
    bytes: &[u8],
) {
    let got = folder.read_whole(name, u64::from(limit), into);
    same(rt, got, want);
    assert!(rt; into.as_slice() == bytes);
}

/// What came is what was wanted.
pub(crate) fn same<T: Copy + Debug + PartialEq>(rt: &impl Abort, got: T, want: T) {
    assert_eq!(rt; got, want);
}
