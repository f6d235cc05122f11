//! Each call once, its refusals, and the calls that are named to fail.
use crate::steps::{Step, opens, opens_with, play, read, refuses, same, write};
use mem_edge::*;
use std::alloc::Global;
use std::process::Abort;
use ua_base::{Fate, Gate, ReadEnd, Received, Sent, WriteEnd};

fn folder(rt: &impl Abort, alloc: Global, fails: &[u32]) -> MemoryFolder {
    let mut files = Vec::new(alloc);
    for (name, bytes) in [("a", b"12345".as_slice()), ("b", b""), ("a", b"later")] {
        let name = Name::new(name.as_bytes()).expect(rt, "a name");
        let bytes = Vec::from_slice(alloc, bytes).expect(rt, "memory");
        files.push((name, bytes)).ok().expect(rt, "memory");
    }
    MemoryFolder::new(files, Vec::from_slice(alloc, fails).expect(rt, "memory"))
}

// A link with calls that fail: these sends and receives, or each opening.
fn link(
    rt: &impl Abort,
    alloc: Global,
    sends: &[u64],
    receives: &[u64],
    refuses: bool,
) -> MemoryLink {
    let sends = Vec::from_slice(alloc, sends).expect(rt, "memory");
    let receives = Vec::from_slice(alloc, receives).expect(rt, "memory");
    MemoryLink::new(alloc, Vec::new(alloc), sends, receives, refuses)
}

#[test]
fn names_are_short_texts(rt: HostRuntime) {
    let long = [b'x'; 256];
    for (bytes, is_name) in [
        (long.as_slice(), false),
        (&long[1..], true),
        (b"", true),
        ("é".as_bytes(), true),
        (b"\xc3", false),
        (b"a\xff", false),
    ] {
        let holds = match Name::new(bytes) {
            Some(name) => is_name && name.as_bytes() == bytes,
            None => !is_name,
        };
        assert!(rt; holds);
    }
}

#[test]
fn a_folder_reads_fails_and_refuses(rt: HostRuntime) {
    let alloc = rt.alloc();
    let mut folder = folder(&rt, alloc, &[2, 4]);
    let mut into = Vec::from_slice(alloc, b"before").expect(&rt, "memory");
    for (name, limit, want, bytes) in [
        ("a", 5, ReadEnd::Done, b"12345".as_slice()),
        ("a", 4, ReadEnd::Long { read: 5 }, b""),
        // the third read is named
        ("a", 5, ReadEnd::Failed, b""),
        ("none", 5, ReadEnd::Failed, b""),
        // the fifth read is named
        ("b", 0, ReadEnd::Failed, b""),
        ("b", 0, ReadEnd::Done, b""),
    ] {
        read(&rt, &mut folder, name, limit, &mut into, want, bytes);
    }
}

#[test]
fn a_sink_writes_and_fails(rt: HostRuntime) {
    let alloc = rt.alloc();
    let fails = Vec::from_slice(alloc, &[1u32]).expect(&rt, "memory");
    let mut sink = MemorySink::new(alloc, fails).expect(&rt, "memory");
    for (bytes, want) in [
        (b"ab".as_slice(), WriteEnd::Done),
        (b"lost", WriteEnd::Failed),
        (b"c", WriteEnd::Done),
        (b"", WriteEnd::Done),
    ] {
        write(&rt, &mut sink, bytes, want);
    }
    assert!(rt; sink.bytes() == b"abc".as_slice());
    let more = vec![in alloc; 0u8; 4_194_302].expect(&rt, "memory");
    write(&rt, &mut sink, &more, WriteEnd::Failed);
    write(&rt, &mut sink, &more[1..], WriteEnd::Done);
    same(&rt, sink.bytes().len(), 4_194_304);
}

#[test]
fn a_link_delivers_in_order(rt: HostRuntime) {
    let mut link = link(&rt, rt.alloc(), &[1], &[1, 4], false);
    opens(&rt, &mut link, 4840);
    let steps = [
        Step::Send(b"one", Sent::Done),
        Step::Send(b"lost", Sent::Failed),
        Step::Send(b"three", Sent::Done),
        Step::Send(b"four", Sent::Done),
        Step::Receive(4, Received::Datagram(3), b"one"),
        Step::Receive(4, Received::Failed, b""),
        Step::Receive(4, Received::Long(5), b""),
        Step::Receive(4, Received::Datagram(4), b"four"),
        Step::Receive(4, Received::Failed, b""),
        Step::Receive(4, Received::Nothing, b""),
        Step::Receive(4, Received::Nothing, b""),
    ];
    play(&rt, rt.alloc(), &mut link, &steps);
    for (i, sent, received) in [
        (0, Some(b"one".as_slice()), Some(b"one".as_slice())),
        (1, Some(b"three"), Some(b"four")),
        (2, Some(b"four"), None),
        (3, None, None),
        (u64::MAX, None, None),
    ] {
        assert!(rt; link.sent(i) == sent && link.received(i) == received);
    }
}

#[test]
fn an_opening_empties_or_fails(rt: HostRuntime) {
    let alloc = rt.alloc();
    let mut open = link(&rt, alloc, &[], &[], false);
    opens(&rt, &mut open, 4840);
    play(&rt, alloc, &mut open, &[Step::Send(b"gone", Sent::Done)]);
    opens_with(
        &rt,
        &mut open,
        0,
        &[(0, Fate::Drop), (1, Fate::Hold { after: 2 })],
    );
    assert!(rt; open.sent(0).is_none());
    let mut closed = link(&rt, alloc, &[], &[], true);
    refuses(&rt, &mut closed, 4840);
    refuses(&rt, &mut closed, 4840);
}

#[test]
fn a_gate_holds_nobody(rt: HostRuntime) {
    OpenGate.before(&rt, 8, 0);
    OpenGate.after(&rt, 8, 0);
}
