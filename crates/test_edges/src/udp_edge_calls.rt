//! Each call once over the system's own files, streams and sockets.
use crate::steps::{Step, opens, opens_with, play, read, refuses, same, write};
use std::alloc::Global;
use std::fmt::Display;
use std::fs;
use std::io::{self, Error, ErrorKind, PipeWriter, Print, Read, Write};
use std::net::{IpAddr, Ipv4Addr, SocketAddr, UdpSocket};
use std::process::Abort;
use std::time::{Duration, Instant};
use ua_base::{Fate, ReadEnd, Received, Sent, WriteEnd};
use udp_edge::{DirFolder, StdSink, UdpLink, received, sent};

// What is written to a file of so many bytes.
fn file(rt: &impl Abort, alloc: Global, len: usize) -> Vec<u8> {
    let mut bytes = vec![in alloc; b'a'; len].expect(rt, "memory");
    if len > 4_096 {
        bytes[4_096] = b'b';
        bytes[len - 1] = b'c';
    }
    bytes
}

#[test]
fn the_real_folder(rt: HostRuntime) {
    let mut folder = DirFolder::new(&rt);
    let mut into = Vec::from_slice(rt.alloc(), b"before").expect(&rt, "memory");
    for (len, want) in [
        (0, ReadEnd::Done),
        (65_537, ReadEnd::Done),
        (1_048_576, ReadEnd::Done),
        (1_048_577, ReadEnd::Long { read: 1_048_577 }),
    ] {
        let bytes = file(&rt, rt.alloc(), len);
        fs::write(&rt, "edge_tests_file", &bytes).expect(&rt, "a write");
        read(
            &rt,
            &mut folder,
            "edge_tests_file",
            1_048_576,
            &mut into,
            want,
            &bytes,
        );
    }
    fs::remove_file(&rt, "edge_tests_file").expect(&rt, "a file");
    fs::create_dir(&rt, "edge_tests_folder").expect(&rt, "a folder");
    for name in ["edge_tests_file", "edge_tests_folder"] {
        read(&rt, &mut folder, name, 5, &mut into, ReadEnd::Failed, b"");
    }
    fs::remove_dir(&rt, "edge_tests_folder").expect(&rt, "a folder");
}

// Writes to the one end of a pipe.
#[derive(Drop)]
struct ToPipe {
    end: PipeWriter,
}

impl Print for ToPipe {
    fn print<D: Display + Drop>(&self, _value: D) -> io::Result<()> {
        Err(Error::from(ErrorKind::Unsupported))
    }

    fn println<D: Display + Drop>(&self, _value: D) -> io::Result<()> {
        Err(Error::from(ErrorKind::Unsupported))
    }

    fn write_all(&self, bytes: &[u8]) -> io::Result<()> {
        (&self.end).write_all(bytes)
    }
}

#[test]
fn the_standard_streams(rt: HostRuntime) {
    let stderr = rt.stderr();
    write(
        &rt,
        &mut StdSink::new(&stderr),
        b"to standard error\n",
        WriteEnd::Done,
    );
    write(
        &rt,
        &mut StdSink::new(&rt),
        b"to standard output\n",
        WriteEnd::Done,
    );
}

#[test]
fn a_pipe_until_it_is_closed(rt: HostRuntime) {
    let (mut reader, end) = io::pipe(&rt).expect(&rt, "a pipe");
    let to = ToPipe { end };
    let mut sink = StdSink::new(&to);
    write(&rt, &mut sink, b"12345", WriteEnd::Done);
    let mut into = [0u8; 8];
    let count = reader.read(&mut into).expect(&rt, "a read");
    assert!(rt; count == 5 && into.starts_with(b"12345"));
    drop(reader);
    write(&rt, &mut sink, b"12345", WriteEnd::Failed);
    write(&rt, &mut sink, b"", WriteEnd::Done);
}

#[test]
fn a_socket_gives_back_what_was_sent(rt: HostRuntime) {
    let alloc = rt.alloc();
    let mut link = UdpLink::new(&rt, alloc);
    opens(&rt, &mut link, 0);
    let bytes = vec![in alloc; b'x'; 65_508].expect(&rt, "memory");
    let long = &bytes[..1_400];
    let longest = &bytes[..65_507];
    let steps = [
        Step::Send(b"", Sent::Done),
        Step::Receive(1_400, Received::Datagram(0), b""),
        Step::Send(b"one", Sent::Done),
        Step::Receive(1_400, Received::Datagram(3), b"one"),
        Step::Send(long, Sent::Done),
        Step::Receive(1_400, Received::Datagram(1_400), long),
        Step::Send(long, Sent::Done),
        Step::Receive(10, Received::Long(1_400), b""),
        Step::Send(longest, Sent::Done),
        Step::Receive(65_507, Received::Datagram(65_507), longest),
        Step::Send(longest, Sent::Done),
        Step::Receive(65_506, Received::Long(65_507), b""),
        // longer than any datagram of the system
        Step::Send(&bytes, Sent::Failed),
    ];
    play(&rt, alloc, &mut link, &steps);
    let start = Instant::now(&rt).expect(&rt, "a clock");
    play(
        &rt,
        alloc,
        &mut link,
        &[Step::Receive(1_400, Received::Nothing, b"")],
    );
    let waited = start.elapsed(&rt).expect(&rt, "a clock");
    // it waits 10 ms
    assert!(rt; waited.as_secs() == 0);
}

#[test]
fn a_link_has_a_peer(rt: HostRuntime) {
    let alloc = rt.alloc();
    let here = IpAddr::V4(Ipv4Addr::LOCALHOST);
    let any = SocketAddr::new(here, 0);
    let held = UdpSocket::bind(&rt, any).expect(&rt, "a socket");
    let to = held.local_addr().expect(&rt, "an address");
    let mut link = UdpLink::to_peer(&rt, alloc, here, to, Duration::ZERO);
    assert!(rt; link.address().is_none());
    opens(&rt, &mut link, 0);
    play(&rt, alloc, &mut link, &[Step::Send(b"one", Sent::Done)]);
    let mut into = [0u8; 8];
    let (count, from) = held.recv_from(&mut into).expect(&rt, "a datagram");
    assert!(rt; count == 3 && into.starts_with(b"one"));
    assert!(rt; link.address() == Some(from));
    held.send_to(b"two", from).expect(&rt, "a send");
    let steps = [
        Step::Receive(8, Received::Datagram(3), b"two"),
        Step::Receive(8, Received::Nothing, b""),
    ];
    play(&rt, alloc, &mut link, &steps);
}

#[test]
fn a_link_waits_for_what_it_sent_alone(rt: HostRuntime) {
    let alloc = rt.alloc();
    let mut link = UdpLink::new(&rt, alloc);
    opens(&rt, &mut link, 0);
    let start = Instant::now(&rt).expect(&rt, "a clock");
    play(
        &rt,
        alloc,
        &mut link,
        &[Step::Receive(8, Received::Nothing, b"")],
    );
    let waited = start.elapsed(&rt).expect(&rt, "a clock");
    // it has sent nothing, and waits 10 ms for others
    assert!(rt; waited.as_millis() >= 9);
    let steps = [
        Step::Send(b"one", Sent::Done),
        Step::Receive(8, Received::Datagram(3), b"one"),
    ];
    play(&rt, alloc, &mut link, &steps);
    let looks = [Step::Receive(8, Received::Nothing, b""); 500];
    let start = Instant::now(&rt).expect(&rt, "a clock");
    play(&rt, alloc, &mut link, &looks);
    let waited = start.elapsed(&rt).expect(&rt, "a clock");
    // as long as 500 waits of 10 ms it isn't
    assert!(rt; waited.as_secs() < 4);
}

#[test]
fn a_socket_knows_no_fates(rt: HostRuntime) {
    let mut link = UdpLink::new(&rt, rt.alloc());
    opens_with(
        &rt,
        &mut link,
        0,
        &[(0, Fate::Drop), (1, Fate::Repeat { times: 2 })],
    );
    let steps = [
        Step::Send(b"a", Sent::Done),
        Step::Send(b"bc", Sent::Done),
        Step::Receive(8, Received::Datagram(1), b"a"),
        Step::Receive(8, Received::Datagram(2), b"bc"),
        Step::Receive(8, Received::Nothing, b""),
    ];
    play(&rt, rt.alloc(), &mut link, &steps);
}

#[test]
fn answers_of_the_system_are_told(rt: HostRuntime) {
    let mut into = [0u8; 4];
    for (kind, want) in [
        (ErrorKind::Other, Received::Failed),
        (ErrorKind::Interrupted, Received::Failed),
        (ErrorKind::WouldBlock, Received::Nothing),
        (ErrorKind::TimedOut, Received::Nothing),
    ] {
        let got = received(Err(Error::from(kind)), b"12345", &mut into);
        same(&rt, got, want);
    }
    let got = received(Ok(5), b"12345", &mut into);
    same(&rt, got, Received::Long(5));
    let got = received(Ok(4), b"12345", &mut into);
    same(&rt, got, Received::Datagram(4));
    assert!(rt; &into == b"1234");
    same(&rt, sent(Ok(5), 5), Sent::Done);
    same(&rt, sent(Ok(4), 5), Sent::Failed);
    let got = sent(Err(Error::from(ErrorKind::Other)), 5);
    same(&rt, got, Sent::Failed);
}

#[test]
fn a_link_has_the_port_that_it_is_given_of_this_machine_alone(rt: HostRuntime) {
    let any = SocketAddr::from((Ipv4Addr::LOCALHOST, 0));
    let held = UdpSocket::bind(&rt, any).expect(&rt, "a socket");
    let port = held.local_addr().expect(&rt, "an address").port();
    let mut link = UdpLink::new(&rt, rt.alloc());
    // another has the port
    refuses(&rt, &mut link, port);
    drop(held);
    opens(&rt, &mut link, port);
    // its own socket has the port
    refuses(&rt, &mut link, port);
    // the link has the port, of 127.0.0.1 alone
    for (address, is_free) in [
        (Ipv4Addr::LOCALHOST, false),
        (Ipv4Addr::new(127, 0, 0, 2), true),
    ] {
        let socket = UdpSocket::bind(&rt, SocketAddr::from((address, port)));
        assert!(rt; socket.is_ok() == is_free);
    }
}
