//! Datagrams over a socket of this machine.
ghost use Rattle.std.specs.Prelude.{◌≡◌, ◌≢◌, ◌<◌, ◌≤◌, ◌^◌, ℕ, IsTrue, IsSome, IfOk, Some, None, Ok, false, true, is_some, length, take, vec_len};
ghost use Rattle.ua_base.specs.Cause.{HasCause, Rose, counted_if};
ghost use Rattle.ua_base.specs.Fates.{AreFates};
ghost use Rattle.ua_base.specs.Journal.{Tells};
ghost use Rattle.ua_base.specs.Links.{KeepsLink, TellsOn};
ghost use Rattle.ua_base.specs.Net.{Opens, is_done, Sends, Queues, Receives, FitsBuffer, nothings_in};

use crate::traffic::Traffic;
use std::alloc::{AllocError, Global};
use std::io::{self, ErrorKind};
use std::net::{IpAddr, Ipv4Addr, Net, SocketAddr, UdpSocket};
use std::time::Duration;
use ua_base::{Fate, Link, Opened, Received, Sent};

/// How long a receive of a link that sends to itself waits at most.
const WAIT_MS: u64 = 10;

/// More bytes than any datagram has (65,507 over IPv4), so that each is received whole before it is put into the
/// caller's buffer, and its length is told also where it is longer than that.
const BUFFER_BYTES: usize = 65_537;

/// The open socket, its own address and the one that it sends to, and what it was opened with. Its calls don't wait, but for those
/// of `wait_for`.
#[derive(Drop)]
pub struct Bound {
    socket: UdpSocket,
    own: SocketAddr,
    to: SocketAddr,
    port: u16,
    fates: Vec<(u64, Fate)>,
}

/// What a datagram is received in first: more bytes than any datagram has.
#[derive(Drop)]
pub struct Buffer {
    bytes: Vec<u8>,
    ghost small: { vec_len bytes < 2 ^ 32 },
}

/// A socket of this machine: one of 127.0.0.1 that sends to itself (`new`), or one that sends to a peer (`to_peer`). It takes what
/// comes from anyone: keeping others out is the message security's affair (OPC 10000-14 7.2.4.4.3). It tells neither its journal nor
/// what waits, and leaves fates alone.
#[derive(Drop)]
pub struct UdpLink<'a, R: Net> {
    rt: &'a R,
    alloc: Global,
    local: IpAddr,
    /// Where it sends, if not to itself.
    peer: Option<SocketAddr>,
    /// How long a receive waits at most.
    wait: Duration,
    bound: Option<Bound>,
    buffer: Buffer,
    traffic: Traffic,
    faults: u64,
    openings: u64,
}

impl<'a, R: Net> UdpLink<'a, R> {
    ghost use Rattle.udp_edge.specs.UdpLinks.{opened_by, faults_of, openings_of};
    ghost use Rattle.udp_edge.specs.Traffics.{IsSettled};

    /// A link of 127.0.0.1 that sends to itself. A receive waits at most 10 ms, and where nothing can be on its way not at all: where
    /// it has sent, and as many of its own datagrams came as it sent. What others send is taken, and never waited for then.
    pub fn new(rt: &'a R, alloc: Global) -> UdpLink<'a, R>
        ensures closed { opened_by result ≡ None }
        ensures faults { faults_of result ≡ 0 }
        ensures openings { openings_of result ≡ 0 }
    {
        let local = IpAddr::V4(Ipv4Addr::LOCALHOST);
        UdpLink::of(rt, alloc, local, None, Duration::from_millis(WAIT_MS))
    }

    /// A link of this address of the machine that sends to the peer, which may be a broadcast address. A receive waits at most so
    /// long, and with 0 not at all.
    pub fn to_peer(
        rt: &'a R,
        alloc: Global,
        local: IpAddr,
        peer: SocketAddr,
        wait: Duration,
    ) -> UdpLink<'a, R>
        ensures closed { opened_by result ≡ None }
        ensures faults { faults_of result ≡ 0 }
        ensures openings { openings_of result ≡ 0 }
    {
        UdpLink::of(rt, alloc, local, Some(peer), wait)
    }

    /// Where the link receives, while it is open: its address, and the port that it has, which the machine chose where it was opened
    /// with 0.
    pub fn address(&self) -> Option<SocketAddr>
        ensures { is_some result ≡ is_some (opened_by self.now) }
    {
        match &self.bound {
            Some(bound) => Some(bound.own),
            None => None,
        }
    }

    fn of(
        rt: &'a R,
        alloc: Global,
        local: IpAddr,
        peer: Option<SocketAddr>,
        wait: Duration,
    ) -> UdpLink<'a, R>
        ensures closed { opened_by result ≡ None }
        ensures faults { faults_of result ≡ 0 }
        ensures openings { openings_of result ≡ 0 }
    {
        UdpLink {
            rt,
            alloc,
            local,
            peer,
            wait,
            bound: None,
            buffer: Buffer {
                bytes: Vec::new(alloc),
            },
            traffic: Traffic::new(),
            faults: 0,
            openings: 0,
        }
    }

    // Whether a receive waits, where nothing has come yet.
    fn waits(&self) -> bool
        ensures settled { IsSettled self.now.traffic → self.now.peer ≡ None → result ≡ false }
    {
        if self.wait.is_zero() {
            return false;
        }
        match self.peer {
            Some(_) => true,
            None => self.traffic.may_bring(),
        }
    }
}

// A socket of this address at the port, where 0 lets the machine choose, and its whole address. It may send to a broadcast address.
// Its calls don't wait; where they are let, so long.
fn bind<R: Net>(
    rt: &R,
    local: IpAddr,
    port: u16,
    wait: Duration,
) -> io::Result<(UdpSocket, SocketAddr)> {
    let socket = UdpSocket::bind(rt, SocketAddr::new(local, port))?;
    if !wait.is_zero() {
        socket.set_read_timeout(Some(wait))?;
    }
    socket.set_broadcast(true)?;
    socket.set_nonblocking(true)?;
    let own = socket.local_addr()?;
    Ok((socket, own))
}

// The memory of an open link.
fn memory(alloc: Global, fates: &[(u64, Fate)]) -> Result<(Vec<(u64, Fate)>, Buffer), AllocError>
    ensures { IfOk result (λ taken. taken.0.items ≡ fates.now) }
{
    Ok((
        Vec::from_slice(alloc, fates)?,
        Buffer {
            bytes: vec![in alloc; 0u8; BUFFER_BYTES]?,
        },
    ))
}

impl<R: Net> Link for UdpLink<'_, R> {
    ghost use Rattle.udp_edge.specs.UdpLinks.{told_by, patience_of, opened_by, faults_of, made_by, openings_of};

    ghost takes_memory = { false };

    ghost told = { λ l. told_by l };

    ghost patience = { λ l. patience_of l };

    ghost faults = { λ l. faults_of l };

    ghost opened_with = { λ l. opened_by l };

    ghost made = { λ l. made_by l };

    ghost openings = { λ l. openings_of l };

    /// A link that is open keeps its socket until the next one is bound. So its own port, where the machine didn't
    /// choose it, can't be opened again: that answers Failed.
    fn open(&mut self, port: u16, fates: &[(u64, Fate)]) -> Opened
        requires fates { AreFates fates.now }

        ensures empty { Tells (told_by self.old) (told_by self.new) (Opens result) }
        ensures opening { result ≡ Opened.Done
            → opened_by self.new ≡ Some (record { port = port; fates = fates.now }) }
        ensures refused { result ≢ Opened.Done
            → (told_by self.new ≡ told_by self.old) × (opened_by self.new ≡ opened_by self.old) }
        ensures cause { HasCause
            (faults_of self.old) (faults_of self.new) (result ≡ Opened.Failed) }
        ensures lasts { TellsOn told_by patience_of 0 self.old self.new }
        ensures making { made_by self.new ≡ made_by self.old }
        ensures counted { openings_of self.new
            ≡ counted_if (is_done result) (openings_of self.old) }

        ensures failed { result ≡ Opened.Failed
            → faults_of self.new ≡ counted_if true (faults_of self.old) }
        ensures others { result ≢ Opened.Failed → faults_of self.new ≡ faults_of self.old }
    {
        let Ok((fates, buffer)) = memory(self.alloc, fates) else {
            return Opened::Memory;
        };
        let Ok((socket, own)) = bind(self.rt, self.local, port, self.wait) else {
            self.faults = self.faults.saturating_add(1);
            return Opened::Failed;
        };
        self.bound = Some(Bound {
            socket,
            own,
            to: self.peer.unwrap_or(own),
            port,
            fates,
        });
        self.buffer = buffer;
        self.traffic = Traffic::new();
        self.openings = self.openings.saturating_add(1);
        Opened::Done
    }

    /// A datagram of which the system sends a part is a fault too.
    fn send(&mut self, datagram: &[u8]) -> Sent
        requires open { IsSome (opened_by self.old) }
        requires short { length datagram.now < 2 ^ 32 }

        ensures entry { Tells (told_by self.old) (told_by self.new) (Sends datagram.now result) }
        ensures waiting { Tells (told_by self.old) (told_by self.new) (Queues result) }
        ensures link { KeepsLink told_by patience_of opened_by faults_of made_by openings_of
            0 self.old self.new }
        ensures only_where_taken { result ≡ Sent.Memory → IsTrue false }
        ensures cause { result ≡ Sent.Failed → Rose (faults_of self.old) (faults_of self.new) }

        ensures failed { result ≡ Sent.Failed
            → faults_of self.new ≡ counted_if true (faults_of self.old) }
        ensures done { result ≡ Sent.Done → faults_of self.new ≡ faults_of self.old }
    {
        let Some(bound) = &self.bound else {
            unreachable!()
        };
        match sent(bound.socket.send_to(datagram, bound.to), datagram.len()) {
            Sent::Failed => {
                self.faults = self.faults.saturating_add(1);
                Sent::Failed
            }
            sent => {
                self.traffic.count_sent();
                sent
            }
        }
    }

    /// Looks, and waits where nothing is there and something may be on its way.
    fn receive(&mut self, into: &mut [u8]) -> Received
        requires { IsSome (opened_by self.old) }

        ensures entry { Tells (told_by self.old) (told_by self.new) (Receives result into.new) }
        ensures sizes { FitsBuffer result into.new }
        ensures link { KeepsLink told_by patience_of opened_by faults_of made_by openings_of
            (nothings_in result) self.old self.new }
        ensures cause { result ≡ Received.Failed → Rose (faults_of self.old) (faults_of self.new) }

        ensures failed { result ≡ Received.Failed
            → faults_of self.new ≡ counted_if true (faults_of self.old) }
        ensures others { result ≢ Received.Failed → faults_of self.new ≡ faults_of self.old }
    {
        let waits = self.waits();
        let Some(bound) = &self.bound else {
            unreachable!()
        };
        let taken = take(bound, waits, &mut self.buffer.bytes, into);
        if taken.is_own {
            self.traffic.count_received();
        }
        match taken.received {
            Received::Failed => {
                self.faults = self.faults.saturating_add(1);
                Received::Failed
            }
            received => received,
        }
    }
}

/// What a receive took, and whether the link sent it itself.
#[derive(Clone, Copy)]
struct Taken {
    received: Received,
    is_own: bool,
}

// Receives a datagram, and waits for one where there is none and it may.
fn take(bound: &Bound, waits: bool, buffer: &mut [u8], into: &mut [u8]) -> Taken
    requires { length buffer.old < 2 ^ 32 }
    ensures { FitsBuffer result.received into.new }
{
    let looked = look(bound, buffer, into);
    match looked.received {
        Received::Nothing if waits => wait_for(bound, buffer, into),
        _ => looked,
    }
}

// Waits for a datagram. Where the socket can't be set back, each later look waits as this did.
fn wait_for(bound: &Bound, buffer: &mut [u8], into: &mut [u8]) -> Taken
    requires { length buffer.old < 2 ^ 32 }
    ensures { FitsBuffer result.received into.new }
{
    if bound.socket.set_nonblocking(false).is_err() {
        return Taken {
            received: Received::Failed,
            is_own: false,
        };
    }
    let waited = look(bound, buffer, into);
    let _ = bound.socket.set_nonblocking(true);
    waited
}

// Receives a datagram by way of a buffer that it doesn't fill. Whose it is its address says: another socket of this machine has
// another port.
fn look(bound: &Bound, buffer: &mut [u8], into: &mut [u8]) -> Taken
    requires { length buffer.old < 2 ^ 32 }
    ensures count { length buffer.new ≡ length buffer.old }
    ensures fits { FitsBuffer result.received into.new }
{
    match bound.socket.recv_from(buffer) {
        Ok((count, from)) => Taken {
            received: received(Ok(count), buffer, into),
            is_own: from == bound.own,
        },
        Err(error) => Taken {
            received: received(Err(error), buffer, into),
            is_own: false,
        },
    }
}

/// What the system answered to a receive, and the datagram that it put into the buffer: an end of the time that a
/// receive waits is no fault.
pub fn received(got: io::Result<usize>, buffer: &[u8], into: &mut [u8]) -> Received
    requires short { length buffer.now < 2 ^ 32 }
    requires count { IfOk got (λ count. count ≤ length buffer.now) }
    ensures fits { FitsBuffer result into.new }
    ensures datagram { (count : ℕ) → got ≡ Ok count → count ≤ length into.old
        → result ≡ Received.Datagram count }
    ensures bytes { (count : ℕ) → got ≡ Ok count → count ≤ length into.old
        → take count into.new ≡ take count buffer.now }
    ensures long { (count : ℕ) → got ≡ Ok count → length into.old < count
        → result ≡ Received.Long count }
{
    match got {
        Ok(count) if count > into.len() => Received::Long(count as u32),
        Ok(count) => {
            into[..count].copy_from_slice(&buffer[..count]);
            Received::Datagram(count as u32)
        }
        Err(error) if is_timeout(error.kind()) => Received::Nothing,
        Err(_) => Received::Failed,
    }
}

/// What the system answered to a send of a datagram of this length.
pub fn sent(got: io::Result<usize>, len: usize) -> Sent
    ensures done { got ≡ Ok len → result ≡ Sent.Done }
    ensures whole { result ≡ Sent.Done → got ≡ Ok len }
    ensures free { result ≢ Sent.Memory }
{
    match got {
        Ok(count) if count == len => Sent::Done,
        _ => Sent::Failed,
    }
}

// Whether a read ended because nothing came in time.
fn is_timeout(kind: ErrorKind) -> bool {
    matches!(kind, ErrorKind::WouldBlock | ErrorKind::TimedOut)
}
