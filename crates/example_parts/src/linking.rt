//! The link to the peer.
ghost use Rattle.std.specs.Prelude.{IfOk, IsSome};
ghost use Rattle.udp_edge.specs.UdpLinks.{opened_by};

use crate::ending::Fault;
use std::alloc::Global;
use std::net::{IpAddr, Ipv4Addr, Net, SocketAddr, SocketAddrV4};
use std::time::Duration;
use ua_base::{Link, Opened};
use udp_edge::UdpLink;

/// An open link at this port that sends to the peer. A receive waits at most so long. Where the peer is of this machine,
/// datagrams of other machines don't reach it.
pub fn link_to<'a, R: Net>(
    rt: &'a R,
    alloc: Global,
    peer: SocketAddrV4,
    port: u16,
    wait: Duration,
) -> Result<UdpLink<'a, R>, Fault>
    ensures { IfOk result (λ link. IsSome (opened_by link)) }
{
    let local = if peer.ip().is_loopback() {
        Ipv4Addr::LOCALHOST
    } else {
        Ipv4Addr::UNSPECIFIED
    };
    let mut link = UdpLink::to_peer(rt, alloc, IpAddr::V4(local), SocketAddr::V4(peer), wait);
    match link.open(port, &[]) {
        Opened::Done => Ok(link),
        Opened::Failed => Err(Fault::Unopened(port)),
        Opened::Memory => Err(Fault::Memory),
    }
}
