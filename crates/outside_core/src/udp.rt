//! Datagrams of the machine's own network, on 127.0.0.1.
ghost use Rattle.std.specs.Prelude.{◌≡◌, ◌≤◌, ◌^◌, ◌↔◌, length, false, IsTrue, None, IsNone, IfSome, IsOk, IfOk, OnErr};
ghost use Rattle.outside_core.specs.declared.datagram.Peer.TheVariants.{Upstream};
ghost use Rattle.outside_core.specs.Datagram.{datagram_of, IsClient};
ghost use Rattle.outside_core.specs.Fault.{next_count, HasCause, Rose};
ghost use Rattle.outside_core.specs.Udp.{harbor_faults, link_port, link_upstream, link_faults, held_back, client_number, peer_number, peer_at};

use crate::{Datagram, DatagramOctets, Failed, Harbor, Link, Peer};
use std::net::{Ipv4Addr, Net, SocketAddr, SocketAddrV4};
use std::sync::Wait;
use tap::Tap;

mod tap;

/// The real network as a harbor. It tells nothing of what came back. Its count of faults stays at
/// 2^64 - 1 once it is there.
#[derive(Debug, Drop)]
pub struct UdpHarbor<N> {
    net: N,
    faults: u64,
}

impl<N: Net + Drop> UdpHarbor<N> {
    /// The harbor of a network, such as the runtime that `main` is given.
    pub fn over(net: N) -> UdpHarbor<N>
        ensures { harbor_faults result ≡ 0 }
    {
        UdpHarbor { net, faults: 0 }
    }
}

impl<N: Net + Drop> Harbor for UdpHarbor<N> {
    type Link = UdpLink;

    ghost came_back = { λ _. None };

    ghost faults = { harbor_faults };

    fn bind(&mut self, port: u16, upstream: u16) -> Result<UdpLink, Failed>
        ensures port { IfOk result (λ link. link_port link ≡ port) }
        ensures upstream { IfOk result (λ link. link_upstream link ≡ upstream) }
        ensures unfailed { IfOk result (λ link. link_faults link ≡ 0) }
        ensures cause { HasCause (harbor_faults self.old) (harbor_faults self.new) result }

        // Beyond the trait.
        ensures counted { OnErr result (
            harbor_faults self.new ≡ next_count (harbor_faults self.old)) }
        ensures none_held { IfOk result (λ link. held_back link ≡ None) }
    {
        match self.net.bind_udp(on_loopback(port)) {
            Ok(socket) => Ok(UdpLink {
                tap: Tap::over(socket),
                port,
                upstream,
                faults: 0,
                held: DatagramOctets::of(b""),
                is_holding: false,
            }),
            Err(_) => Err(Failed::counted(&mut self.faults)),
        }
    }

    fn part(&mut self, port: u16, link: UdpLink)
        requires { port ≡ link_port link }
        ensures unfailing { link_faults link ≡ 0 →
            harbor_faults self.new ≡ harbor_faults self.old }
        ensures failed { 1 ≤ link_faults link →
            Rose (harbor_faults self.old) (harbor_faults self.new) }
    {
        let _port = port;
        if link.faults > 0 {
            let _failed = Failed::counted(&mut self.faults);
        }
    }
}

/// A socket on 127.0.0.1 as a link. It tells nothing of its datagrams. Its count of faults stays at
/// 2^64 - 1 once it is there.
///
/// What comes from 127.0.0.1 and the upstream port is from `Upstream`. What comes from elsewhere is
/// from a `Client`, whose number is the IPv4 address times 65,536 plus the port.
///
/// After a `receive_waiting` that finds nothing, where none since the last `receive` found one, the
/// next fifteen don't look at the socket and answer that none has come.
///
/// When a call fails is left open, since nothing in std says so: it is where the socket's call
/// fails, also where a signal interrupted that, where a client's number is none that a link gives,
/// and where not all of a datagram was taken.
#[derive(Debug, Drop)]
pub struct UdpLink {
    tap: Tap,
    port: u16,
    upstream: u16,
    faults: u64,
    // The upstream resolver's datagram that came where only a client's was wanted, while the link
    // is holding one.
    held: DatagramOctets,
    is_holding: bool,
}

impl Link for UdpLink {
    ghost events = { λ _. None };

    ghost port = { link_port };

    ghost upstream = { link_upstream };

    ghost faults = { link_faults };

    fn receive<R: Wait>(&mut self, _rt: &R, into: &mut Datagram) -> Result<(), Failed>
        ensures port { link_port self.new ≡ link_port self.old }
        ensures upstream { link_upstream self.new ≡ link_upstream self.old }
        ensures cause { HasCause (link_faults self.old) (link_faults self.new) result }

        // Beyond the trait.
        ensures counted { OnErr result
            (link_faults self.new ≡ next_count (link_faults self.old)) }
        ensures held_first { IfSome (held_back self.old) (λ octets.
            IsOk result × (into.new ≡ datagram_of Upstream octets)) }
        ensures none_held { held_back self.new ≡ None }
    {
        if self.is_holding {
            self.is_holding = false;
            into.peer = Peer::Upstream;
            into.octets.set(self.held.as_slice());
            return Ok(());
        }
        match self.tap.receive(&mut into.octets) {
            Ok(SocketAddr::V4(address)) => {
                into.peer = peer_of(address, self.upstream);
                Ok(())
            }
            _ => Err(Failed::counted(&mut self.faults)),
        }
    }

    fn receive_waiting(&mut self, into: &mut Datagram) -> bool
        ensures client { IsTrue result → IsClient into.new.peer }
        ensures port { link_port self.new ≡ link_port self.old }
        ensures upstream { link_upstream self.new ≡ link_upstream self.old }
        ensures faults { link_faults self.new ≡ link_faults self.old }

        // Beyond the trait.
        ensures held_first { IfSome (held_back self.old) (λ _.
            (result ≡ false) × (self.new ≡ self.old)) }
        ensures held { IsNone (held_back self.old) → IfSome (held_back self.new) (λ octets.
            (result ≡ false) × (into.new ≡ datagram_of Upstream octets)) }
    {
        if self.is_holding {
            return false;
        }
        let Some(SocketAddr::V4(address)) = self.tap.receive_waiting(&mut into.octets) else {
            return false;
        };
        into.peer = peer_of(address, self.upstream);
        if into.peer == Peer::Upstream {
            self.held.set(into.octets.as_slice());
            self.is_holding = true;
        }
        !self.is_holding
    }

    fn send(&mut self, to: Peer, octets: &[u8]) -> Result<(), Failed>
        requires { length octets.now ≤ 4096 }
        ensures port { link_port self.new ≡ link_port self.old }
        ensures upstream { link_upstream self.new ≡ link_upstream self.old }
        ensures cause { HasCause (link_faults self.old) (link_faults self.new) result }

        // Beyond the trait.
        ensures counted { OnErr result
            (link_faults self.new ≡ next_count (link_faults self.old)) }
    {
        let whole = match address_of(number_of(to, self.upstream)) {
            Some(address) => self.tap.send_to(octets, address),
            None => false,
        };
        if whole {
            Ok(())
        } else {
            Err(Failed::counted(&mut self.faults))
        }
    }
}

// A port of 127.0.0.1.
fn on_loopback(port: u16) -> SocketAddr {
    SocketAddr::V4(SocketAddrV4::new(Ipv4Addr::LOCALHOST, port))
}

// The peer at an address.
fn peer_of(address: SocketAddrV4, upstream: u16) -> Peer
    ensures { result ≡ peer_at upstream address }
{
    let bits = address.ip().to_bits();
    let port = address.port();
    if bits == LOOPBACK && port == upstream {
        Peer::Upstream
    } else {
        Peer::Client(u64::from(bits) * 65_536 + u64::from(port))
    }
}

const LOOPBACK: u32 = 0x7f00_0001;

// The number of a peer.
fn number_of(peer: Peer, upstream: u16) -> u64
    ensures { result ≡ peer_number upstream peer }
{
    match peer {
        Peer::Client(number) => number,
        Peer::Upstream => u64::from(LOOPBACK) * 65_536 + u64::from(upstream),
    }
}

// The address with a number of 48 bits.
#[tactic(auto, using(crate::proofs::Addresses::number_back))]
fn address_of(number: u64) -> Option<SocketAddrV4>
    ensures some { IfSome result (λ address. client_number address ≡ number) }
    ensures none { IsNone result ↔ (2 ^ 48 ≤ number) }
{
    let bits = u32::try_from(number / 65_536).ok()?;
    let port = (number % 65_536) as u16;
    Some(SocketAddrV4::new(Ipv4Addr::from_bits(bits), port))
}
