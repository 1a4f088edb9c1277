//! A worker's sockets with clients and an upstream.
ghost use Rattle.std.specs.Prelude.{◌≤◌, length};

use arrivals::{Came, Event, MessageOctets, Moment};
use forward_sockets::{Fault, OpenFault, Sockets};
use std::alloc::Global;
use std::io;
use std::net::{
    Ipv4Addr, Ipv6Addr, Net, OpenListener, SocketAddr, SocketAddrV4, SocketAddrV6, UdpSocket,
};
use std::test::Fail;
use std::time::{Clock, Duration};

// A port of 127.0.0.1.
pub(crate) fn v4(port: u16) -> SocketAddr {
    SocketAddr::V4(SocketAddrV4::new(Ipv4Addr::LOCALHOST, port))
}

// A port of ::1.
pub(crate) fn v6(port: u16) -> SocketAddr {
    SocketAddr::V6(SocketAddrV6::new(Ipv6Addr::LOCALHOST, port, 0, 0))
}

// A port that nobody has, for datagrams and for streams.
pub(crate) fn free_port<N: Net>(net: &N) -> io::Result<u16> {
    let listener = net.bind(v4(0))?;
    let port = listener.local_addr()?.port();
    let _datagrams = net.bind_udp(v4(port))?;
    Ok(port)
}

// A socket at a free port like that, which waits for five seconds at most.
pub(crate) fn end<N: Net>(net: &N, like: SocketAddr) -> io::Result<UdpSocket> {
    let socket = match like {
        SocketAddr::V4(_) => net.bind_udp(v4(0))?,
        SocketAddr::V6(_) => net.bind_udp(v6(0))?,
    };
    socket.set_read_timeout(Some(Duration::from_secs(5)))?;
    Ok(socket)
}

// Error numbers of Linux, where the system gave one.
pub(crate) fn once(last: Option<i32>) -> Fault {
    Fault { count: 1, last }
}

pub(crate) fn open<N: Net>(
    net: &N,
    alloc: Global,
    addresses: &[SocketAddr],
    upstream: SocketAddr,
) -> Result<Sockets, Fail>
    requires { length addresses.now ≤ 8 }
{
    match Sockets::bind(net, alloc, addresses, upstream) {
        Ok(sockets) => Ok(sockets),
        Err(OpenFault::OutOfMemory) => Err(Fail::from("out of memory")),
        Err(OpenFault::Poll(_)) => Err(Fail::from("no epoll")),
        Err(
            OpenFault::Address {
                address: _,
                carrier: _,
                cause: _,
            },
        ) => Err(Fail::from("an address can't be bound")),
    }
}

// A query by its ID: a header alone (RFC 1035, section 4.1.1).
pub(crate) fn query(id: u16) -> [u8; 12] {
    let [high, low] = id.to_be_bytes();
    [high, low, 1, 0, 0, 0, 0, 0, 0, 0, 0, 0]
}

// Where what comes is put.
pub(crate) fn no_event() -> Event {
    Event {
        moment: Moment {
            seconds: 0,
            millis: 0,
        },
        came: Came::Tick,
        octets: MessageOctets::new(),
    }
}

// What comes next that isn't a tick, within some seconds.
pub(crate) fn next<C: Clock>(sockets: &mut Sockets, clock: &C, into: &mut Event) -> Option<Came> {
    for _ in 0..20 {
        sockets.receive(clock, into);
        if into.came != Came::Tick {
            return Some(into.came);
        }
    }
    None
}

// Whether nothing but ticks comes within half a second.
pub(crate) fn is_silent<C: Clock>(sockets: &mut Sockets, clock: &C, into: &mut Event) -> bool {
    for _ in 0..3 {
        sockets.receive(clock, into);
        if into.came != Came::Tick {
            return false;
        }
    }
    true
}

// The number of the client whose query with these octets comes next.
pub(crate) fn next_client<C: Clock>(
    sockets: &mut Sockets,
    clock: &C,
    octets: &[u8],
) -> Option<u64> {
    let mut into = no_event();
    match next(sockets, clock, &mut into) {
        Some(Came::Query { client, carrier: _ }) if into.octets.as_slice() == octets => Some(
            client,
        ),
        _ => None,
    }
}

// The slot whose answer with these octets comes next.
pub(crate) fn next_slot<C: Clock>(sockets: &mut Sockets, clock: &C, octets: &[u8]) -> Option<u8> {
    let mut into = no_event();
    match next(sockets, clock, &mut into) {
        Some(Came::Answer { slot, carrier: _ }) if into.octets.as_slice() == octets => Some(slot),
        _ => None,
    }
}

// Whether the socket receives this next, and from there.
pub(crate) fn gets(socket: &UdpSocket, from: SocketAddr, octets: &[u8]) -> bool {
    let mut room = [0; 512];
    match socket.recv_from(&mut room) {
        Ok((count, sender)) => sender == from && room.get(..count) == Some(octets),
        Err(_) => false,
    }
}

// From where this comes next.
pub(crate) fn sender_of(socket: &UdpSocket, octets: &[u8]) -> Option<SocketAddr> {
    let mut room = [0; 512];
    match socket.recv_from(&mut room) {
        Ok((count, sender)) if room.get(..count) == Some(octets) => Some(sender),
        _ => None,
    }
}

pub(crate) fn sends(socket: &UdpSocket, to: SocketAddr, octets: &[u8]) -> bool {
    socket
        .send_to(octets, to)
        .is_ok_and(|count| count == octets.len())
}
