//! The program's wiring: a server over loopback whose client and upstream are here, by a clock that moves; and runs over streams.
//! What the server sends is what the RFCs say of it.

use super::replays::{Ended, otherwise, source_of, words_of};
use super::serve::{ANSWER, ASKED, NEXT_QUERY, QUERY, RELAYED, THEN};
use dname::OutOfMemory;
use outside_core::{MemorySink, StreamSink, StreamSource};
use running::{Status, run_here};
use std::alloc::Global;
use std::fs::Files;
use std::net::{Ipv4Addr, Net, OpenListener, SocketAddr, SocketAddrV4, UdpSocket};
use std::random::RandomSource;
use std::sync::Wait;
use std::sync::atomic::AtomicU32;
use std::sync::atomic::Ordering::SeqCst;
use std::test::Fail;
use std::thread::{Threads, join, yield_now};
use std::time::Duration;
use std::{io, time};

/// What the client moves and the server tells.
#[derive(Drop)]
pub struct Shared {
    /// The seconds since 1970.
    pub seconds: AtomicU32,
    /// Where the server listens, once it does, and 0 before.
    pub port: AtomicU32,
}

/// A clock that another moves.
#[derive(Drop)]
pub struct Moved<'a> {
    pub shared: &'a Shared,
}

impl<'a> time::Clock for Moved<'a> {
    fn monotonic(&self) -> io::Result<Duration> {
        Err(io::Error::from(io::ErrorKind::Unsupported))
    }

    fn since_1970(&self) -> io::Result<Duration> {
        Ok(Duration::from_secs(u64::from(self.shared.seconds.load(SeqCst))))
    }
}

/// A port of 127.0.0.1.
pub fn on_loopback(port: u16) -> SocketAddr {
    SocketAddr::V4(SocketAddrV4::new(Ipv4Addr::LOCALHOST, port))
}

// A socket at a free port, each of whose waits ends after five seconds, if not sooner.
fn end<N: Net>(net: &N) -> io::Result<UdpSocket> {
    let socket = net.bind_udp(on_loopback(0))?;
    socket.set_read_timeout(Some(Duration::from_secs(5)))?;
    Ok(socket)
}

/// A network that has port 5300 of 127.0.0.1 alone. It puts a free one in its place, and tells that.
#[derive(Drop)]
pub struct Telling<'a, N> {
    pub net: &'a N,
    pub shared: &'a Shared,
}

impl<'a, N: Net> Net for Telling<'a, N> {
    type Stream = N::Stream;

    type Listener = N::Listener;

    fn bind(&self, addr: SocketAddr) -> io::Result<N::Listener> {
        if addr != on_loopback(5300) {
            return Err(io::Error::from(io::ErrorKind::AddrNotAvailable));
        }
        let listener = self.net.bind(on_loopback(0))?;
        let port = listener.local_addr()?.port();
        self.shared.port.store(u32::from(port), SeqCst);
        Ok(listener)
    }

    fn connect(&self, addr: SocketAddr) -> io::Result<N::Stream> {
        self.net.connect(addr)
    }

    fn bind_udp(&self, addr: SocketAddr) -> io::Result<UdpSocket> {
        if addr != on_loopback(5300) {
            return Err(io::Error::from(io::ErrorKind::AddrNotAvailable));
        }
        let socket = end(self.net)?;
        let port = socket.local_addr()?.port();
        self.shared.port.store(u32::from(port), SeqCst);
        Ok(socket)
    }
}

const TURNS: u32 = 10_000_000;

/// Where the server listens, if it does in time.
pub fn server_at(shared: &Shared) -> Option<SocketAddr> {
    for _ in 0..TURNS {
        let port = shared.port.load(SeqCst);
        if port > 0 {
            return Some(on_loopback(u16::try_from(port).ok()?));
        }
        yield_now();
    }
    None
}

fn sends(socket: &UdpSocket, octets: &[u8], there: SocketAddr) -> bool {
    match socket.send_to(octets, there) {
        Ok(count) => count == octets.len(),
        Err(_) => false,
    }
}

// Whether the socket receives this next, from there.
fn gets(socket: &UdpSocket, octets: &[u8], there: SocketAddr) -> bool {
    let mut room = [0; 1024];
    match socket.recv_from(&mut room) {
        Ok((count, sender)) => sender == there && room.get(..count) == Some(octets),
        Err(_) => false,
    }
}

// The two sides of the server.
#[derive(Drop)]
struct Sides {
    client: UdpSocket,
    upstream: UdpSocket,
}

impl Sides {
    fn over<N: Net>(net: &N) -> io::Result<Sides> {
        Ok(Sides {
            client: end(net)?,
            upstream: end(net)?,
        })
    }

    // Whether the query is asked upstream, and its answer relayed.
    fn are_relayed(&self, there: SocketAddr) -> bool {
        sends(&self.client, QUERY, there)
            && gets(&self.upstream, ASKED, there)
            && sends(&self.upstream, ANSWER, there)
            && gets(&self.client, RELAYED, there)
    }

    // Whether the next query is answered with this.
    fn are_denied(&self, there: SocketAddr, denied: &[u8]) -> bool {
        sends(&self.client, NEXT_QUERY, there) && gets(&self.client, denied, there)
    }

    // Whether the first query is relayed, and the next is denied by its answer 3,301 seconds later.
    fn are_served(&self, shared: &Shared) -> (bool, bool) {
        let Some(there) = server_at(shared) else {
            return (false, false);
        };
        let relayed = self.are_relayed(there);
        shared.seconds.store(THEN + 3301, SeqCst);
        (relayed, self.are_denied(there, DENIED_LATER))
    }
}

// There is no dd.example either. The records of an hour have 299 seconds left, which is less than the SOA's MINIMUM (RFC 2308,
// section 5).
const DENIED_LATER: &[u8] = b"\
    Vx\x81\xa3\x00\x01\x00\x00\x00\x06\x00\x01\
    \x02dd\x07example\x00\x00\x01\x00\x01\
    \x07example\x00\x00\x06\x00\x01\x00\x00\x01+\x00\x16\x00\x00\x00\x00\x00\x01\x00\x00\x0e\x10\x00\x00\x02X\x00\x01Q\x80\x00\x00\x01,\
    \x07example\x00\x00.\x00\x01\x00\x00\x01+\x00\x1f\x00\x06\x0d\x01\x00\x00\x0e\x10w5\x94\x005\xa4\xe9\x00\x00\x01\x07example\x00ZZZZ\
    \x01c\x07example\x00\x00/\x00\x01\x00\x00\x01+\x00\x13\x01f\x07example\x00\x00\x06@\x00\x00\x00\x00\x03\
    \x01c\x07example\x00\x00.\x00\x01\x00\x00\x01+\x00\x1f\x00/\x0d\x02\x00\x00\x0e\x10w5\x94\x005\xa4\xe9\x00\x00\x01\x07example\x00ZZZZ\
    \x07example\x00\x00/\x00\x01\x00\x00\x01+\x00\x13\x01a\x07example\x00\x00\x06\"\x00\x00\x00\x00\x03\
    \x07example\x00\x00.\x00\x01\x00\x00\x01+\x00\x1f\x00/\x0d\x01\x00\x00\x0e\x10w5\x94\x005\xa4\xe9\x00\x00\x01\x07example\x00ZZZZ\
    \x00\x00)\x04\xd0\x00\x00\x80\x00\x00\x00";

// How a server of one worker and three datagrams ends, which asks that port upstream, and what it writes.
fn served<R: Threads + Wait + Sync, N: Net, M: Eprint + Files + RandomSource + Sync>(
    rt: &R,
    alloc: Global,
    net: &N,
    machine: &M,
    shared: &Shared,
    upstream: u16,
) -> Result<Ended, OutOfMemory> {
    let text = format!(in alloc;
        "serve --listen 5300 --upstream {upstream} --workers 1 --datagrams 3"
    )?;
    let words = words_of(alloc, &text)?;
    let mut source = source_of(alloc, b"")?;
    let mut sink = MemorySink::with_room(alloc, 8, Vec::new(alloc))?;
    let net = Telling { net, shared };
    let clock = Moved { shared };
    let status = run_here(
        rt,
        alloc,
        &words,
        &mut source,
        &mut sink,
        &net,
        clock,
        machine,
    );
    Ok((status, Vec::from_slice(alloc, sink.written())?))
}

// Whether each side got what it should, and how the server ended.
fn met<R: Threads + Wait + Sync, N: Net + Eprint + Files + RandomSource + Sync>(
    rt: &R,
    alloc: Global,
    net: &N,
) -> Result<((bool, bool), Ended), Fail> {
    let shared = Shared {
        seconds: AtomicU32::new(THEN),
        port: AtomicU32::new(0),
    };
    let sides = Sides::over(net)?;
    let upstream = sides.upstream.local_addr()?.port();
    let (asked, ended) = join(
        rt,
        || sides.are_served(&shared),
        || served(rt, alloc, net, net, &shared, upstream),
    );
    Ok((asked, ended?))
}

#[test]
fn a_server_goes_by_the_machines_clock(rt: HostRuntime) -> Result<(), Fail> {
    let (asked, (status, written)) = met(&rt, rt.alloc(), &rt)?;
    let found = (asked, status, written.len());
    assert!(rt; found == ((true, true), Status::Good, 0), "{found:?}");
    Ok(())
}

// Words, what is read, and what is written then.
const STREAMS: [(&str, &[u8], &[u8]); 2] = [
    (
        "replay --workers 1",
        b"\x01\x00\x00\x00\x00\x00\x00\x00",
        b"\x05\x00\x00\x00\x00\x00\x00\x00",
    ),
    (
        "selfrun --queries=8 --seed 4294967295 --names=4",
        b"",
        b"names 4\nbatches 5\nqueries 8\nanswers 1\nno-data 4\nname-errors 2\nforwards 1\n",
    ),
];

// How the words end over streams, and what they write.
fn streamed<R: Threads + Wait + Sync, M: Net + time::Clock + Eprint + Files + RandomSource + Sync>(
    rt: &R,
    alloc: Global,
    machine: &M,
    text: &str,
    input: &[u8],
) -> Result<Ended, OutOfMemory> {
    let words = words_of(alloc, text)?;
    let mut written = Vec::new(alloc);
    let mut source = StreamSource::over(input);
    let mut sink = StreamSink::over(&mut written);
    let status = run_here(
        rt,
        alloc,
        &words,
        &mut source,
        &mut sink,
        machine,
        machine,
        machine,
    );
    Ok((status, written))
}

// The first row that ends or writes otherwise, and how.
fn streamed_otherwise<
    R: Threads + Wait + Sync,
    M: Net + time::Clock + Eprint + Files + RandomSource + Sync,
>(
    rt: &R,
    alloc: Global,
    machine: &M,
    rows: &[(&'static str, &[u8], &[u8])],
) -> Result<Option<(&'static str, Ended)>, OutOfMemory> {
    for (text, input, expected) in rows.iter() {
        let found = streamed(rt, alloc, machine, text, input)?;
        if let Some(found) = otherwise(found, Status::Good, expected) {
            return Ok(Some((text, found)));
        }
    }
    Ok(None)
}

#[test]
fn words_run_over_streams(rt: HostRuntime) -> Result<(), Fail> {
    let wrong = streamed_otherwise(&rt, rt.alloc(), &rt, &STREAMS)?;
    assert!(rt; wrong.is_none(), "{wrong:?}");
    Ok(())
}
