//! Clients with streams, and an upstream that is asked by streams.
ghost use Rattle.std.specs.Prelude.{◌<◌, ◌^◌, length};

use crate::scene::{next, next_client, no_event, query, sends};
use arrivals::{Came, Carrier};
use forward_sockets::Sockets;
use std::alloc::{AllocError, Global};
use std::io;
use std::io::{ErrorKind, Read, Write};
use std::net::{Net, OpenListener, OpenStream, SocketAddr, UdpSocket};
use std::time::{Clock, Duration};

// A stream to the address, whose reads wait for five seconds at most.
pub(crate) fn connected<N: Net>(net: &N, address: SocketAddr) -> io::Result<N::Stream> {
    let stream = net.connect(address)?;
    stream.set_read_timeout(Some(Duration::from_secs(5)))?;
    stream.set_nodelay(true)?;
    Ok(stream)
}

// The next connection at a listener, likewise.
pub(crate) fn accepted<L: OpenListener>(listener: &L) -> io::Result<L::Stream>
where
    L::Stream: OpenStream,
{
    let (stream, _) = listener.accept()?;
    stream.set_read_timeout(Some(Duration::from_secs(5)))?;
    stream.set_nodelay(true)?;
    Ok(stream)
}

// A message behind its length (RFC 1035, section 4.2.2).
pub(crate) fn framed(alloc: Global, message: &[u8]) -> Result<Vec<u8>, AllocError>
    requires { length message.now < 2 ^ 16 }
{
    let size = message.len() as u16;
    let mut octets = Vec::new(alloc);
    octets.extend_from_slice(&size.to_be_bytes())?;
    octets.extend_from_slice(message)?;
    Ok(octets)
}

pub(crate) fn writes<S: Write>(stream: &mut S, octets: &[u8]) -> bool {
    stream.write_all(octets).is_ok()
}

// Whether the stream goes on with these octets.
pub(crate) fn reads<S: Read>(stream: &mut S, octets: &[u8]) -> bool {
    let mut room = [0; 512];
    match room.get_mut(..octets.len()) {
        Some(room) => stream.read_exact(room).is_ok() && *room == *octets,
        None => false,
    }
}

// Whether the other end has closed the stream.
pub(crate) fn is_closed<S: Read>(stream: &mut S) -> bool {
    match stream.read(&mut [0; 16]) {
        Ok(count) => count == 0,
        Err(cause) => cause.kind() == ErrorKind::ConnectionReset,
    }
}

// The number of the client whose query with these octets comes next by a stream.
pub(crate) fn next_asker<C: Clock>(sockets: &mut Sockets, clock: &C, octets: &[u8]) -> Option<u64> {
    let mut into = no_event();
    match next(sockets, clock, &mut into) {
        Some(
            Came::Query {
                client,
                carrier: Carrier::Stream,
            },
        ) if into.octets.as_slice() == octets => Some(client),
        _ => None,
    }
}

// The slot whose answer with these octets comes next by a stream.
pub(crate) fn next_answered<C: Clock>(
    sockets: &mut Sockets,
    clock: &C,
    octets: &[u8],
) -> Option<u8> {
    let mut into = no_event();
    match next(sockets, clock, &mut into) {
        Some(
            Came::Answer {
                slot,
                carrier: Carrier::Stream,
            },
        ) if into.octets.as_slice() == octets => Some(slot),
        _ => None,
    }
}

// Lets so many ticks come, and tells whether nothing else does.
pub(crate) fn is_quiet<C: Clock>(sockets: &mut Sockets, clock: &C, ticks: u32) -> bool {
    let mut into = no_event();
    for _ in 0..ticks {
        sockets.receive(clock, &mut into);
        if into.came != Came::Tick {
            return false;
        }
    }
    true
}

// Writes the octets one by one, with a tick behind each, while the clock stands still.
pub(crate) fn trickles<S: Write>(stream: &mut S, octets: &[u8], sockets: &mut Sockets) -> bool {
    for octet in octets {
        if !writes(stream, &[*octet]) || !is_quiet(sockets, &Stopped, 1) {
            return false;
        }
    }
    true
}

// Lets each stream that has a turn take it: a query by a datagram comes behind them.
pub(crate) fn all_take_turns(
    client: &UdpSocket,
    address: SocketAddr,
    sockets: &mut Sockets,
) -> bool {
    sends(client, address, &query(1)) && next_client(sockets, &Stopped, &query(1)).is_some()
}

// A clock that is ahead of another.
#[derive(Drop)]
pub(crate) struct Later<'a, C> {
    clock: &'a C,
    by: Duration,
}

pub(crate) fn ahead<C: Clock>(clock: &C, millis: u64) -> Later<'_, C> {
    Later {
        clock,
        by: Duration::from_millis(millis),
    }
}

impl<'a, C: Clock> Clock for Later<'a, C> {
    fn monotonic(&self) -> io::Result<Duration> {
        Ok(self.clock.monotonic()?.saturating_add(self.by))
    }

    fn since_1970(&self) -> io::Result<Duration> {
        self.clock.since_1970()
    }
}

// A clock that stands still: a tick is due only where nothing comes.
#[derive(Drop)]
pub(crate) struct Stopped;

impl Clock for Stopped {
    fn monotonic(&self) -> io::Result<Duration> {
        Ok(Duration::ZERO)
    }

    fn since_1970(&self) -> io::Result<Duration> {
        Ok(Duration::ZERO)
    }
}
