//! The sockets over which the upstream is asked.
ghost use Rattle.std.specs.Prelude.{◌≤◌, length};
ghost use Rattle.arrivals.specs.declared.event.TheConstants.{MAX_MESSAGE};

use crate::Faults;
use crate::asked_stream::AskedStream;
use crate::heard::{Heard, put};
use crate::opening::{bind_like, open_like};
use crate::ready::Ready;
use crate::sending::sent;
use arrivals::{Came, Carrier, MessageOctets};
use mio::net::UdpSocket;
use mio::{Interest, Poll, Token};
use outside_core::{MAX_DATAGRAM, OutOfMemory};
use std::alloc::Global;
use std::net::SocketAddr;

// For so many milliseconds a slot's socket is open at most. No question waits so long for its answer.
const PATIENCE: u64 = 5_000;

#[derive(Drop)]
enum AskedSocket {
    Datagram(UdpSocket),
    Stream(AskedStream),
}

/// Over what a slot's question was asked last, and when, in milliseconds.
#[derive(Drop)]
struct Asking {
    socket: AskedSocket,
    since: u64,
}

/// One socket at most for each of 256 slots, over which its question was asked last.
#[derive(Drop)]
pub(crate) struct Askings {
    alloc: Global,
    upstream: SocketAddr,
    slots: Vec<Option<Asking>>,
    pub(crate) ready: Ready,
}

impl Askings {
    pub(crate) fn new(alloc: Global, upstream: SocketAddr) -> Result<Askings, OutOfMemory> {
        let mut slots = Vec::with_capacity(alloc, 256)?;
        for _ in 0..256 {
            slots.push(None)?;
        }
        Ok(Askings {
            alloc,
            upstream,
            slots,
            ready: Ready::none(),
        })
    }

    /// The next answer, if the slot whose turn it is has one. Its octets are put into `into`. A slot that may have more has a further turn.
    pub(crate) fn receive(
        &mut self,
        poll: &Poll,
        buffer: &mut [u8; MAX_DATAGRAM],
        into: &mut MessageOctets,
        faults: &mut Faults,
    ) -> Option<Came> {
        let slot = self.ready.take()?;
        let Some(Some(asking)) = self.slots.get_mut(usize::from(slot)) else {
            return None;
        };
        let (heard, carrier) = match &mut asking.socket {
            AskedSocket::Datagram(socket) => {
                (hear(socket, buffer, into, faults), Carrier::Datagram)
            }
            AskedSocket::Stream(stream) => {
                let heard = stream.hear(buffer, into, faults);
                if heard == Heard::Nothing {
                    stream.settle(poll, token_of(slot), faults);
                }
                (heard, Carrier::Stream)
            }
        };
        match heard {
            Heard::Message => {
                self.ready.add(slot);
                return Some(Came::Answer { slot, carrier });
            }
            Heard::Other => self.ready.add(slot),
            Heard::Nothing => {}
            Heard::End => self.close(slot),
        }
        None
    }

    /// Closes the slot's socket, and asks over a new one, of which the poll tells by the slot's token. Where that fails the slot has
    /// none.
    pub(crate) fn ask(
        &mut self,
        poll: &Poll,
        slot: u8,
        carrier: Carrier,
        octets: &[u8],
        now: u64,
        faults: &mut Faults,
    )
        requires { length octets.now ≤ MAX_MESSAGE }
    {
        self.close(slot);
        let asked = match carrier {
            Carrier::Datagram => ask_by_datagram(poll, self.upstream, slot, octets, faults),
            Carrier::Stream => self.ask_by_stream(poll, slot, octets, faults),
        };
        let Some(socket) = asked else {
            return;
        };
        if let Some(place) = self.slots.get_mut(usize::from(slot)) {
            *place = Some(Asking { socket, since: now });
        }
    }

    // The new stream over which the upstream will be asked.
    fn ask_by_stream(
        &self,
        poll: &Poll,
        slot: u8,
        octets: &[u8],
        faults: &mut Faults,
    ) -> Option<AskedSocket>
        requires { length octets.now ≤ MAX_MESSAGE }
    {
        let begun = AskedStream::begin(self.alloc, self.upstream, octets);
        let mut stream = faults.stream_connect.note(begun)?;
        faults.watch.note(stream.watch(poll, token_of(slot)))?;
        Some(AskedSocket::Stream(stream))
    }

    // Closes the slot's socket, if it has one. What comes to its port is then refused.
    fn close(&mut self, slot: u8) {
        if let Some(place) = self.slots.get_mut(usize::from(slot)) {
            *place = None;
        }
    }

    /// Closes the sockets that have been open for so long that nobody waits for their answers, and gives streams that rest their turns.
    pub(crate) fn tick(&mut self, now: u64) {
        for slot in 0..=255 {
            let Some(place) = self.slots.get_mut(usize::from(slot)) else {
                break;
            };
            if is_over(place, now) {
                *place = None;
            } else if rests(place) {
                self.ready.add(slot);
            }
        }
    }
}

fn token_of(slot: u8) -> Token {
    Token(usize::from(slot))
}

fn is_over(place: &Option<Asking>, now: u64) -> bool {
    match place {
        Some(asking) => now.saturating_sub(asking.since) >= PATIENCE,
        None => false,
    }
}

fn rests(place: &Option<Asking>) -> bool {
    match place {
        Some(asking) => match &asking.socket {
            AskedSocket::Datagram(_) => false,
            AskedSocket::Stream(stream) => stream.rests(),
        },
        None => false,
    }
}

// The new socket over which the upstream was asked.
fn ask_by_datagram(
    poll: &Poll,
    upstream: SocketAddr,
    slot: u8,
    octets: &[u8],
    faults: &mut Faults,
) -> Option<AskedSocket> {
    let mut socket = faults.socket.note(open_like(upstream))?;
    faults.bind.note(bind_like(&socket, upstream))?;
    faults.connect.note(socket.connect(upstream))?;
    let watched = poll
        .registry()
        .register(&mut socket, token_of(slot), Interest::READABLE);
    faults.watch.note(watched)?;
    faults.send.note(sent(|| socket.send(octets)))?;
    Some(AskedSocket::Datagram(socket))
}

// The next datagram.
fn hear(
    socket: &UdpSocket,
    buffer: &mut [u8; MAX_DATAGRAM],
    into: &mut MessageOctets,
    faults: &mut Faults,
) -> Heard {
    match socket.recv(buffer) {
        Ok(count) => {
            put(into, &buffer[..count]);
            Heard::Message
        }
        Err(cause) => {
            if faults.answer.note_receipt(cause) {
                Heard::Other
            } else {
                Heard::Nothing
            }
        }
    }
}
