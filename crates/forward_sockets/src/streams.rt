//! The connections at which clients ask.
ghost use Rattle.std.specs.Prelude.{◌<◌, ◌≤◌, length, IfErr};
ghost use Rattle.arrivals.specs.declared.event.TheConstants.{MAX_MESSAGE};
ghost use Rattle.forward_sockets.specs.OpenFault.{IsFaultOf};

use crate::connection::{Connection, number_of};
use crate::heard::Heard;
use crate::listeners::MAX_LISTENERS;
use crate::opening::listen_shared;
use crate::ready::Ready;
use crate::{Faults, OpenFault};
use arrivals::{Carrier, MessageOctets};
use mio::net::{TcpListener, TcpStream};
use mio::{Interest, Poll, Token};
use std::alloc::Global;
use std::io;
use std::net::SocketAddr;
use stream_clients::{ClientNumber, PLACES, StreamClients};

/// The token of the first listener. The slots' sockets have those before it, and connections those behind the last listener's.
pub(crate) const FIRST_STREAM: usize = 256;

/// The listeners for streams, and the connections. A turn is a listener's by its number, or a connection's by its place behind these.
#[derive(Drop)]
pub(crate) struct Streams {
    listeners: Vec<TcpListener>,
    connections: Vec<Option<Connection>>,
    clients: StreamClients,
    pub(crate) ready: Ready,
    // The listeners that failed and have their next turns with the next tick.
    later: Ready,
}

impl Streams {
    /// A listener at each address, of which the poll tells by its token.
    pub(crate) fn bind(
        alloc: Global,
        poll: &Poll,
        addresses: &[SocketAddr],
    ) -> Result<Streams, OpenFault>
        requires { length addresses.now ≤ MAX_LISTENERS }
        ensures { IfErr result (IsFaultOf addresses.now) }
    {
        let mut listeners = Vec::with_capacity(alloc, addresses.len())?;
        for number in 0..addresses.len() {
            let address = addresses[number];
            match listen_watched(poll, number, address) {
                Ok(listener) => listeners.push(listener)?,
                Err(cause) => {
                    let carrier = Carrier::Stream;
                    return Err(OpenFault::Address {
                        address,
                        carrier,
                        cause,
                    });
                }
            }
        }
        let mut connections = Vec::with_capacity(alloc, PLACES)?;
        for _ in 0..PLACES {
            connections.push(None)?;
        }
        Ok(Streams {
            listeners,
            connections,
            clients: StreamClients::new(alloc)?,
            ready: Ready::none(),
            later: Ready::none(),
        })
    }

    /// What the listener or the connection whose turn it is has, where that is a query: the number of its client. Its octets are put
    /// into `into`. What may have more has a further turn.
    pub(crate) fn receive(
        &mut self,
        poll: &Poll,
        buffer: &mut [u8],
        into: &mut MessageOctets,
        now: u64,
        faults: &mut Faults,
    ) -> Option<u64> {
        let turn = self.ready.take()?;
        let number = usize::from(turn);
        if number < MAX_LISTENERS {
            self.accept(poll, turn, now, faults);
            return None;
        }
        let place = number - MAX_LISTENERS;
        let query = self.hear(poll, turn, place, buffer, into, now, faults);
        self.let_go(place);
        query
    }

    // What the connection at a place has, where that is a query.
    fn hear(
        &mut self,
        poll: &Poll,
        turn: u8,
        place: usize,
        buffer: &mut [u8],
        into: &mut MessageOctets,
        now: u64,
        faults: &mut Faults,
    ) -> Option<u64> {
        let Some(Some(connection)) = self.connections.get_mut(place) else {
            return None;
        };
        connection.write(&mut self.clients, now, faults);
        let kept = connection.take_message(&mut self.clients, into, now, faults);
        if kept.is_some() {
            self.ready.add(turn);
            return kept;
        }
        match connection.read(&mut self.clients, buffer, faults) {
            Heard::Other => {
                self.ready.add(turn);
                connection.take_message(&mut self.clients, into, now, faults)
            }
            Heard::Nothing => {
                connection.settle(poll, token_at(turn), faults);
                None
            }
            Heard::Message | Heard::End => None,
        }
    }

    // Takes the listener's next connection. Where that fails, as it does while too many files are open, the next tick brings another turn.
    fn accept(&mut self, poll: &Poll, turn: u8, now: u64, faults: &mut Faults) {
        let Some(listener) = self.listeners.get(usize::from(turn)) else {
            return;
        };
        match listener.accept() {
            Ok((stream, _)) => {
                self.ready.add(turn);
                self.open(poll, stream, now, faults);
            }
            Err(cause) => {
                if faults.accept.note_receipt(cause) {
                    self.later.add(turn);
                }
            }
        }
    }

    // A client's new connection, which is closed at once where all places have one.
    fn open(&mut self, poll: &Poll, stream: TcpStream, now: u64, faults: &mut Faults) {
        let Some(client) = self.clients.open(now) else {
            faults.accept.add_own();
            return;
        };
        let mut stream = stream;
        let place = place_of(client);
        let watched = watch(poll, place, &mut stream);
        if faults.watch.note(watched).is_none() {
            self.clients.close(client);
            return;
        }
        if let Some(free) = self.connections.get_mut(place) {
            *free = Some(Connection::new(client, stream));
        }
    }

    // Lets go of the connection at a place where it is closed, or its client has ended it and has all replies.
    fn let_go(&mut self, place: usize) {
        let Some(kept) = self.connections.get_mut(place) else {
            return;
        };
        let Some(connection) = kept else {
            return;
        };
        let client = connection.client();
        if connection.is_over(&self.clients) {
            self.clients.close(client);
        }
        if !self.clients.is_open(client) {
            *kept = None;
        }
    }

    /// Sends the client its reply. A reply to a client whose connection has gone is dropped.
    pub(crate) fn reply(&mut self, client: u64, octets: &[u8], now: u64, faults: &mut Faults)
        requires { length octets.now ≤ MAX_MESSAGE }
    {
        let place = place_in(client);
        match self.connections.get_mut(place) {
            Some(Some(connection)) if number_of(connection.client()) == client => {
                connection.reply(&mut self.clients, octets, now, faults);
                self.let_go(place);
            }
            _ => faults.reply.add_own(),
        }
    }

    /// Closes the connections that have waited too long, and gives those that rest, and listeners that failed, their turns.
    pub(crate) fn tick(&mut self, now: u64) {
        for _ in 0..PLACES {
            let Some(client) = self.clients.next_idle(0, now) else {
                break;
            };
            self.clients.close(client);
            self.let_go(place_of(client));
        }
        for place in 0..PLACES {
            if let Some(Some(connection)) = self.connections.get(place) {
                if connection.rests() {
                    self.ready.add(turn_of(place));
                }
            }
        }
        for _ in 0..MAX_LISTENERS {
            let Some(turn) = self.later.take() else {
                break;
            };
            self.ready.add(turn);
        }
    }
}

fn place_of(client: ClientNumber) -> usize
    ensures { result < 32 }
{
    place_in(client.as_u64())
}

// The place of a connection by its number, with or without the highest bit.
fn place_in(number: u64) -> usize
    ensures { result < 32 }
{
    (number % PLACES as u64) as usize
}

// The turn of a place's connection.
fn turn_of(place: usize) -> u8
    requires { place < 32 }
{
    (MAX_LISTENERS + place) as u8
}

// The token of what has the turn.
fn token_at(turn: u8) -> Token {
    Token(FIRST_STREAM + usize::from(turn))
}

fn listen_watched(poll: &Poll, number: usize, address: SocketAddr) -> io::Result<TcpListener>
    requires { number < MAX_LISTENERS }
{
    let mut listener = listen_shared(address)?;
    let token = token_at(number as u8);
    poll.registry()
        .register(&mut listener, token, Interest::READABLE)?;
    Ok(listener)
}

// A reply waits for no other's receipt to be told.
fn watch(poll: &Poll, place: usize, stream: &mut TcpStream) -> io::Result<()>
    requires { place < 32 }
{
    stream.set_nodelay(true)?;
    let token = token_at(turn_of(place));
    let interest = Interest::READABLE | Interest::WRITABLE;
    poll.registry().register(stream, token, interest)
}
