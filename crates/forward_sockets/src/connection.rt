//! One client's connection.
ghost use Rattle.std.specs.Prelude.{◌≤◌, length};
ghost use Rattle.arrivals.specs.declared.event.TheConstants.{MAX_MESSAGE};

use crate::Faults;
use crate::heard::{Heard, put};
use crate::pace::Pace;
use crate::queries::{NOBODY, has_reply};
use crate::streaming::{look_now, read_now, write_now};
use arrivals::MessageOctets;
use mio::net::TcpStream;
use mio::{Poll, Token};
use std::io;
use std::io::ErrorKind;
use stream_clients::{ClientNumber, Next, ReplyFault, StreamClients};

/// The numbers of clients with streams begin here.
pub(crate) const STREAM: u64 = 1 << 63;

/// The number of a client with a stream. It is no other client's.
pub(crate) fn number_of(client: ClientNumber) -> u64 {
    STREAM + client.as_u64()
}

/// A client's connection, of which `StreamClients` keeps the octets.
#[derive(Drop)]
pub(crate) struct Connection {
    client: ClientNumber,
    stream: TcpStream,
    pace: Pace,
    // The client sends no more.
    has_ended: bool,
    // How many messages have no reply yet.
    unanswered: usize,
}

impl Connection {
    pub(crate) fn new(client: ClientNumber, stream: TcpStream) -> Connection {
        Connection {
            client,
            stream,
            pace: Pace::NEW,
            has_ended: false,
            unanswered: 0,
        }
    }

    pub(crate) fn client(&self) -> ClientNumber {
        self.client
    }

    /// Whether the client has ended it and has all its replies.
    pub(crate) fn is_over(&self, clients: &StreamClients) -> bool {
        self.has_ended && self.unanswered == 0 && clients.to_write(self.client).is_empty()
    }

    /// Writes what waits, as far as the stream takes it.
    pub(crate) fn write(&mut self, clients: &mut StreamClients, now: u64, faults: &mut Faults) {
        let waiting = clients.to_write(self.client);
        if waiting.is_empty() {
            return;
        }
        match faults
            .stream_write
            .note(write_now(&mut self.stream, waiting))
        {
            Some(count) => clients.written(self.client, count, now),
            None => clients.close(self.client),
        }
    }

    /// Takes the message that stands next: its client's number. The connection is closed where a length stands there that no message
    /// has, or as many messages have no reply as may be.
    pub(crate) fn take_message(
        &mut self,
        clients: &mut StreamClients,
        into: &mut MessageOctets,
        now: u64,
        faults: &mut Faults,
    ) -> Option<u64> {
        match clients.next(self.client) {
            Next::Message => {}
            Next::Nothing => return None,
            Next::TooMany | Next::TooSmall => {
                faults.stream_read.add_own();
                return None;
            }
        }
        put(into, clients.message(self.client));
        clients.pass(self.client);
        self.pace.begin();
        if has_reply(into) {
            self.unanswered = self.unanswered.saturating_add(1);
            Some(number_of(self.client))
        } else {
            clients.no_reply(self.client, now);
            Some(NOBODY)
        }
    }

    /// Reads what has come, as much as the buffer holds and may be kept.
    pub(crate) fn read(
        &mut self,
        clients: &mut StreamClients,
        buffer: &mut [u8],
        faults: &mut Faults,
    ) -> Heard {
        match faults.stream_read.note(self.try_read(clients, buffer)) {
            Some(heard) => heard,
            None => {
                clients.close(self.client);
                Heard::End
            }
        }
    }

    // What isn't taken stays at the socket.
    fn try_read(&mut self, clients: &mut StreamClients, buffer: &mut [u8]) -> io::Result<Heard> {
        let Some(count) = look_now(&self.stream, buffer)? else {
            return Ok(Heard::Nothing);
        };
        if count == 0 {
            self.has_ended = true;
            return Ok(Heard::End);
        }
        let Ok(taken) = clients.take(self.client, &buffer[..count]) else {
            return Err(io::Error::from(ErrorKind::OutOfMemory));
        };
        self.pace.add(taken);
        match read_now(&mut self.stream, &mut buffer[..taken])? {
            Some(read) if read == taken => Ok(Heard::Other),
            _ => Err(io::Error::from(ErrorKind::UnexpectedEof)),
        }
    }

    /// Nothing has come: whether the poll tells by the token of what will.
    pub(crate) fn settle(&mut self, poll: &Poll, token: Token, faults: &mut Faults) {
        self.pace
            .settle(poll, token, &mut self.stream, &mut faults.watch);
    }

    /// Whether it is read at ticks alone.
    pub(crate) fn rests(&self) -> bool {
        self.pace.rests()
    }

    /// Puts a reply behind those that wait, and writes what the stream takes.
    pub(crate) fn reply(
        &mut self,
        clients: &mut StreamClients,
        octets: &[u8],
        now: u64,
        faults: &mut Faults,
    )
        requires { length octets.now ≤ MAX_MESSAGE }
    {
        self.unanswered = self.unanswered.saturating_sub(1);
        match clients.reply(self.client, octets, now) {
            Ok(()) => self.write(clients, now, faults),
            // The connection is closed.
            Err(ReplyFault::Full) => {}
            Err(ReplyFault::OutOfMemory) => {
                faults
                    .stream_write
                    .add(io::Error::from(ErrorKind::OutOfMemory));
            }
        }
    }
}
