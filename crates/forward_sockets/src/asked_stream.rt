//! A stream over which the upstream is asked.
ghost use Rattle.std.specs.Prelude.{◌≡◌, ◌≤◌, length, None, vec_len};
ghost use Rattle.arrivals.specs.declared.event.TheConstants.{MAX_MESSAGE};
ghost use Rattle.stream_front.specs.Split.{too_small_in};

use crate::Faults;
use crate::heard::{Heard, put};
use crate::opening::connect_to;
use crate::pace::Pace;
use crate::streaming::{read_now, write_now};
use arrivals::MessageOctets;
use mio::net::TcpStream;
use mio::{Interest, Poll, Token};
use outside_core::OutOfMemory;
use std::alloc::Global;
use std::io;
use std::io::ErrorKind;
use std::net::SocketAddr;
use stream_front::{Ahead, Front, first};

/// A stream over which the upstream is asked one question. It ends behind the answer.
#[derive(Drop)]
pub(crate) struct AskedStream {
    stream: TcpStream,
    // The question behind its length, of which so many octets were written.
    question: Vec<u8>,
    written: usize,
    // What came of an answer that isn't whole yet.
    front: Front,
    pace: Pace,
    // A message has come with the question's ID.
    has_answered: bool,
    ghost within: { written ≤ vec_len question },
    ghost open: { too_small_in front ≡ None },
}

impl AskedStream {
    /// Begins to connect. The question is written once that is done.
    pub(crate) fn begin(
        alloc: Global,
        upstream: SocketAddr,
        octets: &[u8],
    ) -> io::Result<AskedStream>
        requires { length octets.now ≤ MAX_MESSAGE }
    {
        Ok(AskedStream {
            question: framed(alloc, octets)?,
            stream: connect_to(upstream)?,
            written: 0,
            front: Front::fresh(alloc),
            pace: Pace::NEW,
            has_answered: false,
        })
    }

    /// Has the poll tell of the stream by this token.
    pub(crate) fn watch(&mut self, poll: &Poll, token: Token) -> io::Result<()> {
        let interest = Interest::READABLE | Interest::WRITABLE;
        poll.registry().register(&mut self.stream, token, interest)
    }

    /// Writes what is left of the question, and reads. A message is put into `into`.
    pub(crate) fn hear(
        &mut self,
        buffer: &mut [u8],
        into: &mut MessageOctets,
        faults: &mut Faults,
    ) -> Heard {
        if self.has_answered || faults.stream_connect.note(self.connected()).is_none() {
            return Heard::End;
        }
        match faults.stream_write.note(self.write()) {
            Some(true) => {}
            Some(false) => return Heard::Nothing,
            None => return Heard::End,
        }
        match faults.stream_read.note(self.read(buffer, into)) {
            Some(heard) => heard,
            None => Heard::End,
        }
    }

    /// Nothing has come: whether the poll tells by the token of what will.
    pub(crate) fn settle(&mut self, poll: &Poll, token: Token, faults: &mut Faults) {
        self.pace
            .settle(poll, token, &mut self.stream, &mut faults.watch);
    }

    /// Whether it is read at ticks alone.
    pub(crate) fn rests(&self) -> bool {
        self.pace.rests()
    }

    // Why it couldn't be connected, where that is known.
    fn connected(&self) -> io::Result<()> {
        if self.written != 0 {
            return Ok(());
        }
        match self.stream.take_error()? {
            Some(cause) => Err(cause),
            None => Ok(()),
        }
    }

    // Writes as much as the stream takes now. Whether all was written.
    fn write(&mut self) -> io::Result<bool> {
        let rest = &self.question[self.written..];
        if rest.is_empty() {
            return Ok(true);
        }
        self.written += write_now(&mut self.stream, rest)?;
        Ok(self.written == self.question.len())
    }

    fn read(&mut self, buffer: &mut [u8], into: &mut MessageOctets) -> io::Result<Heard> {
        if self.take_message(into)? {
            return Ok(Heard::Message);
        }
        let Some(count) = read_now(&mut self.stream, buffer)? else {
            return Ok(Heard::Nothing);
        };
        if count == 0 {
            // The upstream ends the stream without an answer.
            return Err(io::Error::from(ErrorKind::UnexpectedEof));
        }
        self.front.add(&buffer[..count])?;
        self.pace.add(count);
        if self.take_message(into)? {
            Ok(Heard::Message)
        } else {
            Ok(Heard::Other)
        }
    }

    // Takes the message that stands first, if it is whole.
    fn take_message(&mut self, into: &mut MessageOctets) -> io::Result<bool> {
        let count = match first(self.front.rest()) {
            Ahead::Message { message, after } => {
                put(into, message);
                after.len()
            }
            Ahead::Part => return Ok(false),
            Ahead::TooSmall { length: _ } => return Err(io::Error::from(ErrorKind::InvalidData)),
        };
        self.front.keep(count);
        self.pace.begin();
        // The question stands behind its length, and an ID stands first (RFC 1035, section 4.1.1).
        self.has_answered = into.as_slice().get(..2) == self.question.get(2..4);
        Ok(true)
    }
}

// A message behind its length.
fn framed(alloc: Global, message: &[u8]) -> Result<Vec<u8>, OutOfMemory>
    requires { length message.now ≤ MAX_MESSAGE }
{
    let size = message.len() as u16;
    let mut octets = Vec::with_capacity(alloc, 2 + message.len())?;
    octets.extend_from_slice(&size.to_be_bytes())?;
    octets.extend_from_slice(message)?;
    Ok(octets)
}
