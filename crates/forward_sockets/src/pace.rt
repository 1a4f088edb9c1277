//! How often a stream is read.
use crate::faults::Fault;
use mio::net::TcpStream;
use mio::{Interest, Poll, Token};

// A smaller piece is no full segment of the smallest path (RFC 9293, section 3.7.1: 536 octets over IPv4).
const SMALL: usize = 536;

// So many small pieces of a message are read as they come.
const PIECES: u32 = 16;

/// How many small pieces of the message under way have come over a stream. One that comes in more than 16 is slow: its stream rests, which
/// means that the system doesn't tell of what it has, and it is read at each tick alone. So a message costs little more octet by octet than
/// whole.
#[derive(Clone, Copy)]
pub(crate) struct Pace {
    pieces: u32,
    rests: bool,
}

impl Pace {
    pub(crate) const NEW: Pace = Pace {
        pieces: 0,
        rests: false,
    };

    pub(crate) fn rests(self) -> bool {
        self.rests
    }

    /// So many octets more of the message have come.
    pub(crate) fn add(&mut self, octets: usize) {
        if octets < SMALL {
            self.pieces = self.pieces.saturating_add(1);
        }
    }

    /// The message is whole, and the next one begins.
    pub(crate) fn begin(&mut self) {
        self.pieces = 0;
    }

    /// The stream has nothing at present. Has the poll tell of what comes, unless the message is slow.
    pub(crate) fn settle(
        &mut self,
        poll: &Poll,
        token: Token,
        stream: &mut TcpStream,
        watch: &mut Fault,
    ) {
        let rests = self.pieces > PIECES;
        if rests == self.rests {
            return;
        }
        let interest = if rests {
            Interest::WRITABLE
        } else {
            Interest::READABLE | Interest::WRITABLE
        };
        let watched = poll.registry().reregister(stream, token, interest);
        if watch.note(watched).is_some() {
            self.rests = rests;
        }
    }
}
