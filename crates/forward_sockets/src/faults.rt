//! Calls of the system that failed.
use std::io;
use std::io::ErrorKind;

/// How often a call failed, up to 2^64 - 1, and why it did so last: the system's number for the error, where it gave one.
#[derive(Clone, Copy, Debug, PartialEq, Eq)]
pub struct Fault {
    pub count: u64,
    pub last: Option<i32>,
}

impl Fault {
    pub(crate) const NONE: Fault = Fault {
        count: 0,
        last: None,
    };

    /// What a call gave. Where it failed, that is counted.
    pub(crate) fn note<T>(&mut self, outcome: io::Result<T>) -> Option<T> {
        match outcome {
            Ok(given) => Some(given),
            Err(cause) => {
                self.add(cause);
                None
            }
        }
    }

    /// Whether a socket may still have something after a receipt that didn't wait gave this. It is no fault that nothing has come,
    /// or that a signal came.
    pub(crate) fn note_receipt(&mut self, cause: io::Error) -> bool {
        match cause.kind() {
            ErrorKind::WouldBlock => false,
            ErrorKind::Interrupted => true,
            _ => {
                self.add(cause);
                true
            }
        }
    }

    pub(crate) fn add(&mut self, cause: io::Error) {
        self.add_coded(cause.raw_os_error());
    }

    /// Counts what failed before any call of the system.
    pub(crate) fn add_own(&mut self) {
        self.add_coded(None);
    }

    fn add_coded(&mut self, code: Option<i32>) {
        self.count = self.count.saturating_add(1);
        self.last = code;
    }
}

/// The calls of a worker's sockets that failed. Each cost its datagram or its stream, and ended nothing else.
#[derive(Clone, Copy, Debug, PartialEq, Eq)]
pub struct Faults {
    /// To wait until a socket has something.
    pub wait: Fault,
    /// To receive from a client.
    pub query: Fault,
    /// To receive from the upstream. Here the system tells that nobody listens at the upstream's address.
    pub answer: Fault,
    /// To send to a client. Its port may be 0, its network out of reach, or the reply too long. Here too a reply is counted that no
    /// client waits for.
    pub reply: Fault,
    /// To make a socket for an asking.
    pub socket: Fault,
    /// To bind it to a free port.
    pub bind: Fault,
    /// To connect it to the upstream.
    pub connect: Fault,
    /// To have it watched.
    pub watch: Fault,
    /// To send the question.
    pub send: Fault,
    /// To accept a client's connection. Here too one is counted that was closed at once, as 32 others were open.
    pub accept: Fault,
    /// To connect a stream to the upstream.
    pub stream_connect: Fault,
    /// To read a stream, a client's or one to the upstream. Here too a stream is counted that the upstream ends without an answer, one in
    /// which a length comes that no message has, or a query more than may wait, and one for whose octets there is no memory.
    pub stream_read: Fault,
    /// To write a stream, a client's or one to the upstream. Here too one is counted for whose octets there is no memory.
    pub stream_write: Fault,
}

impl Faults {
    pub(crate) const NONE: Faults = Faults {
        wait: Fault::NONE,
        query: Fault::NONE,
        answer: Fault::NONE,
        reply: Fault::NONE,
        socket: Fault::NONE,
        bind: Fault::NONE,
        connect: Fault::NONE,
        watch: Fault::NONE,
        send: Fault::NONE,
        accept: Fault::NONE,
        stream_connect: Fault::NONE,
        stream_read: Fault::NONE,
        stream_write: Fault::NONE,
    };
}
