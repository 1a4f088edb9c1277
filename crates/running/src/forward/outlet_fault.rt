ghost use Rattle.std.specs.Prelude.{◌≡◌};
ghost use Rattle.running.specs.Forward.{is_want};

use arrivals::Carrier;
use std::net::SocketAddr;
use std::{fmt, io};

/// Why the outlets of a forwarder can't be opened. It shows itself with its cause.
#[derive(Debug, Drop)]
pub enum OutletFault {
    /// The system gives no random octets for the IDs of questions.
    Ids(io::Error),
    /// It has no means to wait for many sockets at once.
    Poll(io::Error),
    /// No socket can be had at an address, for datagrams or for streams.
    Address {
        address: SocketAddr,
        carrier: Carrier,
        cause: io::Error,
    },
    OutOfMemory,
}

impl OutletFault {
    /// Whether it is no refusal of the system, but want of memory.
    pub fn is_want(&self) -> bool
        ensures { result ≡ is_want self.now }
    {
        match self {
            OutletFault::Ids(_) => false,
            OutletFault::Poll(_) => false,
            OutletFault::Address {
                address: _,
                carrier: _,
                cause: _,
            } => false,
            OutletFault::OutOfMemory => true,
        }
    }
}

impl fmt::Display for OutletFault {
    fn fmt<W: fmt::Write>(&self, f: &mut fmt::Formatter<W>) -> fmt::Result {
        match self {
            OutletFault::Ids(cause) => write!(f, "no random octets: {cause}"),
            OutletFault::Poll(cause) => write!(f, "no way to wait for sockets: {cause}"),
            OutletFault::Address {
                address,
                carrier: Carrier::Datagram,
                cause,
            } => write!(f, "no UDP socket at {address}: {cause}"),
            OutletFault::Address {
                address,
                carrier: Carrier::Stream,
                cause,
            } => write!(f, "no TCP socket at {address}: {cause}"),
            OutletFault::OutOfMemory => f.write_str("out of memory"),
        }
    }
}
