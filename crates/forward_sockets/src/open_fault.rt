ghost use Rattle.std.specs.Prelude.{◌≡◌};

use arrivals::Carrier;
use std::alloc::{AllocError, AllocFailed};
use std::io;
use std::net::SocketAddr;

/// Why a worker's sockets can't be opened.
#[derive(Debug, Drop)]
pub enum OpenFault {
    /// The system has no means to wait for them.
    Poll(io::Error),
    /// One can't be had, bound or watched at this address, for datagrams or for streams.
    Address {
        address: SocketAddr,
        carrier: Carrier,
        cause: io::Error,
    },
    OutOfMemory,
}

impl From<AllocError> for OpenFault {
    ghost use Rattle.forward_sockets.specs.declared.open_fault.OpenFault.TheVariants.{OutOfMemory};

    ghost from_gives = { λ _ e. e ≡ OutOfMemory };

    fn from(_: AllocError) -> OpenFault {
        OpenFault::OutOfMemory
    }
}

impl<T: Drop> From<AllocFailed<T>> for OpenFault {
    ghost use Rattle.forward_sockets.specs.declared.open_fault.OpenFault.TheVariants.{OutOfMemory};

    ghost from_gives = { λ _ e. e ≡ OutOfMemory };

    fn from(_: AllocFailed<T>) -> OpenFault {
        OpenFault::OutOfMemory
    }
}
