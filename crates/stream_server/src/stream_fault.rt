ghost use Rattle.std.specs.Prelude.{◌≡◌};

use outside_core::Failed;
use stream_front::ReadFault;

/// Why a stream was not served to its end.
#[derive(Clone, Copy, Debug, PartialEq, Eq)]
pub enum StreamFault {
    /// The source failed.
    Source,
    /// The sink failed.
    Sink,
    /// A length stands in the stream that no message has.
    TooSmall { length: u16 },
    /// More octets were read than a stream may have.
    TooLong,
    OutOfMemory,
}

impl From<ReadFault> for StreamFault {
    ghost use Rattle.stream_server.specs.Stream.{stream_fault_of};

    ghost from_gives = { λ read e. e ≡ stream_fault_of read };

    fn from(read: ReadFault) -> StreamFault {
        match read {
            ReadFault::Source => StreamFault::Source,
            ReadFault::OutOfMemory => StreamFault::OutOfMemory,
        }
    }
}
