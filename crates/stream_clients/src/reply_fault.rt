ghost use Rattle.std.specs.Prelude.{◌≡◌};

use std::alloc::AllocError;

/// Why a reply wasn't put behind the others, and the connection closed.
#[derive(Clone, Copy, Debug, PartialEq, Eq)]
pub enum ReplyFault {
    /// More would wait to be written than may.
    Full,
    OutOfMemory,
}

impl From<AllocError> for ReplyFault {
    ghost use Rattle.stream_clients.specs.declared.reply_fault.ReplyFault.TheVariants.{OutOfMemory};

    ghost from_gives = { λ _ e. e ≡ OutOfMemory };

    fn from(_: AllocError) -> ReplyFault {
        ReplyFault::OutOfMemory
    }
}
