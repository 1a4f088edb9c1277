ghost use Rattle.std.specs.Prelude.{◌≡◌};

use dnswire::WireFault;
use std::alloc::AllocError;
use thiserror::Error;

/// Why nothing is stored of an upstream's octets: the first of these in order.
#[derive(Clone, Copy, Debug, PartialEq, Eq, Error)]
pub enum IntakeFault {
    /// They aren't a message of one question.
    #[error("not a message: {0}")]
    Malformed(WireFault),
    /// The message isn't the response to a standard query.
    #[error("not a response to a query")]
    NotResponse,
    /// The message was cut (TC is set).
    #[error("the response was cut")]
    Truncated,
    /// The extended RCODE is neither 0 nor 3.
    #[error("response code {0}")]
    Rcode(u16),
    /// The answer wasn't validated (AD is clear).
    #[error("the response is not authentic")]
    NotAuthentic,
    /// No group of the records is stored. So many were skipped.
    #[error("nothing to store, {skipped} groups skipped")]
    Nothing { skipped: u32 },
    /// There is no memory for the records.
    #[error("out of memory")]
    OutOfMemory,
}

impl From<AllocError> for IntakeFault {
    ghost use Rattle.intake.specs.declared.intake_fault.IntakeFault.TheVariants.{OutOfMemory};

    ghost from_gives = { λ _ e. e ≡ OutOfMemory };

    fn from(_: AllocError) -> IntakeFault {
        IntakeFault::OutOfMemory
    }
}

impl From<WireFault> for IntakeFault {
    ghost use Rattle.intake.specs.WireFault.{fault_of};

    ghost from_gives = { λ fault e. e ≡ fault_of fault };

    fn from(fault: WireFault) -> IntakeFault {
        match fault {
            WireFault::OutOfMemory => IntakeFault::OutOfMemory,
            fault => IntakeFault::Malformed(fault),
        }
    }
}
