ghost use Rattle.std.specs.Prelude.{◌≡◌};

use outside_core::Failed;
use std::alloc::AllocError;

/// Why a worker stopped.
#[derive(Clone, Copy, Debug, PartialEq, Eq)]
pub enum ServeFault {
    /// The link failed to receive or to send.
    Link,
    OutOfMemory,
}

impl From<Failed> for ServeFault {
    ghost use Rattle.serving.specs.declared.serve_fault.ServeFault.TheVariants.{Link};

    ghost from_gives = { λ _ e. e ≡ Link };

    fn from(_: Failed) -> ServeFault {
        ServeFault::Link
    }
}

impl From<AllocError> for ServeFault {
    ghost use Rattle.serving.specs.declared.serve_fault.ServeFault.TheVariants.{OutOfMemory};

    ghost from_gives = { λ _ e. e ≡ OutOfMemory };

    fn from(_: AllocError) -> ServeFault {
        ServeFault::OutOfMemory
    }
}
