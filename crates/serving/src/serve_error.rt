use std::alloc::AllocError;

/// Why a forwarder ended early.
#[derive(Clone, Copy, Debug, PartialEq, Eq)]
pub enum ServeError {
    /// A link couldn't be bound, or failed to receive or to send. The harbor has counted it.
    Harbor,
    OutOfMemory,
}

impl From<AllocError> for ServeError {
    ghost use Rattle.std.specs.Prelude.{◌≡◌};
    ghost use Rattle.serving.specs.declared.serve_error.ServeError.TheVariants.{OutOfMemory};

    ghost from_gives = { λ _ e. e ≡ OutOfMemory };

    fn from(_: AllocError) -> ServeError {
        ServeError::OutOfMemory
    }
}
