ghost use Rattle.std.specs.Prelude.{◌≡◌};

use std::alloc::AllocError;
use thiserror::Error;

/// Why octets aren't what an audit reads: the first of these in order.
#[derive(Clone, Copy, Debug, PartialEq, Eq, Error)]
pub enum SourceFault {
    /// They don't begin with a zone's records, an input and an output.
    #[error("not a zone and a run")]
    Form,
    /// The first record that isn't the zone's has an owner name that isn't at or below the apex.
    #[error("a record outside of the zone")]
    Outside,
    /// The first record that isn't the zone's is an RRSIG, an NSEC or an NSEC3.
    #[error("a signature or a denial among the records")]
    Forbidden,
    /// Something follows the output.
    #[error("octets after the output")]
    Trailing,
    #[error("out of memory")]
    OutOfMemory,
}

impl From<AllocError> for SourceFault {
    ghost use Rattle.audit_source.specs.declared.source_fault.SourceFault.TheVariants.{OutOfMemory};

    ghost from_gives = { λ _ e. e ≡ OutOfMemory };

    fn from(_: AllocError) -> SourceFault {
        SourceFault::OutOfMemory
    }
}
