use std::alloc::AllocError;

/// Why a table of a zone doesn't take a record.
#[derive(Clone, Copy, Debug, PartialEq, Eq)]
pub enum AddFault {
    /// The owner name isn't at or below the apex.
    Outside,
    /// The type is RRSIG, NSEC or NSEC3, of which a zone's own records are none.
    Forbidden,
    /// There is no memory left.
    OutOfMemory,
}

impl From<AllocError> for AddFault {
    ghost use Rattle.std.specs.Prelude.{◌≡◌};
    ghost use Rattle.zone_meaning.specs.declared.add_fault.AddFault.TheVariants.{OutOfMemory};

    ghost from_gives = { λ _ e. e ≡ OutOfMemory };

    fn from(_: AllocError) -> AddFault {
        AddFault::OutOfMemory
    }
}
