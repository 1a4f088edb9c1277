ghost use Rattle.synth_nsec3.specs.ChainAt.{chain_at};
ghost use Rattle.synth_nsec3.specs.Nsec3Evidence.{IsFound, IsAskedOf};

use crate::hashed_chain::HashedChain;
use cache_meaning::HeldZone;
use denial_records::KeptNsec3;
use dname::Name;

/// What an NSEC3 record says of a name whose hash is in its arc (RFC 5155, section 8).
#[derive(Clone, Copy)]
pub(crate) enum Nsec3Evidence<'a> {
    /// It is the name's own.
    Matches(&'a KeptNsec3),
    /// The name doesn't exist.
    Covers(&'a KeptNsec3),
    /// An Opt-Out span, which says nothing of the name (RFC 5155, section 6).
    Spans(&'a KeptNsec3),
}

/// Whether a name was asked of, so that none is hashed twice.
#[derive(Clone, Copy)]
pub(crate) enum Asked<'a> {
    /// It was, and this was found.
    Before(Option<Nsec3Evidence<'a>>),
    NotYet,
}

impl<'a> Asked<'a> {
    /// What the chain says of the name that was or wasn't asked of.
    pub(crate) fn evidence<Z: HeldZone<'a>>(
        self,
        chain: &HashedChain<'_, Z>,
        name: &Name,
    ) -> Option<Nsec3Evidence<'a>>
        requires { IsAskedOf (chain_at Z.zone chain.now) name.now self }
        ensures { IsFound (chain_at Z.zone chain.now) name.now result }
    {
        match self {
            Asked::Before(found) => found,
            Asked::NotYet => chain.evidence(name),
        }
    }
}
