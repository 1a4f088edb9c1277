ghost use Rattle.std.specs.Prelude.{◌≡◌};

use crate::nsec3_evidence::Nsec3Evidence;
use cache_meaning::{HeldZone, Place};
use denial_records::HASH_OCTETS;
use dname::Name;
use nsec3_hash::hash_name;

/// An NSEC3 chain of a zone at a moment, in seconds.
#[derive(Drop)]
pub(crate) struct HashedChain<'z, Z> {
    pub(crate) zone: &'z Z,
    pub(crate) salt: &'z [u8],
    pub(crate) iterations: u16,
    pub(crate) moment: u32,
}

impl<'z, 'a, Z: HeldZone<'a>> HashedChain<'z, Z> {
    ghost use Rattle.nsec3_hash.specs.IteratedHash.{hash_of};
    ghost use Rattle.synth_nsec3.specs.ChainAt.{chain_at};
    ghost use Rattle.synth_nsec3.specs.Nsec3Evidence.{IsFound};

    pub(crate) fn apex(&self) -> &'z Name
        ensures { result.now ≡ (chain_at Z.zone self.now).apex }
    {
        self.zone.apex()
    }

    /// What the record that speaks of the name says, if it may be used. It hashes the name, once, or not where the chain keeps its
    /// hash.
    pub(crate) fn evidence(&self, name: &Name) -> Option<Nsec3Evidence<'a>>
        ensures { IsFound (chain_at Z.zone self.now) name.now result }
    {
        let hash = self.hash_of(name);
        let (nsec3, place) = self.zone.nsec3_at(self.salt, self.iterations, &hash)?;
        if u64::from(self.moment) >= nsec3.expiry() {
            return None;
        }
        match place {
            Place::Start => Some(Nsec3Evidence::Matches(nsec3)),
            Place::Inside if nsec3.opt_out() => Some(Nsec3Evidence::Spans(nsec3)),
            Place::Inside => Some(Nsec3Evidence::Covers(nsec3)),
        }
    }

    // The hash of the name: the one that the chain keeps, or a new one.
    fn hash_of(&self, name: &Name) -> [u8; HASH_OCTETS]
        ensures { result ≡ hash_of name.now self.now.salt.now self.now.iterations }
    {
        match self.zone.kept_hash(name, self.salt, self.iterations) {
            Some(hash) => *hash,
            None => hash_name(name, self.salt, self.iterations),
        }
    }
}
