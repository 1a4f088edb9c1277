//! Hashes that nearly each proof of a chain asks for.
ghost use Rattle.std.specs.Prelude.{◌≡◌, IfSome, IfOk};
ghost use Rattle.nsec3_hash.specs.IteratedHash.{hash_of};
ghost use Rattle.zone_chains.specs.ApexHashes.{Hashed};

use denial_records::{HASH_OCTETS, Record};
use dname::{Name, Octets, OutOfMemory};
use nsec3_hash::hash_name;
use std::alloc::Global;
use std::marker::Model;
use std::sync::Arc;

/// The hashes of a zone's apex and of the wildcard below it, for a salt and a number of iterations; seen as what they were taken
/// of. Each proof that a name one label below the apex doesn't exist asks for both (RFC 5155, section 8.4), so they are taken once,
/// when the chain comes.
#[derive(Drop)]
pub(crate) struct ApexHashes {
    apex: Name,
    wildcard: Name,
    salt: Octets,
    iterations: u16,
    of_apex: [u8; HASH_OCTETS],
    of_wildcard: [u8; HASH_OCTETS],
}

impl Model for ApexHashes {
    ghost use Rattle.std.specs.Prelude.{◌≡◌};
    ghost use Rattle.nsec3_hash.specs.IteratedHash.{hash_of};
    ghost use Rattle.zone_chains.specs.ApexHashes.{Hashed};

    ghost Value = { Hashed };

    ghost view = { λ h. record { apex = h.apex; salt = h.salt; iterations = h.iterations } };

    ghost invariant = { λ h. (h.of_apex ≡ hash_of h.apex h.salt h.iterations)
        × (h.of_wildcard ≡ hash_of h.wildcard h.salt h.iterations) };
}

impl ApexHashes {
    /// None where the wildcard has no room.
    fn of(
        alloc: Global,
        apex: &Name,
        salt: &[u8],
        iterations: u16,
    ) -> Result<Option<ApexHashes>, OutOfMemory>
        ensures { IfOk result (λ made. IfSome made (λ hashes. hashes
            ≡ record { apex = apex.now; salt = salt.now; iterations = iterations })) }
    {
        let Some(wildcard) = apex.star() else {
            return Ok(None);
        };
        let of_apex = hash_name(apex, salt, iterations);
        let of_wildcard = hash_name(&wildcard, salt, iterations);
        Ok(Some(ApexHashes {
            apex: apex.copy(),
            wildcard,
            salt: Octets::of(alloc, salt)?,
            iterations,
            of_apex,
            of_wildcard,
        }))
    }

    /// The hash of a name, where it is kept.
    pub(crate) fn hash(
        &self,
        name: &Name,
        salt: &[u8],
        iterations: u16,
    ) -> Option<&[u8; HASH_OCTETS]>
        ensures { IfSome result (λ hash. hash.now ≡ hash_of name.now salt.now iterations) }
    {
        if iterations != self.iterations || salt != self.salt.as_slice() {
            return None;
        }
        if *name == self.apex {
            Some(&self.of_apex)
        } else if *name == self.wildcard {
            Some(&self.of_wildcard)
        } else {
            None
        }
    }
}

/// The hashes for the chain of an NSEC3 record; none for other records.
pub(crate) fn hashes_for(
    alloc: Global,
    item: &Record,
) -> Result<Option<Arc<ApexHashes>>, OutOfMemory> {
    let Record::Nsec3(nsec3) = item else {
        return Ok(None);
    };
    match ApexHashes::of(
        alloc,
        &nsec3.zone().name(),
        nsec3.salt(),
        nsec3.iterations(),
    )? {
        Some(hashes) => Ok(Some(Arc::new(alloc, hashes)?)),
        None => Ok(None),
    }
}

/// Another owner of the hashes.
pub(crate) fn shared(
    hashes: &Option<Arc<ApexHashes>>,
) -> Result<Option<Arc<ApexHashes>>, OutOfMemory> {
    match hashes {
        Some(hashes) => Ok(Some(Arc::try_clone(hashes)?)),
        None => Ok(None),
    }
}
