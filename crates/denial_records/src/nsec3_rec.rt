ghost use Rattle.std.specs.Prelude.{◌≡◌, IfOk};

use crate::{HASH_OCTETS, TypeSet};
use dname::{Name, Octets, OctetsList, OutOfMemory};
use std::alloc::Global;

/// A kept NSEC3 record with its signatures.
#[derive(Debug, Drop)]
pub struct Nsec3Rec {
    /// The apex of the zone that signed it.
    pub zone: Name,
    /// The owner's hashed name.
    pub hash: [u8; HASH_OCTETS],
    /// The next hashed owner name of the zone.
    pub next: [u8; HASH_OCTETS],
    pub salt: Octets,
    /// How often the hash is taken again, the first time not counted.
    pub iterations: u16,
    /// Whether the Opt-Out flag is set (RFC 5155, section 3.1.2.1).
    pub opt_out: bool,
    /// The types that there are at the name whose hash is the owner's.
    pub types: TypeSet,
    /// The TTL that it may have at most, in seconds.
    pub life: u32,
    /// The moment from which it may not be used, in seconds.
    pub expiry: u64,
    /// The record's data as it came.
    pub image: Octets,
    /// The data of each RRSIG record.
    pub signatures: OctetsList,
}

impl Nsec3Rec {
    /// An equal record.
    pub fn copy(&self, alloc: Global) -> Result<Nsec3Rec, OutOfMemory>
        ensures { IfOk result (λ copy. copy ≡ self.now) }
    {
        Ok(Nsec3Rec {
            zone: self.zone.copy(),
            hash: self.hash,
            next: self.next,
            salt: self.salt.copy(alloc)?,
            iterations: self.iterations,
            opt_out: self.opt_out,
            types: self.types.copy(alloc)?,
            life: self.life,
            expiry: self.expiry,
            image: self.image.copy(alloc)?,
            signatures: self.signatures.copy(alloc)?,
        })
    }
}
