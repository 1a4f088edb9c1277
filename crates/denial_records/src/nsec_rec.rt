ghost use Rattle.std.specs.Prelude.{◌≡◌, IfOk};

use crate::TypeSet;
use dname::{Name, Octets, OctetsList, OutOfMemory};
use std::alloc::Global;

/// A kept NSEC record with its signatures.
#[derive(Debug, Drop)]
pub struct NsecRec {
    /// The apex of the zone that signed it.
    pub zone: Name,
    pub owner: Name,
    /// The next owner name in canonical order.
    pub next: Name,
    /// The types that there are at the owner name.
    pub types: TypeSet,
    /// The TTL that it may have at most, in seconds.
    pub life: u32,
    /// The moment from which it may not be used, in seconds.
    pub expiry: u64,
    /// The record's data as it came.
    pub image: Octets,
    /// The data of each RRSIG record.
    pub signatures: OctetsList,
}

impl NsecRec {
    /// An equal record.
    pub fn copy(&self, alloc: Global) -> Result<NsecRec, OutOfMemory>
        ensures { IfOk result (λ copy. copy ≡ self.now) }
    {
        Ok(NsecRec {
            zone: self.zone.copy(),
            owner: self.owner.copy(),
            next: self.next.copy(),
            types: self.types.copy(alloc)?,
            life: self.life,
            expiry: self.expiry,
            image: self.image.copy(alloc)?,
            signatures: self.signatures.copy(alloc)?,
        })
    }
}
