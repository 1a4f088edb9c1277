ghost use Rattle.std.specs.Prelude.{◌≡◌, IfOk};

use dname::{Name, OctetsList, OutOfMemory};
use std::alloc::Global;

/// A kept RRset with its signatures.
#[derive(Debug, Drop)]
pub struct SetRec {
    /// The apex of the zone that signed it.
    pub zone: Name,
    pub owner: Name,
    pub rtype: u16,
    /// The TTL that it may have at most, in seconds.
    pub life: u32,
    /// The moment from which it may not be used, in seconds.
    pub expiry: u64,
    /// The data of each record.
    pub items: OctetsList,
    /// The data of each RRSIG record.
    pub signatures: OctetsList,
}

impl SetRec {
    /// An equal record.
    pub fn copy(&self, alloc: Global) -> Result<SetRec, OutOfMemory>
        ensures { IfOk result (λ copy. copy ≡ self.now) }
    {
        Ok(SetRec {
            zone: self.zone.copy(),
            owner: self.owner.copy(),
            rtype: self.rtype,
            life: self.life,
            expiry: self.expiry,
            items: self.items.copy(alloc)?,
            signatures: self.signatures.copy(alloc)?,
        })
    }
}
