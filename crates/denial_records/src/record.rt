ghost use Rattle.std.specs.Prelude.{◌≡◌, IfOk};

use crate::{KeptNsec, KeptNsec3, KeptSet};
use dname::OutOfMemory;
use std::alloc::Global;

/// What a cache keeps of a validated answer: an RRset, or a record that denies names or types.
#[derive(Debug, Drop)]
pub enum Record {
    Set(KeptSet),
    Nsec(KeptNsec),
    Nsec3(KeptNsec3),
}

impl Record {
    /// An equal record.
    pub fn copy(&self, alloc: Global) -> Result<Record, OutOfMemory>
        ensures { IfOk result (λ copy. copy ≡ self.now) }
    {
        match self {
            Record::Set(set) => Ok(Record::Set(set.copy(alloc)?)),
            Record::Nsec(nsec) => Ok(Record::Nsec(nsec.copy(alloc)?)),
            Record::Nsec3(nsec3) => Ok(Record::Nsec3(nsec3.copy(alloc)?)),
        }
    }
}
