ghost use Rattle.std.specs.Prelude.{◌≡◌, ◌↔◌, ◌⊎◌, List, ℕ, IfOk, IsErrOf, Ok, Err};
ghost use Rattle.dname.specs.Read.{StopsAt};
ghost use Rattle.dname.specs.declared.name_fault.NameFault.{NameFault};
ghost use Rattle.denial_records.specs.NsecParts.{IsNsec, HasBadMap};
ghost use Rattle.denial_records.specs.declared.nsec_parts.NsecParts.{NsecParts};

use crate::{MapFault, TypeSet};
use dname::{Name, octets_from};
use std::alloc::Global;

/// Why no parts came of octets.
#[derive(Clone, Copy, Debug, PartialEq, Eq)]
pub enum NsecFault {
    /// No name can be read at the front.
    BadName,
    /// What follows the name isn't type bit maps.
    BadMap,
    /// There is no memory left.
    OutOfMemory,
}

/// The data of an NSEC record (RFC 4034, section 4.1).
#[derive(Debug, Drop)]
pub struct NsecParts {
    /// The next owner name in canonical order.
    pub next: Name,
    /// The types that there are at the owner name.
    pub types: TypeSet,
}

impl NsecParts {
    /// Reads a record's data.
    pub fn read(alloc: Global, octets: &[u8]) -> Result<NsecParts, NsecFault>
        ensures read { IfOk result (IsNsec octets.now) }
        ensures bad_name { IsErrOf result NsecFault.BadName
            ↔ ((fault : NameFault) × StopsAt octets.now fault) }
        ensures bad_map { IsErrOf result NsecFault.BadMap ↔ HasBadMap octets.now }
        ensures out_of_memory { IsErrOf result NsecFault.OutOfMemory
            → (parts : NsecParts) × IsNsec octets.now parts }

        // Data of an NSEC record is read, where there is memory.
        ensures every_nsec { (parts : NsecParts) → IsNsec octets.now parts
            → (result ≡ Ok parts) ⊎ (result ≡ Err NsecFault.OutOfMemory) }
    {
        let (next, taken) = match Name::read(octets) {
            Ok(read) => read,
            Err(_) => return Err(NsecFault::BadName),
        };
        match TypeSet::read(alloc, octets_from(octets, taken)) {
            Ok(types) => Ok(NsecParts { next, types }),
            Err(MapFault::BadMap) => Err(NsecFault::BadMap),
            Err(MapFault::OutOfMemory) => Err(NsecFault::OutOfMemory),
        }
    }
}
