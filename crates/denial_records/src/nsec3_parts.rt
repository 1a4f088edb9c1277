ghost use Rattle.std.specs.Prelude.{◌≡◌, ◌↔◌, ◌⊎◌, ◌+◌, ◌≤◌, ◌<◌, true, false, length, take, drop, MatchResult, IfOk, IsErrOf, Ok, Err};
ghost use Rattle.denial_records.specs.Nsec3Parts.{IsShort, HasBadHash, IsNsec3, HasBadMap, salt_size, hash_size, map_offset};
ghost use Rattle.denial_records.specs.declared.nsec3_parts.Nsec3Parts.{Nsec3Parts};

use crate::{MapFault, TypeSet};
use dname::{Octets, octets_between, octets_from, u16_at};
use std::alloc::Global;

/// The octets before the salt.
pub(crate) const FIXED_OCTETS: usize = 5;

/// The octets of a SHA-1 hash.
pub const HASH_OCTETS: usize = 20;

/// Why no parts came of octets.
#[derive(Clone, Copy, Debug, PartialEq, Eq)]
pub enum Nsec3Fault {
    /// A fixed part, the salt or the hash runs past the end.
    Short,
    /// The hash hasn't 20 octets.
    BadHash,
    /// What follows the hash isn't type bit maps.
    BadMap,
    /// There is no memory left.
    OutOfMemory,
}

/// The data of an NSEC3 record (RFC 5155, section 3.2).
#[derive(Debug, Drop)]
pub struct Nsec3Parts {
    /// The number of the hash's algorithm.
    pub algorithm: u8,
    /// The lowest bit is the Opt-Out flag, and no other is defined (RFC 5155, section 3.1.2).
    pub flags: u8,
    /// How often the hash is taken again, the first time not counted.
    pub iterations: u16,
    pub salt: Octets,
    /// The next hashed owner name of the zone.
    pub next: [u8; HASH_OCTETS],
    /// The types that there are at the name whose hash is the owner's.
    pub types: TypeSet,
}

impl Nsec3Parts {
    /// Reads a record's data.
    pub fn read(alloc: Global, octets: &[u8]) -> Result<Nsec3Parts, Nsec3Fault>
        ensures read { IfOk result (IsNsec3 octets.now) }
        ensures short { IsErrOf result Nsec3Fault.Short ↔ IsShort octets.now }
        ensures bad_hash { IsErrOf result Nsec3Fault.BadHash ↔ HasBadHash octets.now }
        ensures bad_map { IsErrOf result Nsec3Fault.BadMap ↔ HasBadMap octets.now }
        ensures out_of_memory { IsErrOf result Nsec3Fault.OutOfMemory
            → (parts : Nsec3Parts) × IsNsec3 octets.now parts }

        // Data of an NSEC3 record is read, where there is memory.
        ensures every_nsec3 { (parts : Nsec3Parts) → IsNsec3 octets.now parts
            → (result ≡ Ok parts) ⊎ (result ≡ Err Nsec3Fault.OutOfMemory) }
    {
        if is_short(octets) {
            return Err(Nsec3Fault::Short);
        }
        let salt_size = usize::from(octets[4]);
        if usize::from(octets[FIXED_OCTETS + salt_size]) != HASH_OCTETS {
            return Err(Nsec3Fault::BadHash);
        }
        let hash_offset = FIXED_OCTETS + salt_size + 1;
        let types = match TypeSet::read(alloc, octets_from(octets, hash_offset + HASH_OCTETS)) {
            Ok(types) => types,
            Err(MapFault::BadMap) => return Err(Nsec3Fault::BadMap),
            Err(MapFault::OutOfMemory) => return Err(Nsec3Fault::OutOfMemory),
        };
        match Octets::of(
            alloc,
            octets_between(octets, FIXED_OCTETS, FIXED_OCTETS + salt_size),
        ) {
            Ok(salt) => Ok(Nsec3Parts {
                algorithm: octets[0],
                flags: octets[1],
                iterations: u16_at(octets, 2),
                salt,
                next: hash_at(octets, hash_offset),
                types,
            }),
            Err(_) => Err(Nsec3Fault::OutOfMemory),
        }
    }
}

// Whether a fixed part, the salt or the hash runs past the end.
fn is_short(octets: &[u8]) -> bool
    ensures yes { result ≡ true → IsShort octets.now }
    ensures no { result ≡ false → map_offset octets.now ≤ length octets.now }
{
    if octets.len() < FIXED_OCTETS {
        return true;
    }
    let hash_size_offset = FIXED_OCTETS + usize::from(octets[4]);
    octets.len() <= hash_size_offset
        || octets.len() < hash_size_offset + 1 + usize::from(octets[hash_size_offset])
}

fn hash_at(octets: &[u8], at: usize) -> [u8; HASH_OCTETS]
    requires { at + HASH_OCTETS ≤ length octets.now }
    ensures { result ≡ take HASH_OCTETS (drop at octets.now) }
{
    let mut hash = [0; HASH_OCTETS];
    hash.copy_from_slice(octets_between(octets, at, at + HASH_OCTETS));
    hash
}
