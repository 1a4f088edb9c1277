//! Records of the zone `example`.

use denial_records::{KeptNsec, KeptNsec3, KeptSet, Nsec3Rec, NsecRec, Record, SetRec, TypeSet};
use dname::{Name, NameFault, Octets, OctetsList, OutOfMemory};
use nsec3_hash::hash_name;
use std::alloc::Global;
use std::test::Fail;

pub(crate) const ZONE: &[u8] = b"\x07example\x00";

/// The data of an SOA whose MINIMUM is 300.
const SOA_DATA: &[u8] =
    b"\x00\x00\x00\x00\x00\x01\x00\x00\x0e\x10\x00\x00\x02\x58\x00\x01\x51\x80\x00\x00\x01\x2c";

pub(crate) fn name(wire: &[u8]) -> Result<Name, NameFault> {
    let (name, _) = Name::read(wire)?;
    Ok(name)
}

fn list_of(alloc: Global, octets: &[u8]) -> Result<OctetsList, OutOfMemory> {
    let mut list = OctetsList::empty(alloc);
    list.push(Octets::of(alloc, octets)?)?;
    Ok(list)
}

/// A set with the data of an SOA.
pub(crate) fn set(
    alloc: Global,
    owner: &[u8],
    rtype: u16,
    life: u32,
    expiry: u64,
) -> Result<Record, Fail> {
    let set = SetRec {
        zone: name(ZONE)?,
        owner: name(owner)?,
        rtype,
        life,
        expiry,
        items: list_of(alloc, SOA_DATA)?,
        signatures: OctetsList::empty(alloc),
    };
    Ok(Record::Set(KeptSet::of(alloc, &set)?))
}

pub(crate) fn nsec(
    alloc: Global,
    owner: &[u8],
    next: &[u8],
    types: &[u8],
    life: u32,
    expiry: u64,
) -> Result<Record, Fail> {
    let nsec = NsecRec {
        zone: name(ZONE)?,
        owner: name(owner)?,
        next: name(next)?,
        types: TypeSet::read(alloc, types)?,
        life,
        expiry,
        image: Octets::of(alloc, b"")?,
        signatures: OctetsList::empty(alloc),
    };
    Ok(Record::Nsec(KeptNsec::of(alloc, &nsec)?))
}

/// By what names are hashed, and whether the Opt-Out flag is set.
#[derive(Clone, Copy, Drop)]
pub(crate) struct Hashing {
    pub(crate) salt: &'static [u8],
    pub(crate) iterations: u16,
    pub(crate) opt_out: bool,
}

/// The NSEC3 record from the hash of a name to that of another.
pub(crate) fn nsec3(
    alloc: Global,
    owner: &[u8],
    next: &[u8],
    types: &[u8],
    hashing: Hashing,
    life: u32,
    expiry: u64,
) -> Result<Record, Fail> {
    let nsec3 = Nsec3Rec {
        zone: name(ZONE)?,
        hash: hash_name(&name(owner)?, hashing.salt, hashing.iterations),
        next: hash_name(&name(next)?, hashing.salt, hashing.iterations),
        salt: Octets::of(alloc, hashing.salt)?,
        iterations: hashing.iterations,
        opt_out: hashing.opt_out,
        types: TypeSet::read(alloc, types)?,
        life,
        expiry,
        image: Octets::of(alloc, b"")?,
        signatures: OctetsList::empty(alloc),
    };
    Ok(Record::Nsec3(KeptNsec3::of(alloc, &nsec3)?))
}
