//! Records of some zones below `example`.

use denial_records::{
    HASH_OCTETS, KeptNsec, KeptNsec3, KeptSet, Nsec3Rec, NsecRec, Record, SetRec, TypeSet,
};
use dname::{Name, NameFault, Octets, OctetsList};
use std::alloc::Global;
use std::test::Fail;

pub(crate) fn name(wire: &[u8]) -> Result<Name, NameFault> {
    let (name, _) = Name::read(wire)?;
    Ok(name)
}

pub(crate) fn set(
    alloc: Global,
    zone: &[u8],
    owner: &[u8],
    rtype: u16,
    expiry: u64,
) -> Result<Record, Fail> {
    let set = SetRec {
        zone: name(zone)?,
        owner: name(owner)?,
        rtype,
        life: 3600,
        expiry,
        items: OctetsList::empty(alloc),
        signatures: OctetsList::empty(alloc),
    };
    Ok(Record::Set(KeptSet::of(alloc, &set)?))
}

pub(crate) fn nsec(
    alloc: Global,
    zone: &[u8],
    owner: &[u8],
    next: &[u8],
    expiry: u64,
) -> Result<Record, Fail> {
    let nsec = NsecRec {
        zone: name(zone)?,
        owner: name(owner)?,
        next: name(next)?,
        types: TypeSet::read(alloc, b"\x00\x01\x40")?,
        life: 3600,
        expiry,
        image: Octets::of(alloc, b"")?,
        signatures: OctetsList::empty(alloc),
    };
    Ok(Record::Nsec(KeptNsec::of(alloc, &nsec)?))
}

/// The NSEC3 record from one hash to another, each a number in its last octet.
pub(crate) fn nsec3(
    alloc: Global,
    zone: &[u8],
    chain: (&[u8], u16),
    hash: u8,
    next: u8,
    expiry: u64,
) -> Result<Record, Fail> {
    let nsec3 = Nsec3Rec {
        zone: name(zone)?,
        hash: hash_of(hash),
        next: hash_of(next),
        salt: Octets::of(alloc, chain.0)?,
        iterations: chain.1,
        opt_out: false,
        types: TypeSet::read(alloc, b"\x00\x01\x40")?,
        life: 3600,
        expiry,
        image: Octets::of(alloc, b"")?,
        signatures: OctetsList::empty(alloc),
    };
    Ok(Record::Nsec3(KeptNsec3::of(alloc, &nsec3)?))
}

/// The hash whose first octet is the number.
pub(crate) fn hash_of(number: u8) -> [u8; HASH_OCTETS] {
    let mut hash = [0; HASH_OCTETS];
    hash[0] = number;
    hash
}
