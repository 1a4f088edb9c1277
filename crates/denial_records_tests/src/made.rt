use denial_records::{Nsec3Rec, NsecRec, SetRec, TypeSet};
use dname::{Name, NameFault, Octets, OctetsList, OutOfMemory};
use std::alloc::Global;
use std::test::Fail;

pub(crate) fn name(wire: &[u8]) -> Result<Name, NameFault> {
    let (name, _) = Name::read(wire)?;
    Ok(name)
}

// Two strings, the second of the size.
pub(crate) fn two(alloc: Global, size: usize) -> Result<OctetsList, OutOfMemory> {
    let second = vec![in alloc; 7; size]?;
    let mut list = OctetsList::empty(alloc);
    list.push(Octets::of(alloc, b"first")?)?;
    list.push(Octets::of(alloc, second.as_slice())?)?;
    Ok(list)
}

pub(crate) fn set_of(alloc: Global, items: OctetsList) -> Result<SetRec, Fail> {
    Ok(SetRec {
        zone: name(b"\x03com\x00")?,
        owner: name(b"\x01a\x03com\x00")?,
        rtype: 1,
        life: 3600,
        expiry: 1045762263,
        items,
        signatures: two(alloc, 10)?,
    })
}

pub(crate) fn set(alloc: Global) -> Result<SetRec, Fail> {
    set_of(alloc, two(alloc, 0)?)
}

pub(crate) fn nsec(alloc: Global) -> Result<NsecRec, Fail> {
    Ok(NsecRec {
        zone: name(b"\x03com\x00")?,
        owner: name(b"\x01a\x03com\x00")?,
        next: name(b"\x01b\x03com\x00")?,
        types: TypeSet::read(alloc, b"\x00\x01\x40")?,
        life: 3600,
        expiry: 1045762263,
        image: Octets::of(alloc, b"\x01b\x03com\x00\x00\x01\x40")?,
        signatures: two(alloc, 300)?,
    })
}

pub(crate) fn nsec3(alloc: Global) -> Result<Nsec3Rec, Fail> {
    Ok(Nsec3Rec {
        zone: name(b"\x03com\x00")?,
        hash: [1; 20],
        next: [2; 20],
        salt: Octets::of(alloc, b"\xaa\xbb")?,
        iterations: 12,
        opt_out: true,
        types: TypeSet::read(alloc, b"\x00\x01\x40")?,
        life: 3600,
        expiry: 1045762263,
        image: Octets::of(alloc, b"")?,
        signatures: two(alloc, 300)?,
    })
}
