//! Records, most of the zone `example`, questions, and what is written of them.

use arrayvec::ArrayVec;
use denial_records::{
    Batch, KeptNsec, KeptNsec3, KeptSet, Nsec3Rec, NsecRec, Record, RecordList, SetRec, TypeSet,
};
use dname::{Name, NameFault, Octets, OctetsList, OutOfMemory};
use dnswire::{Edns, Question};
use nsec3_hash::hash_name;
use record_store::Store;
use reply_core::ReplyBuffer;
use resolver::{Origin, Rule, walk_reply};
use std::alloc::Global;
use std::test::Fail;

pub(crate) const ZONE: &[u8] = b"\x07example\x00";

pub(crate) const THEN: u32 = 1_000_000_000;

const HOUR: u64 = 1_000_003_600;

pub(crate) const A: u16 = 1;

pub(crate) const CNAME: u16 = 5;

pub(crate) const SOA: u16 = 6;

pub(crate) const DNAME: u16 = 39;

pub(crate) const ADDRESS: &[u8] = b"\xc0\x00\x02\x01";

/// The data of an SOA whose MINIMUM is 300.
pub(crate) const SOA_DATA: &[u8] =
    b"\x00\x00\x00\x00\x00\x01\x00\x00\x0e\x10\x00\x00\x02\x58\x00\x01\x51\x80\x00\x00\x01\x2c";

fn name(wire: &[u8]) -> Result<Name, NameFault> {
    let (name, _) = Name::read(wire)?;
    Ok(name)
}

fn list(alloc: Global, octets: &[u8]) -> Result<OctetsList, OutOfMemory> {
    let mut list = OctetsList::empty(alloc);
    list.push(Octets::of(alloc, octets)?)?;
    Ok(list)
}

/// A set of one record, with an hour to live and a signature of three octets.
pub(crate) fn set(alloc: Global, owner: &[u8], rtype: u16, item: &[u8]) -> Result<Record, Fail> {
    set_in(alloc, ZONE, owner, rtype, item, 3600)
}

/// The same of a zone, with so many seconds to live.
pub(crate) fn set_in(
    alloc: Global,
    zone: &[u8],
    owner: &[u8],
    rtype: u16,
    item: &[u8],
    life: u32,
) -> Result<Record, Fail> {
    let items = list(alloc, item)?;
    set_of(alloc, zone, owner, rtype, life, items)
}

/// A set of two records.
pub(crate) fn set_of_two(
    alloc: Global,
    owner: &[u8],
    rtype: u16,
    item: &[u8],
    other: &[u8],
) -> Result<Record, Fail> {
    let mut items = list(alloc, item)?;
    items.push(Octets::of(alloc, other)?)?;
    set_of(alloc, ZONE, owner, rtype, 3600, items)
}

fn set_of(
    alloc: Global,
    zone: &[u8],
    owner: &[u8],
    rtype: u16,
    life: u32,
    items: OctetsList,
) -> Result<Record, Fail> {
    let set = SetRec {
        zone: name(zone)?,
        owner: name(owner)?,
        rtype,
        life,
        expiry: u64::from(THEN) + u64::from(life),
        items,
        signatures: list(alloc, b"SIG")?,
    };
    Ok(Record::Set(KeptSet::of(alloc, &set)?))
}

/// An NSEC record whose owner has A, RRSIG and NSEC. Its data is empty, as no proof reads it.
pub(crate) fn nsec(alloc: Global, owner: &[u8], next: &[u8]) -> Result<Record, Fail> {
    let nsec = NsecRec {
        zone: name(ZONE)?,
        owner: name(owner)?,
        next: name(next)?,
        types: TypeSet::read(alloc, b"\x00\x06\x40\x00\x00\x00\x00\x03")?,
        life: 3600,
        expiry: HOUR,
        image: Octets::of(alloc, b"")?,
        signatures: list(alloc, b"SIG")?,
    };
    Ok(Record::Nsec(KeptNsec::of(alloc, &nsec)?))
}

/// The NSEC3 record of a zone that has no name but its apex, with NS, SOA, RRSIG and NSEC3PARAM there.
pub(crate) fn nsec3(alloc: Global, zone: &[u8], opt_out: bool) -> Result<Record, Fail> {
    let nsec3 = Nsec3Rec {
        zone: name(zone)?,
        hash: hash_name(&name(zone)?, b"", 0),
        next: hash_name(&name(zone)?, b"", 0),
        salt: Octets::of(alloc, b"")?,
        iterations: 0,
        opt_out,
        types: TypeSet::read(alloc, b"\x00\x07\x22\x00\x00\x00\x00\x02\x10")?,
        life: 3600,
        expiry: HOUR,
        image: Octets::of(alloc, b"")?,
        signatures: list(alloc, b"SIG")?,
    };
    Ok(Record::Nsec3(KeptNsec3::of(alloc, &nsec3)?))
}

pub(crate) fn store_of(alloc: Global, records: RecordList) -> Result<Store, Fail> {
    let batch = Batch { now: THEN, records };
    Ok(Store::empty(alloc)?.with_batch(alloc, &batch)?)
}

/// A question of class IN with ID 1234 and RD.
pub(crate) fn question(asked: &[u8], qtype: u16, edns: Option<Edns>) -> Result<Question, Fail> {
    let mut octets = ArrayVec::new();
    octets.try_extend_from_slice(asked)?;
    octets.try_extend_from_slice(&qtype.to_be_bytes())?;
    octets.try_extend_from_slice(b"\x00\x01")?;
    Ok(Question {
        id: 0x1234,
        rd: true,
        ad: false,
        cd: false,
        name: name(asked)?,
        asked: octets,
        qtype,
        qclass: 1,
        edns,
    })
}

/// Writes the reply at ten seconds later, where there is one, and tells from what it is made.
pub(crate) fn replied(
    store: &Store,
    rule: Rule,
    question: &Question,
    out: &mut ReplyBuffer,
) -> Option<Origin> {
    replied_after(store, rule, question, 10, out)
}

/// The same at so many seconds later, fewer than 3,600.
pub(crate) fn replied_after(
    store: &Store,
    rule: Rule,
    question: &Question,
    seconds: u16,
    out: &mut ReplyBuffer,
) -> Option<Origin> {
    walk_reply(store, rule, question, THEN + u32::from(seconds), out)
}
