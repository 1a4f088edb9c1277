//! A set that comes again.

use super::records::name;
use cache_meaning::HeldZone;
use denial_records::{Batch, KeptSet, Record, RecordList, SetRec};
use dname::{Octets, OctetsList, OutOfMemory};
use record_store::Store;
use std::alloc::Global;
use std::test::Fail;

const THEN: u32 = 1_000_000_000;

const LATER: u64 = 1_000_003_600;

const APEX: &[u8] = b"\x07example\x00";

// What may differ in two sets of one key: the life, the moment of expiry, the data and the signature.
type Parts = (u32, u64, &'static [u8], &'static [u8]);

fn one(alloc: Global, octets: &[u8]) -> Result<OctetsList, OutOfMemory> {
    let mut list = OctetsList::empty(alloc);
    list.push(Octets::of(alloc, octets)?)?;
    Ok(list)
}

// An address of the apex, in a batch of its own.
fn address(alloc: Global, parts: &Parts) -> Result<Batch, Fail> {
    let (life, expiry, data, signature) = *parts;
    let set = SetRec {
        zone: name(APEX)?,
        owner: name(APEX)?,
        rtype: 1,
        life,
        expiry,
        items: one(alloc, data)?,
        signatures: one(alloc, signature)?,
    };
    let mut records = RecordList::empty(alloc);
    records.push(Record::Set(KeptSet::of(alloc, &set)?))?;
    Ok(Batch { now: THEN, records })
}

// Whether the store holds this one set.
fn holds(store: &Store, parts: &Parts) -> Result<bool, Fail> {
    let apex = name(APEX)?;
    let Some(zone) = store.zone_for(&apex, 1) else {
        return Ok(false);
    };
    let Some(set) = zone.set_at(&apex, 1) else {
        return Ok(false);
    };
    Ok(store.len() == 1 && is_of(set, parts))
}

fn is_of(set: &KeptSet, parts: &Parts) -> bool {
    let (life, expiry, data, signature) = *parts;
    let (mut items, mut signatures) = (set.items(), set.signatures());
    set.life() == life
        && set.expiry() == expiry
        && items.next() == Some(data)
        && signatures.next() == Some(signature)
}

const FIRST: Parts = (60, LATER, DATA, b"first");

const DATA: &[u8] = b"\x0A\x00\x00\x01";

// Sets that come after the first.
const NEXT: [Parts; 7] = [
    (60, LATER, DATA, b"first"),
    (61, LATER, DATA, b"first"),
    (60, LATER + 1, DATA, b"first"),
    (60, LATER - 1, DATA, b"first"),
    (60, LATER, b"\x0A\x00\x00\x02", b"first"),
    (60, LATER, DATA, b"other"),
    (60, LATER, DATA, b"first and more"),
];

// Whether each store holds its set: the one before the set came, and the one after.
fn takes_its_place(alloc: Global, next: &Parts) -> Result<(bool, bool), Fail> {
    let before = Store::empty(alloc)?.with_batch(alloc, &address(alloc, &FIRST)?)?;
    let after = before.with_batch(alloc, &address(alloc, next)?)?;
    Ok((holds(&before, &FIRST)?, holds(&after, next)?))
}

// The first that doesn't take the place, and which store doesn't hold its set.
fn first_wrong(alloc: Global, rows: &[Parts]) -> Result<Option<(Parts, (bool, bool))>, Fail> {
    for next in rows {
        let found = takes_its_place(alloc, next)?;
        if found != (true, true) {
            return Ok(Some((*next, found)));
        }
    }
    Ok(None)
}

#[test]
fn it_is_held_as_it_came_last(rt: HostRuntime) -> Result<(), Fail> {
    let wrong = first_wrong(rt.alloc(), &NEXT)?;
    assert!(rt; wrong.is_none(), "{wrong:?}");
    Ok(())
}
