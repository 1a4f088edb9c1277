//! A full store makes room.

use super::records::name;
use cache_meaning::HeldZone;
use denial_records::{Batch, KeptSet, Record, RecordList, SetRec};
use dname::{Name, OctetsList};
use record_store::Store;
use std::alloc::Global;
use std::test::Fail;

const THEN: u32 = 1_000_000_000;

// The name of four letters that a number has, below the root.
fn numbered(number: u32) -> Result<Name, Fail> {
    let letters = [
        b'a' + (number / 17_576 % 26) as u8,
        b'a' + (number / 676 % 26) as u8,
        b'a' + (number / 26 % 26) as u8,
        b'a' + (number % 26) as u8,
    ];
    let [a, b, c, d] = letters;
    Ok(name(&[4, a, b, c, d, 0])?)
}

// A set of the root zone at the numbered name, of the type.
fn numbered_set(alloc: Global, number: u32, rtype: u16, expiry: u64) -> Result<Record, Fail> {
    let set = SetRec {
        zone: Name::root(),
        owner: numbered(number)?,
        rtype,
        life: 3600,
        expiry,
        items: OctetsList::empty(alloc),
        signatures: OctetsList::empty(alloc),
    };
    Ok(Record::Set(KeptSet::of(alloc, &set)?))
}

// So many sets from a number on, each expiring a second after the one before.
fn sets_from(alloc: Global, first: u32, count: u32) -> Result<Batch, Fail> {
    let mut records = RecordList::empty(alloc);
    for i in 0..count {
        let number = first.saturating_add(i);
        let expiry = u64::from(THEN) + 1 + u64::from(number);
        records.push(numbered_set(alloc, number, 1, expiry)?)?;
    }
    Ok(Batch { now: THEN, records })
}

fn has(store: &Store, number: u32) -> Result<bool, Fail> {
    let owner = numbered(number)?;
    match store.zone_for(&owner, 1) {
        Some(zone) => Ok(zone.set_at(&owner, 1).is_some()),
        None => Ok(false),
    }
}

// 131,072 sets, each expiring a second after the one before.
fn filled(alloc: Global) -> Result<Store, Fail> {
    let mut store = Store::empty(alloc)?;
    for batch in 0..128 {
        let sets = sets_from(alloc, batch * 1024, 1024)?;
        store = store.with_batch(alloc, &sets)?;
    }
    Ok(store)
}

// Whether the first set of a full store is held, the second, the last, and one more.
fn holds(store: &Store) -> Result<[bool; 4], Fail> {
    let first = has(store, 0)?;
    let second = has(store, 1)?;
    let last = has(store, 131_071)?;
    let more = has(store, 131_072)?;
    Ok([first, second, last, more])
}

// How many records a full store has and which it holds, and then the same after one more came; the old one is asked after that.
fn found(alloc: Global) -> Result<[(usize, [bool; 4]); 2], Fail> {
    let store = filled(alloc)?;
    let fuller = store.with_batch(alloc, &sets_from(alloc, 131_072, 1)?)?;
    let after = (fuller.len(), holds(&fuller)?);
    Ok([(store.len(), holds(&store)?), after])
}

// The 131,073rd record is held, and the one that expires first goes; the old store stays.
#[test]
fn what_expires_first_makes_room(rt: HostRuntime) -> Result<(), Fail> {
    let [before, after] = found(rt.alloc())?;
    assert!(rt;
        before == (131_072, [true, true, true, false]),
        "{before:?}"
    );
    assert!(rt; after == (131_072, [false, true, true, true]), "{after:?}");
    Ok(())
}
