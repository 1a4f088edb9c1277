//! How many zones and chains are held.

use super::records::{nsec, nsec3, set};
use denial_records::{Batch, Record, RecordList};
use record_store::Store;
use std::alloc::Global;
use std::test::Fail;

const THEN: u32 = 1_000_000_000;

// The moment at which some records have expired, and one at which all have.
const SOON: u32 = 1_000_000_060;

const LATER: u32 = 1_000_003_600;

const ONE: &[u8] = b"\x03one\x07example\x00";

const BELOW: &[u8] = b"\x01a\x03one\x07example\x00";

const OTHER: &[u8] = b"\x05other\x07example\x00";

fn with_two(alloc: Global, store: &Store, first: Record, second: Record) -> Result<Store, Fail> {
    let mut records = RecordList::empty(alloc);
    records.push(first)?;
    records.push(second)?;
    Ok(store.with_batch(alloc, &Batch { now: THEN, records })?)
}

// With two sets of the other zone, which has no chain.
fn with_sets(alloc: Global, store: &Store) -> Result<Store, Fail> {
    let first = set(alloc, OTHER, OTHER, 1, u64::from(SOON))?;
    let second = set(alloc, OTHER, OTHER, 15, u64::from(SOON))?;
    with_two(alloc, store, first, second)
}

// With an NSEC record of the one zone, and a set.
fn with_nsec(alloc: Global, store: &Store) -> Result<Store, Fail> {
    let first = nsec(alloc, ONE, ONE, BELOW, u64::from(SOON))?;
    let second = set(alloc, ONE, ONE, 6, u64::from(SOON))?;
    with_two(alloc, store, first, second)
}

// With two NSEC3 records of the one zone, which are of one chain.
fn with_nsec3s(alloc: Global, store: &Store, salt: &[u8]) -> Result<Store, Fail> {
    let first = nsec3(alloc, ONE, (salt, 1), 10, 20, u64::from(SOON))?;
    let second = nsec3(alloc, ONE, (salt, 1), 30, 40, u64::from(LATER))?;
    with_two(alloc, store, first, second)
}

// What is left at the moment.
fn at(alloc: Global, store: &Store, now: u32) -> Result<Store, Fail> {
    let records = RecordList::empty(alloc);
    Ok(store.with_batch(alloc, &Batch { now, records })?)
}

// The zones and the chains.
fn gauges(store: &Store) -> (usize, usize) {
    (store.zones(), store.chains())
}

// The one zone with an NSEC chain and an NSEC3 chain, and the other one.
fn filled(alloc: Global) -> Result<Store, Fail> {
    let sets = with_sets(alloc, &Store::empty(alloc)?)?;
    let nsec = with_nsec(alloc, &sets)?;
    with_nsec3s(alloc, &nsec, b"\xaa")
}

// Of no record, of the other zone alone, of both, and of both with an NSEC3 chain too.
fn growing(alloc: Global) -> Result<[(usize, usize); 4], Fail> {
    let empty = Store::empty(alloc)?;
    let sets = with_sets(alloc, &empty)?;
    let nsec = with_nsec(alloc, &sets)?;
    let both = filled(alloc)?;
    Ok([gauges(&empty), gauges(&sets), gauges(&nsec), gauges(&both)])
}

#[test]
fn zones_and_chains_come_with_records(rt: HostRuntime) -> Result<(), Fail> {
    let found = growing(rt.alloc())?;
    assert!(rt; found == [(0, 0), (1, 0), (2, 1), (2, 2)], "{found:?}");
    Ok(())
}

// After a third chain of the one zone has come, and when some and all records have expired.
fn going(alloc: Global) -> Result<[(usize, usize); 3], Fail> {
    let store = filled(alloc)?;
    let third = with_nsec3s(alloc, &store, b"\xbb")?;
    let soon = at(alloc, &store, SOON)?;
    let later = at(alloc, &store, LATER)?;
    Ok([gauges(&third), gauges(&soon), gauges(&later)])
}

#[test]
fn zones_and_chains_go_with_their_last_record(rt: HostRuntime) -> Result<(), Fail> {
    let found = going(rt.alloc())?;
    // A zone has two chains at most. The other zone's sets go, and the NSEC record.
    assert!(rt; found == [(2, 2), (1, 1), (0, 0)], "{found:?}");
    Ok(())
}
