//! Zones that have one number.
ghost use Rattle.std.specs.Prelude.{◌≡◌, [], ◌∷◌, codes};
ghost use Rattle.record_store.specs.Marks.{zone_part, owner_part};

use super::records::{name, set};
use cache_meaning::HeldZone;
use denial_records::{Batch, RecordList};
use record_store::Store;
use std::alloc::Global;
use std::test::Fail;

const THEN: u32 = 1_000_000_000;

// The moment at which the first sets have expired, and one at which others haven't yet.
const SOON: u32 = 1_000_000_060;

const LATER: u32 = 1_000_003_600;

// Two apexes of one number.
const ONE: &[u8] = b"\x08yxlutgry\x07example\x00";

const OTHER: &[u8] = b"\x08ntfpqlkm\x07example\x00";

// The number has 16 bits, and those of the two as owner names, of 32 bits, are one too: so are those of their sets of one type.
fn one_number()
    ensures one { zone_part (codes "yxlutgry" ∷ codes "example" ∷ []) ≡ 35_285 }
    ensures other { zone_part (codes "ntfpqlkm" ∷ codes "example" ∷ []) ≡ 35_285 }
    ensures one_owner { owner_part (codes "yxlutgry" ∷ codes "example" ∷ []) ≡ 1_254_787_541 }
    ensures other_owner { owner_part (codes "ntfpqlkm" ∷ codes "example" ∷ [])
        ≡ 1_254_787_541 }
{}

// With a set at the zone's apex, in a batch of its own.
fn with_set(
    alloc: Global,
    store: &Store,
    apex: &[u8],
    rtype: u16,
    expiry: u32,
) -> Result<Store, Fail> {
    let mut records = RecordList::empty(alloc);
    records.push(set(alloc, apex, apex, rtype, u64::from(expiry))?)?;
    Ok(store.with_batch(alloc, &Batch { now: THEN, records })?)
}

// What is left at the moment.
fn at(alloc: Global, store: &Store, now: u32) -> Result<Store, Fail> {
    let records = RecordList::empty(alloc);
    Ok(store.with_batch(alloc, &Batch { now, records })?)
}

fn finds(store: &Store, apex: &[u8]) -> Result<bool, Fail> {
    let apex = name(apex)?;
    match store.zone_for(&apex, 1) {
        Some(zone) => Ok(*zone.apex() == apex),
        None => Ok(false),
    }
}

// Three sets of the one zone that stay, and two of the other that expire, of which one came again.
fn filled(alloc: Global) -> Result<Store, Fail> {
    let store = with_set(alloc, &Store::empty(alloc)?, ONE, 1, LATER)?;
    let store = with_set(alloc, &store, OTHER, 1, SOON - 20)?;
    let store = with_set(alloc, &store, ONE, 15, LATER)?;
    let store = with_set(alloc, &store, OTHER, 15, SOON - 10)?;
    let store = with_set(alloc, &store, OTHER, 15, SOON)?;
    with_set(alloc, &store, ONE, 16, LATER)
}

// Which of the two zones are found at the moment.
fn found_at(alloc: Global, store: &Store, now: u32) -> Result<(bool, bool), Fail> {
    let left = at(alloc, store, now)?;
    Ok((finds(&left, ONE)?, finds(&left, OTHER)?))
}

// The same at each of four moments.
fn found(alloc: Global) -> Result<[(bool, bool); 4], Fail> {
    let store = filled(alloc)?;
    let then = found_at(alloc, &store, THEN)?;
    let before = found_at(alloc, &store, SOON - 1)?;
    let soon = found_at(alloc, &store, SOON)?;
    let later = found_at(alloc, &store, LATER)?;
    Ok([then, before, soon, later])
}

#[test]
fn a_zone_goes_with_its_last_set(rt: HostRuntime) -> Result<(), Fail> {
    one_number();
    let found = found(rt.alloc())?;
    // A moment before, one of its two sets has expired.
    assert!(rt;
        found == [(true, true), (true, true), (true, false), (false, false)],
        "{found:?}"
    );
    Ok(())
}
