//! What is found of a zone's denial records, and what goes where one comes.

use super::records::{
    NSEC, New, Places, are_nsec, gone, is_denial_of, name, places, record, zone_of,
};
use cache_meaning::Place;
use denial_records::Record;
use std::alloc::Global;
use std::sync::Arc;
use std::test::Fail;
use zone_chains::ZoneRecords;

// What a look-up gives: the record's life, and whether it is the key's own.
type Found = Option<(u32, bool)>;

// A salt, and the key that is looked up in its chain.
type Asked = (u8, u8, Found);

fn at_name(zone: &ZoneRecords, octet: u8) -> Result<Found, Fail> {
    Ok(match zone.nsec_at(&name(octet)?) {
        Some((found, place)) => Some((found.life(), place == Place::Start)),
        None => None,
    })
}

fn at_hash(zone: &ZoneRecords, salt: u8, octet: u8) -> Found {
    match zone.nsec3_at(&[salt], 12, &[octet; 20]) {
        Some((found, place)) => Some((found.life(), place == Place::Start)),
        None => None,
    }
}

// What is found, where it isn't what was wanted.
fn other_than(zone: &ZoneRecords, asked: Asked) -> Result<Option<Found>, Fail> {
    let (salt, key, wanted) = asked;
    let found = if salt == NSEC {
        at_name(zone, key)?
    } else {
        at_hash(zone, salt, key)
    };
    Ok(if found == wanted { None } else { Some(found) })
}

// The first that is found otherwise, and what is found there.
fn first_wrong(
    alloc: Global,
    news: &[New],
    rows: &[Asked],
) -> Result<Option<(Asked, Found)>, Fail> {
    let zone = zone_of(alloc, news)?;
    for asked in rows {
        if let Some(found) = other_than(&zone, *asked)? {
            return Ok(Some((*asked, found)));
        }
    }
    Ok(None)
}

// The first that displaces others than at those places, and the places of those that it displaces.
fn first_misplaced(
    alloc: Global,
    news: &[New],
    rows: &[(New, Places)],
) -> Result<Option<(New, Places)>, Fail> {
    let zone = zone_of(alloc, news)?;
    for (new, wanted) in rows {
        let found = places(alloc, &zone, *new)?;
        if found != *wanted {
            return Ok(Some((*new, found)));
        }
    }
    Ok(None)
}

// How many the record displaces.
fn count_gone(alloc: Global, news: &[New], new: New) -> Result<usize, Fail> {
    Ok(gone(places(alloc, &zone_of(alloc, news)?, new)?))
}

// Two records, one that meets the last, and the whole ring.
const RING: [New; 4] = [
    (NSEC, b'b', b'f'),
    (NSEC, b't', b'b'),
    (NSEC, b'a', b'b'),
    (NSEC, b'm', b'm'),
];

#[test]
fn an_nsec_record_is_found_by_its_arc(rt: HostRuntime) -> Result<(), Fail> {
    let alloc = rt.alloc();
    let two = first_wrong(
        alloc,
        &RING[..2],
        &[
            (NSEC, b'b', Some((1, true))),
            (NSEC, b'e', Some((1, false))),
            (NSEC, b'f', None),
            // Over the end of the order.
            (NSEC, b'z', Some((2, false))),
            (NSEC, b'a', Some((2, false))),
        ],
    )?;
    assert!(rt; two.is_none(), "{two:?}");
    let three = first_wrong(alloc, &RING[..3], &[(NSEC, b'z', None)])?;
    assert!(rt; three.is_none(), "{three:?}");
    let four = first_wrong(alloc, &RING, &[(NSEC, b'b', Some((4, false)))])?;
    assert!(rt; four.is_none(), "{four:?}");
    Ok(())
}

// How many each of the four displaces.
fn each_gone(alloc: Global) -> Result<[usize; 4], Fail> {
    let first = count_gone(alloc, &[], RING[0])?;
    let second = count_gone(alloc, &RING[..1], RING[1])?;
    let third = count_gone(alloc, &RING[..2], RING[2])?;
    let fourth = count_gone(alloc, &RING[..3], RING[3])?;
    Ok([first, second, third, fourth])
}

#[test]
fn a_record_displaces_those_that_it_meets(rt: HostRuntime) -> Result<(), Fail> {
    let alloc = rt.alloc();
    assert!(rt; zone_of(alloc, &[])?.is_empty());
    let found = each_gone(alloc)?;
    assert!(rt; found == [0, 0, 1, 2], "{found:?}");
    Ok(())
}

// Two NSEC3 chains, and an NSEC record that begins a third.
const THREE: [New; 3] = [(1, 10, 20), (2, 10, 30), (NSEC, b'a', b'b')];

// Whether the record's chain is new, how many records the chain has that goes for it, and how many the record displaces.
fn goes_for(alloc: Global, news: &[New], new: New) -> Result<(bool, usize, usize), Fail> {
    let zone = zone_of(alloc, news)?;
    let third = record(alloc, new, 9)?;
    let records = match zone.third_for(&third) {
        Some(chain) => chain.len(),
        None => 0,
    };
    Ok((
        zone.is_new(&third),
        records,
        gone(places(alloc, &zone, new)?),
    ))
}

#[test]
fn a_third_chain_puts_out_the_older(rt: HostRuntime) -> Result<(), Fail> {
    let alloc = rt.alloc();
    // The arcs of two chains don't meet.
    let two = first_wrong(
        alloc,
        &THREE[..2],
        &[
            (1, 10, Some((1, true))),
            (2, 25, Some((2, false))),
            (1, 25, None),
            (3, 10, None),
        ],
    )?;
    assert!(rt; two.is_none(), "{two:?}");
    let three = first_wrong(
        alloc,
        &THREE,
        &[
            (1, 10, None),
            (2, 10, Some((2, true))),
            (NSEC, b'a', Some((3, true))),
        ],
    )?;
    assert!(rt; three.is_none(), "{three:?}");
    Ok(())
}

#[test]
fn the_older_chain_goes_for_a_third(rt: HostRuntime) -> Result<(), Fail> {
    let alloc = rt.alloc();
    let found = goes_for(alloc, &THREE[..2], THREE[2])?;
    assert!(rt; found == (true, 1, 0), "{found:?}");
    let found = are_nsec(&zone_of(alloc, &THREE)?);
    assert!(rt; found == (true, false), "{found:?}");
    Ok(())
}

// Three NSEC records, and then two NSEC3 records of one chain.
const FIVE: [New; 5] = [
    (NSEC, b'b', b'f'),
    (NSEC, b'h', b'm'),
    (NSEC, b'p', b't'),
    (2, 10, 30),
    (2, 30, 60),
];

#[test]
fn with_tells_the_places_of_the_displaced(rt: HostRuntime) -> Result<(), Fail> {
    let alloc = rt.alloc();
    let none = first_misplaced(alloc, &[], &[(FIVE[0], None)])?;
    assert!(rt; none.is_none(), "{none:?}");
    let three = first_misplaced(
        alloc,
        &FIVE[..3],
        &[
            // A plain arc that meets the first two, and the second alone.
            ((NSEC, b'e', b'i'), Some((0, 2, 3, 3))),
            ((NSEC, b'f', b'p'), Some((1, 2, 3, 3))),
            // One over the end of the order meets the first and the last.
            ((NSEC, b'r', b'c'), Some((0, 1, 2, 3))),
            // A new chain displaces none.
            ((2, 10, 30), None),
        ],
    )?;
    assert!(rt; three.is_none(), "{three:?}");
    // Each chain has its own places.
    let five = first_misplaced(
        alloc,
        &FIVE,
        &[
            ((2, 40, 50), Some((1, 2, 2, 2))),
            ((NSEC, b'k', b'q'), Some((1, 3, 3, 3))),
            ((3, 10, 30), None),
        ],
    )?;
    assert!(rt; five.is_none(), "{five:?}");
    Ok(())
}

// With the record, and then without it.
fn come_and_gone(alloc: Global, zone: &ZoneRecords, new: New) -> Result<ZoneRecords, Fail> {
    let item = record(alloc, new, 2)?;
    if !is_denial_of(zone.apex(), &item) {
        return Err(Fail::from("a record of another zone"));
    }
    let (made, _) = zone.with(alloc, Arc::try_clone(&item)?)?;
    Ok(made.without(alloc, &item)?)
}

// Whether the chains are NSEC chains, the newer first, and what is found in them by a hash and by a name.
fn left(zone: &ZoneRecords) -> Result<((bool, bool), Found, Found), Fail> {
    Ok((are_nsec(zone), at_hash(zone, 2, 10), at_name(zone, b'a')?))
}

#[test]
fn a_chain_goes_when_it_is_asked_to(rt: HostRuntime) -> Result<(), Fail> {
    let alloc = rt.alloc();
    let zone = zone_of(alloc, &[(NSEC, b'a', b'b')])?;
    let without = come_and_gone(alloc, &zone, (2, 10, 30))?;
    let found = left(&without)?;
    assert!(rt;
        found == ((false, true), None, Some((1, true))),
        "{found:?}"
    );
    let found = left(&without.without_empty()?)?;
    assert!(rt;
        found == ((true, false), None, Some((1, true))),
        "{found:?}"
    );
    Ok(())
}
