//! What an upstream answer's octets make of a store.

use crate::messages::{HEADER, QUESTION, RECORDS, THEN, UNSIGNED};
use dname::OutOfMemory;
use dnswire::WireFault;
use intake::IntakeFault;
use record_store::Store;
use resolver::{Counts, insert_octets};
use std::alloc::Global;
use std::test::Fail;

/// The octets of a message in two parts.
pub(crate) fn message(alloc: Global, header: &[u8], behind: &[u8]) -> Result<Vec<u8>, OutOfMemory> {
    let mut octets = Vec::new(alloc);
    octets.extend_from_slice(header)?;
    octets.extend_from_slice(behind)?;
    Ok(octets)
}

/// A message in two parts, and why nothing of it is stored.
type Row = (&'static [u8], &'static [u8], IntakeFault);

fn is_refused(alloc: Global, store: &Store, row: &Row) -> Result<bool, OutOfMemory> {
    let (header, behind, wanted) = *row;
    let octets = message(alloc, header, behind)?;
    match insert_octets(alloc, store, &octets, THEN) {
        Ok(_) => Ok(false),
        Err(fault) => Ok(fault == wanted),
    }
}

fn first_stored(alloc: Global, store: &Store, rows: &[Row]) -> Result<Option<usize>, OutOfMemory> {
    for (i, row) in rows.iter().enumerate() {
        if !is_refused(alloc, store, row)? {
            return Ok(Some(i));
        }
    }
    Ok(None)
}

#[test]
fn each_refusal_by_the_header(rt: HostRuntime) -> Result<(), Fail> {
    let rows: [Row; 6] = [
        // 11 octets
        (
            b"\x00\x01\x81\xa0\x00\x01\x00\x00\x00\x04\x00",
            b"",
            IntakeFault::Malformed(WireFault::Short),
        ),
        // QR is clear; the opcode is 2
        (
            b"\x00\x01\x01\xa0\x00\x01\x00\x00\x00\x04\x00\x00",
            RECORDS,
            IntakeFault::NotResponse,
        ),
        (
            b"\x00\x01\x91\xa0\x00\x01\x00\x00\x00\x04\x00\x00",
            RECORDS,
            IntakeFault::NotResponse,
        ),
        // TC
        (
            b"\x00\x01\x83\xa0\x00\x01\x00\x00\x00\x04\x00\x00",
            RECORDS,
            IntakeFault::Truncated,
        ),
        // RCODE 2
        (
            b"\x00\x01\x81\xa2\x00\x01\x00\x00\x00\x04\x00\x00",
            RECORDS,
            IntakeFault::Rcode(2),
        ),
        // AD is clear
        (
            b"\x00\x01\x81\x80\x00\x01\x00\x00\x00\x04\x00\x00",
            RECORDS,
            IntakeFault::NotAuthentic,
        ),
    ];
    let store = Store::empty(rt.alloc())?;
    let wrong = first_stored(rt.alloc(), &store, &rows)?;
    assert!(rt; wrong.is_none(), "{wrong:?}");
    Ok(())
}

#[test]
fn each_refusal_by_the_records(rt: HostRuntime) -> Result<(), Fail> {
    let rows: [Row; 2] = [
        // no records; one that nothing signs
        (
            b"\x00\x01\x81\xa0\x00\x01\x00\x00\x00\x00\x00\x00",
            QUESTION,
            IntakeFault::Nothing { skipped: 0 },
        ),
        (
            b"\x00\x01\x81\xa0\x00\x01\x00\x00\x00\x01\x00\x00",
            UNSIGNED,
            IntakeFault::Nothing { skipped: 1 },
        ),
    ];
    let store = Store::empty(rt.alloc())?;
    let wrong = first_stored(rt.alloc(), &store, &rows)?;
    assert!(rt; wrong.is_none(), "{wrong:?}");
    Ok(())
}

// How much is stored, and how many records the next store and this one hold.
fn stored(alloc: Global) -> Result<Option<(Counts, usize, usize)>, OutOfMemory> {
    let store = Store::empty(alloc)?;
    let octets = message(alloc, HEADER, RECORDS)?;
    match insert_octets(alloc, &store, &octets, THEN) {
        Ok((next, counts)) => Ok(Some((counts, next.len(), store.len()))),
        Err(_) => Ok(None),
    }
}

#[test]
fn the_next_store_and_this_one(rt: HostRuntime) -> Result<(), Fail> {
    let counts = Counts {
        stored: 2,
        skipped: 0,
    };
    let made = stored(rt.alloc())?;
    assert!(rt; made == Some((counts, 2, 0)), "{made:?}");
    Ok(())
}
