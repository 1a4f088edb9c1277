use crate::draft::{FLAGS, NOW};
use denial_records::{KeptSet, Record};
use intake::{IntakeFault, batch_of};
use std::alloc::{AllocError, Global};
use std::test::Fail;

const LONG: &[u8] = b"\x3fabcdefgabcdefgabcdefgabcdefgabcdefgabcdefgabcdefgabcdefgabcdefg";

// A name below example of 255 octets, of five labels.
fn push_long_name(octets: &mut Vec<u8>) -> Result<(), AllocError> {
    for _ in 0..3 {
        octets.extend_from_slice(LONG)?;
    }
    octets.push(53)?;
    for _ in 0..53 {
        octets.push(b'a')?;
    }
    octets.extend_from_slice(b"\x07example\x00")
}

// The answer to a question for the MX records of a name of 255 octets: 256 of them, whose exchange is that name by a
// pointer, and their RRSIG by example.
fn answer(alloc: Global) -> Result<Vec<u8>, AllocError> {
    let mut octets = Vec::from_slice(alloc, b"\x00\x07")?;
    octets.extend_from_slice(&FLAGS.to_be_bytes())?;
    octets.extend_from_slice(b"\x00\x01\x01\x01\x00\x00\x00\x00")?;
    push_long_name(&mut octets)?;
    octets.extend_from_slice(b"\x00\x0f\x00\x01")?;
    for preference in 0..=255 {
        octets.extend_from_slice(b"\xc0\x0c\x00\x0f\x00\x01\x00\x00\x0e\x10\x00\x04\x00")?;
        octets.extend_from_slice(&[preference, 0xc0, 0x0c])?;
    }
    octets.extend_from_slice(b"\xc0\x0c\x00\x2e\x00\x01\x00\x00\x0e\x10\x00\x1f")?;
    octets.extend_from_slice(b"\x00\x0f\x0d\x05\x00\x00\x0e\x10\x77\x35\x94\x00\x35\xa4\xe9\x00")?;
    octets.extend_from_slice(b"\x00\x01\x07example\x00ZZZZ")?;
    Ok(octets)
}

// How many data the set has, and how many octets these have.
fn total_of(set: &KeptSet) -> (usize, usize) {
    let count = set.items().count();
    let mut items = set.items();
    let mut size = 0usize;
    for _ in 0..count {
        size = size.saturating_add(items.next().map_or(0, |item| item.len()));
    }
    (count, size)
}

// How many records are stored, and of the first, a set, how many data and octets of data; then how many groups are skipped.
fn sizes_of(alloc: Global, octets: &[u8]) -> Result<(usize, usize, usize, u32), IntakeFault> {
    let taken = batch_of(alloc, octets, NOW)?;
    let records = &taken.batch.records;
    if records.is_empty() {
        return Ok((0, 0, 0, taken.skipped));
    }
    let (count, size) = match records.get(0) {
        Record::Set(set) => total_of(set),
        _ => (0, 0),
    };
    Ok((records.len(), count, size, taken.skipped))
}

// Its data has more octets than a message can have.
#[test]
fn a_set_larger_than_a_message_is_stored(rt: HostRuntime) -> Result<(), Fail> {
    let found = sizes_of(rt.alloc(), &answer(rt.alloc())?);
    assert!(rt; found == Ok((1, 256, 256 * 257, 0)), "{found:?}");
    Ok(())
}
