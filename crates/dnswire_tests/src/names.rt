use crate::pieces::{is_owner, joined, nth};
use dname::OutOfMemory;
use dnswire::{Message, QueryRead, WireFault, read_message, read_query};
use std::alloc::Global;
use std::test::Fail;

// Whether the octets are read as a query, with all names of its records passed over.
fn is_query(octets: &[u8]) -> bool {
    match read_query(octets) {
        QueryRead::Query(_) => true,
        _ => false,
    }
}

// A header of three answers and an additional record, and a question whose name ends in F.ISI.ARPA from offset 20 on, as in
// RFC 1035, section 4.1.4.
const AT_0: &[u8] =
    b"\x12\x34\x01\x00\x00\x01\x00\x03\x00\x00\x00\x01\x07abcdefg\x01F\x03ISI\x04ARPA\x00\x00\x10\x00\x01";

// The answers' owners: www.FOO.F.ISI.ARPA, from offset 40 on the name of the RFC; ARPA at 64; and at 92 the root.
const AT_36: &[u8] =
    b"\x03www\x03FOO\xc0\x14\xff\x00\x00\x01\x00\x00\x00\x00\x00\x08\x00\x00\x00\x00\x00\x00\x00\x00";

const AT_64: &[u8] =
    b"\xc0\x1a\xff\x00\x00\x01\x00\x00\x00\x00\x00\x10\x00\x00\x00\x00\x00\x00\x00\x00\x00\x00\x00\x00\x00\x00\x00\x00";

const AT_92: &[u8] = b"\x00\xff\x00\x00\x01\x00\x00\x00\x00\x00\x00";

const ANSWERS: [&[u8]; 3] = [
    b"\x03www\x03foo\x01f\x03isi\x04arpa\x00",
    b"\x04arpa\x00",
    b"\x00",
];

// That message with an additional record of this type whose owner is a pointer to the offset.
fn pointing_to(alloc: Global, at: u8, rtype: &[u8]) -> Result<Vec<u8>, OutOfMemory> {
    let owner = [0xc0, at];
    let fields = b"\x04\xd0\x00\x00\x00\x00\x00\x00".as_slice();
    joined(alloc, &[AT_0, AT_36, AT_64, AT_92, &owner, rtype, fields])
}

fn has_answers(message: &Message, owners: &[&[u8]]) -> bool {
    for (i, wire) in owners.iter().enumerate() {
        let is_same = match nth(&message.answer, i) {
            Some(rr) => is_owner(rr, wire),
            None => false,
        };
        if !is_same {
            return false;
        }
    }
    message.answer.len() == owners.len()
}

// Whether what stands at the offset is read as that name, whether it is passed over, and whether it may be the owner of an
// OPT record, as the root alone may.
fn named(alloc: Global, at: u8, wire: &[u8]) -> Result<[bool; 3], OutOfMemory> {
    let octets = pointing_to(alloc, at, b"\x00\x01")?;
    let is_named = match read_message(alloc, &octets) {
        Ok(message) => match nth(&message.additional, 0) {
            Some(rr) => is_owner(rr, wire) && has_answers(&message, &ANSWERS),
            None => false,
        },
        Err(_) => false,
    };
    let with_opt = pointing_to(alloc, at, b"\x00\x29")?;
    Ok([is_named, is_query(&octets), is_query(&with_opt)])
}

// Each offset, and the name there as a wire form.
const NAMES: [(u8, &[u8]); 4] = [
    (20, b"\x01f\x03isi\x04arpa\x00"),
    (40, b"\x03foo\x01f\x03isi\x04arpa\x00"),
    (64, b"\x04arpa\x00"),
    (92, b"\x00"),
];

// The first offset with another name, and what was found there.
fn named_otherwise(
    alloc: Global,
    rows: &[(u8, &[u8])],
) -> Result<Option<(u8, [bool; 3])>, OutOfMemory> {
    for (at, wire) in rows {
        let found = named(alloc, *at, wire)?;
        if found != [true, true, wire.len() == 1] {
            return Ok(Some((*at, found)));
        }
    }
    Ok(None)
}

#[test]
fn the_names_of_the_rfc_are_read(rt: HostRuntime) -> Result<(), Fail> {
    let wrong = named_otherwise(rt.alloc(), &NAMES)?;
    assert!(rt; wrong.is_none(), "{wrong:?}");
    Ok(())
}

// What follows a question of the root, from offset 17 on, how many answers there should be, and where no name stands.
const NO_NAME: [(&[u8], u8, usize); 11] = [
    // Octets that are missing: all, those after a record, those after a label and within one, and a pointer's second.
    (b"", 1, 17),
    (b"\x00\xff\x00\x00\x01\x00\x00\x00\x00\x00\x00", 2, 28),
    (b"\x01a", 1, 17),
    (b"\x02a", 1, 17),
    (b"\xc0", 1, 17),
    // Other length octets.
    (b"\x40\x00", 1, 17),
    (b"\x80\x00", 1, 17),
    // A pointer to its own run; to one that points to it in turn, from a record's data; forward; and beyond all octets.
    (b"\x01a\xc0\x11", 1, 17),
    (
        b"\x00\xff\x00\x00\x01\x00\x00\x00\x00\x00\x02\xc0\x1e\xc0\x1c",
        2,
        30,
    ),
    (b"\xc0\x13\x00", 1, 17),
    (b"\xc0\xff", 1, 17),
];

// The fault that is told, and whether the octets are a query.
fn found_after(
    alloc: Global,
    rest: &[u8],
    count: u8,
) -> Result<(Option<WireFault>, bool), OutOfMemory> {
    let octets = joined(
        alloc,
        &[
            b"\x12\x34\x01\x00\x00\x01\x00",
            &[count],
            b"\x00\x00\x00\x00\x00\x00\x10\x00\x01",
            rest,
        ],
    )?;
    Ok((read_message(alloc, &octets).err(), is_query(&octets)))
}

// The first row that is read otherwise, and as what.
fn read_otherwise(
    alloc: Global,
    rows: &[(&[u8], u8, usize)],
) -> Result<Option<(usize, Option<WireFault>, bool)>, OutOfMemory> {
    for (i, (rest, count, at)) in rows.iter().enumerate() {
        let (fault, is_query) = found_after(alloc, rest, *count)?;
        if is_query || fault != Some(WireFault::BadName { at: *at }) {
            return Ok(Some((i, fault, is_query)));
        }
    }
    Ok(None)
}

#[test]
fn where_no_name_stands_none_is_read(rt: HostRuntime) -> Result<(), Fail> {
    let wrong = read_otherwise(rt.alloc(), &NO_NAME)?;
    assert!(rt; wrong.is_none(), "{wrong:?}");
    Ok(())
}

// A message whose question's name, at offset 12, has 127 labels of a capital letter, with two answers of these owners.
fn with_owners(alloc: Global, first: &[u8], second: &[u8]) -> Result<Vec<u8>, OutOfMemory> {
    let mut octets = joined(
        alloc,
        &[b"\x12\x34\x81\x80\x00\x01\x00\x02\x00\x00\x00\x00"],
    )?;
    for _ in 0..127 {
        octets.extend_from_slice(b"\x01A")?;
    }
    octets.extend_from_slice(b"\x00\x00\x10\x00\x01")?;
    for owner in [first, second] {
        octets.extend_from_slice(owner)?;
        octets.extend_from_slice(b"\x00\x01\x00\x01\x00\x00\x00\x00\x00\x00")?;
    }
    Ok(octets)
}

// Whether the wire form is the end of that name in small letters, without so many octets.
fn is_lowered(wire: &[u8], skipped: usize) -> bool {
    let Some((root, labels)) = wire.split_last() else {
        return false;
    };
    for (i, octet) in labels.iter().enumerate() {
        let wanted = if i % 2 == 0 { 1 } else { b'a' };
        if *octet != wanted {
            return false;
        }
    }
    *root == 0 && labels.len().saturating_add(skipped) == 254
}

// The owners of the two answers, without how many octets each is the lowered name.
const OWNERS: [([u8; 2], [u8; 2], usize, usize); 3] = [
    ([0xc0, 12], [0xc0, 12], 0, 0),
    ([0xc0, 12], [0xc0, 14], 0, 2),
    ([0xc0, 14], [0xc0, 12], 2, 0),
];

// Whether each of the two is read so.
fn lowered(alloc: Global, row: &([u8; 2], [u8; 2], usize, usize)) -> Result<bool, OutOfMemory> {
    let octets = with_owners(alloc, &row.0, &row.1)?;
    let Ok(message) = read_message(alloc, &octets) else {
        return Ok(false);
    };
    match message.answer.as_slice() {
        [first, second] => Ok(
            is_lowered(first.owner.name().wire(), row.2)
                && is_lowered(second.owner.name().wire(), row.3),
        ),
        _ => Ok(false),
    }
}

fn first_not_lowered(
    alloc: Global,
    rows: &[([u8; 2], [u8; 2], usize, usize)],
) -> Result<Option<usize>, OutOfMemory> {
    for (i, row) in rows.iter().enumerate() {
        if !lowered(alloc, row)? {
            return Ok(Some(i));
        }
    }
    Ok(None)
}

#[test]
fn a_pointer_alone_gives_the_kept_name_lowered(rt: HostRuntime) -> Result<(), Fail> {
    let wrong = first_not_lowered(rt.alloc(), &OWNERS)?;
    assert!(rt; wrong.is_none(), "{wrong:?}");

    // A label more than fits.
    let octets = with_owners(rt.alloc(), b"\xc0\x0c", b"\x01A\xc0\x0c")?;
    let fault = read_message(rt.alloc(), &octets).err();
    assert!(rt; fault == Some(WireFault::BadName { at: 283 }), "{fault:?}");
    Ok(())
}
