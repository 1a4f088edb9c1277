use crate::nsec_parts::other_type;
use denial_records::{MapFault, TypeSet};
use dname::OutOfMemory;
use std::alloc::Global;
use std::test::Fail;

// A RRSIG NSEC
const OF_A: &[u8] = b"\x00\x06\x40\x00\x00\x00\x00\x03";

// Type bit maps, and the types that they stand for.
const MAPS: [(&[u8], &[u16]); 6] = [
    (b"", &[]),
    (OF_A, &[1, 46, 47]),
    // NS SOA RRSIG NSEC
    (b"\x00\x06\x22\x00\x00\x00\x00\x03", &[2, 6, 46, 47]),
    // NS SOA RRSIG NSEC3PARAM
    (b"\x00\x07\x22\x00\x00\x00\x00\x02\x10", &[2, 6, 46, 51]),
    // NS RRSIG NSEC
    (b"\x00\x06\x20\x00\x00\x00\x00\x03", &[2, 46, 47]),
    // A RRSIG NSEC and TYPE1234
    (
        b"\x00\x06\x40\x00\x00\x00\x00\x03\x04\x1b\0\0\0\0\0\0\0\0\0\0\0\0\0\0\0\0\0\0\0\0\0\0\0\0\0\0\x20",
        &[1, 46, 47, 1234],
    ),
];

// The first map of which the set, or its copy, has another type, and that type.
fn read_otherwise(
    alloc: Global,
    rows: &[(&[u8], &[u16])],
) -> Result<Option<(usize, Option<u16>, Option<u16>)>, Fail> {
    for (i, (octets, types)) in rows.iter().enumerate() {
        let set = TypeSet::read(alloc, octets)?;
        let copy = set.copy(alloc)?;
        let found = (other_type(&set, types), other_type(&copy, types));
        if found != (None, None) {
            return Ok(Some((i, found.0, found.1)));
        }
    }
    Ok(None)
}

#[test]
fn maps_stand_for_their_types(rt: HostRuntime) -> Result<(), Fail> {
    let wrong = read_otherwise(rt.alloc(), &MAPS)?;
    assert!(rt; wrong.is_none(), "{wrong:?}");
    Ok(())
}

// Every window with every type, but for the map's last octet.
fn every_window(alloc: Global, last: u8) -> Result<Vec<u8>, OutOfMemory> {
    let mut octets = Vec::new(alloc);
    for window in 0..=255 {
        octets.push(window)?;
        octets.push(32)?;
        for _ in 0..32 {
            octets.push(0xff)?;
        }
    }
    octets.pop();
    octets.push(last)?;
    Ok(octets)
}

// The first of these types that the set lacks.
fn lacks(set: &TypeSet, types: &[u16]) -> Option<u16> {
    for rtype in types {
        if !set.has(*rtype) {
            return Some(*rtype);
        }
    }
    None
}

#[test]
fn the_longest_map_has_every_type(rt: HostRuntime) -> Result<(), Fail> {
    let octets = every_window(rt.alloc(), 0xff)?;
    assert!(rt; octets.len() == 8704);
    let set = TypeSet::read(rt.alloc(), octets.as_slice())?;
    let wrong = lacks(&set, &[0, 1, 255, 256, 32768, 65534, 65535]);
    assert!(rt; wrong.is_none(), "{wrong:?}");
    Ok(())
}

#[test]
fn the_longest_map_with_a_trailing_zero_is_refused(rt: HostRuntime) -> Result<(), Fail> {
    let octets = every_window(rt.alloc(), 0)?;
    let found = TypeSet::read(rt.alloc(), octets.as_slice()).err();
    assert!(rt; found == Some(MapFault::BadMap), "{found:?}");
    Ok(())
}

const REFUSED: [(&str, &[u8]); 11] = [
    ("a window alone", b"\x00"),
    ("no bitmap", b"\x00\x01"),
    ("a length of 0", b"\x00\x00"),
    ("a length of 0 before a block", b"\x00\x00\x01\x01\x40"),
    (
        "a length of 33",
        b"\x00\x21\x01\x01\x01\x01\x01\x01\x01\x01\x01\x01\x01\x01\x01\x01\x01\x01\x01\x01\x01\x01\x01\x01\x01\x01\x01\x01\x01\x01\x01\x01\x01\x01\x01",
    ),
    ("a bitmap past the end", b"\x00\x06\x40\x00\x00\x00\x00"),
    ("a zero octet alone", b"\x00\x01\x00"),
    ("a zero octet last", b"\x00\x07\x40\x00\x00\x00\x00\x03\x00"),
    ("a window twice", b"\x00\x01\x40\x00\x01\x20"),
    ("windows that fall", b"\x01\x01\x40\x00\x01\x40"),
    ("an octet after the blocks", b"\x00\x01\x40\x01"),
];

// The place of the first row that isn't refused as no map, and what was found.
fn refused_otherwise(alloc: Global, rows: &[(&str, &[u8])]) -> Option<(usize, Option<MapFault>)> {
    for (i, (_, octets)) in rows.iter().enumerate() {
        let found = TypeSet::read(alloc, octets).err();
        if found != Some(MapFault::BadMap) {
            return Some((i, found));
        }
    }
    None
}

#[test]
fn other_octets_are_refused(rt: HostRuntime) {
    let wrong = refused_otherwise(rt.alloc(), &REFUSED);
    assert!(rt; wrong.is_none(), "{wrong:?}");
}

// A MX RRSIG NSEC and TYPE1234, of RFC 4034, section 4.3
const MAP_OF_ALFA: &[u8] =
    b"\x00\x06\x40\x01\x00\x00\x00\x03\x04\x1b\0\0\0\0\0\0\0\0\0\0\0\0\0\0\0\0\0\0\0\0\0\0\0\0\0\0\x20";

// The types 1, 263, 264, 767, 768 and 65535, in blocks of the windows 0, 1, 2, 3 and 255.
const OF_FIVE: &[u8] =
    b"\x00\x01\x40\x01\x02\x01\x80\x02\x20\0\0\0\0\0\0\0\0\0\0\0\0\0\0\0\0\0\0\0\0\0\0\0\0\0\0\0\0\0\0\0\x01\x03\x01\x80\xff\x20\0\0\0\0\0\0\0\0\0\0\0\0\0\0\0\0\0\0\0\0\0\0\0\0\0\0\0\0\0\0\0\x01";

// Type bit maps, a type, and the least of theirs that isn't below it.
const NEXT: [(&[u8], u16, Option<u16>); 24] = [
    (b"", 0, None),
    (b"", 65535, None),
    (MAP_OF_ALFA, 0, Some(1)),
    (MAP_OF_ALFA, 1, Some(1)),
    (MAP_OF_ALFA, 2, Some(15)),
    (MAP_OF_ALFA, 16, Some(46)),
    (MAP_OF_ALFA, 47, Some(47)),
    // The first bitmap has 48 bits.
    (MAP_OF_ALFA, 48, Some(1234)),
    (MAP_OF_ALFA, 255, Some(1234)),
    // Between the blocks, and at the front of the second window.
    (MAP_OF_ALFA, 512, Some(1234)),
    (MAP_OF_ALFA, 1024, Some(1234)),
    (MAP_OF_ALFA, 1234, Some(1234)),
    (MAP_OF_ALFA, 1235, None),
    (MAP_OF_ALFA, 1280, None),
    (MAP_OF_ALFA, 65535, None),
    (OF_FIVE, 2, Some(263)),
    (OF_FIVE, 256, Some(263)),
    (OF_FIVE, 264, Some(264)),
    (OF_FIVE, 265, Some(767)),
    (OF_FIVE, 767, Some(767)),
    (OF_FIVE, 768, Some(768)),
    (OF_FIVE, 769, Some(65535)),
    (OF_FIVE, 65280, Some(65535)),
    (OF_FIVE, 65535, Some(65535)),
];

// The place of the first row that has another next type, and which.
fn next_otherwise(
    alloc: Global,
    rows: &[(&[u8], u16, Option<u16>)],
) -> Result<Option<(usize, Option<u16>)>, Fail> {
    for (i, (octets, rtype, next)) in rows.iter().enumerate() {
        let set = TypeSet::read(alloc, octets)?;
        let found = set.lent().next_from(*rtype);
        if found != *next {
            return Ok(Some((i, found)));
        }
    }
    Ok(None)
}

#[test]
fn the_next_type_is_the_least_from_there_on(rt: HostRuntime) -> Result<(), Fail> {
    let wrong = next_otherwise(rt.alloc(), &NEXT)?;
    assert!(rt; wrong.is_none(), "{wrong:?}");
    Ok(())
}
