use audit_source::{AuditSource, SourceFault, read_source};
use dname::types::{A_TYPE, SOA_TYPE};
use dname::{Name, OutOfMemory};
use std::alloc::Global;
use std::test::Fail;
use zone_index::ZoneIndex;

// The zone of the first worked run: three records, of which the apex has an SOA, and a and b have an address.
const APEX: &[u8] = b"\x00\x09\x07example\x00";

const THREE: &[u8] = b"\x00\x00\x00\x03";

const TWO: &[u8] = b"\x00\x00\x00\x02";

const ONE: &[u8] = b"\x00\x00\x00\x01";

const NONE: &[u8] = b"\x00\x00\x00\x00";

const SOA: &[u8] =
    b"\x00\x09\x07example\x00\x00\x06\x00\x16\x00\x00\x00\x00\x00\x01\x00\x00\x0e\x10\x00\x00\x02\x58\x00\x01\x51\x80\x00\x00\x01\x2c";

const SOA_DATA: &[u8] =
    b"\x00\x00\x00\x00\x00\x01\x00\x00\x0e\x10\x00\x00\x02\x58\x00\x01\x51\x80\x00\x00\x01\x2c";

const FIRST: &[u8] = b"\x00\x0b\x01a\x07example\x00\x00\x01\x00\x04\xc0\x00\x02\x01";

const LAST: &[u8] = b"\x00\x0b\x01B\x07eXAMPLE\x00\x00\x01\x00\x04\xc0\x00\x02\x01";

// The address of another zone's name, and of a name whose last labels aren't the apex.
const OTHER: &[u8] = b"\x00\x03\x01b\x00\x00\x01\x00\x04\xc0\x00\x02\x01";

const NEAR: &[u8] = b"\x00\x0a\x08xexample\x00\x00\x01\x00\x04\xc0\x00\x02\x01";

// Records that a zone's own are none of.
const NSEC: &[u8] = b"\x00\x0b\x01a\x07example\x00\x00\x2f\x00\x00";

const RRSIG: &[u8] = b"\x00\x0b\x01a\x07example\x00\x00\x2e\x00\x00";

const NSEC3: &[u8] = b"\x00\x0b\x01a\x07example\x00\x00\x32\x00\x00";

// An RRSIG of another zone.
const BOTH: &[u8] = b"\x00\x03\x01b\x00\x00\x2e\x00\x00";

const RUN: &[u8] = b"\x00\x00\x00\x02in\x00\x00\x00\x03out";

const NO_RUN: &[u8] = b"\x00\x00\x00\x00\x00\x00\x00\x00";

// Four labels, and the root.
const LONGEST: &[u8] =
    b"\x3fppppppppppppppppppppppppppppppppppppppppppppppppppppppppppppppp\x3fppppppppppppppppppppppppppppppppppppppppppppppppppppppppppppppp\x3fppppppppppppppppppppppppppppppppppppppppppppppppppppppppppppppp\x3dppppppppppppppppppppppppppppppppppppppppppppppppppppppppppppp\x00";

const LABEL_64: &[u8] = b"pppppppppppppppppppppppppppppppppppppppppppppppppppppppppppppppp";

// Octets, and the fault of those that aren't a source.
const ROWS: [(&[&[u8]], Option<SourceFault>); 33] = [
    (&[APEX, THREE, SOA, FIRST, LAST, RUN], None),
    // A record may come twice, and in any order.
    (&[APEX, THREE, LAST, SOA, LAST, RUN], None),
    (&[APEX, NONE, NO_RUN], None),
    // The root has every name.
    (&[b"\x00\x01\x00", ONE, OTHER, RUN], None),
    // A name of 255 octets is told in two.
    (&[b"\x00\xff", LONGEST, NONE, NO_RUN], None),
    // No length, half a length, no form, a form that ends early, and one that goes on behind the name.
    (&[], Some(SourceFault::Form)),
    (&[b"\x00"], Some(SourceFault::Form)),
    (&[b"\x00\x00", NONE, NO_RUN], Some(SourceFault::Form)),
    (
        &[b"\x00\x08\x07example", NONE, NO_RUN],
        Some(SourceFault::Form),
    ),
    (
        &[b"\x00\x0a\x07example\x00\x00", NONE, NO_RUN],
        Some(SourceFault::Form),
    ),
    // A pointer, and a label of 64 octets.
    (
        &[b"\x00\x02\xc0\x00", NONE, NO_RUN],
        Some(SourceFault::Form),
    ),
    (
        &[b"\x00\x42\x40", LABEL_64, b"\x00", NONE, NO_RUN],
        Some(SourceFault::Form),
    ),
    // One record too many for any zone.
    (&[APEX, b"\x00\x01\x00\x01", RUN], Some(SourceFault::Form)),
    // Fewer records than are told, and more.
    (&[APEX, THREE, SOA, FIRST], Some(SourceFault::Form)),
    (&[APEX, b"\x00\x01\x00\x00"], Some(SourceFault::Form)),
    (&[APEX, ONE, SOA, FIRST, RUN], Some(SourceFault::Form)),
    // The run is cut: in the input, before the output, in the output.
    (&[APEX, NONE, b"\x00\x00\x00\x02i"], Some(SourceFault::Form)),
    (
        &[APEX, NONE, b"\x00\x00\x00\x02in\x00\x00\x00"],
        Some(SourceFault::Form),
    ),
    (
        &[APEX, NONE, b"\x00\x00\x00\x02in\x00\x00\x00\x03ou"],
        Some(SourceFault::Form),
    ),
    // A length of which the highest octet counts.
    (
        &[APEX, NONE, b"\x01\x00\x00\x02in\x00\x00\x00\x03out"],
        Some(SourceFault::Form),
    ),
    (&[APEX, ONE, OTHER, RUN], Some(SourceFault::Outside)),
    (&[APEX, ONE, NEAR, RUN], Some(SourceFault::Outside)),
    (&[APEX, ONE, RRSIG, RUN], Some(SourceFault::Forbidden)),
    (&[APEX, ONE, NSEC, RUN], Some(SourceFault::Forbidden)),
    (&[APEX, ONE, NSEC3, RUN], Some(SourceFault::Forbidden)),
    // A record with both faults, and the first of two with one.
    (&[APEX, ONE, BOTH, RUN], Some(SourceFault::Outside)),
    (
        &[APEX, THREE, SOA, OTHER, NSEC, RUN],
        Some(SourceFault::Outside),
    ),
    (
        &[APEX, THREE, NSEC, OTHER, SOA, RUN],
        Some(SourceFault::Forbidden),
    ),
    // Something follows.
    (
        &[APEX, THREE, SOA, FIRST, LAST, RUN, b"\x00"],
        Some(SourceFault::Trailing),
    ),
    // The form goes before records, and these before what follows.
    (
        &[APEX, TWO, OTHER, SOA, b"\x00\x00\x00\x02in"],
        Some(SourceFault::Form),
    ),
    (&[APEX, TWO, NSEC, b"\x00\x00"], Some(SourceFault::Form)),
    (
        &[APEX, ONE, OTHER, RUN, b"\x00"],
        Some(SourceFault::Outside),
    ),
    (
        &[APEX, ONE, NSEC, RUN, b"\x00"],
        Some(SourceFault::Forbidden),
    ),
];

fn joined(alloc: Global, pieces: &[&[u8]]) -> Result<Vec<u8>, OutOfMemory> {
    let mut octets = Vec::new(alloc);
    for piece in pieces {
        octets.extend_from_slice(piece)?;
    }
    Ok(octets)
}

fn wrong_row(alloc: Global) -> Result<Option<usize>, OutOfMemory> {
    for at in 0..ROWS.len() {
        let (pieces, fault) = ROWS[at];
        let octets = joined(alloc, pieces)?;
        if read_source(alloc, octets.as_slice()).err() != fault {
            return Ok(Some(at));
        }
    }
    Ok(None)
}

#[test]
fn each_fault_is_told(rt: HostRuntime) -> Result<(), Fail> {
    let wrong = wrong_row(rt.alloc())?;
    assert!(rt; wrong.is_none(), "{wrong:?}");
    Ok(())
}

// Whether the zone has the record, whose wire form is in small letters.
fn has(zone: &ZoneIndex, owner: &[u8], rtype: u16, data: &[u8]) -> bool {
    match Name::read(owner) {
        Ok((owner, _)) => zone.has_data(&owner, rtype, data),
        Err(_) => false,
    }
}

fn is_whole(source: &AuditSource<'_>) -> bool {
    let address = b"\xc0\x00\x02\x01";
    source.zone.apex().wire() == b"\x07example\x00".as_slice()
        && has(&source.zone, b"\x07example\x00", SOA_TYPE, SOA_DATA)
        && has(&source.zone, b"\x01a\x07example\x00", A_TYPE, address)
        && has(&source.zone, b"\x01b\x07example\x00", A_TYPE, address)
        && source.input == b"in".as_slice()
        && source.output == b"out".as_slice()
}

#[test]
fn a_source_is_its_zone_and_run(rt: HostRuntime) -> Result<(), Fail> {
    let alloc = rt.alloc();
    let octets = joined(alloc, &[APEX, THREE, SOA, FIRST, LAST, RUN])?;
    let whole = match read_source(alloc, octets.as_slice()) {
        Ok(source) => is_whole(&source),
        Err(_) => false,
    };
    assert!(rt; whole);
    Ok(())
}
