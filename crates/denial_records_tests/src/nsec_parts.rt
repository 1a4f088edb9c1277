use denial_records::{NsecFault, NsecParts, TypeSet};
use std::alloc::Global;
use std::test::Fail;

// alfa.example.com. NSEC host.example.com. (A MX RRSIG NSEC TYPE1234), of RFC 4034, section 4.3
const OF_ALFA: &[u8] =
    b"\x04host\x07example\x03com\x00\x00\x06\x40\x01\x00\x00\x00\x03\x04\x1b\0\0\0\0\0\0\0\0\0\0\0\0\0\0\0\0\0\0\0\0\0\0\0\0\0\0\x20";

// The first type that the set has and the list hasn't, or the other way round.
pub(crate) fn other_type(set: &TypeSet, types: &[u16]) -> Option<u16> {
    for rtype in 0..=u16::MAX {
        if set.has(rtype) != types.contains(&rtype) {
            return Some(rtype);
        }
    }
    None
}

#[test]
fn the_example_of_the_rfc_is_read(rt: HostRuntime) -> Result<(), Fail> {
    assert!(rt; OF_ALFA.len() == 55);
    let parts = NsecParts::read(rt.alloc(), OF_ALFA)?;
    let next = parts.next.wire();
    assert!(rt;
        next == b"\x04host\x07example\x03com\x00".as_slice(),
        "{next:?}"
    );
    let wrong = other_type(&parts.types, &[1, 15, 46, 47, 1234]);
    assert!(rt; wrong.is_none(), "{wrong:?}");
    Ok(())
}

// Data, and the fault.
const FAULTS: [(&[u8], Option<NsecFault>); 6] = [
    (b"", Some(NsecFault::BadName)),
    // The root's octet is missing.
    (b"\x03com", Some(NsecFault::BadName)),
    // A pointer, and no map either.
    (b"\xc0\x0c\x00", Some(NsecFault::BadName)),
    (b"\x03com\x00\x00\x01\x00", Some(NsecFault::BadMap)),
    // No types.
    (b"\x03com\x00", None),
    (b"\x00\x00\x01\x40", None),
];

// The first row that has another fault, and which.
fn read_otherwise(
    alloc: Global,
    rows: &[(&[u8], Option<NsecFault>)],
) -> Option<(usize, Option<NsecFault>)> {
    for (i, (octets, fault)) in rows.iter().enumerate() {
        let found = NsecParts::read(alloc, octets).err();
        if found != *fault {
            return Some((i, found));
        }
    }
    None
}

#[test]
fn each_fault_stands_at_its_place(rt: HostRuntime) {
    let wrong = read_otherwise(rt.alloc(), &FAULTS);
    assert!(rt; wrong.is_none(), "{wrong:?}");
}
