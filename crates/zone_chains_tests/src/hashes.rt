//! The hashes that a chain keeps.

use super::records::{example, name, zone_of};
use dname::NameFault;
use std::test::Fail;
use zone_chains::ZoneRecords;

// The hashes of `example` and `*.example` by a salt of one octet, 1, and 12 iterations, and of `example` by the salt 2, as Python's
// hashlib takes them.
const OF_APEX: [u8; 20] = [
    0x01, 0x60, 0x2e, 0x2a, 0xdb, 0xd0, 0x30, 0x25, 0x9a, 0xd1, 0x46, 0x8a, 0x9c, 0xe0, 0x0c, 0x0d,
    0x57, 0x2f, 0x63, 0x1a,
];

const OF_WILDCARD: [u8; 20] = [
    0xdf, 0xd3, 0x21, 0x51, 0x6a, 0xd1, 0x70, 0x8d, 0xac, 0xc0, 0xb0, 0xac, 0xe1, 0x3f, 0x13, 0xb2,
    0x57, 0x5f, 0xb4, 0xe6,
];

const OF_APEX_BY_TWO: [u8; 20] = [
    0x42, 0xa6, 0xc8, 0xcc, 0x83, 0x00, 0xeb, 0x0d, 0xab, 0x88, 0xf5, 0x8b, 0x42, 0xa4, 0x22, 0x93,
    0x31, 0x8c, 0x26, 0x73,
];

// The label in front of `example`, or 0 for `example` itself; the salt, the iterations, and the hash that is kept.
type Asked = (u8, u8, u16, Option<[u8; 20]>);

const KEPT: [Asked; 6] = [
    (0, 1, 12, Some(OF_APEX)),
    (b'*', 1, 12, Some(OF_WILDCARD)),
    (0, 2, 12, Some(OF_APEX_BY_TWO)),
    (b'a', 1, 12, None),
    (0, 3, 12, None),
    (0, 1, 11, None),
];

fn kept(
    zone: &ZoneRecords,
    octet: u8,
    salt: u8,
    iterations: u16,
) -> Result<Option<[u8; 20]>, NameFault> {
    let name = if octet == 0 { example()? } else { name(octet)? };
    Ok(match zone.kept_hash(&name, &[salt], iterations) {
        Some(hash) => Some(*hash),
        None => None,
    })
}

// The first of which another hash is kept, or none, and what is.
fn first_wrong(
    zone: &ZoneRecords,
    rows: &[Asked],
) -> Result<Option<(Asked, Option<[u8; 20]>)>, NameFault> {
    for (octet, salt, iterations, wanted) in rows {
        let found = kept(zone, *octet, *salt, *iterations)?;
        if found != *wanted {
            return Ok(Some(((*octet, *salt, *iterations, *wanted), found)));
        }
    }
    Ok(None)
}

#[test]
fn a_chain_keeps_two_hashes(rt: HostRuntime) -> Result<(), Fail> {
    let alloc = rt.alloc();
    let bare = kept(&zone_of(alloc, &[])?, 0, 1, 12)?;
    assert!(rt; bare.is_none(), "{bare:?}");
    let zone = zone_of(alloc, &[(1, 10, 20), (2, 10, 30)])?;
    let wrong = first_wrong(&zone, &KEPT)?;
    assert!(rt; wrong.is_none(), "{wrong:?}");
    Ok(())
}
