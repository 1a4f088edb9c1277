use crate::nsec_parts::other_type;
use denial_records::{Nsec3Fault, Nsec3Parts};
use std::alloc::{AllocError, Global};
use std::test::Fail;

// Two NSEC3 records of RFC 5155, appendix B, after their fixed parts and the salt aabbccdd.
// 0p9mhaveqvm6t7vbl5lop2u3t2rp3tom.example. NSEC3 1 1 12 aabbccdd (
//     2t7b4g4vsa5smi47k61mv5bv1a22bojr MX DNSKEY NS SOA NSEC3PARAM RRSIG)
const OF_APEX: &[u8] =
    b"\x01\x01\x00\x0c\x04\xaa\xbb\xcc\xdd\x14\x17\x4e\xb2\x40\x9f\xe2\x8b\xcb\x48\x87\xa1\x83\x6f\x95\x7f\x0a\x84\x25\xe2\x7b\x00\x07\x22\x01\x00\x00\x00\x02\x90";
// 35mthgpgcu1qg68fab165klnsnk3dpvl.example. NSEC3 1 1 12 aabbccdd (
//     b4um86eghhds6nea196smvmlo4ors995 NS DS RRSIG)
const OF_A: &[u8] =
    b"\x01\x01\x00\x0c\x04\xaa\xbb\xcc\xdd\x14\x59\x3d\x64\x19\xd0\x8c\x5b\xc3\x5d\xca\x0a\x4d\xcb\x7e\xd5\xc1\x31\xbe\x25\x25\x00\x06\x20\x00\x00\x00\x00\x12";

// The next hashed owner names of the two.
const AFTER_APEX: [u8; 20] = [
    0x17, 0x4e, 0xb2, 0x40, 0x9f, 0xe2, 0x8b, 0xcb, 0x48, 0x87, 0xa1, 0x83, 0x6f, 0x95, 0x7f, 0x0a,
    0x84, 0x25, 0xe2, 0x7b,
];

const AFTER_A: [u8; 20] = [
    0x59, 0x3d, 0x64, 0x19, 0xd0, 0x8c, 0x5b, 0xc3, 0x5d, 0xca, 0x0a, 0x4d, 0xcb, 0x7e, 0xd5, 0xc1,
    0x31, 0xbe, 0x25, 0x25,
];

// The algorithm, the flags and the iterations, whether the salt and the next hashed owner name are these, and the first type
// that is told otherwise.
fn parts(
    alloc: Global,
    octets: &[u8],
    salt: &[u8],
    next: &[u8; 20],
    types: &[u16],
) -> Result<((u8, u8, u16), (bool, bool), Option<u16>), Nsec3Fault> {
    let parts = Nsec3Parts::read(alloc, octets)?;
    Ok((
        (parts.algorithm, parts.flags, parts.iterations),
        (parts.salt.as_slice() == salt, parts.next == *next),
        other_type(&parts.types, types),
    ))
}

#[test]
fn the_examples_of_the_rfc_are_read(rt: HostRuntime) -> Result<(), Fail> {
    let (alloc, salt) = (rt.alloc(), b"\xaa\xbb\xcc\xdd".as_slice());
    let found = parts(alloc, OF_APEX, salt, &AFTER_APEX, &[2, 6, 15, 46, 48, 51])?;
    assert!(rt; found == ((1, 1, 12), (true, true), None), "{found:?}");
    let found = parts(alloc, OF_A, salt, &AFTER_A, &[2, 43, 46])?;
    assert!(rt; found == ((1, 1, 12), (true, true), None), "{found:?}");
    Ok(())
}

// 255 octets, each another.
fn long_salt(alloc: Global) -> Result<Vec<u8>, AllocError> {
    let mut salt = Vec::new(alloc);
    for octet in 0..255 {
        salt.push(octet)?;
    }
    Ok(salt)
}

// The second record with that salt, other flags and 258 iterations.
fn with_salt(alloc: Global, salt: &[u8]) -> Result<Vec<u8>, AllocError> {
    let mut octets = Vec::from_slice(alloc, b"\x01\x00\x01\x02\xff")?;
    octets.extend_from_slice(salt)?;
    octets.extend_from_slice(&OF_A[9..])?;
    Ok(octets)
}

#[test]
fn a_salt_may_have_255_octets(rt: HostRuntime) -> Result<(), Fail> {
    let alloc = rt.alloc();
    let salt = long_salt(alloc)?;
    let octets = with_salt(alloc, salt.as_slice())?;
    let found = parts(
        alloc,
        octets.as_slice(),
        salt.as_slice(),
        &AFTER_A,
        &[2, 43, 46],
    )?;
    assert!(rt; found == ((1, 0, 258), (true, true), None), "{found:?}");
    Ok(())
}

// How many octets of the second record there are, and the fault.
const SIZES: [(usize, Option<Nsec3Fault>); 10] = [
    (0, Some(Nsec3Fault::Short)),
    (4, Some(Nsec3Fault::Short)),
    (5, Some(Nsec3Fault::Short)),
    // The salt is whole, and the hash's length is missing.
    (9, Some(Nsec3Fault::Short)),
    (10, Some(Nsec3Fault::Short)),
    (29, Some(Nsec3Fault::Short)),
    // No types.
    (30, None),
    (31, Some(Nsec3Fault::BadMap)),
    (37, Some(Nsec3Fault::BadMap)),
    (38, None),
];

// The first size that has another fault, and which.
fn cut_otherwise(
    alloc: Global,
    rows: &[(usize, Option<Nsec3Fault>)],
) -> Option<(usize, Option<Nsec3Fault>)> {
    for (size, fault) in rows.iter() {
        let size = (*size).min(OF_A.len());
        let found = Nsec3Parts::read(alloc, &OF_A[..size]).err();
        if found != *fault {
            return Some((size, found));
        }
    }
    None
}

// How long the hash is said to be, and the fault.
const HASH_SIZES: [(u8, Option<Nsec3Fault>); 6] = [
    (0, Some(Nsec3Fault::BadHash)),
    (19, Some(Nsec3Fault::BadHash)),
    (20, None),
    (21, Some(Nsec3Fault::BadHash)),
    (28, Some(Nsec3Fault::BadHash)),
    // Past the end, and no SHA-1 hash either.
    (29, Some(Nsec3Fault::Short)),
];

// The first of them that has another fault, and which.
fn hashed_otherwise(
    alloc: Global,
    rows: &[(u8, Option<Nsec3Fault>)],
) -> Result<Option<(u8, Option<Nsec3Fault>)>, AllocError> {
    for (hash_size, fault) in rows.iter() {
        let mut octets = Vec::from_slice(alloc, OF_A)?;
        octets[9] = *hash_size;
        let found = Nsec3Parts::read(alloc, octets.as_slice()).err();
        if found != *fault {
            return Ok(Some((*hash_size, found)));
        }
    }
    Ok(None)
}

#[test]
fn each_fault_stands_at_its_place(rt: HostRuntime) -> Result<(), Fail> {
    let wrong = cut_otherwise(rt.alloc(), &SIZES);
    assert!(rt; wrong.is_none(), "{wrong:?}");
    let wrong = hashed_otherwise(rt.alloc(), &HASH_SIZES)?;
    assert!(rt; wrong.is_none(), "{wrong:?}");
    Ok(())
}
