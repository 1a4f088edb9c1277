//! The answers that RFC 4035 and RFC 5155 work out, as far as held records give them, and TTLs.

use crate::records::name;
use denial_records::{
    Batch, KeptNsec, KeptNsec3, KeptSet, Kind, Nsec3Rec, NsecRec, Record, RecordList, SetRec,
    TypeSet, Verdict,
};
use dname::{NameFault, Octets, OctetsList, OutOfMemory};
use nsec3_hash::from_base32hex;
use record_store::Store;
use resolver::prove;
use std::alloc::Global;
use std::test::Fail;

const THEN: u32 = 1_083_000_000;

const ZONE: &[u8] = b"\x07example\x00";

// The data of the SOA of RFC 4035, appendix A: its MINIMUM is 3,600.
const SOA_DATA: &[u8] =
    b"\x03ns1\x07example\x00\x04bugs\x01x\x01w\x07example\x00\x40\x76\xdb\x31\x00\x00\x0e\x10\x00\x00\x01\x2c\x00\x36\xee\x80\x00\x00\x0e\x10";

const SALT: [u8; 4] = [0xAA, 0xBB, 0xCC, 0xDD];

fn list_of(alloc: Global, octets: &[u8]) -> Result<OctetsList, OutOfMemory> {
    let mut list = OctetsList::empty(alloc);
    list.push(Octets::of(alloc, octets)?)?;
    Ok(list)
}

fn set(
    alloc: Global,
    zone: &[u8],
    owner: &[u8],
    rtype: u16,
    life: u32,
    octets: &[u8],
) -> Result<Record, Fail> {
    let set = SetRec {
        zone: name(zone)?,
        owner: name(owner)?,
        rtype,
        life,
        expiry: u64::from(THEN) + u64::from(life),
        items: list_of(alloc, octets)?,
        signatures: list_of(alloc, b"")?,
    };
    Ok(Record::Set(KeptSet::of(alloc, &set)?))
}

fn nsec(alloc: Global, owner: &[u8], next: &[u8], types: &[u8], life: u32) -> Result<Record, Fail> {
    let nsec = NsecRec {
        zone: name(ZONE)?,
        owner: name(owner)?,
        next: name(next)?,
        types: TypeSet::read(alloc, types)?,
        life,
        expiry: u64::from(THEN) + u64::from(life),
        image: Octets::of(alloc, b"")?,
        signatures: list_of(alloc, b"")?,
    };
    Ok(Record::Nsec(KeptNsec::of(alloc, &nsec)?))
}

fn nsec3(
    alloc: Global,
    hash: &[u8],
    next: &[u8],
    types: &[u8],
    iterations: u16,
    opt_out: bool,
) -> Result<Record, Fail> {
    let nsec3 = Nsec3Rec {
        zone: name(ZONE)?,
        hash: from_base32hex(hash).unwrap_or([0; 20]),
        next: from_base32hex(next).unwrap_or([0; 20]),
        salt: Octets::of(alloc, &SALT)?,
        iterations,
        opt_out,
        types: TypeSet::read(alloc, types)?,
        life: 3600,
        expiry: u64::from(THEN) + 3600,
        image: Octets::of(alloc, b"")?,
        signatures: list_of(alloc, b"")?,
    };
    Ok(Record::Nsec3(KeptNsec3::of(alloc, &nsec3)?))
}

fn with(store: &Store, alloc: Global, now: u32, item: Record) -> Result<Store, Fail> {
    let mut batch = Batch {
        now,
        records: RecordList::empty(alloc),
    };
    batch.records.push(item)?;
    Ok(store.with_batch(alloc, &batch)?)
}

fn denials(verdict: &Verdict<'_>) -> u8 {
    u8::from(verdict.first.is_some())
        + u8::from(verdict.second.is_some())
        + u8::from(verdict.third.is_some())
}

// What is said, by how many denial records, and the TTL.
fn said(
    store: &Store,
    wire: &[u8],
    qtype: u16,
    now: u32,
) -> Result<Option<(Kind, u8, u32)>, NameFault> {
    Ok(prove(store, &name(wire)?, qtype, now).map(|verdict| (
        verdict.kind,
        denials(&verdict),
        verdict.ttl,
    )))
}

// The zone's SOA.
fn zone_with_soa(alloc: Global) -> Result<Store, Fail> {
    let soa = set(alloc, ZONE, ZONE, 6, 3600, SOA_DATA)?;
    with(&Store::empty(alloc)?, alloc, THEN, soa)
}

// The NSEC records of RFC 4035, appendix A.
const NSECS: [(&[u8], &[u8], &[u8]); 10] = [
    (
        ZONE,
        b"\x01a\x07example\x00",
        b"\x00\x07\x22\x01\x00\x00\x00\x03\x80",
    ),
    (
        b"\x01a\x07example\x00",
        b"\x02ai\x07example\x00",
        b"\x00\x06\x20\x00\x00\x00\x00\x13",
    ),
    (
        b"\x02ai\x07example\x00",
        b"\x01b\x07example\x00",
        b"\x00\x06\x40\x04\x00\x08\x00\x03",
    ),
    (
        b"\x01b\x07example\x00",
        b"\x03ns1\x07example\x00",
        b"\x00\x06\x20\x00\x00\x00\x00\x03",
    ),
    (
        b"\x03ns1\x07example\x00",
        b"\x03ns2\x07example\x00",
        b"\x00\x06\x40\x00\x00\x00\x00\x03",
    ),
    (
        b"\x03ns2\x07example\x00",
        b"\x01*\x01w\x07example\x00",
        b"\x00\x06\x40\x00\x00\x00\x00\x03",
    ),
    (
        b"\x01*\x01w\x07example\x00",
        b"\x01x\x01w\x07example\x00",
        b"\x00\x06\x00\x01\x00\x00\x00\x03",
    ),
    (
        b"\x01x\x01w\x07example\x00",
        b"\x01x\x01y\x01w\x07example\x00",
        b"\x00\x06\x00\x01\x00\x00\x00\x03",
    ),
    (
        b"\x01x\x01y\x01w\x07example\x00",
        b"\x02xx\x07example\x00",
        b"\x00\x06\x00\x01\x00\x00\x00\x03",
    ),
    (
        b"\x02xx\x07example\x00",
        ZONE,
        b"\x00\x06\x40\x04\x00\x08\x00\x03",
    ),
];

// The NSEC records of RFC 4035, appendix A, with its SOA and the MX of its wildcard.
fn signed_zone(alloc: Global) -> Result<Store, Fail> {
    let mut store = zone_with_soa(alloc)?;
    let wildcard = set(alloc, ZONE, b"\x01*\x01w\x07example\x00", 15, 3600, b"")?;
    store = with(&store, alloc, THEN, wildcard)?;
    for (owner, next, types) in NSECS {
        let item = nsec(alloc, owner, next, types, 3600)?;
        store = with(&store, alloc, THEN, item)?;
    }
    Ok(store)
}

// The answers of RFC 4035, appendix B, as far as kept NSEC records give them: kind, denial records and TTL.
const ANSWERS: [(&[u8], u16, Option<(Kind, u8, u32)>); 15] = [
    // A name error (B.2).
    (b"\x02ml\x07example\x00", 1, Some((Kind::NxDomain, 2, 3600))),
    // No data (B.3), in any case of letters.
    (b"\x03ns1\x07example\x00", 15, Some((Kind::NoData, 1, 3600))),
    (b"\x03NS1\x07eXample\x00", 15, Some((Kind::NoData, 1, 3600))),
    (b"\x03ns1\x07example\x00", 1, None),
    // Below a signed and an unsigned cut (B.4, B.5); no DS at the latter, and no more is known there.
    (b"\x02mc\x01a\x07example\x00", 15, None),
    (b"\x02mc\x01b\x07example\x00", 15, None),
    (b"\x01b\x07example\x00", 43, Some((Kind::NoData, 1, 3600))),
    (b"\x01b\x07example\x00", 1, None),
    // A wildcard answers (B.6), and has no such data (B.7).
    (
        b"\x01a\x01z\x01w\x07example\x00",
        15,
        Some((Kind::Answer, 1, 3600)),
    ),
    (
        b"\x01a\x01z\x01w\x07example\x00",
        28,
        Some((Kind::NoData, 2, 3600)),
    ),
    // The DS of the apex is its parent's (B.8).
    (b"\x07example\x00", 43, None),
    (b"\x07example\x00", 1, Some((Kind::NoData, 1, 3600))),
    // A name that exists without records, a name behind the last one, and one of no zone.
    (
        b"\x01y\x01w\x07example\x00",
        1,
        Some((Kind::NoData, 1, 3600)),
    ),
    (b"\x01z\x07example\x00", 1, Some((Kind::NxDomain, 2, 3600))),
    (b"\x03com\x00", 1, None),
];

type Said = Option<(Kind, u8, u32)>;

// The first row that is answered otherwise, and how.
fn first_wrong(
    store: &Store,
    rows: &[(&[u8], u16, Said)],
) -> Result<Option<(usize, Said)>, NameFault> {
    for (i, (wire, qtype, expected)) in rows.iter().enumerate() {
        let found = said(store, wire, *qtype, THEN)?;
        if found != *expected {
            return Ok(Some((i, found)));
        }
    }
    Ok(None)
}

#[test]
fn the_zone_of_rfc_4035(rt: HostRuntime) -> Result<(), Fail> {
    let store = signed_zone(rt.alloc())?;
    let wrong = first_wrong(&store, &ANSWERS)?;
    assert!(rt; wrong.is_none(), "{wrong:?}");
    let records = store.len();
    assert!(rt; records == 12, "{records}");
    Ok(())
}

// The NSEC3 records of RFC 5155, appendix A: hash, next hash and types.
const NSEC3S: [(&[u8], &[u8], &[u8]); 12] = [
    (
        b"0p9mhaveqvm6t7vbl5lop2u3t2rp3tom",
        b"2t7b4g4vsa5smi47k61mv5bv1a22bojr",
        b"\x00\x07\x22\x01\x00\x00\x00\x02\x90",
    ),
    (
        b"2t7b4g4vsa5smi47k61mv5bv1a22bojr",
        b"2vptu5timamqttgl4luu9kg21e0aor3s",
        b"\x00\x06\x40\x00\x00\x00\x00\x02",
    ),
    (
        b"2vptu5timamqttgl4luu9kg21e0aor3s",
        b"35mthgpgcu1qg68fab165klnsnk3dpvl",
        b"\x00\x06\x00\x01\x00\x00\x00\x02",
    ),
    (
        b"35mthgpgcu1qg68fab165klnsnk3dpvl",
        b"b4um86eghhds6nea196smvmlo4ors995",
        b"\x00\x06\x20\x00\x00\x00\x00\x12",
    ),
    (
        b"b4um86eghhds6nea196smvmlo4ors995",
        b"gjeqe526plbf1g8mklp59enfd789njgi",
        b"\x00\x06\x00\x01\x00\x00\x00\x02",
    ),
    (
        b"gjeqe526plbf1g8mklp59enfd789njgi",
        b"ji6neoaepv8b5o6k4ev33abha8ht9fgc",
        b"\x00\x06\x40\x04\x00\x08\x00\x02",
    ),
    (
        b"ji6neoaepv8b5o6k4ev33abha8ht9fgc",
        b"k8udemvp1j2f7eg6jebps17vp3n8i58h",
        b"",
    ),
    (
        b"k8udemvp1j2f7eg6jebps17vp3n8i58h",
        b"kohar7mbb8dc2ce8a9qvl8hon4k53uhi",
        b"",
    ),
    (
        b"kohar7mbb8dc2ce8a9qvl8hon4k53uhi",
        b"q04jkcevqvmu85r014c7dkba38o0ji5r",
        b"\x00\x06\x40\x00\x00\x00\x00\x02",
    ),
    (
        b"q04jkcevqvmu85r014c7dkba38o0ji5r",
        b"r53bq7cc2uvmubfu5ocmm6pers9tk9en",
        b"\x00\x06\x40\x00\x00\x00\x00\x02",
    ),
    (
        b"r53bq7cc2uvmubfu5ocmm6pers9tk9en",
        b"t644ebqk9bibcna874givr6joj62mlhv",
        b"\x00\x06\x00\x01\x00\x00\x00\x02",
    ),
    (
        b"t644ebqk9bibcna874givr6joj62mlhv",
        b"0p9mhaveqvm6t7vbl5lop2u3t2rp3tom",
        b"\x00\x06\x40\x04\x00\x08\x00\x02",
    ),
];

// The zone of RFC 5155 with the Opt-Out flag as given.
fn hashed_zone(alloc: Global, opt_out: bool) -> Result<Store, Fail> {
    let mut store = zone_with_soa(alloc)?;
    let wildcard = set(alloc, ZONE, b"\x01*\x01w\x07example\x00", 15, 3600, b"")?;
    store = with(&store, alloc, THEN, wildcard)?;
    for (hash, next, types) in NSEC3S {
        let item = nsec3(alloc, hash, next, types, 12, opt_out)?;
        store = with(&store, alloc, THEN, item)?;
    }
    Ok(store)
}

// The answers of RFC 5155, appendix B, and whether they rest on a covered name.
const HASHED_ANSWERS: [(&[u8], u16, Option<(Kind, u8, u32)>, bool); 7] = [
    // A name error (B.1).
    (
        b"\x01a\x01c\x01x\x01w\x07example\x00",
        1,
        Some((Kind::NxDomain, 3, 3600)),
        true,
    ),
    // No data (B.2), and a name without records (B.2.1).
    (
        b"\x03ns1\x07example\x00",
        15,
        Some((Kind::NoData, 1, 3600)),
        false,
    ),
    (
        b"\x01y\x01w\x07example\x00",
        1,
        Some((Kind::NoData, 1, 3600)),
        false,
    ),
    // A wildcard answers (B.4), and has no such data (B.5).
    (
        b"\x01a\x01z\x01w\x07example\x00",
        15,
        Some((Kind::Answer, 1, 3600)),
        true,
    ),
    (
        b"\x01a\x01z\x01w\x07example\x00",
        28,
        Some((Kind::NoData, 3, 3600)),
        true,
    ),
    // The DS of the apex is its parent's (B.6).
    (b"\x07example\x00", 43, None, true),
    // Below a signed cut.
    (b"\x02mc\x01a\x07example\x00", 15, None, true),
];

// The answers of RFC 5155, appendix B. With the flag as there, what rests on a covered name is forwarded (RFC 8198, section
// 5.2); with the flag clear the same records prove it.
// The first row that is answered otherwise by the zone with the flag clear, or by that with the flag set, and how by the two.
fn first_hashed_wrong(
    clear: &Store,
    published: &Store,
    rows: &[(&[u8], u16, Said, bool)],
) -> Result<Option<(usize, Said, Said)>, NameFault> {
    for (i, (wire, qtype, expected, by_cover)) in rows.iter().enumerate() {
        let found = said(clear, wire, *qtype, THEN)?;
        let spanned = said(published, wire, *qtype, THEN)?;
        let wanted = if *by_cover { None } else { *expected };
        if found != *expected || spanned != wanted {
            return Ok(Some((i, found, spanned)));
        }
    }
    Ok(None)
}

#[test]
fn the_zone_of_rfc_5155(rt: HostRuntime) -> Result<(), Fail> {
    let published = hashed_zone(rt.alloc(), true)?;
    let clear = hashed_zone(rt.alloc(), false)?;
    let wrong = first_hashed_wrong(&clear, &published, &HASHED_ANSWERS)?;
    assert!(rt; wrong.is_none(), "{wrong:?}");
    let records = published.len();
    assert!(rt; records == 14, "{records}");
    Ok(())
}

// An SOA's life, its MINIMUM, an NSEC's life, the seconds gone, and the TTL of the denial.
const LIVES: [(u32, u32, u32, u32, Option<u32>); 9] = [
    (3600, 3600, 3600, 0, Some(3600)),
    (3600, 3600, 3600, 3599, Some(1)),
    (3600, 3600, 3600, 3600, None),
    (7200, 7200, 3600, 3600, None),
    (3600, 7200, 7200, 3600, None),
    (7200, 300, 3600, 3200, Some(300)),
    (7200, 300, 3600, 3400, Some(200)),
    (7200, 0, 3600, 0, Some(0)),
    (900, 3600, 3600, 100, Some(800)),
];

const HOST: &[u8] = b"\x03ns1\x07example\x00";

// A zone of an SOA with that life and MINIMUM, and an NSEC record with that life.
fn zone_of_lives(
    alloc: Global,
    soa_life: u32,
    minimum: u32,
    nsec_life: u32,
) -> Result<Store, Fail> {
    let mut octets = [0_u8; 22];
    octets[18..].copy_from_slice(&u32::to_be_bytes(minimum));
    let soa = set(alloc, ZONE, ZONE, 6, soa_life, &octets)?;
    let store = with(&Store::empty(alloc)?, alloc, THEN, soa)?;
    let next = b"\x03ns2\x07example\x00";
    let item = nsec(alloc, HOST, next, b"\x00\x01\x40", nsec_life)?;
    with(&store, alloc, THEN, item)
}

fn ttl_after(store: &Store, after: u32) -> Result<Option<u32>, NameFault> {
    Ok(said(store, HOST, 15, THEN.saturating_add(after))?.map(|said| said.2))
}

#[test]
fn a_ttl_is_the_least_that_is_left(rt: HostRuntime) -> Result<(), Fail> {
    for (soa_life, minimum, nsec_life, after, expected) in LIVES {
        let store = zone_of_lives(rt.alloc(), soa_life, minimum, nsec_life)?;
        let ttl = ttl_after(&store, after)?;
        assert!(rt;
            ttl == expected,
            "{soa_life} {minimum} {nsec_life} {after}: {ttl:?}"
        );
    }
    Ok(())
}
