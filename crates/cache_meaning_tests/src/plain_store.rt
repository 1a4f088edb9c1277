//! What the plain store holds and lends.

use cache_meaning::{Chain, HeldZone, Place, PlainStore, PlainZone, is_forwarded};
use denial_records::{
    Batch, KeptNsec, KeptNsec3, KeptSet, Nsec3Rec, NsecRec, Record, RecordList, SetRec, TypeSet,
};
use dname::{Name, NameFault, Octets, OctetsList};
use nsec3_hash::{from_base32hex, hash_name};
use std::alloc::Global;
use std::test::Fail;

const THEN: u32 = 1_083_000_000;

const EXPIRY: u64 = 1_083_003_600;

const ZONE: &[u8] = b"\x07example\x00";

const SALT: [u8; 4] = [0xAA, 0xBB, 0xCC, 0xDD];

fn name(wire: &[u8]) -> Result<Name, NameFault> {
    let (name, _) = Name::read(wire)?;
    Ok(name)
}

fn set(alloc: Global, owner: &[u8], rtype: u16) -> Result<Record, Fail> {
    let set = SetRec {
        zone: name(ZONE)?,
        owner: name(owner)?,
        rtype,
        life: 3600,
        expiry: EXPIRY,
        items: OctetsList::empty(alloc),
        signatures: OctetsList::empty(alloc),
    };
    Ok(Record::Set(KeptSet::of(alloc, &set)?))
}

fn nsec(alloc: Global, owner: &[u8], next: &[u8]) -> Result<Record, Fail> {
    let nsec = NsecRec {
        zone: name(ZONE)?,
        owner: name(owner)?,
        next: name(next)?,
        types: TypeSet::read(alloc, b"\x00\x01\x40")?,
        life: 3600,
        expiry: EXPIRY,
        image: Octets::of(alloc, b"")?,
        signatures: OctetsList::empty(alloc),
    };
    Ok(Record::Nsec(KeptNsec::of(alloc, &nsec)?))
}

fn nsec3(alloc: Global, hash: &[u8], next: &[u8], iterations: u16) -> Result<Record, Fail> {
    let nsec3 = Nsec3Rec {
        zone: name(ZONE)?,
        hash: from_base32hex(hash).unwrap_or([0; 20]),
        next: from_base32hex(next).unwrap_or([0; 20]),
        salt: Octets::of(alloc, &SALT)?,
        iterations,
        opt_out: false,
        types: TypeSet::read(alloc, b"")?,
        life: 3600,
        expiry: EXPIRY,
        image: Octets::of(alloc, b"")?,
        signatures: OctetsList::empty(alloc),
    };
    Ok(Record::Nsec3(KeptNsec3::of(alloc, &nsec3)?))
}

fn with(store: &PlainStore, alloc: Global, item: Record) -> Result<PlainStore, Fail> {
    let mut batch = Batch {
        now: THEN,
        records: RecordList::empty(alloc),
    };
    batch.records.push(item)?;
    Ok(store.with_batch(alloc, &batch)?)
}

// A zone by its SOA.
fn zone_with_soa(alloc: Global) -> Result<PlainStore, Fail> {
    with(&PlainStore::empty(alloc), alloc, set(alloc, ZONE, 6)?)
}

// A zone of an SOA and an NSEC record, to which an NSEC3 record with each of these iterations came; none where it has
// other than three records behind one of them.
fn zone_of_three_chains(alloc: Global, iterations: &[u16]) -> Result<PlainStore, Fail> {
    let first = b"0p9mhaveqvm6t7vbl5lop2u3t2rp3tom".as_slice();
    let own = nsec(alloc, ZONE, b"\x01a\x07example\x00")?;
    let mut store = with(&zone_with_soa(alloc)?, alloc, own)?;
    for iterations in iterations {
        let item = nsec3(alloc, first, first, *iterations)?;
        store = with(&store, alloc, item)?;
        if store.len() != 3 {
            return Err("not three records")?;
        }
    }
    Ok(store)
}

// The iterations of an NSEC3 chain with the salt.
fn iterations_of(chain: Chain<'_>) -> Option<u16> {
    match chain {
        Chain::Nsec3 { salt, iterations } if salt == SALT.as_slice() => Some(iterations),
        _ => None,
    }
}

// A zone goes from NSEC to NSEC3, and then changes its iterations: the third chain goes with its record.
#[test]
fn a_zone_keeps_its_two_newest_chains(rt: HostRuntime) -> Result<(), Fail> {
    let alloc = rt.alloc();
    let store = zone_of_three_chains(alloc, &[12, 11])?;
    let Some(zone) = store.zone_for(&name(b"\x01a\x07example\x00")?, 1) else {
        panic!(rt; "no zone");
    };
    let [newer, older] = zone.chains();
    let found = (iterations_of(newer), iterations_of(older));
    assert!(rt; found == (Some(11), Some(12)), "{found:?}");
    let apex = name(ZONE)?;
    assert!(rt; zone.apex() == &apex && zone.nsec_at(&apex).is_none());
    Ok(())
}

// Where the name stands in the arc of the record of b.example, if that is the one that has it.
fn place_at_b(zone: &PlainZone<'_>, wire: &[u8]) -> Result<Option<Place>, NameFault> {
    let owner = name(b"\x01b\x07example\x00")?;
    match zone.nsec_at(&name(wire)?) {
        Some((found, at)) if found.owner().name() == owner => Ok(Some(at)),
        _ => Ok(None),
    }
}

// A zone of an SOA, the NSEC record of b.example and the MX of a wildcard.
fn zone_with_an_arc(alloc: Global) -> Result<PlainStore, Fail> {
    let arc = nsec(alloc, b"\x01b\x07example\x00", b"\x03ns1\x07example\x00")?;
    let store = with(&zone_with_soa(alloc)?, alloc, arc)?;
    with(&store, alloc, set(alloc, b"\x01*\x01w\x07example\x00", 15)?)
}

#[test]
fn what_a_zone_lends(rt: HostRuntime) -> Result<(), Fail> {
    let store = zone_with_an_arc(rt.alloc())?;
    // Expired records are lent too. A DS is asked of the zone above.
    let Some(zone) = store.zone_for(&name(b"\x01b\x07example\x00")?, 43) else {
        panic!(rt; "no zone");
    };
    assert!(rt; matches!(zone.chains(), [Chain::Nsec, Chain::Bare]));
    let wildcard = name(b"\x01*\x01w\x07example\x00")?;
    let sets = [15, 1].map(|rtype| zone.set_at(&wildcard, rtype).is_some());
    assert!(rt; sets == [true, false], "{sets:?}");
    let places = (
        place_at_b(&zone, b"\x01b\x07example\x00")?,
        place_at_b(&zone, b"\x01c\x07example\x00")?,
    );
    assert!(rt;
        places == (Some(Place::Start), Some(Place::Inside)),
        "{places:?}"
    );
    assert!(rt; store.zone_for(&name(ZONE)?, 43).is_none());
    Ok(())
}

// Two NSEC3 records of RFC 5155, appendix A, of which the second is that of ns1.example.
const NSEC3S: [(&[u8], &[u8]); 2] = [
    (
        b"0p9mhaveqvm6t7vbl5lop2u3t2rp3tom",
        b"2t7b4g4vsa5smi47k61mv5bv1a22bojr",
    ),
    (
        b"2t7b4g4vsa5smi47k61mv5bv1a22bojr",
        b"2vptu5timamqttgl4luu9kg21e0aor3s",
    ),
];

fn hashed_zone(alloc: Global) -> Result<PlainStore, Fail> {
    let mut store = zone_with_soa(alloc)?;
    for (hash, next) in NSEC3S {
        store = with(&store, alloc, nsec3(alloc, hash, next, 12)?)?;
    }
    Ok(store)
}

// Where the name's hash stands in the arc of the record that has it.
fn hashed_place(
    zone: &PlainZone<'_>,
    wire: &[u8],
    iterations: u16,
) -> Result<Option<Place>, NameFault> {
    let hash = hash_name(&name(wire)?, &SALT, iterations);
    match zone.nsec3_at(&SALT, iterations, &hash) {
        Some((_, place)) => Ok(Some(place)),
        None => Ok(None),
    }
}

#[test]
fn what_a_hashed_zone_lends(rt: HostRuntime) -> Result<(), Fail> {
    let store = hashed_zone(rt.alloc())?;
    let Some(zone) = store.zone_for(&name(ZONE)?, 1) else {
        panic!(rt; "no zone");
    };
    // The last is of no chain that is held.
    let places = (
        hashed_place(&zone, b"\x03ns1\x07example\x00", 12)?,
        hashed_place(&zone, b"\x01c\x01x\x01w\x07example\x00", 12)?,
        hashed_place(&zone, b"\x03ns1\x07example\x00", 11)?,
    );
    assert!(rt;
        places == (Some(Place::Start), Some(Place::Inside), None),
        "{places:?}"
    );
    Ok(())
}

const FORWARDED: [(u16, bool); 15] = [
    (0, true),
    (1, false),
    (41, true),
    (43, false),
    (46, true),
    (47, true),
    (48, false),
    (50, true),
    (51, false),
    (127, false),
    (128, true),
    (250, true),
    (255, true),
    (256, false),
    (257, false),
];

#[test]
fn some_queries_are_forwarded(rt: HostRuntime) -> Result<(), Fail> {
    for (qtype, expected) in FORWARDED {
        assert!(rt; is_forwarded(qtype) == expected, "{qtype}");
    }
    Ok(())
}
