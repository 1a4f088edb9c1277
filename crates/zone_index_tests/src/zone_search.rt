use crate::worked_zones::{
    APEX, BELOW_WILDCARD, GLUE, HOST_A, HOST1, SSH2, SUBDEL, WILDCARD, name, zone,
};
use denial_records::{Denial, KeptNsec, KeptNsec3, KeptSet, Nsec3Rec, NsecRec, SetRec, TypeSet};
use dname::types::{A_TYPE, MX_TYPE, NS_TYPE};
use dname::{Octets, OctetsList};
use nsec3_hash::hash_name;
use std::alloc::Global;
use std::test::Fail;
use zone_index::ZoneSearch;

// A RRSIG NSEC
const OF_HOST: &[u8] = b"\x00\x06\x40\x00\x00\x00\x00\x03";

// NS RRSIG NSEC
const OF_APEX: &[u8] = b"\x00\x06\x20\x00\x00\x00\x00\x03";

// TXT RRSIG NSEC
const OF_WILDCARD: &[u8] = b"\x00\x06\x00\x00\x80\x00\x00\x03";

// An NSEC's owner, next owner and types, and whether it is true of the zone.
const NSECS: [(&[u8], &[u8], &[u8], bool); 7] = [
    (APEX, WILDCARD, OF_APEX, true),
    (BELOW_WILDCARD, HOST1, OF_WILDCARD, true),
    // Not the next owner.
    (BELOW_WILDCARD, SSH2, OF_WILDCARD, false),
    // A type that isn't there, and one that isn't listed.
    (
        BELOW_WILDCARD,
        HOST1,
        b"\x00\x06\x40\x00\x80\x00\x00\x03",
        false,
    ),
    (
        BELOW_WILDCARD,
        HOST1,
        b"\x00\x06\x00\x00\x00\x00\x00\x03",
        false,
    ),
    // Over the end of the order.
    (SUBDEL, APEX, OF_APEX, true),
    // Below a cut.
    (GLUE, APEX, OF_HOST, false),
];

// An owner, type and data, and whether the set of them is true of the zone.
const SETS: [(&[u8], u16, &[u8], bool); 5] = [
    (HOST1, A_TYPE, HOST_A, true),
    (HOST1, A_TYPE, b"\xc0\x00\x02\x02", false),
    (HOST1, MX_TYPE, HOST_A, false),
    (GLUE, A_TYPE, HOST_A, false),
    // A cut's own servers.
    (SUBDEL, NS_TYPE, b"\x02ns\x07example\x03com\x00", false),
];

fn nsec(alloc: Global, owner: &[u8], next: &[u8], types: &[u8]) -> Result<KeptNsec, Fail> {
    let nsec = NsecRec {
        zone: name(APEX)?,
        owner: name(owner)?,
        next: name(next)?,
        types: TypeSet::read(alloc, types)?,
        life: 3600,
        expiry: 1045762263,
        image: Octets::of(alloc, b"")?,
        signatures: OctetsList::empty(alloc),
    };
    Ok(KeptNsec::of(alloc, &nsec)?)
}

fn set(alloc: Global, owner: &[u8], rtype: u16, item: &[u8]) -> Result<KeptSet, Fail> {
    let mut items = OctetsList::empty(alloc);
    items.push(Octets::of(alloc, item)?)?;
    let set = SetRec {
        zone: name(APEX)?,
        owner: name(owner)?,
        rtype,
        life: 3600,
        expiry: 1045762263,
        items,
        signatures: OctetsList::empty(alloc),
    };
    Ok(KeptSet::of(alloc, &set)?)
}

// An Opt-Out record of a name's hash.
fn nsec3(alloc: Global, owner: &[u8], types: &[u8]) -> Result<KeptNsec3, Fail> {
    let nsec3 = Nsec3Rec {
        zone: name(APEX)?,
        hash: hash_name(&name(owner)?, b"\xaa\xbb", 12),
        next: [0; 20],
        salt: Octets::of(alloc, b"\xaa\xbb")?,
        iterations: 12,
        opt_out: true,
        types: TypeSet::read(alloc, types)?,
        life: 3600,
        expiry: 1045762263,
        image: Octets::of(alloc, b"")?,
        signatures: OctetsList::empty(alloc),
    };
    Ok(KeptNsec3::of(alloc, &nsec3)?)
}

// The first row of an NSEC of which the search says otherwise.
fn wrong_nsec(alloc: Global, search: &mut ZoneSearch<'_>) -> Result<Option<usize>, Fail> {
    for at in 0..NSECS.len() {
        let (owner, next, types, is) = NSECS[at];
        let kept = nsec(alloc, owner, next, types)?;
        if search.is_true_denial(&Denial::Nsec(&kept))? != is {
            return Ok(Some(at));
        }
    }
    Ok(None)
}

#[test]
fn nsec_records_are_true_or_not(rt: HostRuntime) -> Result<(), Fail> {
    let zone = zone(rt.alloc())?;
    let mut search = ZoneSearch::of(rt.alloc(), &zone)?;
    let wrong = wrong_nsec(rt.alloc(), &mut search)?;
    assert!(rt; wrong.is_none(), "{wrong:?}");
    Ok(())
}

fn wrong_set(alloc: Global, search: &ZoneSearch<'_>) -> Result<Option<usize>, Fail> {
    for at in 0..SETS.len() {
        let (owner, rtype, item, is) = SETS[at];
        let kept = set(alloc, owner, rtype, item)?;
        if search.is_true_set(&kept)? != is {
            return Ok(Some(at));
        }
    }
    Ok(None)
}

#[test]
fn sets_are_true_or_not(rt: HostRuntime) -> Result<(), Fail> {
    let zone = zone(rt.alloc())?;
    let search = ZoneSearch::of(rt.alloc(), &zone)?;
    let wrong = wrong_set(rt.alloc(), &search)?;
    assert!(rt; wrong.is_none(), "{wrong:?}");
    Ok(())
}

#[test]
fn nsec3_records_are_true_or_not(rt: HostRuntime) -> Result<(), Fail> {
    let zone = zone(rt.alloc())?;
    let mut search = ZoneSearch::of(rt.alloc(), &zone)?;
    let kept = nsec3(rt.alloc(), HOST1, OF_HOST)?;
    let other = nsec3(rt.alloc(), HOST1, OF_APEX)?;
    let is = search.is_true_denial(&Denial::Nsec3(&kept))?;
    let others = search.is_true_denial(&Denial::Nsec3(&other))?;
    let free = search.is_clash_free(&Denial::Nsec3(&kept), &name(HOST1)?)?;
    assert!(rt; is && !others && free, "{is} {others} {free}");
    Ok(())
}
