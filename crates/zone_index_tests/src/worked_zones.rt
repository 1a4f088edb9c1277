use dname::types::{A_TYPE, MX_TYPE, NS_TYPE, NSEC_TYPE, SRV_TYPE, TXT_TYPE};
use dname::{Name, NameFault, Octets};
use std::alloc::Global;
use std::test::Fail;
use zone_index::{LiveNames, ZoneIndex, ZoneRecords};
use zone_meaning::AddFault;

pub(crate) const APEX: &[u8] = b"\x07example\x00";

pub(crate) const WILDCARD: &[u8] = b"\x01*\x07example\x00";

pub(crate) const BELOW_WILDCARD: &[u8] = b"\x03sub\x01*\x07example\x00";

pub(crate) const HOST1: &[u8] = b"\x05host1\x07example\x00";

const SSH1: &[u8] = b"\x04_ssh\x04_tcp\x05host1\x07example\x00";

pub(crate) const SSH2: &[u8] = b"\x04_ssh\x04_tcp\x05host2\x07example\x00";

pub(crate) const SUBDEL: &[u8] = b"\x06subdel\x07example\x00";

pub(crate) const GLUE: &[u8] = b"\x02ns\x06subdel\x07example\x00";

pub(crate) const HOST_A: &[u8] = b"\xc0\x00\x02\x01";

// The zone of RFC 4592, section 2.2.1, without its SOA, and with glue below its delegation. One record is there twice.
const RECORDS: [(&[u8], u16, &[u8]); 10] = [
    (SUBDEL, NS_TYPE, b"\x02ns\x07example\x03com\x00"),
    (APEX, NS_TYPE, b"\x02ns\x07example\x03com\x00"),
    (APEX, NS_TYPE, b"\x02ns\x07example\x03net\x00"),
    (
        SSH2,
        SRV_TYPE,
        b"\x00\x00\x00\x00\x00\x16\x05host1\x07example\x00",
    ),
    (WILDCARD, TXT_TYPE, b"\x12this is a wildcard"),
    (WILDCARD, TXT_TYPE, b"\x12this is a wildcard"),
    (HOST1, A_TYPE, HOST_A),
    (
        SSH1,
        SRV_TYPE,
        b"\x00\x00\x00\x00\x00\x16\x05host1\x07example\x00",
    ),
    (BELOW_WILDCARD, TXT_TYPE, b"\x16this is not a wildcard"),
    (GLUE, A_TYPE, HOST_A),
];

// A name, and whether it is an owner, a cut, below a bar, and live.
const NAMES: [(&[u8], bool, bool, bool, bool); 8] = [
    (APEX, true, false, false, true),
    (WILDCARD, true, false, false, true),
    (HOST1, true, false, false, true),
    // An empty non-terminal.
    (
        b"\x04_tcp\x05host1\x07example\x00",
        false,
        false,
        false,
        false,
    ),
    (SUBDEL, true, true, false, true),
    (GLUE, true, false, true, false),
    (
        b"\x04host\x06subdel\x07example\x00",
        false,
        false,
        true,
        false,
    ),
    (b"\x05ghost\x07example\x00", false, false, false, false),
];

// The live names in canonical order (RFC 4034, section 6.1).
const LIVE: [&[u8]; 7] = [APEX, WILDCARD, BELOW_WILDCARD, HOST1, SSH1, SSH2, SUBDEL];

pub(crate) fn name(wire: &[u8]) -> Result<Name, NameFault> {
    let (name, _) = Name::read(wire)?;
    Ok(name)
}

pub(crate) fn zone(alloc: Global) -> Result<ZoneIndex, Fail> {
    let mut zone = ZoneRecords::at(alloc, name(APEX)?);
    for (owner, rtype, octets) in RECORDS {
        zone.add(name(owner)?, rtype, Octets::of(alloc, octets)?)?;
    }
    Ok(zone.index()?)
}

// Whether the zone says this of the name.
fn is_said(zone: &ZoneIndex, row: (&[u8], bool, bool, bool, bool)) -> Result<bool, Fail> {
    let (wire, owner, cut, barred, live) = row;
    let name = name(wire)?;
    Ok(
        zone.is_owner(&name) == owner
            && zone.is_cut(&name) == cut
            && zone.is_live(&name) == live
            && (!name.is_under(zone.apex()) || zone.is_barred(&name) == barred),
    )
}

fn wrong_name(zone: &ZoneIndex) -> Result<Option<usize>, Fail> {
    for at in 0..NAMES.len() {
        if !is_said(zone, NAMES[at])? {
            return Ok(Some(at));
        }
    }
    Ok(None)
}

#[test]
fn names_are_found(rt: HostRuntime) -> Result<(), Fail> {
    let zone = zone(rt.alloc())?;
    let wrong = wrong_name(&zone)?;
    assert!(rt; wrong.is_none(), "{wrong:?}");
    Ok(())
}

fn wrong_live(live: &LiveNames<'_>) -> Result<Option<usize>, Fail> {
    if live.len() != LIVE.len() {
        return Ok(Some(live.len()));
    }
    for at in 0..LIVE.len() {
        let next = name(LIVE[at])?;
        if *live.get(at) != next.lent() {
            return Ok(Some(at));
        }
    }
    Ok(None)
}

#[test]
fn live_names_are_in_order(rt: HostRuntime) -> Result<(), Fail> {
    let zone = zone(rt.alloc())?;
    let live = LiveNames::of(rt.alloc(), &zone)?;
    let wrong = wrong_live(&live)?;
    assert!(rt; wrong.is_none(), "{wrong:?}");
    Ok(())
}

#[test]
fn records_are_found(rt: HostRuntime) -> Result<(), Fail> {
    let zone = zone(rt.alloc())?;
    let host = name(HOST1)?;
    let found = zone.has_data(&host, A_TYPE, HOST_A) && zone.has_type(&host, A_TYPE);
    let more = zone.has_type(&host, MX_TYPE) || zone.has_data(&host, A_TYPE, b"\xc0\x00\x02\x02");
    assert!(rt; found && !more, "{found} {more}");
    Ok(())
}

#[test]
fn records_of_no_zone_are_refused(rt: HostRuntime) -> Result<(), Fail> {
    let mut zone = ZoneRecords::at(rt.alloc(), name(HOST1)?);
    let outside = zone.add(name(APEX)?, A_TYPE, Octets::of(rt.alloc(), HOST_A)?);
    let forbidden = zone.add(name(SSH1)?, NSEC_TYPE, Octets::of(rt.alloc(), HOST_A)?);
    let refused = outside == Err(AddFault::Outside) && forbidden == Err(AddFault::Forbidden);
    assert!(rt; refused, "{outside:?} {forbidden:?}");
    Ok(())
}
