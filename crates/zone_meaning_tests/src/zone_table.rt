use dname::types::{
    A_TYPE, CNAME_TYPE, DNAME_TYPE, DS_TYPE, MX_TYPE, NS_TYPE, NSEC_TYPE, RRSIG_TYPE, SRV_TYPE,
    TXT_TYPE,
};
use dname::{Name, NameFault, Octets};
use std::alloc::Global;
use std::test::Fail;
use zone_meaning::{AddFault, Looked, ZoneTable};

const APEX: &[u8] = b"\x07example\x00";

const HOST_A: &[u8] = b"\xc0\x00\x02\x01";

const HOST_MX: &[u8] = b"\x00\x0a\x05host1\x07example\x00";

const WILDCARD_TXT: &[u8] = b"\x12this is a wildcard";

const SSH: &[u8] = b"\x00\x00\x00\x00\x00\x16\x05host1\x07example\x00";

const NS_COM: &[u8] = b"\x02ns\x07example\x03com\x00";

const NS_NET: &[u8] = b"\x02ns\x07example\x03net\x00";

// The zone of RFC 4592, section 2.2.1, without its SOA, and below it an alias, a DNAME, and wildcards with NS and with a
// DNAME. One record is there twice.
const RECORDS: [(&[u8], u16, &[u8]); 20] = [
    (APEX, NS_TYPE, NS_COM),
    (APEX, NS_TYPE, NS_NET),
    (b"\x01*\x07example\x00", TXT_TYPE, WILDCARD_TXT),
    (b"\x01*\x07example\x00", MX_TYPE, HOST_MX),
    (b"\x01*\x07example\x00", MX_TYPE, HOST_MX),
    (
        b"\x03sub\x01*\x07example\x00",
        TXT_TYPE,
        b"\x16this is not a wildcard",
    ),
    (b"\x05host1\x07example\x00", A_TYPE, HOST_A),
    (b"\x04_ssh\x04_tcp\x05host1\x07example\x00", SRV_TYPE, SSH),
    (b"\x04_ssh\x04_tcp\x05host2\x07example\x00", SRV_TYPE, SSH),
    (b"\x06subdel\x07example\x00", NS_TYPE, NS_COM),
    (b"\x06subdel\x07example\x00", NS_TYPE, NS_NET),
    (b"\x05alias\x07example\x00", CNAME_TYPE, NS_NET),
    (b"\x05alias\x07example\x00", CNAME_TYPE, NS_COM),
    (b"\x05moved\x07example\x00", DNAME_TYPE, NS_COM),
    (b"\x03low\x05moved\x07example\x00", NS_TYPE, NS_COM),
    (b"\x04both\x07example\x00", DNAME_TYPE, NS_COM),
    (b"\x04both\x07example\x00", NS_TYPE, NS_COM),
    (b"\x01*\x03cut\x07example\x00", NS_TYPE, NS_COM),
    (b"\x01*\x05dname\x07example\x00", DNAME_TYPE, NS_COM),
    (b"\x01*\x05dname\x07example\x00", A_TYPE, HOST_A),
];

// The answer in a word, and its data or name.
const LOOKUPS: [(&[u8], u16, &str, &[u8]); 24] = [
    // Those of RFC 4592, section 2.2.1, and the empty non-terminal of section 2.2.2.
    (b"\x05host3\x07example\x00", MX_TYPE, "answer", HOST_MX),
    (b"\x05host3\x07example\x00", A_TYPE, "no data", b""),
    (
        b"\x03foo\x03bar\x07example\x00",
        TXT_TYPE,
        "answer",
        WILDCARD_TXT,
    ),
    (b"\x05host1\x07example\x00", MX_TYPE, "no data", b""),
    (b"\x03sub\x01*\x07example\x00", MX_TYPE, "no data", b""),
    (
        b"\x07_telnet\x04_tcp\x05host1\x07example\x00",
        SRV_TYPE,
        "no name",
        b"",
    ),
    (
        b"\x04host\x06subdel\x07example\x00",
        A_TYPE,
        "referral",
        b"\x06subdel\x07example\x00",
    ),
    (b"\x05ghost\x01*\x07example\x00", MX_TYPE, "no name", b""),
    (
        b"\x04_tcp\x05host1\x07example\x00",
        SRV_TYPE,
        "no data",
        b"",
    ),
    // A host, in any case of letters.
    (b"\x05HOST1\x07Example\x00", A_TYPE, "answer", HOST_A),
    // At a cut the parent answers for the DS alone.
    (
        b"\x06subdel\x07example\x00",
        NS_TYPE,
        "referral",
        b"\x06subdel\x07example\x00",
    ),
    (b"\x06subdel\x07example\x00", DS_TYPE, "no data", b""),
    // Of two aliases the least.
    (b"\x05alias\x07example\x00", A_TYPE, "alias", NS_COM),
    // A DNAME at the name, above it, and above a cut.
    (b"\x05moved\x07example\x00", A_TYPE, "no data", b""),
    (b"\x05moved\x07example\x00", DNAME_TYPE, "answer", NS_COM),
    (
        b"\x01x\x05moved\x07example\x00",
        A_TYPE,
        "redirect",
        b"\x05moved\x07example\x00",
    ),
    (
        b"\x01x\x03low\x05moved\x07example\x00",
        A_TYPE,
        "redirect",
        b"\x05moved\x07example\x00",
    ),
    // A cut goes before a DNAME at the same name.
    (
        b"\x01x\x04both\x07example\x00",
        A_TYPE,
        "referral",
        b"\x04both\x07example\x00",
    ),
    (b"\x04both\x07example\x00", DS_TYPE, "no data", b""),
    // Wildcards with NS and with a DNAME.
    (b"\x01x\x03cut\x07example\x00", A_TYPE, "undefined", b""),
    (b"\x01x\x05dname\x07example\x00", MX_TYPE, "undefined", b""),
    (b"\x01x\x05dname\x07example\x00", A_TYPE, "answer", HOST_A),
    // An empty non-terminal above a wildcard, and the wildcard's own name.
    (b"\x03cut\x07example\x00", A_TYPE, "no data", b""),
    (b"\x01*\x07example\x00", MX_TYPE, "answer", HOST_MX),
];

fn name_of(wire: &[u8]) -> Result<Name, NameFault> {
    let (name, _) = Name::read(wire)?;
    Ok(name)
}

fn add(
    table: &mut ZoneTable,
    alloc: Global,
    owner: &[u8],
    rtype: u16,
    octets: &[u8],
) -> Result<(), Fail> {
    table.add(name_of(owner)?, rtype, Octets::of(alloc, octets)?)?;
    Ok(())
}

// The answer in a word, and whether its data or name is as wanted.
fn said(looked: &Looked<'_>, wanted: &[u8]) -> (&'static str, bool) {
    match looked {
        Looked::Answer(items) => (
            "answer",
            items.len() == 1 && items.get(0).as_slice() == wanted,
        ),
        Looked::Alias(octets) => ("alias", octets.as_slice() == wanted),
        Looked::NoData => ("no data", true),
        Looked::NxDomain => ("no name", true),
        Looked::Referral(cut) => ("referral", cut.wire() == wanted),
        Looked::Redirect(owner) => ("redirect", owner.wire() == wanted),
        Looked::Undefined => ("undefined", true),
    }
}

// A lookup in a word, and whether its data or name is as wanted; a name outside the zone isn't looked up.
fn looked_up(
    table: &ZoneTable,
    wire: &[u8],
    qtype: u16,
    wanted: &[u8],
) -> Result<(&'static str, bool), NameFault> {
    let name = name_of(wire)?;
    if name.is_under(table.apex()) {
        Ok(said(&table.lookup(&name, qtype), wanted))
    } else {
        Ok(("outside", false))
    }
}

type Row = (&'static [u8], u16, &'static str, &'static [u8]);

// The first row that is looked up otherwise, and what was found.
fn first_wrong(
    table: &ZoneTable,
    rows: &[Row],
) -> Result<Option<(usize, &'static str, bool)>, NameFault> {
    for (i, (wire, qtype, word, wanted)) in rows.iter().enumerate() {
        let (found, is_wanted) = looked_up(table, wire, *qtype, wanted)?;
        if found != *word || !is_wanted {
            return Ok(Some((i, found, is_wanted)));
        }
    }
    Ok(None)
}

fn filled(alloc: Global) -> Result<ZoneTable, Fail> {
    let mut table = ZoneTable::at(alloc, name_of(APEX)?);
    for (owner, rtype, octets) in RECORDS {
        add(&mut table, alloc, owner, rtype, octets)?;
    }
    Ok(table)
}

#[test]
fn lookups_of_worked_zones(rt: HostRuntime) -> Result<(), Fail> {
    let table = filled(rt.alloc())?;
    let wrong = first_wrong(&table, &LOOKUPS)?;
    assert!(rt; wrong.is_none(), "{wrong:?}");
    Ok(())
}

// How many records of NS the apex has; none where the lookup says that there is no name.
fn servers(table: &ZoneTable) -> Option<usize> {
    let apex = table.apex();
    match table.lookup(apex, NS_TYPE) {
        Looked::Answer(items) => Some(items.len()),
        Looked::NxDomain => None,
        _ => Some(0),
    }
}

#[test]
fn sets_are_whole_and_an_empty_zone_has_no_name(rt: HostRuntime) -> Result<(), Fail> {
    let alloc = rt.alloc();
    let mut table = ZoneTable::at(alloc, name_of(APEX)?);
    let before = servers(&table);
    for octets in [NS_COM, NS_NET, NS_COM] {
        add(&mut table, alloc, APEX, NS_TYPE, octets)?;
    }
    let found = (before, servers(&table));
    assert!(rt; found == (None, Some(2)), "{found:?}");
    Ok(())
}

const REFUSED: [(&[u8], u16, AddFault); 4] = [
    (b"\x08xexample\x00", A_TYPE, AddFault::Outside),
    (b"\x00", RRSIG_TYPE, AddFault::Outside),
    (APEX, RRSIG_TYPE, AddFault::Forbidden),
    (APEX, NSEC_TYPE, AddFault::Forbidden),
];

// How the record is refused by an empty zone.
fn refused(alloc: Global, owner: &[u8], rtype: u16) -> Result<Option<AddFault>, Fail> {
    let mut table = ZoneTable::at(alloc, name_of(APEX)?);
    let added = table.add(name_of(owner)?, rtype, Octets::of(alloc, HOST_A)?);
    Ok(added.err())
}

#[test]
fn what_a_zone_has_not(rt: HostRuntime) -> Result<(), Fail> {
    for (owner, rtype, wanted) in REFUSED {
        let found = refused(rt.alloc(), owner, rtype)?;
        assert!(rt; found == Some(wanted), "{owner:?} {found:?}");
    }
    Ok(())
}
