//! Walks to denials, over zones that expire apart, and up to the longest names: how long their replies are, and with which RCODE.

use crate::records::{
    A, ADDRESS, CNAME, DNAME, SOA, SOA_DATA, nsec, nsec3, question, replied_after, set, set_in,
    store_of,
};
use denial_records::RecordList;
use dnswire::Edns;
use record_store::Store;
use reply_core::ReplyBuffer;
use resolver::Rule;
use std::alloc::Global;
use std::test::Fail;

const EDNS: Edns = Edns {
    size: 1232,
    dnssec: false,
};

const DNSSEC: Edns = Edns {
    size: 1232,
    dnssec: true,
};

/// A question, the seconds after which it is asked, and the octets of its reply and its RCODE: none where it is forwarded.
#[derive(Debug, Drop)]
struct Row {
    rule: Rule,
    asked: &'static [u8],
    qtype: u16,
    edns: Option<Edns>,
    seconds: u16,
    octets: usize,
    rcode: u8,
}

fn early(rule: Rule, asked: &'static [u8], edns: Option<Edns>, octets: usize, rcode: u8) -> Row {
    Row {
        rule,
        asked,
        qtype: A,
        edns,
        seconds: 10,
        octets,
        rcode,
    }
}

fn later(rule: Rule, asked: &'static [u8], seconds: u16, octets: usize) -> Row {
    Row {
        rule,
        asked,
        qtype: A,
        edns: None,
        seconds,
        octets,
        rcode: 0,
    }
}

fn holds(store: &Store, row: &Row) -> Result<bool, Fail> {
    let question = question(row.asked, row.qtype, row.edns)?;
    let mut out = ReplyBuffer::new();
    let origin = replied_after(store, row.rule, &question, row.seconds, &mut out);
    let octets = out.as_slice();
    let rcode = if octets.len() > 3 { octets[3] % 16 } else { 0 };
    Ok(origin.is_some() == (row.octets > 0) && octets.len() == row.octets && rcode == row.rcode)
}

// The place of the first row that doesn't hold.
fn first_wrong(store: &Store, rows: &[Row]) -> Result<Option<usize>, Fail> {
    for place in 0..rows.len() {
        if !holds(store, &rows[place])? {
            return Ok(Some(place));
        }
    }
    Ok(None)
}

// Aliases to a name that a wildcard answers, to one that NSEC denies, and to names of two zones with NSEC3, of which one has
// Opt-Out.
fn put_aliases(alloc: Global, records: &mut RecordList) -> Result<(), Fail> {
    records.push(set(
        alloc,
        b"\x01a\x07example\x00",
        CNAME,
        b"\x01w\x07example\x00",
    )?)?;
    records.push(set(
        alloc,
        b"\x01b\x07example\x00",
        CNAME,
        b"\x01d\x01z\x07example\x00",
    )?)?;
    records.push(set(alloc, b"\x01c\x07example\x00", CNAME, b"\x02zz\x04test\x00")?)?;
    records.push(set(alloc, b"\x01e\x07example\x00", CNAME, b"\x02zz\x03opt\x00")?)?;
    Ok(())
}

fn put_denials(alloc: Global, records: &mut RecordList) -> Result<(), Fail> {
    records.push(set(alloc, b"\x01*\x07example\x00", A, ADDRESS)?)?;
    records.push(nsec(alloc, b"\x01v\x07example\x00", b"\x01x\x07example\x00")?)?;
    records.push(nsec(alloc, b"\x01z\x07example\x00", b"\x01f\x01z\x07example\x00")?)?;
    records.push(nsec3(alloc, b"\x04test\x00", false)?)?;
    records.push(nsec3(alloc, b"\x03opt\x00", true)?)?;
    records.push(set(alloc, b"\x07example\x00", SOA, SOA_DATA)?)?;
    let test = b"\x04test\x00";
    records.push(set_in(alloc, test, test, SOA, SOA_DATA, 3600)?)?;
    let opt = b"\x03opt\x00";
    records.push(set_in(alloc, opt, opt, SOA, SOA_DATA, 3600)?)?;
    Ok(())
}

#[test]
fn aliases_lead_to_denials(rt: HostRuntime) -> Result<(), Fail> {
    let alloc = rt.alloc();
    let mut records = RecordList::empty(alloc);
    put_aliases(alloc, &mut records)?;
    put_denials(alloc, &mut records)?;
    let store = store_of(alloc, records)?;
    let a = b"\x01a\x07example\x00".as_slice();
    let b = b"\x01b\x07example\x00".as_slice();
    let c = b"\x01c\x07example\x00".as_slice();
    let e = b"\x01e\x07example\x00".as_slice();
    // With DO signatures of 24 octets for each owner of 11 octets, the denial records, and OPT.
    let rows = [
        early(Rule::Aliases, a, None, 12 + 15 + 32 + 25, 0),
        early(
            Rule::Both,
            a,
            Some(DNSSEC),
            12 + 15 + 32 + 24 + 25 + 24 + 21 + 24 + 11,
            0,
        ),
        early(Rule::Aliases, b, None, 12 + 15 + 34 + 41, 3),
        early(Rule::Aliases, c, None, 12 + 15 + 30 + 38, 3),
        early(
            Rule::Both,
            c,
            Some(DNSSEC),
            12 + 15 + 30 + 24 + 38 + 19 + 49 + 52 + 11,
            3,
        ),
        early(Rule::Aliases, e, None, 0, 0),
        early(Rule::Both, e, Some(DNSSEC), 0, 0),
    ];
    let wrong = first_wrong(&store, rows.as_slice())?;
    assert!(rt; wrong.is_none(), "{wrong:?}");
    Ok(())
}

// Aliases from a zone that is kept for a minute to one that is kept for an hour, and the other way.
#[test]
fn one_of_two_zones_expires(rt: HostRuntime) -> Result<(), Fail> {
    let alloc = rt.alloc();
    let mut records = RecordList::empty(alloc);
    let brief = b"\x05brief\x00";
    let h = b"\x01h\x05brief\x00".as_slice();
    let f = b"\x01f\x05brief\x00".as_slice();
    let g = b"\x01g\x07example\x00".as_slice();
    let i = b"\x01i\x07example\x00".as_slice();
    records.push(set(alloc, g, CNAME, h)?)?;
    records.push(set_in(alloc, brief, h, A, ADDRESS, 60)?)?;
    records.push(set_in(alloc, brief, f, CNAME, i, 60)?)?;
    records.push(set(alloc, i, A, ADDRESS)?)?;
    let store = store_of(alloc, records)?;
    let rows = [
        later(Rule::Aliases, g, 59, 12 + 15 + 30 + 23),
        later(Rule::Aliases, g, 60, 0),
        later(Rule::Aliases, f, 59, 12 + 13 + 30 + 25),
        later(Rule::Aliases, f, 60, 0),
        later(Rule::Aliases, i, 60, 12 + 15 + 25),
    ];
    let wrong = first_wrong(&store, rows.as_slice())?;
    assert!(rt; wrong.is_none(), "{wrong:?}");
    Ok(())
}

// A name of 253 octets.
fn long_name() -> [u8; 253] {
    let mut wire = [b'l'; 253];
    wire[0] = 63;
    wire[64] = 63;
    wire[128] = 63;
    wire[192] = 59;
    wire[252] = 0;
    wire
}

#[test]
fn targets_have_255_octets_at_most(rt: HostRuntime) -> Result<(), Fail> {
    let alloc = rt.alloc();
    let mut records = RecordList::empty(alloc);
    records.push(set(alloc, b"\x01l\x07example\x00", DNAME, &long_name())?)?;
    let store = store_of(alloc, records)?;
    let fits = b"\x01x\x01l\x07example\x00".as_slice();
    let long = b"\x02xx\x01l\x07example\x00".as_slice();
    let mut made = early(
        Rule::Redirection,
        fits,
        Some(EDNS),
        12 + 17 + 274 + 278 + 11,
        0,
    );
    made.qtype = CNAME;
    // Nothing is held of the target, and so an address isn't known.
    let rows = [
        made,
        early(Rule::Redirection, fits, None, 0, 0),
        early(Rule::Redirection, long, None, 12 + 18 + 274, 6),
        early(Rule::Both, long, None, 12 + 18 + 274, 6),
        early(Rule::Aliases, long, None, 0, 0),
    ];
    let wrong = first_wrong(&store, rows.as_slice())?;
    assert!(rt; wrong.is_none(), "{wrong:?}");
    Ok(())
}

// A DNAME of the root, which is above its own targets too.
#[test]
fn a_dname_stands_at_the_root(rt: HostRuntime) -> Result<(), Fail> {
    let alloc = rt.alloc();
    let mut records = RecordList::empty(alloc);
    let root = b"\x00";
    let new = b"\x03new\x00";
    let x = b"\x01x\x03new\x00".as_slice();
    records.push(set_in(alloc, root, root, DNAME, new, 3600)?)?;
    records.push(set_in(alloc, root, x, A, ADDRESS, 3600)?)?;
    let store = store_of(alloc, records)?;
    let rows = [
        early(
            Rule::Redirection,
            b"\x01x\x00",
            None,
            12 + 7 + 16 + 20 + 21,
            0,
        ),
        early(Rule::Both, x, None, 12 + 11 + 21, 0),
        early(Rule::Redirection, b"\x01y\x00", None, 0, 0),
        early(Rule::Both, b"\x01y\x00", None, 0, 0),
        early(Rule::Both, b"\x00", None, 0, 0),
    ];
    let wrong = first_wrong(&store, rows.as_slice())?;
    assert!(rt; wrong.is_none(), "{wrong:?}");
    Ok(())
}
