//! From what replies are made, over a zone that has each kind of link and of end.

use crate::records::{
    A, ADDRESS, CNAME, DNAME, SOA, SOA_DATA, ZONE, nsec, question, replied, set, store_of,
};
use denial_records::RecordList;
use record_store::Store;
use reply_core::ReplyBuffer;
use resolver::{Origin, Rule};
use std::alloc::Global;
use std::test::Fail;

const TXT: u16 = 16;

const PLAIN_ALIAS: Origin = Origin::Alias { synthesized: false };

const MADE_ALIAS: Origin = Origin::Alias { synthesized: true };

const PLAIN_REDIRECTION: Origin = Origin::Redirection { synthesized: false };

const MADE_REDIRECTION: Origin = Origin::Redirection { synthesized: true };

/// A question, and from what its reply is made: none where it is forwarded.
#[derive(Debug, Drop)]
struct Row {
    asked: &'static [u8],
    qtype: u16,
    origin: Option<Origin>,
}

// An address at `i`, a wildcard's at `*`, and an alias at `*.s`.
fn put_sets(alloc: Global, records: &mut RecordList) -> Result<(), Fail> {
    let i = b"\x01i\x07example\x00".as_slice();
    records.push(set(alloc, i, A, ADDRESS)?)?;
    records.push(set(alloc, b"\x01*\x07example\x00", A, ADDRESS)?)?;
    records.push(set(alloc, b"\x01*\x01s\x07example\x00", CNAME, i)?)?;
    Ok(())
}

// Aliases to the address, to a name that the wildcard answers, and to one that is denied; a DNAME to the names below `z`.
fn put_links(alloc: Global, records: &mut RecordList) -> Result<(), Fail> {
    let w = b"\x01w\x07example\x00".as_slice();
    let d = b"\x01d\x01z\x07example\x00".as_slice();
    records.push(set(
        alloc,
        b"\x01a\x07example\x00",
        CNAME,
        b"\x01i\x07example\x00",
    )?)?;
    records.push(set(alloc, b"\x01b\x07example\x00", CNAME, w)?)?;
    records.push(set(alloc, b"\x01c\x07example\x00", CNAME, d)?)?;
    records.push(set(
        alloc,
        b"\x01o\x07example\x00",
        DNAME,
        b"\x01z\x07example\x00",
    )?)?;
    records.push(set(alloc, b"\x01f\x01z\x07example\x00", A, ADDRESS)?)?;
    Ok(())
}

// The zone's SOA; and no name stands between `j.s` and `l.s`, between `v` and `x`, or between `z` and `f.z`.
fn put_denials(alloc: Global, records: &mut RecordList) -> Result<(), Fail> {
    records.push(set(alloc, ZONE, SOA, SOA_DATA)?)?;
    let l = b"\x01l\x01s\x07example\x00".as_slice();
    records.push(nsec(alloc, b"\x01j\x01s\x07example\x00", l)?)?;
    records.push(nsec(alloc, b"\x01v\x07example\x00", b"\x01x\x07example\x00")?)?;
    records.push(nsec(alloc, b"\x01z\x07example\x00", b"\x01f\x01z\x07example\x00")?)?;
    Ok(())
}

fn asks(asked: &'static [u8], qtype: u16, origin: Option<Origin>) -> Row {
    Row {
        asked,
        qtype,
        origin,
    }
}

fn rows() -> [Row; 12] {
    [
        asks(b"\x01i\x07example\x00", A, Some(Origin::Set)),
        // Also an alias, where that is what is asked for.
        asks(b"\x01a\x07example\x00", CNAME, Some(Origin::Set)),
        asks(b"\x01v\x07example\x00", TXT, Some(Origin::NoData)),
        asks(b"\x01d\x01z\x07example\x00", A, Some(Origin::NameError)),
        asks(b"\x01w\x07example\x00", A, Some(Origin::Wildcard)),
        asks(b"\x01a\x07example\x00", A, Some(PLAIN_ALIAS)),
        asks(b"\x01b\x07example\x00", A, Some(MADE_ALIAS)),
        asks(b"\x01c\x07example\x00", A, Some(MADE_ALIAS)),
        // The alias is the wildcard's, and leads to the address.
        asks(b"\x01k\x01s\x07example\x00", A, Some(MADE_ALIAS)),
        asks(b"\x01f\x01o\x07example\x00", A, Some(PLAIN_REDIRECTION)),
        asks(b"\x01d\x01o\x07example\x00", A, Some(MADE_REDIRECTION)),
        // Nothing is held of it.
        asks(b"\x01i\x07another\x00", A, None),
    ]
}

fn holds(store: &Store, row: &Row) -> Result<bool, Fail> {
    let question = question(row.asked, row.qtype, None)?;
    let mut out = ReplyBuffer::new();
    Ok(replied(store, Rule::Both, &question, &mut out) == row.origin)
}

// The place of the first row that doesn't hold.
fn first_wrong(store: &Store, rows: &[Row]) -> Result<Option<usize>, Fail> {
    for place in 0..rows.len() {
        if !holds(store, &rows[place])? {
            return Ok(Some(place));
        }
    }
    Ok(None)
}

#[test]
fn replies_have_their_origins(rt: HostRuntime) -> Result<(), Fail> {
    let alloc = rt.alloc();
    let mut records = RecordList::empty(alloc);
    put_sets(alloc, &mut records)?;
    put_links(alloc, &mut records)?;
    put_denials(alloc, &mut records)?;
    let store = store_of(alloc, records)?;
    let rows = rows();
    let wrong = first_wrong(&store, rows.as_slice())?;
    assert!(rt; wrong.is_none(), "{wrong:?}");
    Ok(())
}

#[test]
fn denials_have_part(rt: HostRuntime) {
    let plain = [Origin::Set, PLAIN_ALIAS, PLAIN_REDIRECTION];
    let made = [
        Origin::NoData,
        Origin::NameError,
        Origin::Wildcard,
        MADE_ALIAS,
        MADE_REDIRECTION,
    ];
    assert_eq!(rt; plain.map(|origin| origin.is_synthesized()), [false; 3]);
    assert_eq!(rt; made.map(|origin| origin.is_synthesized()), [true; 5]);
}
