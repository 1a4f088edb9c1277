//! How long the replies are to questions of all shapes, by each rule.

use crate::records::{A, ADDRESS, CNAME, DNAME, question, replied, set, set_of_two, store_of};
use denial_records::RecordList;
use record_store::Store;
use reply_core::ReplyBuffer;
use resolver::Rule;
use std::alloc::Global;
use std::test::Fail;

/// A question, and the octets of its reply: none where it is forwarded.
#[derive(Debug, Drop)]
struct Row {
    rule: Rule,
    asked: &'static [u8],
    qtype: u16,
    octets: usize,
}

// The names from `a` on, by their first letter.
fn letter(place: u8) -> [u8; 11] {
    let mut wire = *b"\x01a\x07example\x00";
    wire[1] = b'a' + place % 26;
    wire
}

// Eight aliases in a row from `a` on, an address at `i`, and one alias more before them, at `z`.
fn put_aliases(alloc: Global, records: &mut RecordList) -> Result<(), Fail> {
    for place in 0..8u8 {
        records.push(set(alloc, &letter(place), CNAME, &letter(place + 1))?)?;
    }
    records.push(set(alloc, b"\x01i\x07example\x00", A, ADDRESS)?)?;
    records.push(set(
        alloc,
        b"\x01z\x07example\x00",
        CNAME,
        b"\x01a\x07example\x00",
    )?)?;
    Ok(())
}

// A ring of two, an alias to itself, two aliases at one name, and data that goes on after the name.
fn put_faulty(alloc: Global, records: &mut RecordList) -> Result<(), Fail> {
    records.push(set(
        alloc,
        b"\x01l\x07example\x00",
        CNAME,
        b"\x01k\x07example\x00",
    )?)?;
    records.push(set(
        alloc,
        b"\x01k\x07example\x00",
        CNAME,
        b"\x01l\x07example\x00",
    )?)?;
    records.push(set(
        alloc,
        b"\x01s\x07example\x00",
        CNAME,
        b"\x01s\x07example\x00",
    )?)?;
    records.push(set(
        alloc,
        b"\x01e\x01e\x07example\x00",
        CNAME,
        b"\x01i\x07example\x00X",
    )?)?;
    let two = set_of_two(
        alloc,
        b"\x01m\x07example\x00",
        CNAME,
        b"\x01a\x07example\x00",
        b"\x01i\x07example\x00",
    )?;
    records.push(two)?;
    Ok(())
}

// One DNAME above another, an address and an alias at names that the upper makes, and an alias to one of them.
fn put_dnames(alloc: Global, records: &mut RecordList) -> Result<(), Fail> {
    let new = b"\x03new\x07example\x00";
    records.push(set(alloc, b"\x03old\x07example\x00", DNAME, new)?)?;
    records.push(set(
        alloc,
        b"\x01u\x03old\x07example\x00",
        DNAME,
        b"\x01i\x07example\x00",
    )?)?;
    records.push(set(alloc, b"\x01x\x03new\x07example\x00", A, ADDRESS)?)?;
    records.push(set(alloc, b"\x01w\x01u\x03new\x07example\x00", A, ADDRESS)?)?;
    records.push(set(
        alloc,
        b"\x01v\x03new\x07example\x00",
        CNAME,
        b"\x01i\x07example\x00",
    )?)?;
    records.push(set(
        alloc,
        b"\x01y\x07example\x00",
        CNAME,
        b"\x01x\x03old\x07example\x00",
    )?)?;
    Ok(())
}

// A name that the upper DNAME makes of one below it, and that leads back below it; and a DNAME that leads there too.
fn put_back(alloc: Global, records: &mut RecordList) -> Result<(), Fail> {
    records.push(set(
        alloc,
        b"\x01t\x03new\x07example\x00",
        CNAME,
        b"\x01x\x03old\x07example\x00",
    )?)?;
    records.push(set(
        alloc,
        b"\x01p\x07example\x00",
        DNAME,
        b"\x03old\x07example\x00",
    )?)?;
    Ok(())
}

fn store(alloc: Global) -> Result<Store, Fail> {
    let mut records = RecordList::empty(alloc);
    put_aliases(alloc, &mut records)?;
    put_faulty(alloc, &mut records)?;
    put_dnames(alloc, &mut records)?;
    put_back(alloc, &mut records)?;
    store_of(alloc, records)
}

fn sized(rule: Rule, asked: &'static [u8], qtype: u16, octets: usize) -> Row {
    Row {
        rule,
        asked,
        qtype,
        octets,
    }
}

// 12 octets and the question; an alias of one letter to another 32, to a name of 15 octets 36, an address of a letter 25, of a name of 15
// octets 29; the DNAME 36, the CNAME that it makes of a name of 15 octets 40, of one of 17 octets 44.
fn rows() -> [Row; 27] {
    let a = b"\x01a\x07example\x00".as_slice();
    let x = b"\x01x\x03old\x07example\x00".as_slice();
    let v = b"\x01v\x03old\x07example\x00".as_slice();
    let y = b"\x01y\x07example\x00".as_slice();
    let t = b"\x01t\x03old\x07example\x00".as_slice();
    [
        sized(Rule::Aliases, b"\x01i\x07example\x00", A, 52),
        sized(Rule::Aliases, a, A, 308),
        sized(Rule::Both, a, A, 308),
        sized(Rule::Redirection, a, A, 0),
        sized(Rule::Aliases, b"\x01z\x07example\x00", A, 0),
        sized(Rule::Both, b"\x01z\x07example\x00", A, 0),
        sized(Rule::Aliases, b"\x01l\x07example\x00", A, 0),
        sized(Rule::Aliases, b"\x01s\x07example\x00", A, 0),
        sized(Rule::Aliases, b"\x01m\x07example\x00", A, 0),
        sized(Rule::Aliases, b"\x01e\x01e\x07example\x00", A, 0),
        sized(Rule::Aliases, a, CNAME, 59),
        sized(Rule::Aliases, a, 43, 0),
        sized(Rule::Aliases, a, 255, 0),
        sized(Rule::Aliases, a, 46, 0),
        sized(Rule::Redirection, x, A, 136),
        sized(Rule::Redirection, x, CNAME, 107),
        sized(Rule::Aliases, x, A, 0),
        sized(Rule::Redirection, b"\x03old\x07example\x00", A, 0),
        sized(
            Rule::Redirection,
            b"\x01w\x01u\x03old\x07example\x00",
            A,
            12 + 21 + 36 + 44 + 31,
        ),
        sized(Rule::Redirection, v, A, 0),
        sized(Rule::Both, v, A, 12 + 19 + 36 + 40 + 36 + 25),
        sized(Rule::Redirection, y, A, 0),
        sized(Rule::Aliases, y, A, 0),
        sized(Rule::Both, y, A, 12 + 15 + 36 + 36 + 40 + 29),
        // A DNAME by which two links go stands once, and two that differ stand both.
        sized(Rule::Both, t, A, 12 + 19 + 36 + 40 + 40 + 40 + 29),
        sized(
            Rule::Both,
            b"\x01x\x01p\x07example\x00",
            A,
            12 + 17 + 34 + 38 + 36 + 40 + 29,
        ),
        sized(
            Rule::Both,
            b"\x01x\x01p\x07example\x00",
            CNAME,
            12 + 17 + 34 + 38,
        ),
    ]
}

fn holds(store: &Store, row: &Row) -> Result<bool, Fail> {
    let question = question(row.asked, row.qtype, None)?;
    let mut out = ReplyBuffer::new();
    let origin = replied(store, row.rule, &question, &mut out);
    Ok(origin.is_some() == (row.octets > 0) && out.as_slice().len() == row.octets)
}

// The place of the first row that doesn't hold.
fn first_wrong(store: &Store, rows: &[Row]) -> Result<Option<usize>, Fail> {
    for place in 0..rows.len() {
        if !holds(store, &rows[place])? {
            return Ok(Some(place));
        }
    }
    Ok(None)
}

#[test]
fn replies_have_their_sizes(rt: HostRuntime) -> Result<(), Fail> {
    let store = store(rt.alloc())?;
    let rows = rows();
    let wrong = first_wrong(&store, rows.as_slice())?;
    assert!(rt; wrong.is_none(), "{wrong:?}");
    Ok(())
}
