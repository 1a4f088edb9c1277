//! Replays that answer by walks: by aliases (RFC 1034, section 3.6.2), by redirections (RFC 6672), and by both.

use super::replays::{Ended, ended_otherwise, joined};
use dname::OutOfMemory;
use std::alloc::Global;
use std::sync::Wait;
use std::test::Fail;
use std::thread::Threads;

// Upstream answers at 1,000,000,000 seconds, each record for an hour and before its signature, and queries 10 seconds later.

// The alias a.example for b.example, and an address of b.example.
const ALIAS: &[u8] = b"\
    \x02\x00;\x9a\xca\x00\x00\xbc\
    \x00\x01\x81\xa0\x00\x01\x00\x04\x00\x00\x00\x00\
    \x01a\x07example\x00\x00\x10\x00\x01\
    \x01a\x07example\x00\x00\x05\x00\x01\x00\x00\x0e\x10\x00\x0b\x01b\x07example\x00\
    \x01a\x07example\x00\x00.\x00\x01\x00\x00\x0e\x10\x00\x1f\x00\x05\x0d\x02\x00\x00\x0e\x10w5\x94\x005\xa4\xe9\x00\x00\x01\x07example\x00ZZZZ\
    \x01b\x07example\x00\x00\x01\x00\x01\x00\x00\x0e\x10\x00\x04\xc0\x00\x02\x01\
    \x01b\x07example\x00\x00.\x00\x01\x00\x00\x0e\x10\x00\x1f\x00\x01\x0d\x02\x00\x00\x0e\x10w5\x94\x005\xa4\xe9\x00\x00\x01\x07example\x00ZZZZ";

// The alias, the SOA, and that b.example has an A alone.
const ALIAS_AND_DENIAL: &[u8] = b"\
    \x02\x00;\x9a\xca\x00\x01&\
    \x00\x01\x81\xa0\x00\x01\x00\x02\x00\x04\x00\x00\
    \x01a\x07example\x00\x00\x10\x00\x01\
    \x01a\x07example\x00\x00\x05\x00\x01\x00\x00\x0e\x10\x00\x0b\x01b\x07example\x00\
    \x01a\x07example\x00\x00.\x00\x01\x00\x00\x0e\x10\x00\x1f\x00\x05\x0d\x02\x00\x00\x0e\x10w5\x94\x005\xa4\xe9\x00\x00\x01\x07example\x00ZZZZ\
    \x07example\x00\x00\x06\x00\x01\x00\x00\x0e\x10\x00\x16\x00\x00\x00\x00\x00\x01\x00\x00\x0e\x10\x00\x00\x02X\x00\x01Q\x80\x00\x00\x01,\
    \x07example\x00\x00.\x00\x01\x00\x00\x0e\x10\x00\x1f\x00\x06\x0d\x01\x00\x00\x0e\x10w5\x94\x005\xa4\xe9\x00\x00\x01\x07example\x00ZZZZ\
    \x01b\x07example\x00\x00/\x00\x01\x00\x00\x0e\x10\x00\x13\x01c\x07example\x00\x00\x06@\x00\x00\x00\x00\x03\
    \x01b\x07example\x00\x00.\x00\x01\x00\x00\x0e\x10\x00\x1f\x00/\x0d\x02\x00\x00\x0e\x10w5\x94\x005\xa4\xe9\x00\x00\x01\x07example\x00ZZZZ";

// Each of two names is an alias for the other.
const LOOP: &[u8] = b"\
    \x02\x00;\x9a\xca\x00\x00\xc3\
    \x00\x01\x81\xa0\x00\x01\x00\x04\x00\x00\x00\x00\
    \x01a\x07example\x00\x00\x10\x00\x01\
    \x01a\x07example\x00\x00\x05\x00\x01\x00\x00\x0e\x10\x00\x0b\x01b\x07example\x00\
    \x01a\x07example\x00\x00.\x00\x01\x00\x00\x0e\x10\x00\x1f\x00\x05\x0d\x02\x00\x00\x0e\x10w5\x94\x005\xa4\xe9\x00\x00\x01\x07example\x00ZZZZ\
    \x01b\x07example\x00\x00\x05\x00\x01\x00\x00\x0e\x10\x00\x0b\x01a\x07example\x00\
    \x01b\x07example\x00\x00.\x00\x01\x00\x00\x0e\x10\x00\x1f\x00\x05\x0d\x02\x00\x00\x0e\x10w5\x94\x005\xa4\xe9\x00\x00\x01\x07example\x00ZZZZ";

// The DNAME of old.example, new.example, and an address of x.new.example.
const REDIRECTION: &[u8] = b"\
    \x02\x00;\x9a\xca\x00\x00\xca\
    \x00\x01\x81\xa0\x00\x01\x00\x04\x00\x00\x00\x00\
    \x01a\x07example\x00\x00\x10\x00\x01\
    \x03old\x07example\x00\x00'\x00\x01\x00\x00\x0e\x10\x00\x0d\x03new\x07example\x00\
    \x03old\x07example\x00\x00.\x00\x01\x00\x00\x0e\x10\x00\x1f\x00'\x0d\x02\x00\x00\x0e\x10w5\x94\x005\xa4\xe9\x00\x00\x01\x07example\x00ZZZZ\
    \x01x\x03new\x07example\x00\x00\x01\x00\x01\x00\x00\x0e\x10\x00\x04\xc0\x00\x02\x01\
    \x01x\x03new\x07example\x00\x00.\x00\x01\x00\x00\x0e\x10\x00\x1f\x00\x01\x0d\x03\x00\x00\x0e\x10w5\x94\x005\xa4\xe9\x00\x00\x01\x07example\x00ZZZZ";

// A name of 250 octets.
const LONG: &[u8] =
    b"?kkkkkkkkkkkkkkkkkkkkkkkkkkkkkkkkkkkkkkkkkkkkkkkkkkkkkkkkkkkkkkk?lllllllllllllllllllllllllllllllllllllllllllllllllllllllllllllll?mmmmmmmmmmmmmmmmmmmmmmmmmmmmmmmmmmmmmmmmmmmmmmmmmmmmmmmmmmmmmmm8nnnnnnnnnnnnnnnnnnnnnnnnnnnnnnnnnnnnnnnnnnnnnnnnnnnnnnnn\x00";

// The DNAME of o.example, before and after its data, which is the long name.
const LONG_DNAME: &[u8] = b"\
    \x02\x00;\x9a\xca\x00\x01^\
    \x00\x01\x81\xa0\x00\x01\x00\x02\x00\x00\x00\x00\
    \x01a\x07example\x00\x00\x10\x00\x01\
    \x01o\x07example\x00\x00'\x00\x01\x00\x00\x0e\x10\x00\xfa";

const AFTER_LONG: &[u8] = b"\
    \x01o\x07example\x00\x00.\x00\x01\x00\x00\x0e\x10\x00\x1f\x00'\x0d\x02\x00\x00\x0e\x10w5\x94\x005\xa4\xe9\x00\x00\x01\x07example\x00ZZZZ";

// Queries for addresses of a.example and x.old.example; for TXT of a.example.
const ASKS_ALIAS: &[u8] = b"\
    \x01\x00;\x9a\xca\x0a\x00\x1b\
    \x124\x01\x00\x00\x01\x00\x00\x00\x00\x00\x00\
    \x01a\x07example\x00\x00\x01\x00\x01";

const ASKS_REDIRECTED: &[u8] = b"\
    \x01\x00;\x9a\xca\x0a\x00\x1f\
    \x124\x01\x00\x00\x01\x00\x00\x00\x00\x00\x00\
    \x01x\x03old\x07example\x00\x00\x01\x00\x01";

const ASKS_TEXT: &[u8] = b"\
    \x01\x00;\x9a\xca\x0a\x00\x1b\
    \x124\x01\x00\x00\x01\x00\x00\x00\x00\x00\x00\
    \x01a\x07example\x00\x00\x10\x00\x01";

// So many records are stored and no group is skipped; the query reads that version.
const STORED_ONE: &[u8] = b"\x03\x00\x00\x00\x00\x01\x00\x04\x00\x01\x00\x00";

const STORED_TWO: &[u8] = b"\x03\x00\x00\x00\x00\x01\x00\x04\x00\x02\x00\x00";

const STORED_THREE: &[u8] = b"\x03\x00\x00\x00\x00\x01\x00\x04\x00\x03\x00\x00";

const FORWARD: &[u8] = b"\x02\x00\x00\x00\x00\x01\x00\x00";

// The alias and the address, for the 3,590 seconds that are left.
const BY_ALIAS: &[u8] = b"\
    \x01\x00\x00\x00\x00\x01\x00T\
    \x124\x81\x80\x00\x01\x00\x02\x00\x00\x00\x00\
    \x01a\x07example\x00\x00\x01\x00\x01\
    \x01a\x07example\x00\x00\x05\x00\x01\x00\x00\x0e\x06\x00\x0b\x01b\x07example\x00\
    \x01b\x07example\x00\x00\x01\x00\x01\x00\x00\x0e\x06\x00\x04\xc0\x00\x02\x01";

// The alias and the SOA, for the 300 seconds of a denial.
const BY_ALIAS_NO_DATA: &[u8] = b"\
    \x01\x00\x00\x00\x00\x01\x00d\
    \x124\x81\x80\x00\x01\x00\x01\x00\x01\x00\x00\
    \x01a\x07example\x00\x00\x10\x00\x01\
    \x01a\x07example\x00\x00\x05\x00\x01\x00\x00\x01,\x00\x0b\x01b\x07example\x00\
    \x07example\x00\x00\x06\x00\x01\x00\x00\x01,\x00\x16\x00\x00\x00\x00\x00\x01\x00\x00\x0e\x10\x00\x00\x02X\x00\x01Q\x80\x00\x00\x01,";

// The DNAME, the CNAME that it makes and the address.
const BY_DNAME: &[u8] = b"\
    \x01\x00\x00\x00\x00\x01\x00\x88\
    \x124\x81\x80\x00\x01\x00\x03\x00\x00\x00\x00\
    \x01x\x03old\x07example\x00\x00\x01\x00\x01\
    \x03old\x07example\x00\x00'\x00\x01\x00\x00\x0e\x06\x00\x0d\x03new\x07example\x00\
    \x01x\x03old\x07example\x00\x00\x05\x00\x01\x00\x00\x0e\x06\x00\x0f\x01x\x03new\x07example\x00\
    \x01x\x03new\x07example\x00\x00\x01\x00\x01\x00\x00\x0e\x06\x00\x04\xc0\x00\x02\x01";

// Words, what is read and what is written, and what it shows.
type Row = (
    &'static str,
    &'static str,
    &'static [&'static [u8]],
    &'static [&'static [u8]],
);

const ROWS: [Row; 11] = [
    (
        "an alias",
        "chase",
        &[ALIAS, ASKS_ALIAS],
        &[STORED_TWO, BY_ALIAS],
    ),
    (
        "an alias, by both",
        "follow",
        &[ALIAS, ASKS_ALIAS],
        &[STORED_TWO, BY_ALIAS],
    ),
    (
        "an alias without aliases",
        "replay --workers 1",
        &[ALIAS, ASKS_ALIAS],
        &[STORED_TWO, FORWARD],
    ),
    (
        "an alias, by redirections",
        "redirect",
        &[ALIAS, ASKS_ALIAS],
        &[STORED_TWO, FORWARD],
    ),
    (
        "an alias without data",
        "chase",
        &[ALIAS_AND_DENIAL, ASKS_TEXT],
        &[STORED_THREE, BY_ALIAS_NO_DATA],
    ),
    (
        "a loop",
        "chase",
        &[LOOP, ASKS_ALIAS],
        &[STORED_TWO, FORWARD],
    ),
    (
        "a loop, by both",
        "follow",
        &[LOOP, ASKS_ALIAS],
        &[STORED_TWO, FORWARD],
    ),
    (
        "a redirection",
        "redirect",
        &[REDIRECTION, ASKS_REDIRECTED],
        &[STORED_TWO, BY_DNAME],
    ),
    (
        "a redirection, by both",
        "follow",
        &[REDIRECTION, ASKS_REDIRECTED],
        &[STORED_TWO, BY_DNAME],
    ),
    (
        "a redirection, by aliases",
        "chase",
        &[REDIRECTION, ASKS_REDIRECTED],
        &[STORED_TWO, FORWARD],
    ),
    (
        "a redirection without any",
        "replay --workers 1",
        &[REDIRECTION, ASKS_REDIRECTED],
        &[STORED_TWO, FORWARD],
    ),
];

// Of targets of 255 and 256 octets, with DO: the CNAME that is made, and YXDOMAIN (6). An address of the first isn't known.
const LONG_ROWS: [Row; 3] = [
    (
        "255 octets",
        "redirect",
        &[
            LONG_DNAME,
            LONG,
            AFTER_LONG,
            b"\
    \x01\x00;\x9a\xca\x0a\x00+\
    \x124\x01\x00\x00\x01\x00\x00\x00\x00\x00\x01\
    \x04abcd\x01o\x07example\x00\x00\x05\x00\x01\
    \x00\x00)\x04\xd0\x00\x00\x80\x00\x00\x00",
        ],
        &[
            STORED_ONE,
            b"\
    \x01\x00\x00\x00\x00\x01\x02\x87\
    \x124\x81\xa0\x00\x01\x00\x03\x00\x00\x00\x01\
    \x04abcd\x01o\x07example\x00\x00\x05\x00\x01\
    \x01o\x07example\x00\x00'\x00\x01\x00\x00\x0e\x06\x00\xfa",
            LONG,
            b"\
    \x01o\x07example\x00\x00.\x00\x01\x00\x00\x0e\x06\x00\x1f\x00'\x0d\x02\x00\x00\x0e\x10w5\x94\x005\xa4\xe9\x00\x00\x01\x07example\x00ZZZZ\
    \x04abcd\x01o\x07example\x00\x00\x05\x00\x01\x00\x00\x0e\x06\x00\xff\x04abcd",
            LONG,
            b"\
    \x00\x00)\x04\xd0\x00\x00\x80\x00\x00\x00",
        ],
    ),
    (
        "256 octets",
        "redirect",
        &[
            LONG_DNAME,
            LONG,
            AFTER_LONG,
            b"\
    \x01\x00;\x9a\xca\x0a\x00,\
    \x124\x01\x00\x00\x01\x00\x00\x00\x00\x00\x01\
    \x05abcde\x01o\x07example\x00\x00\x05\x00\x01\
    \x00\x00)\x04\xd0\x00\x00\x80\x00\x00\x00",
        ],
        &[
            STORED_ONE,
            b"\
    \x01\x00\x00\x00\x00\x01\x01o\
    \x124\x81\xa6\x00\x01\x00\x02\x00\x00\x00\x01\
    \x05abcde\x01o\x07example\x00\x00\x05\x00\x01\
    \x01o\x07example\x00\x00'\x00\x01\x00\x00\x0e\x06\x00\xfa",
            LONG,
            b"\
    \x01o\x07example\x00\x00.\x00\x01\x00\x00\x0e\x06\x00\x1f\x00'\x0d\x02\x00\x00\x0e\x10w5\x94\x005\xa4\xe9\x00\x00\x01\x07example\x00ZZZZ\
    \x00\x00)\x04\xd0\x00\x00\x80\x00\x00\x00",
        ],
    ),
    (
        "an address",
        "redirect",
        &[
            LONG_DNAME,
            LONG,
            AFTER_LONG,
            b"\
    \x01\x00;\x9a\xca\x0a\x00 \
    \x124\x01\x00\x00\x01\x00\x00\x00\x00\x00\x00\
    \x04abcd\x01o\x07example\x00\x00\x01\x00\x01",
        ],
        &[STORED_ONE, FORWARD],
    ),
];

// The first row that ends or is written otherwise, and how.
fn row_otherwise<R: Threads + Wait + Sync>(
    rt: &R,
    alloc: Global,
    rows: &[Row],
) -> Result<Option<(&'static str, Ended)>, OutOfMemory> {
    for (what, words, input, expected) in rows {
        if let Some(found) = ended_otherwise(rt, alloc, words, input, expected)? {
            return Ok(Some((*what, found)));
        }
    }
    Ok(None)
}

#[test]
fn walks_answer_by_other_names(rt: HostRuntime) -> Result<(), Fail> {
    let wrong = row_otherwise(&rt, rt.alloc(), &ROWS)?;
    assert!(rt; wrong.is_none(), "{wrong:?}");
    Ok(())
}

#[test]
fn a_target_has_at_most_255_octets(rt: HostRuntime) -> Result<(), Fail> {
    let wrong = row_otherwise(&rt, rt.alloc(), &LONG_ROWS)?;
    assert!(rt; wrong.is_none(), "{wrong:?}");
    Ok(())
}

// ---- aliases in a row

// The name of a place in the row.
fn name_of(place: u8) -> [u8; 12] {
    [
        2,
        b'c',
        b'0'.wrapping_add(place),
        7,
        b'e',
        b'x',
        b'a',
        b'm',
        b'p',
        b'l',
        b'e',
        0,
    ]
}

// A record of a type at a place, with a TTL and data.
fn record(
    alloc: Global,
    place: u8,
    rtype: u8,
    ttl: &[u8],
    data: &[u8],
) -> Result<Vec<u8>, OutOfMemory> {
    let size = (data.len() % 256) as u8;
    joined(
        alloc,
        &[
            &name_of(place),
            &[0, rtype, 0, 1, 0, 0],
            ttl,
            &[0, size],
            data,
        ],
    )
}

fn signature(alloc: Global, place: u8, rtype: u8) -> Result<Vec<u8>, OutOfMemory> {
    let data = joined(
        alloc,
        &[
            &[0, rtype],
            b"\x0d\x02\x00\x00\x0e\x10w5\x94\x005\xa4\xe9\x00\x00\x01\x07example\x00ZZZZ",
        ],
    )?;
    record(alloc, place, 46, b"\x0e\x10", &data)
}

// So many aliases, each for the next, and the address of the last, each before its signature if they are signed.
fn chain(alloc: Global, aliases: u8, ttl: &[u8], signed: bool) -> Result<Vec<u8>, OutOfMemory> {
    let mut octets = Vec::new(alloc);
    for place in 0..aliases {
        octets.extend_from_slice(&record(alloc, place, 5, ttl, &name_of(place.wrapping_add(1)))?)?;
        if signed {
            octets.extend_from_slice(&signature(alloc, place, 5)?)?;
        }
    }
    octets.extend_from_slice(&record(alloc, aliases, 1, ttl, b"\xc0\x00\x02\x01")?)?;
    if signed {
        octets.extend_from_slice(&signature(alloc, aliases, 1)?)?;
    }
    Ok(octets)
}

// A frame with this head, up to the length of its message.
fn frame(alloc: Global, head: &[u8], message: &[&[u8]]) -> Result<Vec<u8>, OutOfMemory> {
    let message = joined(alloc, message)?;
    let size = (message.len() % 0x1_0000) as u16;
    joined(alloc, &[head, &size.to_be_bytes(), &message])
}

// How a chase over so many aliases ends and what it writes, unless it writes this behind what is stored.
fn chain_otherwise<R: Threads + Wait + Sync>(
    rt: &R,
    alloc: Global,
    aliases: u8,
    expected: &[u8],
) -> Result<Option<Ended>, OutOfMemory> {
    let records = chain(alloc, aliases, b"\x0e\x10", true)?;
    let counts = [0, 1, 0, aliases.wrapping_mul(2).wrapping_add(2), 0, 0, 0, 0];
    let answer = frame(
        alloc,
        b"\x02\x00;\x9a\xca\x00",
        &[
            b"\x00\x01\x81\xa0",
            &counts,
            b"\x07example\x00\x00\x10\x00\x01",
            &records,
        ],
    )?;
    let query =
        b"\x01\x00;\x9a\xca\x0a\x00\x1c\x124\x01\x00\x00\x01\x00\x00\x00\x00\x00\x00\x02c0\x07example\x00\x00\x01\x00\x01";
    let stored = [3, 0, 0, 0, 0, 1, 0, 4, 0, aliases.wrapping_add(1), 0, 0];
    ended_otherwise(rt, alloc, "chase", &[&answer, query], &[&stored, expected])
}

#[test]
fn eight_aliases_are_followed(rt: HostRuntime) -> Result<(), Fail> {
    let alloc = rt.alloc();
    let records = chain(alloc, 8, b"\x0e\x06", false)?;
    let reply = frame(
        alloc,
        b"\x01\x00\x00\x00\x00\x01",
        &[
            b"\x124\x81\x80\x00\x01\x00\x09\x00\x00\x00\x00\x02c0\x07example\x00\x00\x01\x00\x01",
            &records,
        ],
    )?;
    let wrong = chain_otherwise(&rt, alloc, 8, &reply)?;
    assert!(rt; wrong.is_none(), "{wrong:?}");
    let wrong = chain_otherwise(&rt, alloc, 9, FORWARD)?;
    assert!(rt; wrong.is_none(), "{wrong:?}");
    Ok(())
}
