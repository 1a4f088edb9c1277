//! Queries that the cache answers by a denial of the type, an alias or a redirection, each counted as that. Their clients have no OPT
//! record: they get no signatures and no record that denies (RFC 4035, section 3.2.1).
use crate::counts::first_miscounted;
use crate::messages::{ASKED, THEN, TICK};
use crate::parties::{CLIENT, SLOT, TO_CLIENT, UPSTREAM};
use crate::row::{Row, serve_rows};
use crate::writing::Changes;
use counters::Counter;
use std::test::Fail;

/// A query for d.example A.
const QUERY: &[u8] = b"\
    \x124\x01\x00\x00\x01\x00\x00\x00\x00\x00\x00\
    \x01d\x07example\x00\x00\x01\x00\x01";

/// The answer that it has no such type, but TXT: the SOA and the NSEC of d.example, signed, for the 300 seconds of the SOA's MINIMUM
/// (RFC 2308, section 5).
const EMPTY: &[u8] = b"\
    \x00\x07\x81\xa0\x00\x01\x00\x00\x00\x04\x00\x01\
    \x01d\x07example\x00\x00\x01\x00\x01\
    \x07example\x00\x00\x06\x00\x01\x00\x00\x01,\x00\x16\x00\x00\x00\x00\x00\x01\x00\x00\x0e\x10\x00\x00\x02X\x00\x01Q\x80\x00\x00\x01,\
    \x07example\x00\x00.\x00\x01\x00\x00\x01,\x00\x1f\x00\x06\x0d\x01\x00\x00\x01,w5\x94\x005\xa4\xe9\x00\x00\x01\x07example\x00ZZZZ\
    \x01d\x07example\x00\x00/\x00\x01\x00\x00\x01,\x00\x13\x01f\x07example\x00\x00\x06\x00\x00\x80\x00\x00\x03\
    \x01d\x07example\x00\x00.\x00\x01\x00\x00\x01,\x00\x1f\x00/\x0d\x02\x00\x00\x01,w5\x94\x005\xa4\xe9\x00\x00\x01\x07example\x00ZZZZ\
    \x00\x00)\x04\xd0\x00\x00\x00\x00\x00\x00";

/// The same as the client gets it, from the upstream and, of another type, from the cache.
const TOLD_EMPTY: &[u8] = b"\
    \x124\x81\x80\x00\x01\x00\x00\x00\x01\x00\x00\
    \x01d\x07example\x00\x00\x01\x00\x01\
    \x07example\x00\x00\x06\x00\x01\x00\x00\x01,\x00\x16\x00\x00\x00\x00\x00\x01\x00\x00\x0e\x10\x00\x00\x02X\x00\x01Q\x80\x00\x00\x01,";

/// Makes a query, or what is told of it, one of AAAA.
const OF_AAAA: Changes = &[(23, b"\x00\x1c")];

/// Makes a query, or a question upstream, one for a.example.
const OF_ALIAS: Changes = &[(13, b"a")];

/// The answer to a.example A: it is an alias of b.example, which has the address.
const ALIAS: &[u8] = b"\
    \x00\x07\x81\xa0\x00\x01\x00\x04\x00\x00\x00\x01\
    \x01a\x07example\x00\x00\x01\x00\x01\
    \x01a\x07example\x00\x00\x05\x00\x01\x00\x00\x0e\x10\x00\x0b\x01b\x07example\x00\
    \x01a\x07example\x00\x00.\x00\x01\x00\x00\x0e\x10\x00\x1f\x00\x05\x0d\x02\x00\x00\x0e\x10w5\x94\x005\xa4\xe9\x00\x00\x01\x07example\x00ZZZZ\
    \x01b\x07example\x00\x00\x01\x00\x01\x00\x00\x0e\x10\x00\x04\xc0\x00\x02\x01\
    \x01b\x07example\x00\x00.\x00\x01\x00\x00\x0e\x10\x00\x1f\x00\x01\x0d\x02\x00\x00\x0e\x10w5\x94\x005\xa4\xe9\x00\x00\x01\x07example\x00ZZZZ\
    \x00\x00)\x04\xd0\x00\x00\x00\x00\x00\x00";

const TOLD_ALIAS: &[u8] = b"\
    \x124\x81\x80\x00\x01\x00\x02\x00\x00\x00\x00\
    \x01a\x07example\x00\x00\x01\x00\x01\
    \x01a\x07example\x00\x00\x05\x00\x01\x00\x00\x0e\x10\x00\x0b\x01b\x07example\x00\
    \x01b\x07example\x00\x00\x01\x00\x01\x00\x00\x0e\x10\x00\x04\xc0\x00\x02\x01";

/// A query for d.r.example A.
const QUERY_BELOW: &[u8] = b"\
    \x124\x01\x00\x00\x01\x00\x00\x00\x00\x00\x00\
    \x01d\x01r\x07example\x00\x00\x01\x00\x01";

const ASKED_BELOW: &[u8] = b"\
    \x00\x07\x01\x20\x00\x01\x00\x00\x00\x00\x00\x01\
    \x01d\x01r\x07example\x00\x00\x01\x00\x01\
    \x00\x00)\x04\xd0\x00\x00\x80\x00\x00\x00";

/// The answer: names below r.example lead to names below s.example, and d.s.example has the address. The alias that this makes is
/// unsigned (RFC 6672, section 3.1).
const REDIRECTION: &[u8] = b"\
    \x00\x07\x81\xa0\x00\x01\x00\x05\x00\x00\x00\x01\
    \x01d\x01r\x07example\x00\x00\x01\x00\x01\
    \x01r\x07example\x00\x00\x27\x00\x01\x00\x00\x0e\x10\x00\x0b\x01s\x07example\x00\
    \x01r\x07example\x00\x00.\x00\x01\x00\x00\x0e\x10\x00\x1f\x00\x27\x0d\x02\x00\x00\x0e\x10w5\x94\x005\xa4\xe9\x00\x00\x01\x07example\x00ZZZZ\
    \x01d\x01r\x07example\x00\x00\x05\x00\x01\x00\x00\x0e\x10\x00\x0d\x01d\x01s\x07example\x00\
    \x01d\x01s\x07example\x00\x00\x01\x00\x01\x00\x00\x0e\x10\x00\x04\xc0\x00\x02\x01\
    \x01d\x01s\x07example\x00\x00.\x00\x01\x00\x00\x0e\x10\x00\x1f\x00\x01\x0d\x03\x00\x00\x0e\x10w5\x94\x005\xa4\xe9\x00\x00\x01\x07example\x00ZZZZ\
    \x00\x00)\x04\xd0\x00\x00\x00\x00\x00\x00";

const TOLD_REDIRECTION: &[u8] = b"\
    \x124\x81\x80\x00\x01\x00\x03\x00\x00\x00\x00\
    \x01d\x01r\x07example\x00\x00\x01\x00\x01\
    \x01r\x07example\x00\x00\x27\x00\x01\x00\x00\x0e\x10\x00\x0b\x01s\x07example\x00\
    \x01d\x01r\x07example\x00\x00\x05\x00\x01\x00\x00\x0e\x10\x00\x0d\x01d\x01s\x07example\x00\
    \x01d\x01s\x07example\x00\x00\x01\x00\x01\x00\x00\x0e\x10\x00\x04\xc0\x00\x02\x01";

const ORIGINS: [Row; 10] = [
    (THEN, 0, CLIENT, QUERY, &[], &[(UPSTREAM, ASKED, &[])]),
    (THEN, 0, SLOT, EMPTY, &[], &[(TO_CLIENT, TOLD_EMPTY, &[])]),
    (
        THEN,
        0,
        CLIENT,
        QUERY,
        OF_AAAA,
        &[(TO_CLIENT, TOLD_EMPTY, OF_AAAA)],
    ),
    (
        THEN,
        0,
        CLIENT,
        QUERY,
        OF_ALIAS,
        &[(UPSTREAM, ASKED, OF_ALIAS)],
    ),
    (THEN, 0, SLOT, ALIAS, &[], &[(TO_CLIENT, TOLD_ALIAS, &[])]),
    (
        THEN,
        0,
        CLIENT,
        QUERY,
        OF_ALIAS,
        &[(TO_CLIENT, TOLD_ALIAS, &[])],
    ),
    (
        THEN,
        0,
        CLIENT,
        QUERY_BELOW,
        &[],
        &[(UPSTREAM, ASKED_BELOW, &[])],
    ),
    (
        THEN,
        0,
        SLOT,
        REDIRECTION,
        &[],
        &[(TO_CLIENT, TOLD_REDIRECTION, &[])],
    ),
    (
        THEN,
        0,
        CLIENT,
        QUERY_BELOW,
        &[],
        &[(TO_CLIENT, TOLD_REDIRECTION, &[])],
    ),
    (THEN, 1, TICK, &[], &[], &[]),
];

#[test]
fn replies_are_counted_by_what_they_are_made_of(rt: HostRuntime) -> Result<(), Fail> {
    let served = serve_rows(&rt, rt.alloc(), &[], 0, &ORIGINS)?;
    let wrong = served.wrong;
    assert!(rt; wrong.is_none(), "{wrong:?}");
    let wrong = first_miscounted(
        &served.shown,
        &[
            (Counter::Asked, 3),
            (Counter::Stored, 3),
            (Counter::RelayedNoError, 3),
            (Counter::NoData, 1),
            (Counter::Alias, 1),
            (Counter::Redirection, 1),
        ],
    );
    assert!(rt; wrong.is_none(), "{wrong:?}");
    Ok(())
}
