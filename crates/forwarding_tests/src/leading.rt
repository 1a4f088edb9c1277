//! An alias or a redirection that leads to a passed name isn't stored, and one that leads elsewhere is.
use crate::counts::first_miscounted;
use crate::messages::{THEN, TICK};
use crate::parties::{CLIENT, SLOT, TO_CLIENT, UPSTREAM};
use crate::row::{Row, serve_rows};
use counters::Counter;
use std::test::Fail;

/// What is passed: d.example.
const PASSED: &[u8] = b"\x01d\x07example\x00";

/// A query for x.example CNAME, with an OPT record of size 1232 and DO.
const QUERY: &[u8] = b"\
    \x124\x01\x00\x00\x01\x00\x00\x00\x00\x00\x01\
    \x01x\x07example\x00\x00\x05\x00\x01\
    \x00\x00)\x04\xd0\x00\x00\x80\x00\x00\x00";

/// The same as it is asked upstream.
const ASKED: &[u8] = b"\
    \x00\x07\x01\x20\x00\x01\x00\x00\x00\x00\x00\x01\
    \x01x\x07example\x00\x00\x05\x00\x01\
    \x00\x00)\x04\xd0\x00\x00\x80\x00\x00\x00";

/// The answer: it leads to a.d.example, which is below the passed name.
const ANSWER: &[u8] = b"\
    \x00\x07\x81\xa0\x00\x01\x00\x02\x00\x00\x00\x01\
    \x01x\x07example\x00\x00\x05\x00\x01\
    \x01x\x07example\x00\x00\x05\x00\x01\x00\x00\x0e\x10\x00\x0d\x01a\x01d\x07example\x00\
    \x01x\x07example\x00\x00.\x00\x01\x00\x00\x0e\x10\x00\x1f\x00\x05\x0d\x02\x00\x00\x0e\x10w5\x94\x005\xa4\xe9\x00\x00\x01\x07example\x00ZZZZ\
    \x00\x00)\x04\xd0\x00\x00\x00\x00\x00\x00";

/// The same as the client gets it, from the upstream and from the cache.
const ANSWERED: &[u8] = b"\
    \x124\x81\xa0\x00\x01\x00\x02\x00\x00\x00\x01\
    \x01x\x07example\x00\x00\x05\x00\x01\
    \x01x\x07example\x00\x00\x05\x00\x01\x00\x00\x0e\x10\x00\x0d\x01a\x01d\x07example\x00\
    \x01x\x07example\x00\x00.\x00\x01\x00\x00\x0e\x10\x00\x1f\x00\x05\x0d\x02\x00\x00\x0e\x10w5\x94\x005\xa4\xe9\x00\x00\x01\x07example\x00ZZZZ\
    \x00\x00)\x04\xd0\x00\x00\x80\x00\x00\x00";

const ALIASES: [Row; 7] = [
    (THEN, 0, CLIENT, QUERY, &[], &[(UPSTREAM, ASKED, &[])]),
    (THEN, 0, SLOT, ANSWER, &[], &[(TO_CLIENT, ANSWERED, &[])]),
    // it wasn't stored
    (THEN, 0, CLIENT, QUERY, &[], &[(UPSTREAM, ASKED, &[])]),
    // now it leads to a.e.example
    (
        THEN,
        0,
        SLOT,
        ANSWER,
        &[(51, b"e")],
        &[(TO_CLIENT, ANSWERED, &[(51, b"e")])],
    ),
    (
        THEN,
        0,
        CLIENT,
        QUERY,
        &[],
        &[(TO_CLIENT, ANSWERED, &[(51, b"e")])],
    ),
    // another name
    (
        THEN,
        0,
        CLIENT,
        QUERY,
        &[(13, b"y")],
        &[(UPSTREAM, ASKED, &[(13, b"y")])],
    ),
    (THEN, 1, TICK, &[], &[], &[]),
];

#[test]
fn an_alias_to_a_passed_name_is_not_stored(rt: HostRuntime) -> Result<(), Fail> {
    let served = serve_rows(&rt, rt.alloc(), &[PASSED], 0, &ALIASES)?;
    let wrong = served.wrong;
    assert!(rt; wrong.is_none(), "{wrong:?}");
    let wrong = first_miscounted(
        &served.shown,
        &[
            (Counter::Asked, 3),
            (Counter::Passed, 1),
            (Counter::Stored, 1),
            (Counter::RelayedNoError, 2),
            (Counter::Set, 1),
        ],
    );
    assert!(rt; wrong.is_none(), "{wrong:?}");
    Ok(())
}

/// A query for x.example DNAME, with an OPT record of size 1232 and DO.
const DNAME_QUERY: &[u8] = b"\
    \x124\x01\x00\x00\x01\x00\x00\x00\x00\x00\x01\
    \x01x\x07example\x00\x00\x27\x00\x01\
    \x00\x00)\x04\xd0\x00\x00\x80\x00\x00\x00";

const DNAME_ASKED: &[u8] = b"\
    \x00\x07\x01\x20\x00\x01\x00\x00\x00\x00\x00\x01\
    \x01x\x07example\x00\x00\x27\x00\x01\
    \x00\x00)\x04\xd0\x00\x00\x80\x00\x00\x00";

/// The answer: names below it lead to names below example, which is above the passed name: d.x.example leads to it.
const DNAME_ANSWER: &[u8] = b"\
    \x00\x07\x81\xa0\x00\x01\x00\x02\x00\x00\x00\x01\
    \x01x\x07example\x00\x00\x27\x00\x01\
    \x01x\x07example\x00\x00\x27\x00\x01\x00\x00\x0e\x10\x00\x09\x07example\x00\
    \x01x\x07example\x00\x00.\x00\x01\x00\x00\x0e\x10\x00\x1f\x00\x27\x0d\x02\x00\x00\x0e\x10w5\x94\x005\xa4\xe9\x00\x00\x01\x07example\x00ZZZZ\
    \x00\x00)\x04\xd0\x00\x00\x00\x00\x00\x00";

const DNAME_ANSWERED: &[u8] = b"\
    \x124\x81\xa0\x00\x01\x00\x02\x00\x00\x00\x01\
    \x01x\x07example\x00\x00\x27\x00\x01\
    \x01x\x07example\x00\x00\x27\x00\x01\x00\x00\x0e\x10\x00\x09\x07example\x00\
    \x01x\x07example\x00\x00.\x00\x01\x00\x00\x0e\x10\x00\x1f\x00\x27\x0d\x02\x00\x00\x0e\x10w5\x94\x005\xa4\xe9\x00\x00\x01\x07example\x00ZZZZ\
    \x00\x00)\x04\xd0\x00\x00\x80\x00\x00\x00";

const REDIRECTIONS: [Row; 6] = [
    (
        THEN,
        0,
        CLIENT,
        DNAME_QUERY,
        &[],
        &[(UPSTREAM, DNAME_ASKED, &[])],
    ),
    (
        THEN,
        0,
        SLOT,
        DNAME_ANSWER,
        &[],
        &[(TO_CLIENT, DNAME_ANSWERED, &[])],
    ),
    // it wasn't stored
    (
        THEN,
        0,
        CLIENT,
        DNAME_QUERY,
        &[],
        &[(UPSTREAM, DNAME_ASKED, &[])],
    ),
    // now they lead to names below examplf
    (
        THEN,
        0,
        SLOT,
        DNAME_ANSWER,
        &[(55, b"f")],
        &[(TO_CLIENT, DNAME_ANSWERED, &[(55, b"f")])],
    ),
    (
        THEN,
        0,
        CLIENT,
        DNAME_QUERY,
        &[],
        &[(TO_CLIENT, DNAME_ANSWERED, &[(55, b"f")])],
    ),
    (THEN, 1, TICK, &[], &[], &[]),
];

#[test]
fn a_redirection_to_names_above_a_passed_one_is_not_stored(rt: HostRuntime) -> Result<(), Fail> {
    let served = serve_rows(&rt, rt.alloc(), &[PASSED], 0, &REDIRECTIONS)?;
    let wrong = served.wrong;
    assert!(rt; wrong.is_none(), "{wrong:?}");
    let wrong = first_miscounted(
        &served.shown,
        &[
            (Counter::Asked, 2),
            (Counter::Passed, 1),
            (Counter::Stored, 1),
            (Counter::RelayedNoError, 2),
            (Counter::Set, 1),
        ],
    );
    assert!(rt; wrong.is_none(), "{wrong:?}");
    Ok(())
}
