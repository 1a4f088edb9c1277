//! What is counted, as the outlet is shown it at a tick.
use crate::messages::{
    AGAIN, ANSWER, ASKED, BARE, DENIED, FAILED, NEXT_QUERY, QUERY, RELAYED, THEN, TICK, TO_AGAIN,
};
use crate::parties::{
    CLIENT, OTHER, OTHER_SLOT, SLOT, STREAM_SLOT, STREAM_UPSTREAM, TO_CLIENT, TO_OTHER, UPSTREAM,
};
use crate::row::{Row, serve_rows};
use counters::{Counter, Counts};
use forwarding::Holding;
use std::test::Fail;

/// The first counter that was counted otherwise: these so often, and all others never.
pub(crate) fn first_miscounted(
    shown: &Counts,
    wanted: &[(Counter, u64)],
) -> Option<(Counter, u64)> {
    for counter in Counter::ALL {
        let number = shown.of(counter);
        if number != wanted_of(counter, wanted) {
            return Some((counter, number));
        }
    }
    None
}

fn wanted_of(counter: Counter, wanted: &[(Counter, u64)]) -> u64 {
    for (other, number) in wanted {
        if *other == counter {
            return *number;
        }
    }
    0
}

// Each kind of query, and an answer of which three records are stored: an SOA set and two NSEC records.
const QUERIES: [Row; 10] = [
    // fewer octets than a header has
    (THEN, 0, CLIENT, b"\x124", &[], &[]),
    // a NOTIFY (RFC 1996, section 3)
    (
        THEN,
        0,
        CLIENT,
        QUERY,
        &[(2, b"\x21")],
        &[(
            TO_CLIENT,
            b"\x124\xa1\x84\x00\x00\x00\x00\x00\x00\x00\x00",
            &[],
        )],
    ),
    // two questions by the header
    (
        THEN,
        0,
        CLIENT,
        QUERY,
        &[(5, b"\x02")],
        &[(
            TO_CLIENT,
            b"\x124\x81\x81\x00\x00\x00\x00\x00\x00\x00\x00",
            &[],
        )],
    ),
    // version 1 of EDNS
    (
        THEN,
        0,
        CLIENT,
        QUERY,
        &[(33, b"\x01")],
        &[(TO_CLIENT, FAILED, &[(3, b"\x80"), (32, b"\x01")])],
    ),
    (THEN, 0, CLIENT, QUERY, &[], &[(UPSTREAM, ASKED, &[])]),
    (THEN, 0, OTHER, AGAIN, &[], &[]),
    (THEN, 0, OTHER_SLOT, ANSWER, &[], &[]),
    (
        THEN,
        0,
        SLOT,
        ANSWER,
        &[],
        &[(TO_CLIENT, RELAYED, &[]), (TO_OTHER, RELAYED, TO_AGAIN)],
    ),
    (THEN, 0, OTHER, NEXT_QUERY, &[], &[(TO_OTHER, DENIED, &[])]),
    (THEN, 1, TICK, &[], &[], &[]),
];

#[test]
fn queries_are_counted(rt: HostRuntime) -> Result<(), Fail> {
    let served = serve_rows(&rt, rt.alloc(), &[], 0, &QUERIES)?;
    let wrong = served.wrong;
    assert!(rt; wrong.is_none(), "{wrong:?}");
    let wrong = first_miscounted(
        &served.shown,
        &[
            (Counter::Dropped, 1),
            (Counter::NotImplemented, 1),
            (Counter::FormatError, 1),
            (Counter::BadVersion, 1),
            (Counter::Asked, 1),
            (Counter::Joined, 1),
            (Counter::Ignored, 1),
            (Counter::Stored, 1),
            (Counter::RelayedNameError, 2),
            (Counter::NameError, 1),
        ],
    );
    assert!(rt; wrong.is_none(), "{wrong:?}");
    Ok(())
}

#[test]
fn what_is_held_is_told(rt: HostRuntime) -> Result<(), Fail> {
    let served = serve_rows(&rt, rt.alloc(), &[], 0, &QUERIES)?;
    let holding = served.holding;
    let wanted = Holding {
        records: 3,
        zones: 1,
        chains: 1,
        version: 1,
    };
    assert!(rt; holding == wanted, "{holding:?}");
    Ok(())
}

// A question with two clients is asked three times and given up, and the answer comes too late.
const LATE: [Row; 7] = [
    (THEN, 0, CLIENT, QUERY, &[], &[(UPSTREAM, ASKED, &[])]),
    (THEN, 0, OTHER, AGAIN, &[], &[]),
    (THEN, 1000, TICK, &[], &[], &[(UPSTREAM, ASKED, &[])]),
    (THEN, 3000, TICK, &[], &[], &[(UPSTREAM, ASKED, &[])]),
    (
        THEN,
        4500,
        TICK,
        &[],
        &[],
        &[(TO_CLIENT, FAILED, &[]), (TO_OTHER, FAILED, TO_AGAIN)],
    ),
    (THEN, 4600, SLOT, ANSWER, &[], &[]),
    (THEN, 4750, TICK, &[], &[], &[]),
];

#[test]
fn late_questions_are_counted(rt: HostRuntime) -> Result<(), Fail> {
    let served = serve_rows(&rt, rt.alloc(), &[], 0, &LATE)?;
    let wrong = served.wrong;
    assert!(rt; wrong.is_none(), "{wrong:?}");
    let wrong = first_miscounted(
        &served.shown,
        &[
            (Counter::Asked, 1),
            (Counter::Joined, 1),
            (Counter::AskedAgain, 2),
            (Counter::Late, 2),
            (Counter::Ignored, 1),
        ],
    );
    assert!(rt; wrong.is_none(), "{wrong:?}");
    Ok(())
}

/// An answer to d.example A, that there are no such records.
const EMPTY: &[u8] = b"\
    \x00\x07\x81\x80\x00\x01\x00\x00\x00\x00\x00\x00\
    \x01d\x07example\x00\x00\x01\x00\x01";

// Answers of which nothing is stored, each as its client gets it.
const REFUSED: [Row; 16] = [
    (THEN, 0, CLIENT, QUERY, &[], &[(UPSTREAM, ASKED, &[])]),
    // without AD
    (
        THEN,
        0,
        SLOT,
        EMPTY,
        &[],
        &[(TO_CLIENT, FAILED, &[(3, b"\x80")])],
    ),
    (THEN, 0, CLIENT, QUERY, &[], &[(UPSTREAM, ASKED, &[])]),
    // without records
    (
        THEN,
        0,
        SLOT,
        EMPTY,
        &[(3, b"\xa0")],
        &[(TO_CLIENT, FAILED, &[(3, b"\xa0")])],
    ),
    (THEN, 0, CLIENT, QUERY, &[], &[(UPSTREAM, ASKED, &[])]),
    // with TC, by a stream
    (
        THEN,
        0,
        SLOT,
        EMPTY,
        &[(2, b"\x83")],
        &[(STREAM_UPSTREAM, ASKED, &[])],
    ),
    (
        THEN,
        0,
        STREAM_SLOT,
        EMPTY,
        &[(2, b"\x83")],
        &[(TO_CLIENT, FAILED, &[(2, b"\x83\x80")])],
    ),
    (THEN, 0, CLIENT, QUERY, &[], &[(UPSTREAM, ASKED, &[])]),
    // SERVFAIL
    (
        THEN,
        0,
        SLOT,
        EMPTY,
        &[(3, b"\x82")],
        &[(TO_CLIENT, FAILED, &[])],
    ),
    (THEN, 0, CLIENT, QUERY, &[], &[(UPSTREAM, ASKED, &[])]),
    // REFUSED
    (
        THEN,
        0,
        SLOT,
        EMPTY,
        &[(3, b"\x85")],
        &[(TO_CLIENT, FAILED, &[(3, b"\x85")])],
    ),
    (THEN, 0, CLIENT, QUERY, &[], &[(UPSTREAM, ASKED, &[])]),
    // NOTIMP
    (
        THEN,
        0,
        SLOT,
        EMPTY,
        &[(3, b"\x84")],
        &[(TO_CLIENT, FAILED, &[(3, b"\x84")])],
    ),
    (THEN, 0, CLIENT, QUERY, &[], &[(UPSTREAM, ASKED, &[])]),
    // without a question
    (THEN, 0, SLOT, BARE, &[], &[(TO_CLIENT, FAILED, &[])]),
    (THEN, 1, TICK, &[], &[], &[]),
];

#[test]
fn answers_are_counted_by_what_becomes_of_them(rt: HostRuntime) -> Result<(), Fail> {
    let served = serve_rows(&rt, rt.alloc(), &[], 0, &REFUSED)?;
    let wrong = served.wrong;
    assert!(rt; wrong.is_none(), "{wrong:?}");
    let wrong = first_miscounted(
        &served.shown,
        &[
            (Counter::Asked, 7),
            (Counter::AskedByStream, 1),
            (Counter::NotAuthentic, 1),
            (Counter::NothingToStore, 1),
            (Counter::Truncated, 1),
            (Counter::OtherRcode, 3),
            (Counter::RelayedNoError, 3),
            (Counter::RelayedServerFailure, 1),
            (Counter::RelayedRefused, 1),
            (Counter::RelayedOther, 1),
            (Counter::Unreadable, 1),
        ],
    );
    assert!(rt; wrong.is_none(), "{wrong:?}");
    Ok(())
}
