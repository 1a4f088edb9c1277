//! The clock of seconds is set back, while that of milliseconds goes on.
use crate::messages::{ANSWER, ASKED, DENIED, NEXT_QUERY, QUERY, RELAYED, THEN, TICK};
use crate::parties::{CLIENT, OTHER, SLOT, TO_CLIENT, TO_OTHER, UPSTREAM};
use crate::row::{Row, first_wrong_row};
use std::test::Fail;

/// A query for a name of another zone.
const ELSEWHERE: &[u8] = b"\
    \x43\x21\x01\x00\x00\x01\x00\x00\x00\x00\x00\x00\
    \x01e\x07invalid\x00\x00\x01\x00\x01";

const ELSEWHERE_ASKED: &[u8] = b"\
    \x00\x07\x01\x20\x00\x01\x00\x00\x00\x00\x00\x01\
    \x01e\x07invalid\x00\x00\x01\x00\x01\
    \x00\x00)\x04\xd0\x00\x00\x80\x00\x00\x00";

const ELSEWHERE_FAILED: &[u8] = b"\
    \x43\x21\x81\x82\x00\x01\x00\x00\x00\x00\x00\x00\
    \x01e\x07invalid\x00\x00\x01\x00\x01";

const BACK: u32 = THEN - 5_000;

const FURTHER_BACK: u32 = THEN - 20_000;

// How questions wait goes by milliseconds. A record lives longer by no more than the clock was set back, and tells no longer life than
// it has, so its denial has the SOA's MINIMUM still.
const SET_BACK: [Row; 9] = [
    (THEN, 0, CLIENT, QUERY, &[], &[(UPSTREAM, ASKED, &[])]),
    (BACK, 999, TICK, &[], &[], &[]),
    (BACK, 1000, TICK, &[], &[], &[(UPSTREAM, ASKED, &[])]),
    (BACK, 1100, SLOT, ANSWER, &[], &[(TO_CLIENT, RELAYED, &[])]),
    (
        FURTHER_BACK,
        1200,
        OTHER,
        NEXT_QUERY,
        &[],
        &[(TO_OTHER, DENIED, &[])],
    ),
    (
        BACK,
        2000,
        CLIENT,
        ELSEWHERE,
        &[],
        &[(UPSTREAM, ELSEWHERE_ASKED, &[])],
    ),
    (
        FURTHER_BACK,
        3000,
        TICK,
        &[],
        &[],
        &[(UPSTREAM, ELSEWHERE_ASKED, &[])],
    ),
    (
        THEN,
        5000,
        TICK,
        &[],
        &[],
        &[(UPSTREAM, ELSEWHERE_ASKED, &[])],
    ),
    (
        FURTHER_BACK,
        6500,
        TICK,
        &[],
        &[],
        &[(TO_CLIENT, ELSEWHERE_FAILED, &[])],
    ),
];

#[test]
fn the_seconds_are_set_back(rt: HostRuntime) -> Result<(), Fail> {
    let wrong = first_wrong_row(&rt, rt.alloc(), &[], 0, &SET_BACK)?;
    assert!(rt; wrong.is_none(), "{wrong:?}");
    Ok(())
}
