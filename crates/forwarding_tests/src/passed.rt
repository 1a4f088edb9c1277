//! Names that are the resolver's own: what is at or below one is asked and never answered from the cache, and no record of it is
//! stored.
use crate::messages::{ANSWER, ASKED, DENIED, NEXT_ASKED, NEXT_QUERY, QUERY, RELAYED, THEN};
use crate::parties::{CLIENT, OTHER, SLOT, TO_CLIENT, TO_OTHER, UPSTREAM};
use crate::row::{Row, first_wrong_row};
use std::test::Fail;

// The name is passed: its neighbour's record, which is stored, doesn't deny it, but denies the next name.
const NEIGHBOUR: [Row; 4] = [
    (THEN, 0, CLIENT, QUERY, &[], &[(UPSTREAM, ASKED, &[])]),
    (THEN, 0, SLOT, ANSWER, &[], &[(TO_CLIENT, RELAYED, &[])]),
    (
        THEN,
        0,
        OTHER,
        NEXT_QUERY,
        &[],
        &[(UPSTREAM, NEXT_ASKED, &[])],
    ),
    (
        THEN,
        0,
        OTHER,
        NEXT_QUERY,
        &[(14, b"e")],
        &[(TO_OTHER, DENIED, &[(14, b"e")])],
    ),
];

#[test]
fn a_neighbour_denies_no_passed_name(rt: HostRuntime) -> Result<(), Fail> {
    let wrong = first_wrong_row(&rt, rt.alloc(), &[b"\x02dd\x07example\x00"], 0, &NEIGHBOUR)?;
    assert!(rt; wrong.is_none(), "{wrong:?}");
    Ok(())
}

// The zone is passed: nothing of it is stored, and all names below it are asked.
const ZONE: [Row; 3] = [
    (THEN, 0, CLIENT, QUERY, &[], &[(UPSTREAM, ASKED, &[])]),
    (THEN, 0, SLOT, ANSWER, &[], &[(TO_CLIENT, RELAYED, &[])]),
    (
        THEN,
        0,
        OTHER,
        NEXT_QUERY,
        &[],
        &[(UPSTREAM, NEXT_ASKED, &[])],
    ),
];

#[test]
fn nothing_below_a_passed_name_is_denied(rt: HostRuntime) -> Result<(), Fail> {
    let wrong = first_wrong_row(&rt, rt.alloc(), &[b"\x07example\x00"], 0, &ZONE)?;
    assert!(rt; wrong.is_none(), "{wrong:?}");
    Ok(())
}
