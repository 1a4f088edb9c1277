//! A question that nobody answers is asked again after one second and after two more, by a new socket and with a new ID, and its
//! clients are told of a failed server after four and a half.
use crate::messages::{AGAIN, ANSWER, ASKED, FAILED, QUERY, RELAYED, THEN, TICK, TO_AGAIN};
use crate::parties::{CLIENT, OTHER, SLOT, TO_CLIENT, TO_OTHER, UPSTREAM};
use crate::row::{Row, first_wrong_row};
use std::test::Fail;

const GIVEN_UP: [Row; 9] = [
    (THEN, 100, CLIENT, QUERY, &[], &[(UPSTREAM, ASKED, &[])]),
    (THEN, 200, OTHER, AGAIN, &[], &[]),
    (THEN, 1099, TICK, &[], &[], &[]),
    (THEN, 1100, TICK, &[], &[], &[(UPSTREAM, ASKED, &[])]),
    (THEN, 3099, TICK, &[], &[], &[]),
    (THEN, 3100, TICK, &[], &[], &[(UPSTREAM, ASKED, &[])]),
    (THEN, 4599, TICK, &[], &[], &[]),
    (
        THEN,
        4600,
        TICK,
        &[],
        &[],
        &[(TO_CLIENT, FAILED, &[]), (TO_OTHER, FAILED, TO_AGAIN)],
    ),
    // nobody waits for it any longer
    (THEN, 4700, SLOT, ANSWER, &[], &[]),
];

#[test]
fn nobody_answers(rt: HostRuntime) -> Result<(), Fail> {
    let wrong = first_wrong_row(&rt, rt.alloc(), &[], 0, &GIVEN_UP)?;
    assert!(rt; wrong.is_none(), "{wrong:?}");
    Ok(())
}

const NEW_IDS: [Row; 7] = [
    (THEN, 0, CLIENT, QUERY, &[], &[(UPSTREAM, ASKED, &[])]),
    (
        THEN,
        1000,
        TICK,
        &[],
        &[],
        &[(UPSTREAM, ASKED, &[(1, b"\x08")])],
    ),
    // with the first ID
    (THEN, 1001, SLOT, ANSWER, &[], &[]),
    (
        THEN,
        3000,
        TICK,
        &[],
        &[],
        &[(UPSTREAM, ASKED, &[(1, b"\x09")])],
    ),
    // with the second ID, and with one that is drawn by none
    (THEN, 3001, SLOT, ANSWER, &[(1, b"\x08")], &[]),
    (THEN, 3002, SLOT, ANSWER, &[(1, b"\x0a")], &[]),
    (
        THEN,
        3003,
        SLOT,
        ANSWER,
        &[(1, b"\x09")],
        &[(TO_CLIENT, RELAYED, &[])],
    ),
];

#[test]
fn each_asking_has_an_id_of_its_own(rt: HostRuntime) -> Result<(), Fail> {
    let wrong = first_wrong_row(&rt, rt.alloc(), &[], 1, &NEW_IDS)?;
    assert!(rt; wrong.is_none(), "{wrong:?}");
    Ok(())
}
