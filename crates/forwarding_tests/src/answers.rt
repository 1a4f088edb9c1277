//! Which answers are taken: by their slot, ID, name, type and class (RFC 5452, section 9.1).
use crate::messages::{
    AGAIN, ANSWER, ASKED, BARE, DENIED, FAILED, NEXT_ASKED, NEXT_QUERY, QUERY, RELAYED, THEN,
    TO_AGAIN,
};
use crate::parties::{
    CLIENT, OTHER, OTHER_SLOT, OTHER_UPSTREAM, SLOT, TO_CLIENT, TO_OTHER, UPSTREAM,
};
use crate::row::{Row, first_wrong_row};
use std::test::Fail;

/// An answer to d.example A, that there are no such records.
const EMPTY_ANSWER: &[u8] = b"\
    \x00\x07\x81\x80\x00\x01\x00\x00\x00\x00\x00\x00\
    \x01d\x07example\x00\x00\x01\x00\x01";

// A question is asked, an equal one joins, the answer goes to both, each in its own letters and with its own ID, and proves the
// next query.
const JOINED: [Row; 4] = [
    (THEN, 0, CLIENT, QUERY, &[], &[(UPSTREAM, ASKED, &[])]),
    (THEN, 0, OTHER, AGAIN, &[], &[]),
    (
        THEN,
        0,
        SLOT,
        ANSWER,
        &[],
        &[(TO_CLIENT, RELAYED, &[]), (TO_OTHER, RELAYED, TO_AGAIN)],
    ),
    (THEN, 0, OTHER, NEXT_QUERY, &[], &[(TO_OTHER, DENIED, &[])]),
];

#[test]
fn an_answer_goes_to_all_and_is_stored(rt: HostRuntime) -> Result<(), Fail> {
    let wrong = first_wrong_row(&rt, rt.alloc(), &[], 0, &JOINED)?;
    assert!(rt; wrong.is_none(), "{wrong:?}");
    Ok(())
}

// Each premise taken away, and then the answer.
const PREMISES: [Row; 12] = [
    (THEN, 0, CLIENT, QUERY, &[], &[(UPSTREAM, ASKED, &[])]),
    // over another slot's socket
    (THEN, 0, OTHER_SLOT, ANSWER, &[], &[]),
    // with another ID
    (THEN, 0, SLOT, ANSWER, &[(1, b"\x08")], &[]),
    // neither was stored
    (
        THEN,
        0,
        OTHER,
        NEXT_QUERY,
        &[],
        &[(OTHER_UPSTREAM, NEXT_ASKED, &[])],
    ),
    // over the socket of another question
    (THEN, 0, OTHER_SLOT, ANSWER, &[], &[]),
    // of another name
    (THEN, 0, SLOT, EMPTY_ANSWER, &[(13, b"e")], &[]),
    // of another type
    (THEN, 0, SLOT, EMPTY_ANSWER, &[(23, b"\x00\x10")], &[]),
    // of another class
    (THEN, 0, SLOT, EMPTY_ANSWER, &[(25, b"\x00\x03")], &[]),
    // a query
    (THEN, 0, SLOT, ASKED, &[], &[]),
    // too short for a header
    (THEN, 0, SLOT, b"\x00\x07", &[], &[]),
    (THEN, 0, SLOT, ANSWER, &[], &[(TO_CLIENT, RELAYED, &[])]),
    // nobody waits for it any longer
    (THEN, 0, SLOT, ANSWER, &[], &[]),
];

#[test]
fn what_fits_no_question_is_passed_over(rt: HostRuntime) -> Result<(), Fail> {
    let wrong = first_wrong_row(&rt, rt.alloc(), &[], 0, &PREMISES)?;
    assert!(rt; wrong.is_none(), "{wrong:?}");
    Ok(())
}

// An answer without a question tells that the upstream couldn't read the query, by its slot and ID alone.
const BARE_ANSWERS: [Row; 5] = [
    (THEN, 0, CLIENT, QUERY, &[], &[(UPSTREAM, ASKED, &[])]),
    (THEN, 0, OTHER_SLOT, BARE, &[], &[]),
    (THEN, 0, SLOT, BARE, &[(1, b"\x08")], &[]),
    (THEN, 0, SLOT, BARE, &[], &[(TO_CLIENT, FAILED, &[])]),
    (THEN, 0, SLOT, ANSWER, &[], &[]),
];

#[test]
fn an_answer_without_a_question_is_a_failure(rt: HostRuntime) -> Result<(), Fail> {
    let wrong = first_wrong_row(&rt, rt.alloc(), &[], 0, &BARE_ANSWERS)?;
    assert!(rt; wrong.is_none(), "{wrong:?}");
    Ok(())
}
