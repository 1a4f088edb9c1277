//! Memory that is refused for an answer: it is passed over, or relayed and not stored.
use crate::counts::first_miscounted;
use crate::messages::{ANSWER, ASKED, DENIED, NEXT_QUERY, QUERY, RELAYED, THEN, TICK};
use crate::parties::{CLIENT, OTHER, SLOT, TO_CLIENT, TO_OTHER, UPSTREAM};
use crate::row::{Row, serve_rows};
use crate::served::Served;
use counters::Counter;
use std::test::Fail;

// An answer, and a query that it proves, as they go where there is memory.
const ROWS: [Row; 4] = [
    (THEN, 0, CLIENT, QUERY, &[], &[(UPSTREAM, ASKED, &[])]),
    (THEN, 0, SLOT, ANSWER, &[], &[(TO_CLIENT, RELAYED, &[])]),
    (THEN, 0, OTHER, NEXT_QUERY, &[], &[(TO_OTHER, DENIED, &[])]),
    (THEN, 1, TICK, &[], &[], &[]),
];

/// The first step that goes otherwise, and what is counted.
type Outcome = (Option<usize>, &'static [(Counter, u64)]);

const OUTCOMES: [Outcome; 3] = [
    // there is memory
    (
        None,
        &[
            (Counter::Asked, 1),
            (Counter::Stored, 1),
            (Counter::RelayedNameError, 1),
            (Counter::NameError, 1),
        ],
    ),
    // it is refused where the answer is stored: the query is asked
    (
        Some(6),
        &[
            (Counter::Asked, 2),
            (Counter::Unstored, 1),
            (Counter::RelayedNameError, 1),
        ],
    ),
    // it is refused where the answer is read: the client isn't told yet, and the query is asked
    (Some(4), &[(Counter::Asked, 2), (Counter::Unread, 1)]),
];

fn is_among(outcomes: &[Outcome], served: &Served) -> bool {
    for (wrong, counted) in outcomes {
        if *wrong == served.wrong && first_miscounted(&served.shown, counted).is_none() {
            return true;
        }
    }
    false
}

// `rt try --test --fail-alloc N` runs it with the Nth allocation refused.
#[test]
fn an_answer_without_memory_is_not_stored(rt: HostRuntime) -> Result<(), Fail> {
    let served = serve_rows(&rt, rt.alloc(), &[], 0, &ROWS)?;
    let wrong = served.wrong;
    assert!(rt; is_among(&OUTCOMES, &served), "{wrong:?}");
    Ok(())
}
