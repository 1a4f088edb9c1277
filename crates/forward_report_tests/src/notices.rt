//! The lines that are due, over looks in turn.
use counters::{Counter, Counts};
use forward_report::{Call, CallFaults, Notice, Notices, What, WorkerReport};
use std::test::Fail;

const REPLY: What = What::Failed(Call::Reply);

const SEND: What = What::Failed(Call::Send);

// A moment in milliseconds; how often replies and questions couldn't be sent by then; how many clients had got an answer of the
// upstream, and how many had been told that none came in time; the lines that are due.
type Look = (u64, [u64; 4], &'static [(What, u64)]);

const FAILURES: [Look; 12] = [
    (0, [1, 0, 0, 0], &[(REPLY, 1)]),
    (1, [4, 0, 0, 0], &[]),
    // Another call has a minute of its own.
    (30_000, [4, 2, 0, 0], &[(SEND, 2)]),
    (59_999, [7, 2, 0, 0], &[]),
    // What was counted since the first line.
    (60_000, [7, 2, 0, 0], &[(REPLY, 6)]),
    (89_999, [7, 3, 0, 0], &[]),
    (90_000, [7, 3, 0, 0], &[(SEND, 1)]),
    // Nothing has failed since.
    (120_000, [7, 3, 0, 0], &[]),
    (160_000, [8, 3, 0, 0], &[(REPLY, 1)]),
    (219_999, [9, 9, 0, 0], &[(SEND, 6)]),
    (220_000, [9, 9, 0, 0], &[(REPLY, 1)]),
    // A clock that goes back makes nothing due.
    (0, [99, 99, 0, 0], &[]),
];

const SILENCE: [Look; 14] = [
    (1_000, [0, 0, 1, 0], &[]),
    // A client was told so, and the last answer is not yet 5 seconds old.
    (5_000, [0, 0, 1, 2], &[]),
    (5_999, [0, 0, 1, 3], &[]),
    (6_000, [0, 0, 1, 3], &[(What::Silent, 3)]),
    // It is said once.
    (6_250, [0, 0, 1, 8], &[]),
    (99_000, [0, 0, 1, 20], &[]),
    (99_250, [0, 0, 2, 20], &[(What::Back, 20)]),
    // Nobody asks: nobody is told that none came.
    (200_000, [0, 0, 2, 20], &[]),
    (200_250, [0, 0, 2, 21], &[(What::Silent, 1)]),
    (200_500, [0, 0, 3, 24], &[(What::Back, 4)]),
    // Answers come: one question has none.
    (203_000, [0, 0, 4, 24], &[]),
    (207_000, [0, 0, 5, 25], &[]),
    (211_000, [0, 0, 6, 26], &[]),
    (216_000, [0, 0, 6, 26], &[]),
];

// It never answered.
const NEVER: [Look; 3] = [
    (4_750, [0, 0, 0, 1], &[]),
    (5_000, [0, 0, 0, 1], &[(What::Silent, 1)]),
    (3_600_000, [0, 0, 0, 900], &[]),
];

// Both kinds at once, those on calls first, in their order.
const BOTH: [Look; 1] = [(
    5_000,
    [3, 2, 0, 1],
    &[(REPLY, 3), (SEND, 2), (What::Silent, 1)],
)];

// What was counted, shared by two workers: the second one has one of each kind, where there is one.
fn workers(counted: [u64; 4]) -> [WorkerReport; 2] {
    let [replies, questions, relayed, late] = counted;
    [
        worker([
            replies.saturating_sub(1),
            questions.saturating_sub(1),
            relayed.saturating_sub(1),
            late.saturating_sub(1),
        ]),
        worker([
            replies.min(1),
            questions.min(1),
            relayed.min(1),
            late.min(1),
        ]),
    ]
}

fn worker(counted: [u64; 4]) -> WorkerReport {
    let [replies, questions, relayed, late] = counted;
    let mut counts = Counts::new();
    counts.add(Counter::RelayedNameError, relayed);
    counts.add(Counter::Late, late);
    let mut faults = CallFaults::new();
    faults.set(Call::Reply, replies);
    faults.set(Call::Send, questions);
    WorkerReport { counts, faults }
}

// Whether these lines are due and no others, in this order.
fn are_due(due: &[Option<Notice>], wanted: &[(What, u64)]) -> bool {
    let mut next = 0;
    for notice in due.iter().flatten() {
        let Some((what, count)) = wanted.get(next) else {
            return false;
        };
        if notice.what != *what || notice.count != *count {
            return false;
        }
        next += 1;
    }
    next == wanted.len()
}

fn first_wrong(looks: &[Look]) -> Option<usize> {
    let mut notices = Notices::new(0);
    for (place, (now, counted, wanted)) in looks.iter().enumerate() {
        let due = notices.look(*now, &workers(*counted));
        if !are_due(&due, wanted) {
            return Some(place);
        }
    }
    None
}

#[test]
fn a_call_has_a_line_a_minute_with_its_new_failures(rt: HostRuntime) {
    let wrong = first_wrong(&FAILURES);
    assert!(rt; wrong.is_none(), "{wrong:?}");
}

#[test]
fn the_upstream_falls_silent_and_is_back(rt: HostRuntime) {
    let wrong = (first_wrong(&SILENCE), first_wrong(&NEVER));
    assert!(rt; wrong == (None, None), "{wrong:?}");
}

#[test]
fn lines_on_calls_come_first(rt: HostRuntime) {
    let wrong = first_wrong(&BOTH);
    assert!(rt; wrong.is_none(), "{wrong:?}");
}

// What all workers count together stays where it is at the end.
#[test]
fn a_sum_does_not_begin_anew(rt: HostRuntime) {
    let two = [worker([u64::MAX, 0, 0, 0]), worker([1, 0, 0, 0])];
    let mut notices = Notices::new(0);
    let due = notices.look(0, &two);
    assert!(rt; are_due(&due, &[(REPLY, u64::MAX)]));
}
