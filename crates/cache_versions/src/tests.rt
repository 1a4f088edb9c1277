//! Seats over states of one number: on one thread, and on two.
use std::test::Fail;

mod crossing;
mod digest;
mod script;
mod threads;

use script::Answer::{Ahead, At, Refused, Saw, Spent};
use script::Step::{Compare, Go, Insert, Learn, Read};
use script::{Answer, Step, play};

// Steps in turn with their answers, and then the number of the last version and its state. The place of a batch that was inserted
// is one less than the number in its answer. The state behind the batches b1, b2, b3 is (b1 * 31 + b2) * 31 + b3, modulo 65,521.
struct Row {
    steps: &'static [(Step, Answer)],
    end: (u64, u64),
}

const ROWS: [Row; 8] = [
    // What was placed is in the note, and in what is read.
    Row {
        steps: &[
            (Insert(0, 7), At(1)),
            (Learn(1), At(1)),
            (Read(1), Saw(1, 7)),
        ],
        end: (1, 7),
    },
    // A seat that learnt nothing reads what is published.
    Row {
        steps: &[
            (Read(2), Saw(0, 0)),
            (Insert(0, 7), At(1)),
            (Read(2), Saw(1, 7)),
        ],
        end: (1, 7),
    },
    // A seat reads its own two batches, in their order.
    Row {
        steps: &[
            (Insert(0, 1), At(1)),
            (Insert(0, 2), At(2)),
            (Read(0), Saw(2, 33)),
        ],
        end: (2, 33),
    },
    // Each place goes to the seat that inserted.
    Row {
        steps: &[
            (Insert(0, 1), At(1)),
            (Insert(1, 2), At(2)),
            (Insert(0, 3), At(3)),
            (Read(0), Saw(3, 1026)),
        ],
        end: (3, 1026),
    },
    // The fourth batch of three finds no number left, also where its state would refuse it.
    Row {
        steps: &[
            (Insert(0, 1), At(1)),
            (Insert(0, 1), At(2)),
            (Insert(2, 1), At(3)),
            (Insert(1, 1), Spent(3)),
            (Insert(1, 0), Spent(3)),
            (Read(1), Saw(3, 993)),
        ],
        end: (3, 993),
    },
    // A refusal says what refused, takes no place, and shows the seat the version that it met.
    Row {
        steps: &[
            (Insert(0, 7), At(1)),
            (Insert(1, 0), Refused(1, 7)),
            (Insert(1, 2), At(2)),
            (Read(0), Saw(2, 219)),
        ],
        end: (2, 219),
    },
    // A seat learns its own note, a newer one and an older one: it never goes back.
    Row {
        steps: &[
            (Insert(0, 1), At(1)),
            (Insert(0, 2), At(2)),
            (Insert(0, 3), At(3)),
            (Learn(0), At(3)),
            (Learn(1), At(2)),
            (Learn(1), At(2)),
        ],
        end: (3, 1026),
    },
    // Of two seats the one is ahead that has seen more, and each of two that have seen as much.
    Row {
        steps: &[
            (Compare(0, 1), Ahead(true)),
            (Compare(1, 0), Ahead(true)),
            (Insert(0, 7), At(1)),
            (Compare(0, 1), Ahead(true)),
            (Compare(1, 0), Ahead(false)),
            (Go(1), At(1)),
            (Compare(1, 0), Ahead(true)),
        ],
        end: (1, 7),
    },
];

#[test]
fn seats_in_turn(rt: HostRuntime) -> Result<(), Fail> {
    for row in &ROWS {
        let mut answers = Vec::new(rt.alloc());
        let end = play(&rt, rt.alloc(), row.steps, &mut answers)?;
        for (i, (_, wanted)) in row.steps.iter().enumerate() {
            assert_eq!(rt; answers.get(i), Some(wanted));
        }
        assert_eq!(rt; end, row.end);
    }
    Ok(())
}

#[test]
fn two_threads(rt: HostRuntime) -> Result<(), Fail> {
    let seen = threads::race(&rt, rt.alloc(), 10000)?;
    assert_eq!(rt; seen, (20000, 20001, true));
    Ok(())
}
