//! Calls of seats on one thread, in turn.
ghost use Rattle.std.specs.Prelude.{◌≡◌, All, length};
ghost use Rattle.cache_versions.specs.Rows.{AreNumbered};
ghost use Rattle.cache_versions.specs.Seats.{number_by};
ghost use Rattle.cache_versions.specs.Shares.{IsNoteOf, IsOf};

use super::digest::Few;
use crate::{InsertFault, Note, Placed, Seat, Shared};
use std::alloc::{AllocError, Global};
use std::sync::Wait;

#[derive(Clone, Copy)]
pub enum Step {
    Insert(usize, u64),
    Read(usize),
    /// The seat learns the newest note that is left.
    Learn(usize),
    /// The seat goes on, and asks nothing.
    Go(usize),
    /// Whether the first seat has seen all that the second has.
    Compare(usize, usize),
}

/// What a call answered: the number of the version that the seat has come to, or why there is none.
#[derive(Debug, PartialEq, Eq, Clone, Copy)]
pub enum Answer {
    At(u64),
    /// A read's version, and its state.
    Saw(u64, u64),
    Spent(u64),
    Refused(u64, u64),
    Ahead(bool),
    NoMemory,
    NoNote,
}

fn insert<R: Wait>(
    rt: &R,
    alloc: Global,
    shared: &Shared<Few>,
    seat: &mut Seat<Few>,
    notes: &mut Vec<Note<Few>>,
    batch: u64,
) -> Answer
    requires seat { IsOf shared.now seat.old }
    requires notes { All (IsNoteOf shared.now) notes.old.items }
    ensures seat { IsOf shared.now seat.new × (number_by seat.new ≡ number_by seat.old) }
    ensures notes { All (IsNoteOf shared.now) notes.new.items }
{
    match shared.insert(rt, alloc, seat, &batch) {
        Ok(Placed { version, note }) => match notes.push(note) {
            Ok(()) => Answer::At(version),
            Err(_) => Answer::NoMemory,
        },
        Err(InsertFault::NumbersSpent { version }) => Answer::Spent(version),
        Err(InsertFault::Refused { version, fault }) => Answer::Refused(version, fault),
        Err(InsertFault::OutOfMemory) => Answer::NoMemory,
    }
}

fn read(shared: &Shared<Few>, seat: &mut Seat<Few>) -> Answer
    requires { IsOf shared.now seat.old }
    ensures { IsOf shared.now seat.new × (number_by seat.new ≡ number_by seat.old) }
{
    let version = shared.read(seat);
    Answer::Saw(version.number(), version.state().value)
}

fn learn(shared: &Shared<Few>, seat: &mut Seat<Few>, notes: &mut Vec<Note<Few>>) -> Answer
    requires seat { IsOf shared.now seat.old }
    requires notes { All (IsNoteOf shared.now) notes.old.items }
    ensures seat { IsOf shared.now seat.new × (number_by seat.new ≡ number_by seat.old) }
    ensures notes { All (IsNoteOf shared.now) notes.new.items }
{
    let Some(note) = notes.pop() else {
        return Answer::NoNote;
    };
    shared.learn(seat, note);
    Answer::At(seat.held.recorded.version.number)
}

fn go(shared: &Shared<Few>, seat: &mut Seat<Few>) -> Answer
    requires { IsOf shared.now seat.old }
    ensures { IsOf shared.now seat.new × (number_by seat.new ≡ number_by seat.old) }
{
    shared.move_on(seat);
    Answer::At(seat.held.recorded.version.number)
}

fn take<R: Wait>(
    rt: &R,
    alloc: Global,
    shared: &Shared<Few>,
    seats: &mut Vec<Seat<Few>>,
    notes: &mut Vec<Note<Few>>,
    step: Step,
) -> Answer
    requires seats { All (IsOf shared.now) seats.old.items × AreNumbered seats.old.items }
    requires three { length seats.old.items ≡ 3 }
    requires notes { All (IsNoteOf shared.now) notes.old.items }
    ensures seats { All (IsOf shared.now) seats.new.items × AreNumbered seats.new.items }
    ensures three { length seats.new.items ≡ 3 }
    ensures notes { All (IsNoteOf shared.now) notes.new.items }
{
    match step {
        Step::Insert(i, batch) => insert(rt, alloc, shared, &mut seats[i % 3], notes, batch),
        Step::Read(i) => read(shared, &mut seats[i % 3]),
        Step::Learn(i) => learn(shared, &mut seats[i % 3], notes),
        Step::Go(i) => go(shared, &mut seats[i % 3]),
        Step::Compare(i, k) => Answer::Ahead(shared.is_ahead(&seats[i % 3], &seats[k % 3])),
    }
}

fn run<R: Wait>(
    rt: &R,
    alloc: Global,
    shared: &Shared<Few>,
    seats: &mut Vec<Seat<Few>>,
    steps: &[(Step, Answer)],
    answers: &mut Vec<Answer>,
) -> Result<(), AllocError>
    requires seats { All (IsOf shared.now) seats.old.items × AreNumbered seats.old.items }
    requires three { length seats.old.items ≡ 3 }
    ensures seats { All (IsOf shared.now) seats.new.items × AreNumbered seats.new.items }
    ensures three { length seats.new.items ≡ 3 }
{
    let mut notes = Vec::new(alloc);
    for (step, _) in steps {
        let answer = take(rt, alloc, shared, seats, &mut notes, *step);
        answers.push(answer)?;
    }
    Ok(())
}

/// Makes three seats, takes the steps, and gives the number of the last version and its state.
pub fn play<R: Wait>(
    rt: &R,
    alloc: Global,
    steps: &[(Step, Answer)],
    answers: &mut Vec<Answer>,
) -> Result<(u64, u64), AllocError> {
    let (shared, mut seats) = Shared::with_seats(rt, alloc, Few { value: 0 }, 3)?;
    let done = run(rt, alloc, &shared, &mut seats, steps, answers);
    let closed = shared.close(rt, seats);
    done?;
    Ok((closed.number(), closed.state().value))
}
