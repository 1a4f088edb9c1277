//! How a shared object begins, with its seats.
ghost use Rattle.std.specs.Prelude.{◌≡◌, ◌<◌, [], All, IfOk, length, drop};
ghost use Rattle.left_right.specs.Sides.{view};
ghost use Rattle.cache_versions.specs.Book.{head_of};
ghost use Rattle.cache_versions.specs.Kin.{IsSame, KnowsKin, journal_of, opening_of};
ghost use Rattle.cache_versions.specs.Dealers.{HasPlaces, IsHandOf, table_of};
ghost use Rattle.cache_versions.specs.Rows.{AreNumbered, IsMadeWith};
ghost use Rattle.cache_versions.specs.Seats.{number_by};

use crate::book::{Head, open_book};
use crate::dealer::Dealer;
use crate::desk::Pen;
use crate::hand::Hand;
use crate::never::never;
use crate::place::owned;
use crate::rule::{Copies, Meet, Replaces};
use crate::seat::{Held, Seat};
use crate::state::State;
use crate::version::{Recorded, RecordedOf, Version};
use left_right::writer::Writer;
use std::alloc::{AllocError, Global};
use std::sync::{Arc, Wait};

/// The version with no batch, and the word of its book.
pub(crate) fn first_version<S: State>(
    alloc: Global,
    start: S,
) -> Result<(Head<S::Batch>, Held<S>), AllocError>
    ensures head { IfOk result (λ t. t.0 ≡ head_of t.1.recorded.front.book) }
    ensures journal { IfOk result (λ t. journal_of t.1.recorded ≡ []) }
    ensures opening { IfOk result (λ t. opening_of t.1.recorded ≡ start) }
{
    let opening = owned(alloc, start)?;
    let state = Arc::try_clone(&opening)?;
    let first = Version {
        state,
        opening,
        number: 0,
    };
    let version = owned(alloc, first)?;
    let (head, front) = open_book();
    let recorded = Recorded { version, front };
    Ok((head, Held { recorded }))
}

// The first publication. With it the writer has taken what memory its operations need. It waits for ever where `left_right` doesn't
// publish, which no run shows.
fn meet<S: State, R: Wait>(
    rt: &R,
    writer: Pen<S>,
    first: RecordedOf<S>,
) -> Result<Pen<S>, AllocError>
    requires idle { drop writer.behind writer.log.items ≡ [] }
    requires same { IsSame first writer.desk.shown.value }
    ensures known { IfOk result (λ w. KnowsKin (view w.desk.place) first) }
    ensures same { IfOk result (λ w. IsSame first w.desk.shown.value) }
{
    let mut writer = writer;
    if writer.append(first).is_err() {
        writer.take(rt);
        return Err(AllocError);
    }
    let (writer, done) = writer.publish_as::<Meet, R>(rt);
    if done.is_err() {
        writer.take(rt);
        never(rt);
        unreachable!()
    }
    Ok(writer)
}

/// A writer that knows the version, which it publishes.
pub(crate) fn open_writer<S: State, R: Wait>(
    rt: &R,
    alloc: Global,
    held: &Held<S>,
    seats: u8,
) -> Result<Pen<S>, AllocError>
    requires { 0 < seats }
    ensures known { IfOk result (λ w. KnowsKin (view w.desk.place) held.now.recorded) }
    ensures same { IfOk result (λ w. IsSame held.now.recorded w.desk.shown.value) }
{
    let shown = held.recorded.again()?;
    let spare = held.recorded.again()?;
    let first = held.recorded.again()?;
    let writer: Pen<S> = Writer::new(alloc, shown, spare, seats as usize)?;
    meet(rt, writer, first)
}

// A seat that has seen the version which the writer knows. It waits for ever where `left_right` has no place for a reader, which no
// run shows: it has as many as there are seats.
fn make_seat<S: State, R: Wait>(
    rt: &R,
    alloc: Global,
    writer: &mut Pen<S>,
    held: &Held<S>,
    hand: Hand,
    number: u8,
) -> Result<Seat<S>, AllocError>
    requires known { KnowsKin (view writer.old.desk.place) held.now.recorded }
    requires hand { HasPlaces 1 [] hand }
    ensures shown { writer.new.desk.shown ≡ writer.old.desk.shown }
    ensures known { view writer.new.desk.place ≡ view writer.old.desk.place }
    ensures number { IfOk result (λ s. number_by s ≡ number) }
    ensures seat { IfOk result (IsMadeWith held.now.recorded hand.table_id) }
{
    let held = held.again()?;
    let Ok(mut reader) = writer.factory().reader() else {
        never(rt);
        unreachable!()
    };
    reader.learn::<Replaces>(writer.tell::<Copies>());
    Ok(Seat {
        number,
        held,
        reader: Some(reader),
        hand,
    })
}

/// Seats that have seen the version which the writer knows, by their numbers.
pub(crate) fn make_seats<S: State, R: Wait>(
    rt: &R,
    alloc: Global,
    writer: &mut Pen<S>,
    held: &Held<S>,
    dealer: &Dealer,
    all: Hand,
    seats: u8,
) -> Result<Vec<Seat<S>>, AllocError>
    requires known { KnowsKin (view writer.old.desk.place) held.now.recorded }
    requires hands { IsHandOf dealer.now all × HasPlaces seats [] all }
    ensures writer { writer.new.desk.shown ≡ writer.old.desk.shown }
    ensures all { IfOk result (λ v. length v.items ≡ seats) }
    ensures numbers { IfOk result (λ v. AreNumbered v.items) }
    ensures made { IfOk result (λ v.
        All (IsMadeWith held.now.recorded (table_of dealer.now)) v.items) }
{
    let mut all = all;
    let mut made = Vec::new(alloc);
    for number in 0..seats {
        let hand = dealer.cut(&mut all);
        let seat = make_seat(rt, alloc, writer, held, hand, number)?;
        made.push(seat)?;
    }
    Ok(made)
}
