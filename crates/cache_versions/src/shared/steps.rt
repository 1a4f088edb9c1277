//! What callers do with the shared object.
ghost use Rattle.std.specs.Prelude.{◌≡◌, ◌≤◌, ◌⊎◌, All, length, fold, IfSome, IfNone, IfOk};
ghost use Rattle.std.specs.Prelude.{MatchBool};
ghost use mathlib.Core.List.{IsPrefix};
ghost use Rattle.cache_versions.specs.Inserts.{Answered};
ghost use Rattle.cache_versions.specs.Lends.{lender_of, seat_in};
ghost use Rattle.cache_versions.specs.Rows.{AreNumbered};
ghost use Rattle.cache_versions.specs.Seats.{IsSameSeat, noted_by, number_by, opening_by, seen_by};
ghost use Rattle.cache_versions.specs.Shares.{IsFresh, IsNoteOf, IsOf, seats_of, start_of};

use super::{Shared, VersionRef};
use crate::dealer::Dealer;
use crate::desk::Desk;
use crate::open::{first_version, make_seats, open_writer};
use crate::place::{InsertFault, Note, Placed, current, place};
use crate::seat::Seat;
use crate::state::State;
use crate::version::reaches;
use std::alloc::{AllocError, Global};
use std::sync::Wait;
use tied_lock::TiedLock;

impl<'a, S: State> VersionRef<'a, S> {
    /// How many batches made the version.
    pub fn number(&self) -> u64
        ensures { result ≡ length (seen_by (seat_in self.now)) }
    {
        self.seat.held.recorded.version.number
    }

    /// The state that the batches made.
    pub fn state(&self) -> &S
        ensures { result.now ≡
            fold S.after (opening_by (seat_in self.now)) (seen_by (seat_in self.now)) }
    {
        &*self.seat.held.recorded.version.state
    }
}

impl<S: State> Shared<S> {
    /// The object, with 1 to 32 seats, of which seat i has the number i. It waits for ever where `left_right` gives a seat no place,
    /// which no run shows.
    pub fn with_seats<R: Wait>(
        rt: &R,
        alloc: Global,
        start: S,
        seats: u8,
    ) -> Result<(Shared<S>, Vec<Seat<S>>), AllocError>
        requires { (1 ≤ seats) × (seats ≤ 32) }
        ensures start { IfOk result (λ t. start_of t.0 ≡ start) }
        ensures all { IfOk result (λ t. (seats_of t.0 ≡ seats) × (length t.1.items ≡ seats)) }
        ensures numbers { IfOk result (λ t. AreNumbered t.1.items) }
        ensures fresh { IfOk result (λ t. All (IsFresh t.0) t.1.items) }
    {
        let (head, held) = first_version(alloc, start)?;
        let (dealer, all) = Dealer::new(alloc, seats)?;
        let mut writer = open_writer(rt, alloc, &held, seats)?;
        let made = match make_seats(rt, alloc, &mut writer, &held, &dealer, all, seats) {
            Ok(made) => made,
            Err(error) => {
                writer.take(rt);
                return Err(error);
            }
        };
        match TiedLock::new(alloc, Desk { writer, head }, &held.recorded) {
            Ok(lock) => Ok((Shared { lock, dealer }, made)),
            Err(desk) => {
                desk.end(rt);
                Err(AllocError)
            }
        }
    }

    /// Goes on to the published version, and lends it. Where that can't be had the seat lends the
    /// version that it keeps.
    pub fn read<'a>(&self, seat: &'a mut Seat<S>) -> VersionRef<'a, S>
        requires { IsOf self.now seat.old }
        ensures same_reference { lender_of result ≡ seat.entry.ghost_name }
        ensures begins { IsPrefix (seen_by seat.old) (seen_by (seat_in result)) }
        ensures object { IsOf self.now (seat_in result) }
        ensures same { IsSameSeat seat.old (seat_in result) }
    {
        seat.move_on();
        VersionRef { seat }
    }

    /// Goes on to the published version, where it can be had, and lends nothing. A seat keeps the version that it read last in
    /// memory: one that is idle lets it go so.
    pub fn move_on(&self, seat: &mut Seat<S>)
        requires { IsOf self.now seat.old }
        ensures object { IsOf self.now seat.new }
        ensures same { IsSameSeat seat.old seat.new }
        ensures begins { IsPrefix (seen_by seat.old) (seen_by seat.new) }
    {
        seat.move_on();
    }

    // Takes the lock and places the batch. `None` where the seat is ahead of the published version,
    // which no run shows.
    fn attempt<R: Wait>(
        &self,
        rt: &R,
        alloc: Global,
        seat: &mut Seat<S>,
        batch: &S::Batch,
    ) -> Option<Result<Placed<S>, InsertFault<S::Fault>>>
        requires { IsOf self.now seat.old }
        ensures object { IsOf self.now seat.new }
        ensures number { number_by seat.new ≡ number_by seat.old }
        ensures begins { IsPrefix (seen_by seat.old) (seen_by seat.new) }
        ensures answer { IfSome result (Answered seat.old seat.new batch.now) }
        ensures note { IfSome result (λ r. IfOk r (λ p. IsNoteOf self.now p.note)) }
        ensures none { IfNone result (seat.new ≡ seat.old) }
    {
        let (lease, desk) = self.lock.take(rt);
        let now = match current(&desk) {
            Ok(now) => now,
            Err(_) => {
                self.lock.give(lease, desk);
                return Some(Err(InsertFault::OutOfMemory));
            }
        };
        if !reaches(&seat.held.recorded, &now.recorded) {
            self.lock.give(lease, desk);
            return None;
        }
        let (desk, answer) = place(rt, alloc, desk, now, &self.dealer, seat, batch);
        self.lock.give(lease, desk);
        Some(answer)
    }

    /// Places the batch behind all that the seat has seen, under the lock. All memory is taken before the version is published. Where
    /// it runs out once the batch stands in the book, each later insert that would be placed wants it too. It waits for ever where
    /// `left_right` doesn't publish, which no run shows.
    pub fn insert<R: Wait>(
        &self,
        rt: &R,
        alloc: Global,
        seat: &mut Seat<S>,
        batch: &S::Batch,
    ) -> Result<Placed<S>, InsertFault<S::Fault>>
        requires { IsOf self.now seat.old }
        ensures object { IsOf self.now seat.new }
        ensures number { number_by seat.new ≡ number_by seat.old }
        ensures begins { IsPrefix (seen_by seat.old) (seen_by seat.new) }
        ensures answer { Answered seat.old seat.new batch.now result }
        ensures note { IfOk result (λ p. IsNoteOf self.now p.note) }
    {
        for _ in rt.forever() {
            if let Some(answer) = self.attempt(rt, alloc, seat, batch) {
                return answer;
            }
        }
        unreachable!()
    }

    /// The seat keeps the longer of its own version and the note's.
    pub fn learn(&self, seat: &mut Seat<S>, note: Note<S>)
        requires seat { IsOf self.now seat.old }
        requires note { IsNoteOf self.now note }
        ensures object { IsOf self.now seat.new }
        ensures same { IsSameSeat seat.old seat.new }
        ensures begins { IsPrefix (seen_by seat.old) (seen_by seat.new) }
        ensures learnt { IsPrefix (noted_by note) (seen_by seat.new) }
        ensures one { (seen_by seat.new ≡ seen_by seat.old)
            ⊎ (seen_by seat.new ≡ noted_by note) }
    {
        let Note { held } = note;
        if reaches(&seat.held.recorded, &held.recorded) {
            seat.go_on(held);
        }
    }

    /// Whether the first of two seats has seen all that the second has. Else the second has seen all that the first has: there is
    /// one history, also while other seats go on.
    pub fn is_ahead(&self, one: &Seat<S>, other: &Seat<S>) -> bool
        requires { IsOf self.now one.now × IsOf self.now other.now }
        ensures { MatchBool result (IsPrefix (seen_by other.now) (seen_by one.now))
            (IsPrefix (seen_by one.now) (seen_by other.now)) }
    {
        reaches(&other.held.recorded, &one.held.recorded)
    }

    /// Ends the object, whatever became of its seats. It says nothing of the versions.
    pub fn give_up<R: Wait>(self, rt: &R) {
        let Shared { lock, dealer: _ } = self;
        match lock.into_value() {
            Ok(desk) => desk.end(rt),
            Err(Some(desk)) => desk.end(rt),
            Err(None) => {}
        }
    }
}
