//! What callers do with the cache.
ghost use Rattle.std.specs.Prelude.{◌≡◌, ◌≤◌, ◌⊎◌, All, length, IfOk, MatchBool, MatchResult};
ghost use Rattle.std.specs.List.{flat_map};
ghost use mathlib.Core.List.{IsPrefix};
ghost use Rattle.cache_meaning.specs.Held.{nothing_held};
ghost use Rattle.cache_versions.specs.Closes.{journal_at, opening_at};
ghost use Rattle.cache_versions.specs.Hands.{AreAllBelow};
ghost use Rattle.cache_versions.specs.Inserts.{Inserted};
ghost use Rattle.cache_versions.specs.Lends.{lender_of, seat_in};
ghost use Rattle.cache_versions.specs.Rows.{AreNumbered};
ghost use Rattle.cache_versions.specs.Seats.{IsSameSeat, noted_by, opening_by, places_by, seen_by};
ghost use Rattle.resolver.specs.Caches.{HasGoneOn, HasOnlyRead, IsFreshSeat, IsNoteOf, IsSeatOf, NotPlaced, seats_of};
ghost use Rattle.resolver.specs.Replies.{IsOutcome, IsSoundAt};

use super::{CacheSeat, SharedCache};
use crate::replying::outcome_at;
use crate::{CacheFault, Outcome};
use cache_versions::{Closed, InsertFault, Note, Placed, Shared, VersionRef};
use denial_records::Batch;
use dname::OutOfMemory;
use dnswire::Question;
use record_store::Store;
use reply_core::ReplyBuffer;
use std::alloc::Global;
use std::sync::Wait;

impl SharedCache {
    /// A cache that holds nothing, with 1 to 32 seats, of which seat i has the number i.
    pub fn with_seats<R: Wait>(
        rt: &R,
        alloc: Global,
        seats: u8,
    ) -> Result<(SharedCache, Vec<CacheSeat>), OutOfMemory>
        requires { (1 ≤ seats) × (seats ≤ 32) }
        ensures all { IfOk result (λ t. (seats_of t.0 ≡ seats) × (length t.1.items ≡ seats)) }
        ensures numbers { IfOk result (λ t. AreNumbered t.1.items) }
        ensures fresh { IfOk result (λ t. All (IsFreshSeat t.0) t.1.items) }
    {
        let start = Store::empty(alloc)?;
        let (shared, made) = Shared::with_seats(rt, alloc, start, seats)?;
        Ok((SharedCache { shared }, made))
    }

    /// Goes on to the published version, and lends it; where that can't be had, the one that the seat keeps.
    pub fn read<'a>(&self, seat: &'a mut CacheSeat) -> VersionRef<'a, Store>
        requires { IsSeatOf self.now seat.old }
        ensures same_reference { lender_of result ≡ seat.entry.ghost_name }
        ensures begins { IsPrefix (seen_by seat.old) (seen_by (seat_in result)) }
        ensures object { IsSeatOf self.now (seat_in result) }
        ensures opening { opening_by (seat_in result) ≡ nothing_held }
        ensures same { IsSameSeat seat.old (seat_in result) }
    {
        self.shared.read(seat)
    }

    /// Goes on to the published version, where it can be had, and asks nothing. A seat keeps the version that it read last in memory,
    /// which may be a whole cache: one that is idle lets it go so.
    pub fn move_on(&self, seat: &mut CacheSeat)
        requires { IsSeatOf self.now seat.old }
        ensures read { HasOnlyRead self.now seat.old seat.new }
    {
        self.shared.move_on(seat);
    }

    /// Whether the first of two seats has seen all that the second has. Else the second has seen all that the first has: there is
    /// one history, also while other seats go on.
    pub fn is_ahead(&self, one: &CacheSeat, other: &CacheSeat) -> bool
        requires { IsSeatOf self.now one.now × IsSeatOf self.now other.now }
        ensures { MatchBool result (IsPrefix (seen_by other.now) (seen_by one.now))
            (IsPrefix (seen_by one.now) (seen_by other.now)) }
    {
        self.shared.is_ahead(one, other)
    }

    /// Asks the question at a moment, in seconds, of the one version that it reads. It takes no memory and waits for nobody.
    pub fn query(
        &self,
        seat: &mut CacheSeat,
        question: &Question,
        now: u32,
        out: &mut ReplyBuffer,
    ) -> Outcome
        requires { IsSeatOf self.now seat.old }
        ensures read { HasOnlyRead self.now seat.old seat.new }
        ensures outcome { IsOutcome (seen_by seat.new) question.now now result out.new }
        ensures sound { IsSoundAt (seen_by seat.new) question.now now }
    {
        let version = self.read(seat);
        outcome_at(&version, question, now, out)
    }

    /// Places the batch behind all that the seat has seen. A store refuses no batch.
    pub fn insert<R: Wait>(
        &self,
        rt: &R,
        alloc: Global,
        seat: &mut CacheSeat,
        batch: &Batch,
    ) -> Result<Placed<Store>, CacheFault>
        requires { IsSeatOf self.now seat.old }
        ensures on { HasGoneOn self.now seat.old seat.new }
        ensures answer { MatchResult result (Inserted seat.old seat.new batch.entry.now)
            (NotPlaced seat.old seat.new batch.entry.now) }
        ensures note { IfOk result (λ p. IsNoteOf self.now p.note) }
    {
        match self.shared.insert(rt, alloc, seat, batch) {
            Ok(placed) => Ok(placed),
            Err(InsertFault::NumbersSpent { version }) => Err(CacheFault::NumbersSpent { version }),
            Err(
                InsertFault::Refused {
                    version: _,
                    fault: _,
                },
            ) => unreachable!(),
            Err(InsertFault::OutOfMemory) => Err(CacheFault::OutOfMemory),
        }
    }

    /// The seat keeps the longer of its own version and the note's.
    pub fn learn(&self, seat: &mut CacheSeat, note: Note<Store>)
        requires seat { IsSeatOf self.now seat.old }
        requires note { IsNoteOf self.now note }
        ensures read { HasOnlyRead self.now seat.old seat.new }
        ensures learnt { IsPrefix (noted_by note) (seen_by seat.new) }
        ensures one { (seen_by seat.new ≡ seen_by seat.old)
            ⊎ (seen_by seat.new ≡ noted_by note) }
    {
        self.shared.learn(seat, note);
    }

    /// Ends the cache with its seats, which are all that were made with it. It takes no memory.
    pub fn close<R: Wait>(self, rt: &R, seats: Vec<CacheSeat>) -> Closed<Store>
        requires made { All (IsSeatOf self) seats.items }
        requires all { length seats.items ≡ seats_of self }
        ensures start { opening_at result ≡ nothing_held }
        ensures seen { All (λ s. IsPrefix (seen_by s) (journal_at result)) seats.items }
        ensures places { AreAllBelow (length (journal_at result)) (flat_map places_by seats.items) }
    {
        let SharedCache { shared } = self;
        shared.close(rt, seats)
    }

    /// Ends the cache, whatever became of its seats. It says nothing of the versions.
    pub fn give_up<R: Wait>(self, rt: &R) {
        let SharedCache { shared } = self;
        shared.give_up(rt);
    }
}
