//! How a shared object is closed.
ghost use Rattle.std.specs.Prelude.{◌≡◌, All, fold, length};
ghost use Rattle.std.specs.List.{flat_map};
ghost use mathlib.Core.List.{IsPrefix};
ghost use Rattle.tied_lock.specs.Locked.{key_of};
ghost use Rattle.cache_versions.specs.Closes.{journal_at, opening_at};
ghost use Rattle.cache_versions.specs.Hands.{AreAllBelow, both_in_hand, in_hand};
ghost use Rattle.cache_versions.specs.Kin.{Begins, Kin, journal_of};
ghost use Rattle.cache_versions.specs.Dealers.{IsHandOf, IsSameHand, hands_of};
ghost use Rattle.cache_versions.specs.Seats.{kept_by, places_by, seen_by};
ghost use Rattle.cache_versions.specs.Shares.{IsOf, first_of, seats_of, start_of};

use super::Closed;
use crate::dealer::Dealer;
use crate::desk::Desk;
use crate::hand::Hand;
use crate::never::never;
use crate::seat::{Held, Seat};
use crate::shared::{Same, Shared};
use crate::state::State;
use crate::version::{Recorded, RecordedOf, reaches};
use std::sync::Wait;
use tied_lock::TiedLock;

// Waits for ever where the first version is the longer one, which no run shows.
fn ask_begins<S, B, R: Wait>(rt: &R, first: &Recorded<S, B>, second: &Recorded<S, B>)
    requires { Kin first.now second.now }
    ensures { Begins first.now second.now }
{
    if !reaches(first, second) {
        never(rt);
    }
}

// Waits for ever where as many places were not dealt out as the version has batches, which no run
// shows.
fn ask_dealt<S, B, R: Wait>(rt: &R, dealer: Dealer, all: Hand, last: &Recorded<S, B>)
    requires dealer { IsHandOf dealer all }
    requires all { all.me.0.hands ≡ hands_of dealer }
    ensures { AreAllBelow (length (journal_of last.now)) all.me.0.places }
{
    let dealt = dealer.close(all);
    if dealt != last.version.number {
        never(rt);
    }
}

// Takes the hand of a seat, whose version begins the last one.
fn end_seat<S: State, R: Wait>(
    rt: &R,
    last: &Held<S>,
    dealer: &Dealer,
    all: &mut Hand,
    seat: Seat<S>,
)
    requires kin { Kin (kept_by seat) last.now.recorded }
    requires all { IsHandOf dealer.now all.old }
    requires hand { IsHandOf dealer.now seat.hand }
    ensures begins { Begins (kept_by seat) last.now.recorded }
    ensures dealer { IsSameHand all.old all.new }
    ensures all { all.new.me.0 ≡ both_in_hand all.old.me.0 (in_hand 1 (places_by seat)) }
{
    let Seat {
        number: _,
        held,
        reader: _,
        hand,
    } = seat;
    ask_begins(rt, &held.recorded, &last.recorded);
    dealer.join(all, hand);
}

// The version that was published last.
fn last<S: State, R: Wait>(rt: &R, lock: TiedLock<Desk<S>, RecordedOf<S>, Same>) -> Held<S>
    ensures { Kin (key_of lock) result.recorded }
{
    let desk = match lock.into_value() {
        Ok(desk) => desk,
        Err(slot) => {
            if let Some(desk) = slot {
                desk.end(rt);
            }
            never(rt);
            unreachable!()
        }
    };
    let Desk { writer, head: _ } = desk;
    let recorded = Box::into_inner(writer.take(rt));
    Held { recorded }
}

impl<S: State> Shared<S> {
    /// Ends the object with its seats, which are all that were made with it. It takes no memory.
    pub fn close<R: Wait>(self, rt: &R, seats: Vec<Seat<S>>) -> Closed<S>
        requires made { All (IsOf self) seats.items }
        requires all { length seats.items ≡ seats_of self }
        ensures start { opening_at result ≡ start_of self }
        ensures seen { All (λ s. IsPrefix (seen_by s) (journal_at result)) seats.items }
        ensures places { AreAllBelow (length (journal_at result)) (flat_map places_by seats.items) }
    {
        let Shared { lock, dealer } = self;
        let held = last(rt, lock);
        let mut all = dealer.empty_hand();
        for seat in seats {
            end_seat(rt, &held, &dealer, &mut all, seat);
        }
        ask_dealt(rt, dealer, all, &held.recorded);
        Closed { held }
    }
}

impl<S: State> Closed<S> {
    /// The state that all batches made.
    pub fn state(&self) -> &S
        ensures { result.now ≡ fold S.after (opening_at self.now) (journal_at self.now) }
    {
        &*self.held.recorded.version.state
    }

    /// How many batches were placed.
    pub fn number(&self) -> u64
        ensures { result ≡ length (journal_at self.now) }
    {
        self.held.recorded.version.number
    }
}
