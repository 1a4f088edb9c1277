//! What a seat does by itself.
ghost use Rattle.std.specs.Prelude.{◌≡◌, ◌<◌, ◌++◌, ◌∷◌, [], IfOk, IfSome};
ghost use mathlib.Core.List.{IsPrefix};
ghost use Rattle.left_right.specs.Sides.{view};
ghost use Rattle.cache_versions.specs.Dealers.{IsHandOf};
ghost use Rattle.cache_versions.specs.Seats.{IsSameSeat, kept_by, number_by, places_by, seen_by};
ghost use Rattle.cache_versions.specs.Kin.{Begins, IsSame, Kin, KnowsKin, Sound};

use super::{Held, Place, Seat};
use crate::dealer::Dealer;
use crate::never::never;
use crate::rule::Look;
use crate::state::State;
use crate::version::{RecordedOf, reaches};
use std::alloc::AllocError;
use std::sync::Wait;

impl<S: State> Held<S> {
    pub fn again(&self) -> Result<Held<S>, AllocError>
        ensures { IfOk result (λ h. IsSame self.now.recorded h.recorded) }
    {
        Ok(Held {
            recorded: self.recorded.again()?,
        })
    }
}

// One more owner of what is shown, where it goes beyond `held`.
fn beyond<S: State>(held: &Held<S>, shown: &RecordedOf<S>) -> Option<Held<S>>
    requires kin { Kin held.now.recorded shown.now }
    requires sound { Sound S.after S.BATCHES shown.now }
    ensures kin { IfSome result (λ h. Kin held.now.recorded h.recorded) }
    ensures begins { IfSome result (λ h. Begins held.now.recorded h.recorded) }
{
    if reaches(shown, &held.recorded) {
        return None;
    }
    match shown.again() {
        Ok(recorded) => Some(Held { recorded }),
        Err(_) => None,
    }
}

// One reading step. It gives what it found if that goes beyond `held`, and makes no owner else.
fn look<S: State>(place: Place<S>, held: &Held<S>) -> (Place<S>, Option<Held<S>>)
    requires { KnowsKin (view place.place) held.now.recorded }
    ensures same { view result.0.place ≡ view place.place }
    ensures known { IfSome result.1 (λ h. KnowsKin (view place.place) h.recorded) }
    ensures kin { IfSome result.1 (λ h. Kin held.now.recorded h.recorded) }
    ensures begins { IfSome result.1 (λ h. Begins held.now.recorded h.recorded) }
{
    match place.enter_as::<Look>() {
        Ok(reading) => {
            let found = beyond(held, reading.get());
            (reading.leave(), found)
        }
        Err(place) => (place, None),
    }
}

impl<S: State> Seat<S> {
    /// Goes on to the published version, if that is given.
    pub fn move_on(&mut self)
        ensures begins { IsPrefix (seen_by self.old) (seen_by self.new) }
        ensures kin { Kin (kept_by self.old) (kept_by self.new) }
        ensures same { IsSameSeat self.old self.new }
        ensures hand { self.new.hand ≡ self.old.hand }
    {
        let Some(place) = self.reader.take() else {
            return;
        };
        let (place, found) = look(place, &self.held);
        self.reader = Some(place);
        if let Some(found) = found {
            self.held = found;
        }
    }

    /// Goes on to the version.
    pub fn go_on(&mut self, next: Held<S>)
        requires { Kin (kept_by self.old) next.recorded }
        ensures held { self.new.held ≡ next }
        ensures same { IsSameSeat self.old self.new }
        ensures hand { self.new.hand ≡ self.old.hand }
    {
        self.held = next;
    }

    /// Goes on to the version that has its own batch, and is dealt the batch's place. It waits for
    /// ever where that place is not the next one, which no run shows.
    pub fn settle<R: Wait>(&mut self, rt: &R, dealer: &Dealer, next: Held<S>, place: u64)
        requires few { place < S.BATCHES }
        requires kin { Kin (kept_by self.old) next.recorded }
        requires hand { IsHandOf dealer.now self.old.hand }
        ensures held { self.new.held ≡ next }
        ensures places { places_by self.new ≡ places_by self.old ++ place ∷ [] }
        ensures hand { IsHandOf dealer.now self.new.hand }
        ensures number { number_by self.new ≡ number_by self.old }
    {
        self.held = next;
        if !dealer.deal(&mut self.hand, place) {
            never(rt);
            unreachable!()
        }
    }
}
