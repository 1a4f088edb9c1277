//! How a batch is placed, with the desk in hand.
ghost use Rattle.std.specs.Prelude.{◌≡◌, ◌+◌, None, IfErr, IfOk, OnErr, OnOk};
ghost use Rattle.std.specs.Arc.{arc_value};
ghost use Rattle.cache_versions.specs.Desks.{published, IsGrown, IsNext};
ghost use Rattle.cache_versions.specs.Faults.{RefusedBy};
ghost use Rattle.cache_versions.specs.Kin.{IsSame, Kin, Sound, number_of, state_of};
ghost use Rattle.cache_versions.specs.Places.{IsAnswer};
ghost use Rattle.cache_versions.specs.Dealers.{IsHandOf};
ghost use Rattle.cache_versions.specs.Seats.{kept_by};

use super::{InsertFault, Note, Placed};
use crate::dealer::Dealer;
use crate::desk::Desk;
use crate::seat::{Held, Seat};
use crate::state::{State, StepFault};
use crate::version::{Version, VersionOf};
use std::alloc::{AllocError, Global};
use std::sync::{Arc, Wait};

/// One more owner of the published version.
pub fn current<S: State>(desk: &Desk<S>) -> Result<Held<S>, AllocError>
    requires { Sound S.after S.BATCHES (published desk.now) }
    ensures { IfOk result (λ h. IsSame (published desk.now) h.recorded) }
{
    Ok(Held {
        recorded: desk.writer.published().again()?,
    })
}

/// The value's first owner.
pub fn owned<T: Drop>(alloc: Global, value: T) -> Result<Arc<T, Global>, AllocError>
    ensures { IfOk result (λ a. arc_value a ≡ value) }
{
    match Arc::new(alloc, value) {
        Ok(owner) => Ok(owner),
        Err(_) => Err(AllocError),
    }
}

// The version with one more batch and this state.
fn grown<S: Drop>(
    alloc: Global,
    now: &Version<S>,
    number: u64,
    state: S,
) -> Result<Arc<Version<S>, Global>, AllocError>
    ensures { IfOk result (λ v. IsGrown now.now state number (arc_value v)) }
{
    let state = owned(alloc, state)?;
    let opening = Arc::try_clone(&now.opening)?;
    let next = Version {
        state,
        opening,
        number,
    };
    owned(alloc, next)
}

// The held version with one more batch.
fn with_next<S: State>(
    alloc: Global,
    now: &Held<S>,
    number: u64,
    batch: &S::Batch,
) -> Result<Arc<VersionOf<S>, Global>, StepFault<S::Fault>>
    requires number { number ≡ number_of now.now.recorded + 1 }
    ensures next { IfOk result (λ v. IsNext S.after now.now.recorded batch.now (arc_value v)) }
    ensures taken { OnOk result (S.refusal (state_of now.now.recorded) batch.now ≡ None) }
    ensures refused { IfErr result (RefusedBy S.refusal (state_of now.now.recorded) batch.now) }
{
    let version = &*now.recorded.version;
    let state = version.state.with_batch(alloc, batch)?;
    match grown(alloc, version, number, state) {
        Ok(next) => Ok(next),
        Err(_) => Err(StepFault::OutOfMemory),
    }
}

/// Places the batch behind the version that is published, which the seat has come up to.
pub fn place<S: State, R: Wait>(
    rt: &R,
    alloc: Global,
    desk: Desk<S>,
    now: Held<S>,
    dealer: &Dealer,
    seat: &mut Seat<S>,
    batch: &S::Batch,
) -> (Desk<S>, Result<Placed<S>, InsertFault<S::Fault>>)
    requires now { IsSame (published desk) now.recorded }
    requires kin { Kin (kept_by seat.old) (published desk) }
    requires hand { IsHandOf dealer.now seat.old.hand }
    ensures desk { Kin (published desk) (published result.0) }
    ensures sound { Sound S.after S.BATCHES (published result.0) }
    ensures placed { OnOk result.1 (IsSame (kept_by seat.new) (published result.0)) }
    ensures refused { OnErr result.1 (published result.0 ≡ published desk) }
    ensures seat { Kin (kept_by seat.old) (kept_by seat.new) }
    ensures number { seat.new.number ≡ seat.old.number }
    ensures hand { IsHandOf dealer.now seat.new.hand }
    ensures answer { IsAnswer (published desk) seat.old seat.new batch.now result.1 }
{
    let version = now.recorded.version.number;
    if version >= S::BATCHES {
        seat.go_on(now);
        return (desk, Err(InsertFault::NumbersSpent { version }));
    }
    let next = match with_next(alloc, &now, version + 1, batch) {
        Ok(next) => next,
        Err(StepFault::Refused(fault)) => {
            seat.go_on(now);
            return (desk, Err(InsertFault::Refused { version, fault }));
        }
        Err(StepFault::OutOfMemory) => return (desk, Err(InsertFault::OutOfMemory)),
    };
    let (desk, owners) = desk.publish(rt, next, batch);
    let Some((kept, noted)) = owners else {
        return (desk, Err(InsertFault::OutOfMemory));
    };
    seat.settle(rt, dealer, kept, version);
    let note = Note { held: noted };
    (
        desk,
        Ok(Placed {
            version: version + 1,
            note,
        }),
    )
}
