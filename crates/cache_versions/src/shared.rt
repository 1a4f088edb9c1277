//! The object that threads share.
use crate::dealer::Dealer;
use crate::desk::Desk;
use crate::seat::Seat;
use crate::state::State;
use crate::version::{ContentOf, RecordedOf};
use left_right::Absorb;
use tied_lock::{Tie, TiedLock};

mod steps;

/// The desk under the lock is of the book of the key.
pub struct Same;

impl<S: State> Tie<RecordedOf<S>, Desk<S>> for Same
where
    RecordedOf<S>: Absorb<RecordedOf<S>, State = ContentOf<S>>,
{
    ghost use Rattle.cache_versions.specs.Desks.{Ties};

    ghost ties = { Ties S.after S.BATCHES };
}

/// One state in versions, by one history of batches, of which none is kept. Threads read it without waiting. It is not `Drop`:
/// end it by `close` or `give_up`.
pub struct Shared<S: State>
where
    RecordedOf<S>: Absorb<RecordedOf<S>, State = ContentOf<S>>,
{
    pub(crate) lock: TiedLock<Desk<S>, RecordedOf<S>, Same>,
    pub(crate) dealer: Dealer,
}

/// The version that a seat keeps, lent with the seat.
#[derive(Drop)]
pub struct VersionRef<'a, S: State> {
    seat: &'a mut Seat<S>,
}
