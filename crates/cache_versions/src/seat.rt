//! A seat: what one caller has seen, and the places of its batches, which exist in the proofs alone.
ghost use Rattle.std.specs.Prelude.{IfSome};
ghost use Rattle.std.proofs.Props.{props};
ghost use Rattle.left_right.specs.Sides.{view};
ghost use Rattle.cache_versions.specs.Kin.{KnowsKin, Sound};
ghost use Rattle.cache_versions.specs.Dealers.{IsOneHand};

use crate::hand::Hand;
use crate::rule::OneBook;
use crate::state::State;
use crate::version::{KnownOf, RecordedOf};
use left_right::reader::Reader;
use std::alloc::Global;

mod steps;

/// A reader's place.
pub(crate) type Place<S> = Reader<RecordedOf<S>, KnownOf<S>, OneBook, Global>;

/// A version whose state is made by its batches.
#[derive(Drop)]
pub struct Held<S: State> {
    pub(crate) recorded: RecordedOf<S>,
    ghost sound: { Sound S.after S.BATCHES recorded },
}

/// What one caller reads and inserts with. It keeps the version that it has seen.
#[derive(Drop)]
pub struct Seat<S: State> {
    pub(crate) number: u8,
    pub(crate) held: Held<S>,
    pub(crate) reader: Option<Place<S>>,
    pub(crate) hand: Hand,
    ghost informed: { IfSome reader (λ r.
        KnowsKin (view r.place) held.recorded) } by { Prim.hlevel props },
    ghost dealt: { IsOneHand hand },
}
