//! What an insert answers.
use crate::seat::Held;
use crate::state::State;

mod steps;

pub(crate) use steps::{current, owned, place};

/// It stands for the journal of the version that an insert made, and carries that version.
#[derive(Drop)]
pub struct Note<S: State> {
    pub(crate) held: Held<S>,
}

/// The batch was placed.
#[derive(Drop)]
pub struct Placed<S: State> {
    /// The number of the new version. The batch's place is one less.
    pub version: u64,
    pub note: Note<S>,
}

/// Why a batch was not placed, in the order in which it is tried.
#[derive(Drop)]
pub enum InsertFault<F> {
    /// The version that was met has as many batches as a version may have.
    NumbersSpent { version: u64 },
    /// The state of the version that was met refuses the batch.
    Refused { version: u64, fault: F },
    OutOfMemory,
}
