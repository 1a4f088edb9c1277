//! What a version is a version of.
ghost use Rattle.std.specs.Prelude.{◌≡◌, ◌<◌, ◌^◌, ℕ, Option, None, IfOk, IfErr, OnOk};
ghost use Rattle.cache_versions.specs.Faults.{RefusedBy};

use std::alloc::Global;

/// Why a state took no batch.
#[derive(Drop)]
pub enum StepFault<F> {
    /// The state refuses the batch.
    Refused(F),
    OutOfMemory,
}

/// A value that takes in batches, one after the other. What comes of a batch is one function of state
/// and batch, unless memory runs out.
pub trait State: Drop + Send + Sync {
    type Batch: Drop + Send + Sync;

    /// Why a state refuses a batch.
    type Fault: Drop + Send + Sync;

    /// A version has at most so many batches.
    const BATCHES: u64;

    ghost BATCHES: { ℕ };

    /// The state after a batch.
    ghost after: { Self → Self.Batch → Self };

    /// The fault with which a state refuses a batch, or `None` where it takes it.
    ghost refusal: { Self → Self.Batch → Option Self.Fault };

    /// The state after the batch. The old one stays.
    fn with_batch(&self, alloc: Global, batch: &Self::Batch) -> Result<Self, StepFault<Self::Fault>>
        ensures after { IfOk result (λ s. s ≡ after self.now batch.now) }
        ensures taken { OnOk result (refusal self.now batch.now ≡ None) }
        ensures refused { IfErr result (RefusedBy refusal self.now batch.now) };

    /// The book of the history has no higher numbers.
    ghost few: { BATCHES < 2 ^ 62 };
}
