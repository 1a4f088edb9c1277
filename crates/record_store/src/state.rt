//! A store as the state of published versions.

use crate::Store;
use cache_versions::{State, StepFault};
use denial_records::Batch;
use std::alloc::Global;

/// A store refuses no batch: what is too much goes.
impl State for Store {
    type Batch = Batch;

    type Fault = ();

    const BATCHES: u64 = 0x3fff_ffff_ffff_ffff;

    ghost use Rattle.std.specs.Prelude.{None};
    ghost use Rattle.std.proofs.Common.{arith};
    ghost use Rattle.held_laws.specs.KeyOrder.{kept_after};

    ghost BATCHES = { 4_611_686_018_427_387_903 };

    ghost after = { kept_after };

    ghost refusal = { λ held batch. None };

    fn with_batch(&self, alloc: Global, batch: &Batch) -> Result<Store, StepFault<()>> {
        match Store::with_batch(self, alloc, batch) {
            Ok(store) => Ok(store),
            Err(_) => Err(StepFault::OutOfMemory),
        }
    }

    ghost few = { Prim.omega arith };
}
