//! States of one number, which tells the order of its batches.
ghost use Rattle.std.specs.Prelude.{◌≡◌, ◌+◌, ◌*◌, ◌%◌};

use crate::{State, StepFault};
use std::alloc::Global;

/// Three batches are all.
#[derive(Drop)]
pub struct Few {
    pub value: u64,
}

/// It takes every batch.
#[derive(Drop)]
pub struct Many {
    pub value: u64,
}

/// The number after a batch.
pub fn next(value: u64, batch: u64) -> u64
    ensures { result ≡ (value % 65521 * 31 + batch % 65521) % 65521 }
{
    (value % 65521 * 31 + batch % 65521) % 65521
}

impl State for Few {
    type Batch = u64;

    /// The state that refused.
    type Fault = u64;

    const BATCHES: u64 = 3;

    ghost use Rattle.std.specs.Prelude.{◌==◌, ◌+◌, ◌*◌, ◌%◌, if◌then◌else◌, Some, None};
    ghost use Rattle.std.proofs.Common.{arith};

    ghost BATCHES = { 3 };

    ghost after = { λ s n. record { value = (s.value % 65521 * 31 + n % 65521) % 65521 } };

    ghost refusal = { λ s n. if n == 0 then Some s.value else None };

    fn with_batch(&self, _alloc: Global, batch: &u64) -> Result<Few, StepFault<u64>> {
        if *batch == 0 {
            return Err(StepFault::Refused(self.value));
        }
        Ok(Few {
            value: next(self.value, *batch),
        })
    }

    ghost few = { Prim.omega arith };
}

impl State for Many {
    type Batch = u64;

    type Fault = ();

    const BATCHES: u64 = 0x3fff_ffff_ffff_ffff;

    ghost use Rattle.std.specs.Prelude.{◌+◌, ◌*◌, ◌%◌, None};
    ghost use Rattle.std.proofs.Common.{arith};

    ghost BATCHES = { 4_611_686_018_427_387_903 };

    ghost after = { λ s n. record { value = (s.value % 65521 * 31 + n % 65521) % 65521 } };

    ghost refusal = { λ s n. None };

    fn with_batch(&self, _alloc: Global, batch: &u64) -> Result<Many, StepFault<()>> {
        Ok(Many {
            value: next(self.value, *batch),
        })
    }

    ghost few = { Prim.omega arith };
}
