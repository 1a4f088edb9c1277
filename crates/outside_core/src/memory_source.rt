ghost use Rattle.std.specs.Prelude.{◌≡◌, ◌≤◌, ◌↔◌, [], ◌++◌, length, take, drop, min, Some, IsErr, IfOk, OnErr};
ghost use Rattle.outside_core.specs.Fault.{HasCause};
ghost use Rattle.outside_core.specs.FaultPlan.{plan_of, IsDue};
ghost use Rattle.outside_core.specs.SteadySource.{supply_of};
ghost use Rattle.outside_core.specs.MemorySource.{after_read, after_failed_read};

use crate::fault_plan::FaultPlan;
use crate::{Failed, Source, SteadySource};
use std::marker::Model;

/// A source in memory, of whose calls some fail. A failed call leaves its buffer as it was, and any
/// other what follows the octets that it gave. The counts of calls and of faults stay at 2^64 - 1
/// once they are there.
#[derive(Debug, Drop)]
pub struct MemorySource {
    supply: SteadySource,
    plan: FaultPlan,
}

impl Model for MemorySource {
    ghost use Rattle.outside_core.specs.MemorySource.{Reading};

    ghost Value = { Reading };

    ghost view = { λ s. record { supply = s.supply; plan = s.plan } };
}

impl MemorySource {
    /// A source of these octets. Those of its calls fail whose numbers, counted from 1, are in
    /// `failing`.
    pub fn of(contents: Vec<u8>, failing: Vec<u32>) -> MemorySource
        ensures supply { result.supply ≡ supply_of contents.items }
        ensures plan { result.plan ≡ plan_of failing.items }
    {
        MemorySource {
            supply: SteadySource::of(contents),
            plan: FaultPlan::of(failing),
        }
    }
}

impl Source for MemorySource {
    ghost taken = { λ s. Some s.supply.taken };

    ghost left = { λ s. Some s.supply.left };

    ghost faults = { λ s. s.plan.faults };

    fn read(&mut self, into: &mut [u8]) -> Result<usize, Failed>
        ensures within { IfOk result (λ n. n ≤ length into.old) }
        ensures taken { IfOk result (λ n.
            self.new.supply.taken ≡ self.old.supply.taken ++ take n into.new) }
        ensures left { IfOk result (λ n.
            self.old.supply.left ≡ take n into.new ++ self.new.supply.left) }
        ensures end { IfOk result (λ n.
            n ≡ 0 → 1 ≤ length into.old → self.new.supply.left ≡ []) }
        ensures failed_taken { OnErr result (self.new.supply.taken ≡ self.old.supply.taken) }
        ensures failed_left { OnErr result (self.new.supply.left ≡ self.old.supply.left) }
        ensures cause { HasCause self.old.plan.faults self.new.plan.faults result }

        // Beyond the trait: the answer, the buffer and the source after the call follow from it.
        ensures fails { IsErr result ↔ IsDue self.old.plan }
        ensures count { IfOk result
            (λ n. n ≡ min (length into.old) (length self.old.supply.left)) }
        ensures buffer { IfOk result (λ n.
            into.new ≡ take n self.old.supply.left ++ drop n into.old) }
        ensures after { IfOk result (λ n. self.new ≡ after_read n self.old) }
        ensures failed_buffer { OnErr result (into.new ≡ into.old) }
        ensures failed_after { OnErr result (self.new ≡ after_failed_read self.old) }
    {
        if self.plan.is_due() {
            return Err(self.plan.fail());
        }
        self.plan.succeed();
        self.supply.read(into)
    }
}
