ghost use Rattle.std.specs.Prelude.{◌≡◌, ◌≤◌, ◌↔◌, IsTrue};
ghost use Rattle.outside_core.specs.Fault.{Rose};
ghost use Rattle.outside_core.specs.FaultPlan.{plan_of, IsDue, after_success, after_fault, after_note};

use crate::Failed;
use std::marker::Model;

/// Which calls of a form in memory fail, and how many calls and faults it has had.
#[derive(Debug, Drop)]
pub struct FaultPlan {
    failing: Vec<u32>,
    calls: u64,
    faults: u64,
}

impl Model for FaultPlan {
    ghost use Rattle.outside_core.specs.FaultPlan.{Plan};

    ghost Value = { Plan };

    ghost view = { λ p. record { failing = p.failing.items; calls = p.calls; faults = p.faults } };
}

impl FaultPlan {
    pub fn of(failing: Vec<u32>) -> FaultPlan
        ensures { result ≡ plan_of failing.items }
    {
        FaultPlan {
            failing,
            calls: 0,
            faults: 0,
        }
    }

    /// Whether the next call is to fail.
    pub fn is_due(&self) -> bool
        ensures { IsTrue result ↔ IsDue self.now }
    {
        let number = self.calls.saturating_add(1);
        self.failing.iter().any(|n| u64::from(*n) == number)
    }

    /// Counts a call that did not fail.
    pub fn succeed(&mut self)
        ensures { self.new ≡ after_success self.old }
    {
        self.calls = self.calls.saturating_add(1);
    }

    /// Counts a call that failed.
    pub fn fail(&mut self) -> Failed
        ensures counted { self.new ≡ after_fault self.old }
        ensures rose { Rose self.old.faults self.new.faults }
    {
        self.calls = self.calls.saturating_add(1);
        Failed::counted(&mut self.faults)
    }

    /// Counts a fault that is no call.
    pub fn note(&mut self)
        ensures noted { self.new ≡ after_note self.old }
        ensures rose { Rose self.old.faults self.new.faults }
    {
        let _failed = Failed::counted(&mut self.faults);
    }

    /// Whether there was a fault.
    pub fn has_failed(&self) -> bool
        ensures { IsTrue result ↔ (1 ≤ self.now.faults) }
    {
        self.faults > 0
    }
}
