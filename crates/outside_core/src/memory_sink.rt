ghost use Rattle.std.specs.Prelude.{◌≡◌, ◌≤◌, ◌↔◌, ◌++◌, [], length, take, Some, IsErr, IfOk, OnErr};
ghost use Rattle.outside_core.specs.Fault.{HasCause};
ghost use Rattle.outside_core.specs.FaultPlan.{plan_of};
ghost use Rattle.outside_core.specs.MemorySink.{Refuses, after_write, after_failed_write};

use crate::fault_plan::FaultPlan;
use crate::{Failed, OutOfMemory, Sink};
use std::alloc::Global;
use std::marker::Model;

/// A sink in memory, of whose calls some fail, with the room that it took when it was made. A call
/// that does not fail takes its piece whole. The counts of calls and of faults stay at 2^64 - 1 once
/// they are there.
#[derive(Debug, Drop)]
pub struct MemorySink {
    octets: Vec<u8>,
    room: usize,
    plan: FaultPlan,
}

impl Model for MemorySink {
    ghost use Rattle.std.specs.Prelude.{◌≤◌, vec_len, vec_capacity};
    ghost use Rattle.outside_core.specs.MemorySink.{Writing};

    ghost Value = { Writing };

    ghost view = { λ s. record { written = s.octets.items; room = s.room; plan = s.plan } };

    ghost invariant = { λ s. (vec_len s.octets ≤ s.room) × (s.room ≤ vec_capacity s.octets) };
}

impl MemorySink {
    /// An empty sink for so many octets. Those of its calls fail whose numbers, counted from 1, are
    /// in `failing`, and those that would go beyond the room.
    pub fn with_room(
        alloc: Global,
        room: usize,
        failing: Vec<u32>,
    ) -> Result<MemorySink, OutOfMemory>
        ensures written { IfOk result (λ sink. sink.written ≡ []) }
        ensures room { IfOk result (λ sink. sink.room ≡ room) }
        ensures plan { IfOk result (λ sink. sink.plan ≡ plan_of failing.items) }
    {
        Ok(MemorySink {
            octets: Vec::with_capacity(alloc, room)?,
            room,
            plan: FaultPlan::of(failing),
        })
    }

    /// The octets written so far.
    pub fn written(&self) -> &[u8]
        ensures { result.now ≡ self.now.written }
    {
        &self.octets
    }
}

impl Sink for MemorySink {
    ghost written = { λ s. Some s.written };

    ghost faults = { λ s. s.plan.faults };

    fn write(&mut self, piece: &[u8]) -> Result<usize, Failed>
        requires { 1 ≤ length piece.now }
        ensures some { IfOk result (λ n. 1 ≤ n) }
        ensures within { IfOk result (λ n. n ≤ length piece.now) }
        ensures written { IfOk result (λ n.
            self.new.written ≡ self.old.written ++ take n piece.now) }
        ensures failed_written { OnErr result (self.new.written ≡ self.old.written) }
        ensures cause { HasCause self.old.plan.faults self.new.plan.faults result }

        // Beyond the trait: the answer and the sink after the call follow from it.
        ensures fails { IsErr result ↔ Refuses self.old piece.now }
        ensures whole { IfOk result (λ n. n ≡ length piece.now) }
        ensures after { IfOk result (λ n. self.new ≡ after_write piece.now self.old) }
        ensures failed_after { OnErr result (self.new ≡ after_failed_write self.old) }
    {
        if self.plan.is_due() || piece.len() > self.room - self.octets.len() {
            return Err(self.plan.fail());
        }
        let fitted = self.octets.extend_from_slice(piece).is_ok();
        prove!(fitted);
        self.plan.succeed();
        Ok(piece.len())
    }
}
