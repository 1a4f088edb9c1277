//! What is stored of an upstream's answer.
ghost use Rattle.std.specs.Prelude.{◌≡◌, ℕ, List, Some, OnOk, OnErr};
ghost use Rattle.dnswire.specs.Message.{IsMessage};
ghost use Rattle.intake.specs.Batch.{WasRead};
ghost use Rattle.intake.specs.declared.intake_fault.IntakeFault.{IntakeFault};
ghost use Rattle.resolver.specs.Caches.{HasGoneOn, IsSeatOf};
ghost use Rattle.serving.specs.Serves.{IsKept, IsUnmoved, Stores};

use denial_records::Batch;
use dname::OutOfMemory;
use dnswire::Message;
use intake::{IntakeFault, batch_of_message};
use resolver::{CacheFault, CacheSeat, SharedCache};
use std::alloc::{AllocError, Global};
use std::sync::Wait;

/// Inserts what intake takes of an answer. What it refuses is passed over, and so is a batch for which no number is left.
pub(crate) fn store<R: Wait>(
    rt: &R,
    alloc: Global,
    cache: &SharedCache,
    seat: &mut CacheSeat,
    message: Message,
    now: u32,
) -> Result<(), OutOfMemory>
    requires object { IsSeatOf cache.now seat.old }
    requires read { WasRead message }
    ensures on { HasGoneOn cache.now seat.old seat.new }
    ensures stored { OnOk result ((octets : List ℕ) → IsMessage octets message
        → Stores now seat.old seat.new octets) }
    ensures unmoved { OnErr result (IsUnmoved seat.old seat.new) }
{
    match batch_of_message(alloc, message, now) {
        Ok(taken) => insert(rt, alloc, cache, seat, &taken.batch),
        Err(fault) => pass_over(fault),
    }
}

// Nothing is stored of an answer that intake refuses.
fn pass_over(fault: IntakeFault) -> Result<(), OutOfMemory>
    ensures { OnOk result (fault ≡ IntakeFault.OutOfMemory → ⊥) }
{
    match fault {
        IntakeFault::Malformed(_)
        | IntakeFault::NotResponse
        | IntakeFault::Truncated
        | IntakeFault::Rcode(_)
        | IntakeFault::NotAuthentic
        | IntakeFault::Nothing { skipped: _ } => Ok(()),
        IntakeFault::OutOfMemory => Err(AllocError),
    }
}

fn insert<R: Wait>(
    rt: &R,
    alloc: Global,
    cache: &SharedCache,
    seat: &mut CacheSeat,
    batch: &Batch,
) -> Result<(), OutOfMemory>
    requires { IsSeatOf cache.now seat.old }
    ensures on { HasGoneOn cache.now seat.old seat.new }
    ensures kept { OnOk result (IsKept seat.old seat.new (Some batch.entry.now)) }
    ensures unmoved { OnErr result (IsUnmoved seat.old seat.new) }
{
    match cache.insert(rt, alloc, seat, batch) {
        Ok(_) => Ok(()),
        Err(CacheFault::NumbersSpent { version: _ }) => Ok(()),
        Err(CacheFault::OutOfMemory) => Err(AllocError),
    }
}
