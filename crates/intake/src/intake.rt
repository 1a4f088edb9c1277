ghost use Rattle.std.specs.Prelude.{◌≡◌, ℕ, ◌+◌, ◌^◌, ◌<◌, ◌⊎◌, List, length, Result, IfOk, IfErr, Ok, Err};
ghost use Rattle.std.specs.List.{All};
ghost use Rattle.dnswire.specs.Message.{IsMessage};
ghost use Rattle.intake.specs.Batch.{IsTaken, IsFault, Brings, Gives, GivesAsRead, WasRead};
ghost use Rattle.intake.specs.Pile.{HasFixedPart};

use crate::grouping::piles_of;
use crate::header::header_fault;
use crate::stored::stored;
use crate::{IntakeFault, Taken};
use denial_records::{Batch, RecordList};
use dname::OutOfMemory;
use dnswire::{Message, read_message};
use std::alloc::Global;

/// The records that an upstream's answer gives a cache at a moment, in seconds since 1970; or why it gives none.
pub fn batch_of(alloc: Global, octets: &[u8], now: u32) -> Result<Taken, IntakeFault>
    ensures taken { IfOk result (IsTaken octets.now now) }
    ensures refused { IfErr result
        (λ fault. (fault ≡ IntakeFault.OutOfMemory) ⊎ IsFault octets.now now fault) }

    // A batch and each fault come wherever the octets give them, where there is memory.
    ensures every_taken { (taken : Taken) → IsTaken octets.now now taken → (result ≡ Ok taken)
        ⊎ (result ≡ Err IntakeFault.OutOfMemory) }
    ensures every_refused { (fault : IntakeFault) → IsFault octets.now now fault
        → (result ≡ Err fault) ⊎ (result ≡ Err IntakeFault.OutOfMemory) }
{
    outcome_of(alloc, octets, now)
}

// What the octets give.
fn outcome_of(alloc: Global, octets: &[u8], now: u32) -> Result<Taken, IntakeFault>
    ensures taken { IfOk result (IsTaken octets.now now) }
    ensures refused { IfErr result
        (λ fault. (fault ≡ IntakeFault.OutOfMemory) ⊎ IsFault octets.now now fault) }
{
    let message = read_message(alloc, octets)?;
    taken_or_fault(alloc, message, now)
}

/// What `batch_of` gives at a moment, in seconds since 1970, of the octets that this message was read from. So octets that are read
/// for another reason aren't read twice.
pub fn batch_of_message(alloc: Global, message: Message, now: u32) -> Result<Taken, IntakeFault>
    requires { WasRead message }
    ensures taken { IfOk result (λ taken. GivesAsRead message now (Ok taken)) }
    ensures refused { IfErr result
        (λ fault. (fault ≡ IntakeFault.OutOfMemory) ⊎ GivesAsRead message now (Err fault)) }

    // What the octets give comes, where there is memory.
    ensures every { (octets : List ℕ) (given : Result Taken IntakeFault)
        → IsMessage octets message → Gives octets now given
        → (result ≡ given) ⊎ (result ≡ Err IntakeFault.OutOfMemory) }
{
    taken_or_fault(alloc, message, now)
}

fn taken_or_fault(alloc: Global, message: Message, now: u32) -> Result<Taken, IntakeFault>
    requires { WasRead message }
    ensures taken { IfOk result (λ taken. GivesAsRead message now (Ok taken)) }
    ensures refused { IfErr result
        (λ fault. (fault ≡ IntakeFault.OutOfMemory) ⊎ GivesAsRead message now (Err fault)) }
{
    if let Some(fault) = header_fault(&message) {
        return Err(fault);
    }
    let taken = taken_of(alloc, message, now)?;
    if taken.batch.records.is_empty() {
        Err(IntakeFault::Nothing {
            skipped: taken.skipped,
        })
    } else {
        Ok(taken)
    }
}

// The records of the message's groups, none or some.
fn taken_of(alloc: Global, message: Message, now: u32) -> Result<Taken, OutOfMemory>
    requires answer { All HasFixedPart message.answer }
    requires authority { All HasFixedPart message.authority }
    requires few { length message.answer + length message.authority < 2 ^ 32 }
    ensures { IfOk result (λ taken. Brings message now taken.batch taken.skipped) }
{
    let piles = piles_of(alloc, message.answer, message.authority, now)?;
    let mut records = RecordList::empty(alloc);
    let mut skipped = 0;
    for pile in piles {
        match stored(alloc, pile, now)? {
            Some(record) => records.push(record)?,
            None => skipped += 1,
        }
    }
    Ok(Taken {
        batch: Batch { now, records },
        skipped,
    })
}
