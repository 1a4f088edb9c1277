//! What an upstream answer's octets make of a store.
ghost use Rattle.std.specs.Prelude.{◌≡◌, ◌⊎◌, IfOk, IfErr, Ok, Err};
ghost use Rattle.cache_meaning.specs.Held.{Held};
ghost use Rattle.intake.specs.Batch.{IsFault};
ghost use Rattle.resolver.specs.Inserted.{IsInserted};
ghost use Rattle.resolver.specs.declared.counts.Counts.{Counts};

use crate::Counts;
use intake::{IntakeFault, batch_of};
use record_store::Store;
use std::alloc::Global;

/// What is held after an upstream answer's octets at a moment, in seconds since 1970, and how much of it was stored; or why it
/// brings nothing. The store that it is made of stays as it is. Octets of any number are read: want of memory is the allocator's.
pub fn insert_octets(
    alloc: Global,
    store: &Store,
    octets: &[u8],
    now: u32,
) -> Result<(Store, Counts), IntakeFault>
    ensures stored { IfOk result (λ made. IsInserted store.now octets.now now made.0 made.1) }
    ensures refused { IfErr result
        (λ fault. (fault ≡ IntakeFault.OutOfMemory) ⊎ IsFault octets.now now fault) }

    // The next state and each fault come wherever the octets give them, where there is memory.
    ensures every_stored { (after : Held) (counts : Counts)
        → IsInserted store.now octets.now now after counts
        → (result ≡ Ok (after, counts)) ⊎ (result ≡ Err IntakeFault.OutOfMemory) }
    ensures every_refused { (fault : IntakeFault) → IsFault octets.now now fault
        → (result ≡ Err fault) ⊎ (result ≡ Err IntakeFault.OutOfMemory) }
{
    inserted(alloc, store, octets, now)
}

// What the octets make of it.
fn inserted(
    alloc: Global,
    store: &Store,
    octets: &[u8],
    now: u32,
) -> Result<(Store, Counts), IntakeFault>
    ensures stored { IfOk result (λ made. IsInserted store.now octets.now now made.0 made.1) }
    ensures refused { IfErr result
        (λ fault. (fault ≡ IntakeFault.OutOfMemory) ⊎ IsFault octets.now now fault) }
{
    let taken = batch_of(alloc, octets, now)?;
    let next = store.with_batch(alloc, &taken.batch)?;
    Ok((next, Counts::of(&taken)))
}
