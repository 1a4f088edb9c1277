//! What is stored of an upstream's answer.
ghost use Rattle.std.specs.Prelude.{◌≡◌, ◌∷◌, ◌++◌, [], All, IfOk, OnOk, Some, false, filter, not, true};
ghost use Rattle.cache_versions.specs.Seats.{seen_by};
ghost use Rattle.counters.specs.declared.counter.Counter.TheVariants as counters;
ghost use Rattle.intake.specs.declared.intake_fault.IntakeFault.{IntakeFault};
ghost use Rattle.resolver.specs.Caches.{HasGoneOn, IsSeatOf};
ghost use Rattle.resolver.specs.declared.cache_fault.CacheFault.{CacheFault};
ghost use Rattle.forwarding.specs.Done.{refusal_of, stored_as, storing};
ghost use Rattle.forwarding.specs.Passed.{is_left_out, some_batch, stored_of};
ghost use Rattle.forwarding.specs.Stored.{IsStored, IsStoredIn, IsStoring};

use crate::PassedNames;
use crate::left_out::is_left_out;
use arrivals::Event;
use counters::Counter;
use denial_records::{Batch, Record, RecordList};
use dname::OutOfMemory;
use intake::{IntakeFault, batch_of};
use resolver::{CacheFault, CacheSeat, SharedCache};
use std::alloc::{AllocError, Global};
use std::sync::Wait;

/// Inserts what intake takes of an answer, but for what stands at passed names or leads there, and gives as what that is counted.
/// What it refuses is passed over, and so is a batch for which no number is left.
pub(crate) fn store<R: Wait>(
    rt: &R,
    alloc: Global,
    cache: &SharedCache,
    seat: &mut CacheSeat,
    passed: &PassedNames,
    event: &Event,
) -> Counter
    requires { IsSeatOf cache.now seat.old }
    ensures on { HasGoneOn cache.now seat.old seat.new }
    ensures stored { IsStoring passed.now event.now.octets.items event.now.moment.seconds
        (seen_by seat.new) result }
{
    let octets = event.octets.as_slice();
    match store_octets(rt, alloc, cache, seat, passed, octets, event.moment.seconds) {
        Ok(counter) => counter,
        Err(_) => Counter::Unstored,
    }
}

fn store_octets<R: Wait>(
    rt: &R,
    alloc: Global,
    cache: &SharedCache,
    seat: &mut CacheSeat,
    passed: &PassedNames,
    octets: &[u8],
    now: u32,
) -> Result<Counter, OutOfMemory>
    requires { IsSeatOf cache.now seat.old }
    ensures on { HasGoneOn cache.now seat.old seat.new }
    ensures stored { IfOk result (IsStoredIn passed.now octets.now now (seen_by seat.new)) }
{
    match batch_of(alloc, octets, now) {
        Ok(taken) => store_batch(rt, alloc, cache, seat, passed, taken.batch),
        Err(fault) => refusal_of(fault),
    }
}

// Inserts what of the batch is stored.
fn store_batch<R: Wait>(
    rt: &R,
    alloc: Global,
    cache: &SharedCache,
    seat: &mut CacheSeat,
    passed: &PassedNames,
    batch: Batch,
) -> Result<Counter, OutOfMemory>
    requires { IsSeatOf cache.now seat.old }
    ensures on { HasGoneOn cache.now seat.old seat.new }
    ensures stored { IfOk result
        (IsStored (stored_as (stored_of passed.now batch)) (seen_by seat.new)) }
{
    match stored_of(alloc, passed, batch) {
        Ok(Some(batch)) => insert(rt, alloc, cache, seat, &batch),
        Ok(None) => Ok(Counter::Passed),
        Err(fault) => Err(fault),
    }
}

// As what an answer is counted that intake refuses.
fn refusal_of(fault: IntakeFault) -> Result<Counter, OutOfMemory>
    ensures counter { IfOk result (λ counter. counter ≡ refusal_of fault) }
    ensures memory { OnOk result (fault ≡ IntakeFault.OutOfMemory → ⊥) }
{
    match fault {
        IntakeFault::Malformed(_) => Ok(Counter::Malformed),
        IntakeFault::NotResponse => Ok(Counter::NotResponse),
        IntakeFault::Truncated => Ok(Counter::Truncated),
        IntakeFault::Rcode(_) => Ok(Counter::OtherRcode),
        IntakeFault::NotAuthentic => Ok(Counter::NotAuthentic),
        IntakeFault::Nothing { skipped: _ } => Ok(Counter::NothingToStore),
        IntakeFault::OutOfMemory => Err(AllocError),
    }
}

// What of the batch is stored: where nothing of it is left out, it itself.
fn stored_of(
    alloc: Global,
    passed: &PassedNames,
    batch: Batch,
) -> Result<Option<Batch>, OutOfMemory>
    ensures { IfOk result (λ stored. stored ≡ stored_of passed.now batch) }
{
    if !has_left_out(passed, &batch.records) {
        return Ok(some_batch(batch));
    }
    let records = others(alloc, passed, &batch.records)?;
    Ok(some_batch(Batch {
        now: batch.now,
        records,
    }))
}

fn some_batch(batch: Batch) -> Option<Batch>
    ensures { result ≡ some_batch batch batch.records }
{
    if batch.records.is_empty() {
        return None;
    }
    Some(batch)
}

// Whether some record is left out.
fn has_left_out(passed: &PassedNames, records: &RecordList) -> bool
    ensures { result ≡ false
        → All (λ kept. not (is_left_out passed.now kept) ≡ true) records.now }
{
    for i in 0..records.len() {
        if is_left_out(passed, records.get(i)) {
            return true;
        }
    }
    false
}

// The records that aren't left out.
fn others(
    alloc: Global,
    passed: &PassedNames,
    records: &RecordList,
) -> Result<RecordList, OutOfMemory>
    ensures { IfOk result (λ others.
        others ≡ filter (λ kept. not (is_left_out passed.now kept)) records.now) }
{
    let mut others = RecordList::empty(alloc);
    for i in 0..records.len() {
        keep(alloc, passed, records.get(i), &mut others)?;
    }
    Ok(others)
}

// The record goes to the others, unless it is left out.
fn keep(
    alloc: Global,
    passed: &PassedNames,
    kept: &Record,
    others: &mut RecordList,
) -> Result<(), OutOfMemory>
    ensures { OnOk result (others.new
        ≡ others.old ++ filter (λ r. not (is_left_out passed.now r)) (kept.now ∷ [])) }
{
    if is_left_out(passed, kept) {
        return Ok(());
    }
    others.push(kept.copy(alloc)?)?;
    Ok(())
}

fn insert<R: Wait>(
    rt: &R,
    alloc: Global,
    cache: &SharedCache,
    seat: &mut CacheSeat,
    batch: &Batch,
) -> Result<Counter, OutOfMemory>
    requires { IsSeatOf cache.now seat.old }
    ensures on { HasGoneOn cache.now seat.old seat.new }
    ensures stored { IfOk result
        (IsStored (storing (Some batch.entry.now) counters.Stored) (seen_by seat.new)) }
{
    match cache.insert(rt, alloc, seat, batch) {
        Ok(placed) => {
            drop(placed);
            Ok(Counter::Stored)
        }
        Err(fault) => without_number(fault),
    }
}

// Where no number is left nothing is wanted.
fn without_number(fault: CacheFault) -> Result<Counter, OutOfMemory>
    ensures counter { IfOk result (λ counter. counter ≡ counters.Stored) }
    ensures memory { OnOk result (fault ≡ CacheFault.OutOfMemory → ⊥) }
{
    match fault {
        CacheFault::NumbersSpent { version: _ } => Ok(Counter::Stored),
        CacheFault::OutOfMemory => Err(AllocError),
    }
}
