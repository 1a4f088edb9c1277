//! What a batch makes of what is held.
ghost use Rattle.std.specs.Prelude.{◌≡◌, ◌<◌, IsTrue, true, false, length, take, IfOk, fold};
ghost use Rattle.std.specs.List.{All};
ghost use Rattle.cache_meaning.specs.Held.{is_usable, held_where, held_with, within_limit};
ghost use Rattle.held_laws.specs.HeldLaws.{NoneDisplaces};
ghost use Rattle.held_laws.specs.KeyOrder.{in_key_order, kept_after};
ghost use Rattle.record_store.specs.Holding.{IsHeldAs};

use crate::holding::Holding;
use crate::ranks::expiry_of;
use cache_meaning::MOST_RECORDS;
use denial_records::{Batch, RecordList};
use dname::OutOfMemory;
use std::alloc::Global;
use std::sync::Arc;

// Each step takes what is held by value, so that a batch which lacks memory halfway leaves nothing half done.

impl Holding {
    /// After the batch: what has expired goes, its records come in order, and what is too much goes.
    pub(crate) fn after(&self, alloc: Global, batch: &Batch) -> Result<Holding, OutOfMemory>
        ensures { IfOk result (λ made.
            in_key_order made ≡ kept_after (in_key_order self.now) batch.entry.now) }
    {
        let usable = self.usable(alloc, batch.now)?;
        let all = usable.with_records(alloc, &batch.records)?;
        all.within_limit(alloc)
    }

    // What may be used at the moment, with another owner of the parts, whose order of going may be changed in place.
    fn usable(&self, alloc: Global, now: u32) -> Result<Holding, OutOfMemory>
        ensures made { IfOk result (λ made. IsHeldAs (held_where (is_usable now) self.now) made) }
        ensures apart { IfOk result (λ _. NoneDisplaces self.now.records) }
    {
        let mut holding = Holding {
            goings: self.goings.try_clone(alloc)?,
            sets: Arc::try_clone(&self.sets)?,
            zones: Arc::try_clone(&self.zones)?,
        };
        while holding.has_expired(now) {
            holding = holding.without_first(alloc)?;
        }
        Ok(holding)
    }

    fn with_records(self, alloc: Global, records: &RecordList) -> Result<Holding, OutOfMemory>
        requires { NoneDisplaces self.records }
        ensures { IfOk result (λ made. IsHeldAs (fold held_with self records.now) made) }
    {
        let mut holding = self;
        for i in 0..records.len() {
            holding = holding.put(alloc, records.share(i)?)?;
        }
        Ok(holding)
    }

    fn within_limit(self, alloc: Global) -> Result<Holding, OutOfMemory>
        ensures { IfOk result (λ made. IsHeldAs (within_limit self) made) }
    {
        let too_many = self.goings.len().saturating_sub(MOST_RECORDS);
        let mut holding = self;
        for _ in 0..too_many {
            holding = holding.without_first(alloc)?;
        }
        Ok(holding)
    }

    // Whether a record has expired: the one that goes first then has.
    fn has_expired(&self, now: u32) -> bool
        ensures some { IsTrue result → 0 < length self.now.records }
        ensures first { IsTrue result
            → All (λ item. is_usable now item ≡ false) (take 1 self.now.records) }
        ensures none { result ≡ false → All
            (λ item. is_usable now item ≡ true) self.now.records }
    {
        self.goings.len() > 0 && expiry_of(self.goings.first()) <= u64::from(now)
    }
}
