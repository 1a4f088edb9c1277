//! The store itself.
ghost use Rattle.std.specs.Prelude.{◌≡◌, ◌≤◌, length, IfOk};
ghost use Rattle.std.specs.Option.{option_map};
ghost use Rattle.cache_meaning.specs.Held.{nothing_held, most_records};
ghost use Rattle.cache_meaning.specs.Zones.{TwoChains, zone_in, zone_for};
ghost use Rattle.held_laws.specs.HeldLaws.{NoneDisplaces};
ghost use Rattle.held_laws.specs.KeyOrder.{kept_after};
ghost use Rattle.record_store.specs.Gauges.{zone_count};

use crate::holding::Holding;
use denial_records::Batch;
use dname::OutOfMemory;
use std::alloc::Global;
use std::marker::Model;

/// The records that a cache holds after some batches, found by search, seen as the held state in the order of keys. A batch makes
/// the next one and leaves this; what it leaves alone is shared.
#[derive(Drop)]
pub struct Store {
    pub(crate) holding: Holding,
}

impl Model for Store {
    ghost use Rattle.cache_meaning.specs.Held.{Held};
    ghost use Rattle.held_laws.specs.KeyOrder.{in_key_order};

    ghost Value = { Held };

    ghost view = { λ s. in_key_order s.holding };
}

impl Store {
    /// Nothing is held. It takes memory, so that no step of a batch has a case for a part that isn't there yet.
    pub fn empty(alloc: Global) -> Result<Store, OutOfMemory>
        ensures { IfOk result (λ store. store ≡ nothing_held) }
    {
        Ok(Store {
            holding: Holding::empty(alloc)?,
        })
    }

    /// How many records are held. No record displaces another.
    pub fn len(&self) -> usize
        ensures value { result ≡ length self.now.records }
        ensures apart { NoneDisplaces self.now.records }
    {
        self.holding.len()
    }

    /// Of how many zones a record is held, at no cost that grows with them.
    pub fn zones(&self) -> usize
        ensures { result ≡ zone_count self.now.records }
    {
        self.holding.zones()
    }

    /// How many chains are held, at a cost linear in the number of zones.
    pub fn chains(&self) -> usize
        ensures { result ≡ length self.now.chains }
    {
        self.holding.chains()
    }

    /// What is held after the batch, or want of memory.
    pub fn with_batch(&self, alloc: Global, batch: &Batch) -> Result<Store, OutOfMemory>
        ensures { IfOk result (λ store. store ≡ kept_after self.now batch.entry.now) }
    {
        Ok(Store {
            holding: self.holding.after(alloc, batch)?,
        })
    }
}
