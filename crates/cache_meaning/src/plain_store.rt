ghost use Rattle.std.specs.Prelude.{◌≡◌, length, IfOk, IfSome, is_some};
ghost use Rattle.std.specs.Option.{option_map};
ghost use Rattle.std.specs.List.{list_any};
ghost use Rattle.dname.specs.Tests.{same_name};
ghost use Rattle.cache_meaning.specs.Zones.{TwoChains, zone_in, zone_for};
ghost use Rattle.cache_meaning.specs.Views.{shared_records};
ghost use Rattle.cache_meaning.specs.Held.{zone_of, nothing_held, held_after};

use crate::PlainZone;
use crate::held_chain::HeldChain;
use crate::held_records::HeldRecords;
use crate::plain_zone::zone_in;
use crate::records::zone_of;
use denial_records::{Batch, Record};
use dname::types::DS_TYPE;
use dname::{Name, OutOfMemory};
use std::alloc::Global;
use std::marker::Model;
use std::sync::Arc;

/// The records that a cache holds after some batches, with the chains that they are of: over one list, in the words of the
/// definitions. A batch makes the next one and leaves this; records that both hold are shared.
#[derive(Drop)]
pub struct PlainStore {
    held: HeldRecords,
}

impl Model for PlainStore {
    ghost use Rattle.cache_meaning.specs.Held.{Held};
    ghost use Rattle.cache_meaning.specs.Zones.{TwoChains};

    ghost Value = { Held };

    ghost view = { λ s. s.held };

    ghost invariant = { λ s. TwoChains s.held };
}

impl PlainStore {
    /// Nothing is held. It takes no memory.
    pub fn empty(alloc: Global) -> PlainStore
        ensures { result ≡ nothing_held }
    {
        PlainStore {
            held: HeldRecords::empty(alloc),
        }
    }

    /// How many records are held.
    pub fn len(&self) -> usize
        ensures { result ≡ length self.now.records }
    {
        self.held.len()
    }

    /// What is held after the batch, or want of memory.
    pub fn with_batch(&self, alloc: Global, batch: &Batch) -> Result<PlainStore, OutOfMemory>
        ensures { IfOk result (λ store. store ≡ held_after self.now batch.entry.now) }
    {
        Ok(PlainStore {
            held: self.held.after(alloc, batch)?,
        })
    }

    /// The zone that may answer: the longest zone of a held record, expired or not, that the name is at or below; for a DS,
    /// which is the parent's, strictly below (RFC 4035, section 3.1.4.1).
    pub fn zone_for(&self, name: &Name, qtype: u16) -> Option<PlainZone<'_>>
        ensures { result ≡ option_map (zone_in self.now) (zone_for self.now name.now qtype) }
    {
        let mut zone = name.copy();
        if qtype == DS_TYPE {
            zone = zone.parent()?;
        }
        loop {
            if self.has_zone(&zone) {
                return Some(zone_in(self, zone));
            }
            zone = zone.parent()?;
        }
    }

    pub(crate) fn records(&self) -> &[Arc<Record, Global>]
        ensures { shared_records result.now ≡ self.now.records }
    {
        self.held.records.as_slice()
    }

    pub(crate) fn chains(&self) -> &[HeldChain]
        ensures chains { result.now ≡ self.now.chains }
        ensures two { TwoChains self.now }
    {
        self.held.chains.as_slice()
    }

    // Whether a record of the zone is held.
    fn has_zone(&self, zone: &Name) -> bool
        ensures { result
            ≡ list_any (λ item. same_name (zone_of item) zone.now) self.now.records }
    {
        for item in self.records() {
            if zone_of(item) == zone.lent() {
                return true;
            }
        }
        false
    }
}
