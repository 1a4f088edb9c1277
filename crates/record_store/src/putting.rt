//! A record comes.
ghost use Rattle.std.specs.Prelude.{◌≡◌, IfOk, None, IsTrue, option_map};
ghost use Rattle.std.specs.Arc.{arc_value};
ghost use Rattle.cache_meaning.specs.Held.{chain_of, held_with};
ghost use Rattle.held_laws.specs.HeldLaws.{NoneDisplaces};
ghost use Rattle.ordered_list.specs.Order.{IsRank, entry_at};
ghost use Rattle.record_store.specs.Holding.{AreCleared, IsHeldAs};
ghost use Rattle.record_store.specs.Dropping.{AreSets};
ghost use Rattle.record_store.specs.Putting.{IsZoneFor};
ghost use Rattle.record_store.specs.Ranks.{set_cmp};

use crate::goings::Goings;
use crate::gone::without_gone;
use crate::holding::Holding;
use crate::ranks::zone_of;
use crate::same_set::same_set;
use crate::sets::{SetList, Sets};
use crate::zones::{with_apex, with_zone, zone_at};
use denial_records::Record;
use dname::OutOfMemory;
use ordered_list::Rank;
use std::alloc::Global;
use std::sync::Arc;
use zone_chains::ZoneRecords;

impl Holding {
    /// With the record, in the place of those that it displaces, and with its chain.
    pub(crate) fn put(self, alloc: Global, new: Arc<Record, Global>) -> Result<Holding, OutOfMemory>
        ensures { IfOk result (λ made. IsHeldAs (held_with self (arc_value new)) made) }
    {
        match &*new {
            Record::Set(_) => self.put_set(alloc, new),
            _ => self.put_denial(alloc, new),
        }
    }

    // A set that is held as it is changes nothing: answers of one second bring their zone's SOA with one moment of
    // expiry. It is compared in all, so a set with another signature takes its place.
    fn put_set(self, alloc: Global, new: Arc<Record, Global>) -> Result<Holding, OutOfMemory>
        requires { chain_of (arc_value new) ≡ None }
        ensures { IfOk result (λ made. IsHeldAs (held_with self (arc_value new)) made) }
    {
        let rank = self.sets.list().rank(&new);
        let old = set_of(self.sets.list(), rank)?;
        if let Some(old) = &old {
            if same_record(old, &new) {
                return Ok(self);
            }
        }
        let Holding {
            goings,
            sets,
            zones,
        } = self;
        let goings = without_set(alloc, goings, &sets, old, &new)?;
        let zones = with_apex(alloc, &zones, &zone_of(&new))?;
        let sets = Arc::new(alloc, sets.with_at(alloc, rank, Arc::try_clone(&new)?)?)?;
        let goings = goings.with(alloc, new)?;
        Ok(Holding {
            goings,
            sets,
            zones,
        })
    }

    fn put_denial(self, alloc: Global, new: Arc<Record, Global>) -> Result<Holding, OutOfMemory>
        requires { chain_of (arc_value new) ≡ None → ⊥ }
        ensures { IfOk result (λ made. IsHeldAs (held_with self (arc_value new)) made) }
    {
        let zone = self.zone_or_new(alloc, &new)?;
        let Holding {
            goings,
            sets,
            zones,
        } = self;
        let (made, met) = zone.with(alloc, Arc::try_clone(&new)?)?;
        let goings = without_gone(alloc, goings, &zone, met, &new)?;
        let zones = with_zone(alloc, &zones, Arc::new(alloc, made)?)?;
        let goings = goings.with(alloc, new)?;
        Ok(Holding {
            goings,
            sets,
            zones,
        })
    }

    // The zone of the record; one without chains where none is held.
    fn zone_or_new(
        &self,
        alloc: Global,
        item: &Record,
    ) -> Result<Arc<ZoneRecords, Global>, OutOfMemory>
        ensures { IfOk result (λ zone. IsZoneFor self.now item.now (arc_value zone)) }
    {
        match zone_at(&self.zones, &zone_of(item)) {
            Some(zone) => Arc::try_clone(zone),
            None => Ok(Arc::new(alloc, ZoneRecords::of(zone_of(item)))?),
        }
    }
}

// The set of that rank, which has the key of a new one.
fn set_of(sets: &SetList, rank: Rank) -> Result<Option<Arc<Record, Global>>, OutOfMemory>
    requires { (new : Record) × IsRank set_cmp new sets.now rank.from rank.to }
    ensures { IfOk result (λ old. (new : Record)
        → IsRank set_cmp new sets.now rank.from rank.to
        → option_map (λ o. arc_value o) old ≡ entry_at set_cmp new sets.now) }
{
    match sets.ranked(rank) {
        Some(old) => Ok(Some(Arc::try_clone(old)?)),
        None => Ok(None),
    }
}

// Whether the records are sets that are the same in all.
fn same_record(one: &Record, other: &Record) -> bool
    ensures yes { IsTrue result → one.now ≡ other.now }
    ensures no { chain_of one.now ≡ None → one.now ≡ other.now → IsTrue result }
{
    match (one, other) {
        (Record::Set(one), Record::Set(other)) => same_set(one, other),
        _ => false,
    }
}

// The records without the set that the new one displaces, which is the old one of its key.
fn without_set(
    alloc: Global,
    goings: Goings,
    sets: &Sets,
    old: Option<Arc<Record, Global>>,
    new: &Record,
) -> Result<Goings, OutOfMemory>
    requires set { chain_of new.now ≡ None }
    requires apart { NoneDisplaces goings }
    requires sets { AreSets goings sets.now }
    requires old { option_map (λ o. arc_value o) old ≡ entry_at set_cmp new.now sets.now }
    ensures { IfOk result (λ left. AreCleared new.now goings left) }
{
    match old {
        Some(old) => goings.without(alloc, &old),
        None => Ok(goings),
    }
}
