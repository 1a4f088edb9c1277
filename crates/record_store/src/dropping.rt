//! The first record goes.
ghost use Rattle.std.specs.Prelude.{◌≡◌, ◌<◌, length, drop, IfOk};
ghost use Rattle.std.specs.List.{All, Contains};
ghost use Rattle.std.specs.Arc.{arc_value};
ghost use Rattle.cache_meaning.specs.Held.{zone_of};
ghost use Rattle.held_laws.specs.HeldLaws.{IsReordered};
ghost use Rattle.zone_chains.specs.Zone.{records_in, IsDenialOf, IsOneZone};
ghost use Rattle.record_store.specs.Holding.{AreBut, IsTied, held_in, rest_of};
ghost use Rattle.ordered_list.specs.Order.{IsInOrder};
ghost use Rattle.record_store.specs.Ranks.{apex_cmp};
ghost use Rattle.record_store.specs.Dropping.{AreSets, IsZoneLeft, AreZonesLeft};

use crate::holding::{Holding, Zones};
use crate::ranks::zone_of;
use crate::sets::Sets;
use crate::zones::{with_zone, without_zone, zone_at};
use denial_records::Record;
use dname::OutOfMemory;
use std::alloc::Global;
use std::sync::Arc;
use zone_chains::ZoneRecords;

impl Holding {
    /// Without the record that goes first, and its chain where it was the last of it.
    pub(crate) fn without_first(self, alloc: Global) -> Result<Holding, OutOfMemory>
        requires { 0 < length self.records }
        ensures records { IfOk result (λ made. made.records ≡ drop 1 self.records) }
        ensures chains { IfOk result (λ made. IsReordered (rest_of 1 self) made) }
    {
        let first = Arc::try_clone(self.goings.first())?;
        let sets = self.sets_without(alloc, &first)?;
        let zones = self.zones_without(alloc, &sets, &first)?;
        let Holding { goings, .. } = self;
        let goings = goings.without_first(alloc)?;
        Ok(Holding {
            goings,
            sets,
            zones,
        })
    }

    // The sets of the records that are left without the first.
    fn sets_without(&self, alloc: Global, gone: &Record) -> Result<Arc<Sets, Global>, OutOfMemory>
        requires there { Contains self.now.records gone.now }
        requires left { AreBut gone.now self.now.records (drop 1 self.now.records) }
        ensures { IfOk result (λ sets. AreSets (drop 1 self.now.records) (arc_value sets)) }
    {
        match gone {
            Record::Set(_) => Ok(Arc::new(alloc, self.sets.without(alloc, gone)?)?),
            _ => Arc::try_clone(&self.sets),
        }
    }

    // The zones of the records that are left without the first.
    fn zones_without(
        &self,
        alloc: Global,
        sets: &Sets,
        gone: &Record,
    ) -> Result<Arc<Zones, Global>, OutOfMemory>
        requires there { Contains self.now.records gone.now }
        requires left { AreBut gone.now self.now.records (drop 1 self.now.records) }
        requires sets { AreSets (drop 1 self.now.records) sets.now }
        ensures tied { IfOk result (λ zones.
            IsTied (drop 1 self.now.records) sets.now (arc_value zones)) }
        ensures same { IfOk result (λ zones.
            IsReordered (rest_of 1 self.now) (held_in (drop 1 self.now.records) (arc_value zones))) }
    {
        let Some(zone) = zone_at(&self.zones, &zone_of(gone)) else {
            return Arc::try_clone(&self.zones);
        };
        zones_left(alloc, &self.zones, sets, zone_without(alloc, zone, gone)?)
    }
}

// The zones with what is left of one, or without it where nothing is.
fn zones_left(
    alloc: Global,
    zones: &Zones,
    sets: &Sets,
    zone: Arc<ZoneRecords, Global>,
) -> Result<Arc<Zones, Global>, OutOfMemory>
    ensures made { IfOk result (λ made.
        AreZonesLeft sets.now (arc_value zone) zones.now (arc_value made)) }
    ensures in_order { IfOk result (λ made. IsInOrder apex_cmp (arc_value made)) }
{
    if zone.is_empty() && !sets.has_set_of(zone.apex()) {
        without_zone(alloc, zones, &zone)
    } else {
        with_zone(alloc, zones, zone)
    }
}

// The zone without the record, and without its chain where it was the last of it.
fn zone_without(
    alloc: Global,
    zone: &Arc<ZoneRecords, Global>,
    gone: &Record,
) -> Result<Arc<ZoneRecords, Global>, OutOfMemory>
    requires there { IsDenialOf (arc_value zone.now).apex gone.now
        → Contains (records_in (arc_value zone.now)) gone.now }
    requires here { zone_of gone.now ≡ (arc_value zone.now).apex }
    requires used { All (λ each. 0 < length each.records) (arc_value zone.now).chains }
    requires whole { IsOneZone (arc_value zone.now) }
    ensures { IfOk result (λ left. IsZoneLeft gone.now (arc_value zone.now) (arc_value left)) }
{
    match gone {
        Record::Set(_) => Arc::try_clone(zone),
        _ => {
            let without = zone.without(alloc, gone)?;
            Ok(Arc::new(alloc, without.without_empty()?)?)
        },
    }
}
