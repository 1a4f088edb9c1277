//! The zones of a store.
ghost use Rattle.std.specs.Prelude.{◌≡◌, ◌⊎◌, ◌↔◌, IfOk, MatchOption};
ghost use Rattle.std.specs.List.{Contains};
ghost use Rattle.std.specs.Arc.{arc_value};
ghost use Rattle.ordered_list.specs.Order.{IsInOrder};
ghost use Rattle.zone_chains.specs.Zone.{OneZone};
ghost use Rattle.record_store.specs.Holding.{IsWithApex};
ghost use Rattle.record_store.specs.Ranks.{apex_cmp};

use crate::holding::Zones;
use dname::{Name, OutOfMemory};
use std::alloc::Global;
use std::sync::Arc;
use zone_chains::ZoneRecords;

/// The zone at the apex.
pub(crate) fn zone_at<'z>(zones: &'z Zones, apex: &Name) -> Option<&'z Arc<ZoneRecords>>
    ensures zone { MatchOption result
        ((zone : OneZone) → Contains zones.now zone → zone.apex ≡ apex.now → ⊥)
        (λ zone. Contains zones.now (arc_value zone.now)
        × ((arc_value zone.now).apex ≡ apex.now)) }
    ensures order { IsInOrder apex_cmp zones.now }
{
    let place = zones.find(|zone| zone.apex() < apex);
    if place < zones.len() && zones.get(place).apex() == apex {
        Some(zones.get(place))
    } else {
        None
    }
}

/// With the zone, in the place of the one of its apex.
pub(crate) fn with_zone(
    alloc: Global,
    zones: &Zones,
    zone: Arc<ZoneRecords, Global>,
) -> Result<Arc<Zones, Global>, OutOfMemory>
    ensures zones { IfOk result (λ made. (each : OneZone) → Contains (arc_value made) each
        ↔ ((each ≡ arc_value zone)
        ⊎ (Contains zones.now each × (each.apex ≡ (arc_value zone).apex → ⊥)))) }
    ensures order { IfOk result (λ made. IsInOrder apex_cmp (arc_value made)) }
    ensures was_ordered { IsInOrder apex_cmp zones.now }
{
    Ok(Arc::new(alloc, zones.with(alloc, zone)?)?)
}

/// With a zone at the apex: the same list where it has one, else with one that has no chain.
pub(crate) fn with_apex(
    alloc: Global,
    zones: &Arc<Zones, Global>,
    apex: &Name,
) -> Result<Arc<Zones, Global>, OutOfMemory>
    ensures zones { IfOk result (λ made.
        IsWithApex apex.now (arc_value zones.now) (arc_value made)) }
    ensures order { IfOk result (λ made. IsInOrder apex_cmp (arc_value made)) }
    ensures was_ordered { IsInOrder apex_cmp (arc_value zones.now) }
{
    match zone_at(zones, apex) {
        Some(_) => Arc::try_clone(zones),
        None => {
            let zone = Arc::new(alloc, ZoneRecords::of(apex.copy()))?;
            with_zone(alloc, zones, zone)
        }
    }
}

/// Without the zone of that apex.
pub(crate) fn without_zone(
    alloc: Global,
    zones: &Zones,
    zone: &ZoneRecords,
) -> Result<Arc<Zones, Global>, OutOfMemory>
    ensures zones { IfOk result (λ made. (each : OneZone) → Contains (arc_value made) each
        ↔ (Contains zones.now each × (each.apex ≡ zone.now.apex → ⊥))) }
    ensures order { IfOk result (λ made. IsInOrder apex_cmp (arc_value made)) }
{
    Ok(Arc::new(alloc, zones.without(alloc, zone)?)?)
}
