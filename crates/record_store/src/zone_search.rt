//! The zone for a question, by search among the zones.
ghost use Rattle.std.specs.Prelude.{◌≡◌, MatchOption, None, false};
ghost use Rattle.std.specs.Arc.{arc_value};
ghost use Rattle.std.specs.List.{Contains};
ghost use Rattle.cache_meaning.specs.Zones.{candidates, self_and_above};
ghost use Rattle.zone_chains.specs.Zone.{OneZone};
ghost use Rattle.record_store.specs.LookUp.{first_apex, is_upto, IsFirstZone, IsLastUpTo};

use crate::holding::Zones;
use dname::types::DS_TYPE;
use dname::{LentName, Name};
use std::sync::Arc;
use zone_chains::ZoneRecords;

/// The longest zone that the name is at or below; for a DS, which is the parent's, strictly below (RFC 4035, section 3.1.4.1).
pub(crate) fn zone_for<'z>(
    zones: &'z Zones,
    name: &Name,
    qtype: u16,
) -> Option<&'z Arc<ZoneRecords>>
    ensures { MatchOption result (first_apex zones.now (candidates name.now qtype) ≡ None)
        (λ zone. IsFirstZone zones.now (candidates name.now qtype) (arc_value zone.now)) }
{
    if qtype == DS_TYPE {
        longest_above(zones, name.parent()?.lent())
    } else {
        longest_above(zones, name.lent())
    }
}

// The longest zone that the name is at or below. Of the zones at or before the name, the last is it, if the name is below it; else
// all that the name is below lie above what the two have in common.
fn longest_above<'z>(zones: &'z Zones, name: LentName<'_>) -> Option<&'z Arc<ZoneRecords>>
    ensures { MatchOption result (first_apex zones.now (self_and_above name.entry) ≡ None)
        (λ zone. IsFirstZone zones.now (self_and_above name.entry) (arc_value zone.now)) }
{
    let last = last_upto(zones, &name)?;
    let apex = last.apex().lent();
    if name.is_under(&apex) {
        return Some(last);
    }
    longest_common(zones, name.common(&apex))
}

// The same, of a name that two have in common.
fn longest_common<'z>(zones: &'z Zones, name: LentName<'_>) -> Option<&'z Arc<ZoneRecords>>
    ensures { MatchOption result (first_apex zones.now (self_and_above name.entry) ≡ None)
        (λ zone. IsFirstZone zones.now (self_and_above name.entry) (arc_value zone.now)) }
{
    let mut name = name;
    loop {
        let last = last_upto(zones, &name)?;
        let apex = last.apex().lent();
        if name.is_under(&apex) {
            return Some(last);
        }
        name = name.common(&apex);
    }
}

// The last of the zones at or before the name.
fn last_upto<'z>(zones: &'z Zones, name: &LentName<'_>) -> Option<&'z Arc<ZoneRecords>>
    ensures { MatchOption result
        ((zone : OneZone) → Contains zones.now zone → is_upto name.now zone ≡ false)
        (λ zone. IsLastUpTo zones.now name.now (arc_value zone.now)) }
{
    let count = zones.find(|zone| zone.apex().lent() <= *name);
    if count == 0 {
        None
    } else {
        Some(zones.get(count - 1))
    }
}
