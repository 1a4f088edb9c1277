//! What goes where a denial record comes.
ghost use Rattle.std.specs.Prelude.{◌≡◌, ◌<◌, ◌≤◌, ◌↔◌, true, false, length, IfOk, MatchOption, Some};
ghost use Rattle.std.specs.List.{AllPairs, Contains};
ghost use Rattle.std.specs.Arc.{arc_value};
ghost use Rattle.cache_meaning.specs.Held.{displaces};
ghost use Rattle.zone_chains.specs.Zone.{chains_in, records_in, DisplacesAt, IsDenialOf, IsOneZone, third_for};
ghost use Rattle.cache_meaning.specs.Held.{chain_of};
ghost use Rattle.record_store.specs.Holding.{IsZoneOf, AreCleared, AreWithout, AreLeft, IsAt, AreElsewhere};

use crate::goings::Goings;
use denial_records::Record;
use dname::OutOfMemory;
use range_index::Met;
use std::alloc::Global;
use std::sync::Arc;
use zone_chains::{ChainRecords, ZoneRecords};

/// Without the records that go where the new denial record of the zone comes: those that it displaces, and those of the chain
/// that goes for its own, if one does.
pub(crate) fn without_gone(
    alloc: Global,
    goings: Goings,
    zone: &ZoneRecords,
    met: Option<(&ChainRecords, Met)>,
    new: &Record,
) -> Result<Goings, OutOfMemory>
    requires whole { IsOneZone zone.now }
    requires zone { IsZoneOf goings zone.now }
    requires denial { IsDenialOf zone.now.apex new.now }
    requires met { MatchOption met
        ((old : Record) → Contains (records_in zone.now) old → displaces new.now old ≡ false)
        (λ met. DisplacesAt new.now zone.now met.0.now met.1.from met.1.to met.1.last) }
    ensures { IfOk result (λ left.
        AreLeft new.now (third_for (chains_in zone.now) (chain_of new.now)) goings left) }
{
    let goings = without_third(alloc, goings, zone, new)?;
    without_displaced(alloc, goings, zone, met, new)
}

// Without the records that the new one displaces, which are the zone's.
fn without_displaced(
    alloc: Global,
    goings: Goings,
    zone: &ZoneRecords,
    met: Option<(&ChainRecords, Met)>,
    new: &Record,
) -> Result<Goings, OutOfMemory>
    requires whole { IsOneZone zone.now }
    requires denial { IsDenialOf zone.now.apex new.now }
    requires met { MatchOption met
        ((old : Record) → Contains (records_in zone.now) old → displaces new.now old ≡ false)
        (λ met. DisplacesAt new.now zone.now met.0.now met.1.from met.1.to met.1.last) }
    requires same { (old : Record) → displaces new.now old ≡ true
        → Contains goings old ↔ Contains (records_in zone.now) old }
    ensures { IfOk result (λ left. AreCleared new.now goings left) }
{
    match met {
        Some((chain, met)) => {
            let goings = without_places(alloc, goings, chain, met.from, met.to)?;
            without_places(alloc, goings, chain, met.last, chain.len())
        }
        None => Ok(goings),
    }
}

// Without the records of the chain that goes where the new denial record of the zone comes, if one does.
fn without_third(
    alloc: Global,
    goings: Goings,
    zone: &ZoneRecords,
    new: &Record,
) -> Result<Goings, OutOfMemory>
    requires whole { IsOneZone zone.now }
    requires zone { IsZoneOf goings zone.now }
    ensures { IfOk result (λ left.
        AreWithout (third_for (chains_in zone.now) (chain_of new.now)) goings left) }
{
    match zone.third_for(new) {
        Some(third) => without_chain(alloc, goings, third),
        None => Ok(goings),
    }
}

// Without the records of the chain.
fn without_chain(alloc: Global, goings: Goings, chain: &ChainRecords) -> Result<Goings, OutOfMemory>
    requires there { (item : Record) → Contains chain.now.records item → Contains goings item }
    requires all { (item : Record) → Contains goings item
        → chain_of item ≡ Some chain.now.chain → Contains chain.now.records item }
    requires its { (item : Record) → Contains chain.now.records item
        → chain_of item ≡ Some chain.now.chain }
    requires once { AllPairs (λ one other. displaces one other ≡ false) chain.now.records }
    ensures { IfOk result (λ left. AreWithout (Some chain.now.chain) goings left) }
{
    without_places(alloc, goings, chain, 0, chain.len())
}

// Without the chain's records at the places from one up to another.
fn without_places(
    alloc: Global,
    goings: Goings,
    chain: &ChainRecords,
    from: usize,
    to: usize,
) -> Result<Goings, OutOfMemory>
    requires order { from ≤ to }
    requires in_range { to ≤ length chain.now.records }
    requires there { (item : Record) → IsAt chain.now.records from to item
        → Contains goings item }
    requires once { AllPairs (λ one other. displaces one other ≡ false) chain.now.records }
    ensures { IfOk result (λ left. AreElsewhere chain.now.records from to goings left) }
{
    let mut goings = goings;
    for i in from..to {
        goings = goings.without(alloc, chain.get(i))?;
    }
    Ok(goings)
}
