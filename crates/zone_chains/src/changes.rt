//! What a change makes of the chains of one zone.
ghost use Rattle.std.specs.Prelude.{◌≡◌, [], ◌∷◌, map, filter, not, true, false, MatchOption, Some, IfOk};
ghost use Rattle.std.specs.List.{list_any};
ghost use Rattle.std.specs.Arc.{arc_value};
ghost use Rattle.cache_meaning.specs.Held.{ZoneChain, chain_of, displaces, is_of_chain};
ghost use Rattle.range_index.specs.Arcs.{FailInRuns};
ghost use Rattle.zone_chains.specs.Zone.{has_records};
ghost use Rattle.zone_chains.specs.Views.{IsDenial};
ghost use Rattle.zone_chains.specs.Chains.{chains_by};
ghost use Rattle.zone_chains.specs.Changes.{alone, joined, parted, came, went, DisplacesIn, OneHas};

use crate::ChainRecords;
use crate::zone_chains::ZoneChains;
use denial_records::Record;
use dname::OutOfMemory;
use range_index::Met;
use std::alloc::Global;
use std::sync::Arc;

/// The chains with the record, and the chain that it joined with the places there of those that it displaces.
pub(crate) fn chains_with<'c>(
    alloc: Global,
    chains: &'c ZoneChains,
    item: Arc<Record>,
) -> Result<(ZoneChains, Option<(&'c ChainRecords, Met)>), OutOfMemory>
    requires { IsDenial (arc_value item) }
    ensures made { IfOk result (λ made. (chain : ZoneChain)
        → chain_of (arc_value item) ≡ Some chain
        → chains_by made.0 ≡ came chain (arc_value item) (chains_by chains.now)) }
    ensures met { IfOk result (λ made. MatchOption made.1
        (list_any (λ chain. is_of_chain chain (arc_value item))
        (map (λ each. each.chain) (chains_by chains.now)) ≡ false)
        (λ met. DisplacesIn (arc_value item) (chains_by chains.now) met.0.now
        met.1.from met.1.to met.1.last)) }
{
    match chains {
        ZoneChains::Bare => Ok((ZoneChains::One(alone(alloc, item)?), None)),
        ZoneChains::One(only) => {
            if only.is_of(&item) {
                let (made, met) = joined(alloc, only, item)?;
                Ok((ZoneChains::One(made), Some((only, met))))
            } else {
                let older = Arc::try_clone(only)?;
                let newer = alone(alloc, item)?;
                Ok((ZoneChains::Two { newer, older }, None))
            }
        }
        ZoneChains::Two { newer, older } => two_with(alloc, newer, older, item),
    }
}

fn two_with<'c>(
    alloc: Global,
    newer: &'c Arc<ChainRecords>,
    older: &'c Arc<ChainRecords>,
    item: Arc<Record>,
) -> Result<(ZoneChains, Option<(&'c ChainRecords, Met)>), OutOfMemory>
    requires { IsDenial (arc_value item) }
    ensures made { IfOk result (λ made. (chain : ZoneChain)
        → chain_of (arc_value item) ≡ Some chain
        → chains_by made.0 ≡ came chain (arc_value item)
        (arc_value newer.now ∷ arc_value older.now ∷ [])) }
    ensures met { IfOk result (λ made. MatchOption made.1
        (list_any (λ chain. is_of_chain chain (arc_value item))
        ((arc_value newer.now).chain ∷ (arc_value older.now).chain ∷ []) ≡ false)
        (λ met. DisplacesIn (arc_value item) (arc_value newer.now ∷ arc_value older.now ∷ [])
        met.0.now met.1.from met.1.to met.1.last)) }
{
    if newer.is_of(&item) {
        let older = Arc::try_clone(older)?;
        let (made, met) = joined(alloc, newer, item)?;
        Ok((ZoneChains::Two { newer: made, older }, Some((newer, met))))
    } else if older.is_of(&item) {
        let newer = Arc::try_clone(newer)?;
        let (made, met) = joined(alloc, older, item)?;
        Ok((ZoneChains::Two { newer, older: made }, Some((older, met))))
    } else {
        let older = Arc::try_clone(newer)?;
        let newer = alone(alloc, item)?;
        Ok((ZoneChains::Two { newer, older }, None))
    }
}

pub(crate) fn chains_without(
    alloc: Global,
    chains: &ZoneChains,
    item: &Record,
) -> Result<ZoneChains, OutOfMemory>
    requires { OneHas item.now (chains_by chains.now) }
    ensures { IfOk result (λ made. chains_by made ≡ went item.now (chains_by chains.now)) }
{
    match chains {
        ZoneChains::Bare => Ok(ZoneChains::Bare),
        ZoneChains::One(only) => Ok(ZoneChains::One(parted(alloc, only, item)?)),
        ZoneChains::Two { newer, older } => {
            if newer.is_of(item) {
                let older = Arc::try_clone(older)?;
                let newer = parted(alloc, newer, item)?;
                Ok(ZoneChains::Two { newer, older })
            } else {
                let newer = Arc::try_clone(newer)?;
                let older = parted(alloc, older, item)?;
                Ok(ZoneChains::Two { newer, older })
            }
        }
    }
}

pub(crate) fn chains_held(chains: &ZoneChains) -> Result<ZoneChains, OutOfMemory>
    ensures { IfOk result (λ made. chains_by made ≡ filter has_records (chains_by chains.now)) }
{
    match chains {
        ZoneChains::Bare => Ok(ZoneChains::Bare),
        ZoneChains::One(only) => one_held(only),
        ZoneChains::Two { newer, older } => {
            if newer.len() == 0 {
                one_held(older)
            } else if older.len() == 0 {
                Ok(ZoneChains::One(Arc::try_clone(newer)?))
            } else {
                Ok(ZoneChains::Two {
                    newer: Arc::try_clone(newer)?,
                    older: Arc::try_clone(older)?,
                })
            }
        }
    }
}

fn one_held(only: &Arc<ChainRecords>) -> Result<ZoneChains, OutOfMemory>
    ensures { IfOk result
        (λ made. chains_by made ≡ filter has_records (arc_value only.now ∷ [])) }
{
    if only.len() == 0 {
        Ok(ZoneChains::Bare)
    } else {
        Ok(ZoneChains::One(Arc::try_clone(only)?))
    }
}

fn alone(alloc: Global, item: Arc<Record>) -> Result<Arc<ChainRecords>, OutOfMemory>
    requires { IsDenial (arc_value item) }
    ensures { IfOk result (λ made. (chain : ZoneChain) → chain_of (arc_value item) ≡ Some chain
        → arc_value made ≡ alone chain (arc_value item)) }
{
    let made = ChainRecords::alone(alloc, item)?;
    Ok(Arc::new(alloc, made)?)
}

fn joined(
    alloc: Global,
    chain: &ChainRecords,
    item: Arc<Record>,
) -> Result<(Arc<ChainRecords>, Met), OutOfMemory>
    requires { is_of_chain chain.now.chain (arc_value item) ≡ true }
    ensures made { IfOk result (λ made.
        arc_value made.0 ≡ joined (arc_value item) chain.now) }
    ensures met { IfOk result (λ made.
        FailInRuns (λ old. not (displaces (arc_value item) old)) chain.now.records
        made.1.from made.1.to made.1.last) }
{
    let (made, met) = chain.with(alloc, item)?;
    Ok((Arc::new(alloc, made)?, met))
}

fn parted(
    alloc: Global,
    chain: &ChainRecords,
    item: &Record,
) -> Result<Arc<ChainRecords>, OutOfMemory>
    requires { chain_of item.now ≡ Some chain.now.chain }
    ensures { IfOk result (λ made. arc_value made ≡ parted item.now chain.now) }
{
    let made = chain.without(alloc, item)?;
    Ok(Arc::new(alloc, made)?)
}
