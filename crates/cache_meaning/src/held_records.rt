ghost use Rattle.std.specs.Prelude.{◌≡◌, not, filter, count_by, List, [], length, OnOk, IfOk, slice_get};
ghost use Rattle.std.specs.List.{list_any};
ghost use Rattle.std.specs.Arc.{arc_value};
ghost use Rattle.std.specs.Option.{option_copied};
ghost use Rattle.dname.specs.Tests.{same_name};
ghost use Rattle.cache_meaning.specs.Held.{Held, nothing_held, is_usable, displaces, goes_before, goes, is_of_chain, same_zone_chain, chains_held, held_where, without_chain, third_of, with_new_chain, with_chain, held_with, within_limit, held_after};
ghost use Rattle.cache_meaning.specs.Views.{shared_records, held_by};

use crate::displaced::displaces;
use crate::held_chain::HeldChain;
use crate::key_order::goes_before;
use crate::records::is_usable;
use denial_records::{Batch, Record};
use dname::{Name, OutOfMemory};
use std::alloc::Global;
use std::marker::Model;
use std::sync::Arc;

/// The records that a cache holds at most.
pub const MOST_RECORDS: usize = 131_072;

/// Records in the order in which they came, and the chains that they are of, the newest first. Equal records of two states
/// are one value with two owners.
#[derive(Drop)]
pub(crate) struct HeldRecords {
    pub(crate) records: Vec<Arc<Record, Global>>,
    pub(crate) chains: Vec<HeldChain>,
}

impl Model for HeldRecords {
    ghost use Rattle.cache_meaning.specs.Held.{Held};
    ghost use Rattle.cache_meaning.specs.Views.{shared_records, held_by};

    ghost Value = { Held };

    ghost view = { λ h. held_by (shared_records h.records.items) h.chains.items };
}

impl HeldRecords {
    /// It takes no memory.
    pub(crate) fn empty(alloc: Global) -> HeldRecords
        ensures { result ≡ nothing_held }
    {
        HeldRecords {
            records: Vec::new(alloc),
            chains: Vec::new(alloc),
        }
    }

    pub(crate) fn len(&self) -> usize
        ensures { result ≡ length self.now.records }
    {
        self.records.len()
    }

    /// What is held after the batch.
    pub(crate) fn after(&self, alloc: Global, batch: &Batch) -> Result<HeldRecords, OutOfMemory>
        ensures { IfOk result (λ held. held ≡ held_after self.now batch.entry.now) }
    {
        let mut held = self.usable(alloc, batch.now)?;
        for i in 0..batch.records.len() {
            held.put(alloc, batch.records.get(i))?;
        }
        held.within_limit(alloc)
    }

    // What may be used now.
    fn usable(&self, alloc: Global, now: u32) -> Result<HeldRecords, OutOfMemory>
        ensures { IfOk result (λ held. held ≡ held_where (is_usable now) self.now) }
    {
        let records = usable_records(alloc, self.records.as_slice(), now)?;
        let chains = chains_held(alloc, records.as_slice(), self.chains.as_slice())?;
        Ok(HeldRecords { records, chains })
    }

    // What stays where there is too much.
    fn within_limit(&self, alloc: Global) -> Result<HeldRecords, OutOfMemory>
        ensures { IfOk result (λ held. held ≡ within_limit self.now) }
    {
        let records = records_within_limit(alloc, self.records.as_slice())?;
        let chains = chains_held(alloc, records.as_slice(), self.chains.as_slice())?;
        Ok(HeldRecords { records, chains })
    }

    // Puts the record last, in the place of those that it displaces.
    fn put(&mut self, alloc: Global, new: &Record) -> Result<(), OutOfMemory>
        ensures { OnOk result (self.new ≡ held_with self.old new.now) }
    {
        drop_displaced(&mut self.records, new);
        self.records.push(shared_copy(alloc, new)?)?;
        match HeldChain::of(alloc, new)? {
            Some(chain) => self.add_chain(alloc, chain),
            None => Ok(()),
        }
    }

    // Puts the chain first, unless it is held.
    fn add_chain(&mut self, alloc: Global, new: HeldChain) -> Result<(), OutOfMemory>
        ensures { OnOk result (self.new ≡ with_chain (Some new) self.old) }
    {
        if has_chain(self.chains.as_slice(), &new) {
            return Ok(());
        }
        self.add_new_chain(alloc, new)
    }

    // Puts the chain first. Its zone's third chain goes with its records.
    fn add_new_chain(&mut self, alloc: Global, new: HeldChain) -> Result<(), OutOfMemory>
        ensures { OnOk result (self.new ≡ with_new_chain new self.old) }
    {
        let zone = new.zone().copy();
        self.chains.insert(0, new)?;
        match third_of(alloc, self.chains.as_slice(), &zone)? {
            Some(third) => self.drop_chain(&third),
            None => {}
        }
        Ok(())
    }

    fn drop_chain(&mut self, chain: &HeldChain)
        ensures { self.new ≡ without_chain chain.now self.old }
    {
        drop_records_of(&mut self.records, chain);
        drop_chain(&mut self.chains, chain);
    }
}

// An equal record, with one owner.
fn shared_copy(alloc: Global, item: &Record) -> Result<Arc<Record, Global>, OutOfMemory>
    ensures { IfOk result (λ shared. arc_value shared ≡ item.now) }
{
    let copy = item.copy(alloc)?;
    Ok(Arc::new(alloc, copy)?)
}

fn usable_records(
    alloc: Global,
    records: &[Arc<Record, Global>],
    now: u32,
) -> Result<Vec<Arc<Record, Global>>, OutOfMemory>
    ensures { IfOk result (λ usable. shared_records usable.items
        ≡ filter (is_usable now) (shared_records records.now)) }
{
    let mut usable = Vec::new(alloc);
    for item in records {
        if is_usable(now, item) {
            usable.push(Arc::try_clone(item)?)?;
        }
    }
    Ok(usable)
}

fn records_within_limit(
    alloc: Global,
    records: &[Arc<Record, Global>],
) -> Result<Vec<Arc<Record, Global>>, OutOfMemory>
    ensures { IfOk result (λ kept. shared_records kept.items
        ≡ filter (λ item. not (goes (shared_records records.now) item)) (shared_records
        records.now)) }
{
    let mut kept = Vec::new(alloc);
    for item in records {
        if goes(records, item) {
            continue;
        }
        kept.push(Arc::try_clone(item)?)?;
    }
    Ok(kept)
}

// Whether the record is among those that go where there are too many.
fn goes(records: &[Arc<Record, Global>], item: &Record) -> bool
    ensures { result ≡ goes (shared_records records.now) item.now }
{
    if records.len() <= MOST_RECORDS {
        return false;
    }
    count_before(records, item) < records.len() - MOST_RECORDS
}

fn count_before(records: &[Arc<Record, Global>], item: &Record) -> usize
    ensures { result ≡ count_by
        (λ other. goes_before other item.now) (shared_records records.now) }
{
    let mut before = 0;
    for other in records {
        if goes_before(other, item) {
            before += 1;
        }
    }
    before
}

// The chains of which a record is held.
fn chains_held(
    alloc: Global,
    records: &[Arc<Record, Global>],
    chains: &[HeldChain],
) -> Result<Vec<HeldChain>, OutOfMemory>
    ensures { IfOk result (λ held.
        held.items ≡ chains_held (shared_records records.now) chains.now) }
{
    let mut held = Vec::new(alloc);
    for chain in chains {
        if has_record(records, chain) {
            held.push(chain.copy(alloc)?)?;
        }
    }
    Ok(held)
}

fn has_record(records: &[Arc<Record, Global>], chain: &HeldChain) -> bool
    ensures { result ≡ list_any (is_of_chain chain.now) (shared_records records.now) }
{
    for item in records {
        if chain.has(item) {
            return true;
        }
    }
    false
}

fn has_chain(chains: &[HeldChain], chain: &HeldChain) -> bool
    ensures { result ≡ list_any (same_zone_chain chain.now) chains.now }
{
    chains.iter().any(|other| chain.is_same(other))
}

// The zone's third chain.
#[tactic(auto, using(crate::proofs::HeldLemmas::third_is_third))]
fn third_of(
    alloc: Global,
    chains: &[HeldChain],
    zone: &Name,
) -> Result<Option<HeldChain>, OutOfMemory>
    ensures { IfOk result (λ third. third
        ≡ third_of (filter (λ chain. same_name chain.zone zone.now) chains.now)) }
{
    match chain_at(chains, zone, 2) {
        Some(third) => Ok(Some(third.copy(alloc)?)),
        None => Ok(None),
    }
}

/// The zone's chain at a place among its chains, counted from 0.
pub(crate) fn chain_at<'c>(
    chains: &'c [HeldChain],
    zone: &Name,
    place: usize,
) -> Option<&'c HeldChain>
    ensures { option_copied result
        ≡ slice_get (filter (λ chain. same_name chain.zone zone.now) chains.now) place }
{
    chains
        .iter()
        .filter(|chain| chain.zone() == zone)
        .nth(place)
}

fn drop_displaced(records: &mut Vec<Arc<Record, Global>>, new: &Record)
    ensures { shared_records records.new.items
        ≡ filter (λ old. not (displaces new.now old)) (shared_records records.old.items) }
{
    records.retain(|old| !displaces(new, old));
}

fn drop_records_of(records: &mut Vec<Arc<Record, Global>>, chain: &HeldChain)
    ensures { shared_records records.new.items
        ≡ filter (λ item. not (is_of_chain chain.now item)) (shared_records records.old.items) }
{
    records.retain(|item| !chain.has(item));
}

fn drop_chain(chains: &mut Vec<HeldChain>, chain: &HeldChain)
    ensures { chains.new.items
        ≡ filter (λ other. not (same_zone_chain chain.now other)) chains.old.items }
{
    chains.retain(|other| !chain.is_same(other));
}
