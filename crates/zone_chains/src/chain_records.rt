//! The denial records of one chain.
ghost use Rattle.std.specs.Prelude.{◌≡◌, ◌<◌, not, length, slice_index_or, [], ◌∷◌, Some, IfSome, IfOk};
ghost use Rattle.std.specs.Arc.{arc_value};
ghost use Rattle.std.specs.Option.{option_map};
ghost use Rattle.std.specs.Str.{bytes_eq};
ghost use Rattle.cache_meaning.specs.Held.{chain_of, is_of_chain, displaces, same_parameters, zone_of};
ghost use Rattle.range_index.specs.Arcs.{AreOfOrigin, FailInRuns};
ghost use Rattle.range_index.specs.Marks.{name_mark};
ghost use Rattle.cache_meaning.specs.Zones.{as_nsec_at, as_nsec3_at};
ghost use Rattle.cache_meaning.specs.Evidence.{nsec_matches};
ghost use Rattle.cache_meaning.specs.Lent.{lent_chain, parameters_by, place_by};
ghost use Rattle.nsec3_hash.specs.IteratedHash.{hash_of};
ghost use Rattle.zone_chains.specs.Zone.{IsChosen};
ghost use Rattle.zone_chains.specs.Views.{IsDenial, IsOfKind, apart_in};
ghost use Rattle.zone_chains.specs.Spans.{kind_by, records_by};
ghost use Rattle.zone_chains.specs.Changes.{joined, parted, records_with, records_without};

use crate::apex_hashes::{ApexHashes, hashes_for, shared};
use crate::nsec_span::{ByOwner, nsec_in, zone_of};
use crate::nsec3_span::{ByHash, NO_HASH, nsec3_in};
use cache_meaning::{Chain, Place};
use denial_records::{HASH_OCTETS, KeptNsec, KeptNsec3, Record};
use dname::{Name, Octets, OutOfMemory};
use range_index::{Arcs, Met};
use std::alloc::Global;
use std::marker::Model;
use std::sync::Arc;

/// The denial records of one chain of a zone, seen as the chain and its records. No record displaces another.
#[derive(Drop)]
pub struct ChainRecords {
    zone: Name,
    spans: ChainSpans,
    // For speed alone: nothing is seen of them.
    hashes: Option<Arc<ApexHashes>>,
}

#[derive(Drop)]
pub(crate) enum ChainSpans {
    Nsec(Arcs<Record, ByOwner>),
    Nsec3 {
        salt: Octets,
        iterations: u16,
        arcs: Arcs<Record, ByHash>,
    },
}

impl Model for ChainRecords {
    ghost use Rattle.zone_chains.specs.Zone.{OneChain};
    ghost use Rattle.zone_chains.specs.Views.{IsChain};
    ghost use Rattle.zone_chains.specs.Spans.{chain_by};

    ghost Value = { OneChain };

    ghost view = { λ c. chain_by c.zone c.spans };

    ghost invariant = { λ c. IsChain (chain_by c.zone c.spans) };
}

impl ChainRecords {
    /// How many records there are.
    pub fn len(&self) -> usize
        ensures { result ≡ length self.now.records }
    {
        match &self.spans {
            ChainSpans::Nsec(arcs) => arcs.len(),
            ChainSpans::Nsec3 { arcs, .. } => arcs.len(),
        }
    }

    /// The record at a place. They are in order of their owner names, or of their hashes.
    pub fn get(&self, i: usize) -> &Arc<Record>
        requires { i < length self.now.records }
        ensures { arc_value result.now
            ≡ slice_index_or self.now.records i (arc_value result.now) }
    {
        match &self.spans {
            ChainSpans::Nsec(arcs) => arcs.get(i),
            ChainSpans::Nsec3 { arcs, .. } => arcs.get(i),
        }
    }

    pub(crate) fn chain(&self) -> Chain<'_>
        ensures { lent_chain result ≡ Some self.now.chain.chain }
    {
        match &self.spans {
            ChainSpans::Nsec(_) => Chain::Nsec,
            ChainSpans::Nsec3 {
                salt,
                iterations,
                ..
            } => Chain::Nsec3 {
                salt: salt.as_slice(),
                iterations: *iterations,
            },
        }
    }

    /// Whether the record is of the chain.
    pub(crate) fn is_of(&self, item: &Record) -> bool
        ensures { result ≡ is_of_chain self.now.chain item.now }
    {
        match (&self.spans, item) {
            (ChainSpans::Nsec(_), Record::Nsec(nsec)) => self.zone.lent() == nsec.zone(),
            (
                ChainSpans::Nsec3 {
                    salt,
                    iterations,
                    ..
                },
                Record::Nsec3(nsec3),
            ) => {
                let its_salt = nsec3.salt();
                self.zone.lent() == nsec3.zone()
                    && are_same(salt.as_slice(), *iterations, its_salt, nsec3.iterations())
            }
            _ => false,
        }
    }

    /// The NSEC record whose arc has the name.
    pub(crate) fn nsec_at(&self, name: &Name) -> Option<(&KeptNsec, Place)>
        ensures record { IsChosen (as_nsec_at self.now.chain.zone name.now) self.now.records
            (option_map (λ found. found.0.now) result) }
        ensures place { IfSome result (λ found.
            found.1 ≡ place_by (nsec_matches found.0.now name.now)) }
    {
        match &self.spans {
            ChainSpans::Nsec(arcs) => nsec_in(arcs, &self.zone, name),
            ChainSpans::Nsec3 { .. } => None,
        }
    }

    /// The NSEC3 record whose arc has the hash, where the chain is of that salt and number of iterations.
    pub(crate) fn nsec3_at(
        &self,
        salt: &[u8],
        iterations: u16,
        hash: &[u8; HASH_OCTETS],
    ) -> Option<(&KeptNsec3, Place)>
        ensures record { IsChosen
            (as_nsec3_at self.now.chain.zone (parameters_by salt.now iterations) hash.now)
            self.now.records (option_map (λ found. found.0.now) result) }
        ensures place { IfSome result (λ found.
            found.1 ≡ place_by (bytes_eq found.0.now.hash hash.now)) }
    {
        match &self.spans {
            ChainSpans::Nsec3 {
                salt: its_salt,
                iterations: its_iterations,
                arcs,
            } if are_same(its_salt.as_slice(), *its_iterations, salt, iterations) => {
                nsec3_in(arcs, hash)
            }
            _ => None,
        }
    }

    /// The hash of a name by that salt and number of iterations, where the chain keeps it.
    pub(crate) fn kept_hash(
        &self,
        name: &Name,
        salt: &[u8],
        iterations: u16,
    ) -> Option<&[u8; HASH_OCTETS]>
        ensures { IfSome result (λ hash. hash.now ≡ hash_of name.now salt.now iterations) }
    {
        match &self.hashes {
            Some(hashes) => hashes.hash(name, salt, iterations),
            None => None,
        }
    }

    /// A chain with one record, which is of it.
    pub(crate) fn alone(alloc: Global, item: Arc<Record>) -> Result<ChainRecords, OutOfMemory>
        requires { IsDenial (arc_value item) }
        ensures chain { IfOk result (λ made. chain_of (arc_value item) ≡ Some made.chain) }
        ensures records { IfOk result (λ made. made.records ≡ arc_value item ∷ []) }
    {
        let zone = zone_of(&item).name();
        let hashes = hashes_for(alloc, &item)?;
        let spans = spans_of(alloc, item)?;
        Ok(ChainRecords {
            zone,
            spans,
            hashes,
        })
    }

    /// With a record of the chain, in the place of those that it displaces, and the places that these have here.
    pub(crate) fn with(
        &self,
        alloc: Global,
        item: Arc<Record>,
    ) -> Result<(ChainRecords, Met), OutOfMemory>
        requires { chain_of (arc_value item) ≡ Some self.now.chain }
        ensures made { IfOk result (λ made. made.0 ≡ joined (arc_value item) self.now) }
        ensures met { IfOk result (λ made.
            FailInRuns (λ old. not (displaces (arc_value item) old)) self.now.records
            made.1.from made.1.to made.1.last) }
    {
        let (spans, met) = spans_with(alloc, &self.spans, item)?;
        let made = ChainRecords {
            zone: self.zone.copy(),
            spans,
            hashes: shared(&self.hashes)?,
        };
        Ok((made, met))
    }

    /// Without a record of the chain.
    pub(crate) fn without(&self, alloc: Global, item: &Record) -> Result<ChainRecords, OutOfMemory>
        requires { chain_of item.now ≡ Some self.now.chain }
        ensures { IfOk result (λ made. made ≡ parted item.now self.now) }
    {
        let spans = spans_without(alloc, &self.spans, item)?;
        Ok(ChainRecords {
            zone: self.zone.copy(),
            spans,
            hashes: shared(&self.hashes)?,
        })
    }
}

// Whether the salts and the numbers of iterations are the same.
fn are_same(salt: &[u8], iterations: u16, other_salt: &[u8], other_iterations: u16) -> bool
    ensures { result ≡ same_parameters (parameters_by salt.now iterations)
        (parameters_by other_salt.now other_iterations) }
{
    salt == other_salt && iterations == other_iterations
}

// The record alone.
fn spans_of(alloc: Global, item: Arc<Record>) -> Result<ChainSpans, OutOfMemory>
    requires { IsDenial (arc_value item) }
    ensures kind { IfOk result (λ made. chain_of (arc_value item)
        ≡ Some (record { zone = zone_of (arc_value item); chain = kind_by made })) }
    ensures records { IfOk result (λ made. records_by made ≡ arc_value item ∷ []) }
{
    let record: &Record = &item;
    match record {
        Record::Nsec3(nsec3) => {
            let salt = Octets::of(alloc, nsec3.salt())?;
            let iterations = nsec3.iterations();
            Ok(ChainSpans::Nsec3 {
                salt,
                iterations,
                arcs: Arcs::empty(alloc).with(alloc, item)?,
            })
        }
        _ => Ok(ChainSpans::Nsec(Arcs::empty(alloc).with(alloc, item)?)),
    }
}

// With the record, and the places of the spans that it meets.
fn spans_with(
    alloc: Global,
    spans: &ChainSpans,
    item: Arc<Record>,
) -> Result<(ChainSpans, Met), OutOfMemory>
    requires kind { IsOfKind (kind_by spans.now) (arc_value item) }
    requires zone { AreOfOrigin zone_of name_mark (zone_of (arc_value item))
        (records_by spans.now) }
    ensures kind { IfOk result (λ made. kind_by made.0 ≡ kind_by spans.now) }
    ensures records { IfOk result (λ made. records_by made.0
        ≡ records_with (kind_by spans.now) (arc_value item) (records_by spans.now)) }
    ensures met { IfOk result (λ made.
        FailInRuns (apart_in (kind_by spans.now) (arc_value item)) (records_by spans.now)
        made.1.from made.1.to made.1.last) }
{
    match spans {
        ChainSpans::Nsec(arcs) => {
            let (arcs, met) = arcs.with_met(alloc, item)?;
            Ok((ChainSpans::Nsec(arcs), met))
        }
        ChainSpans::Nsec3 {
            salt,
            iterations,
            arcs,
        } => {
            let (arcs, met) = arcs.with_met(alloc, item)?;
            let spans = ChainSpans::Nsec3 {
                salt: salt.copy(alloc)?,
                iterations: *iterations,
                arcs,
            };
            Ok((spans, met))
        }
    }
}

fn spans_without(
    alloc: Global,
    spans: &ChainSpans,
    item: &Record,
) -> Result<ChainSpans, OutOfMemory>
    requires kind { IsOfKind (kind_by spans.now) item.now }
    requires zone { AreOfOrigin zone_of name_mark (zone_of item.now) (records_by spans.now) }
    ensures kind { IfOk result (λ made. kind_by made ≡ kind_by spans.now) }
    ensures records { IfOk result (λ made. records_by made
        ≡ records_without (kind_by spans.now) item.now (records_by spans.now)) }
{
    match (spans, item) {
        (ChainSpans::Nsec(arcs), Record::Nsec(nsec)) => {
            Ok(ChainSpans::Nsec(arcs.without(alloc, &nsec.zone().name(), &nsec.owner().name())?))
        }
        (
            ChainSpans::Nsec3 {
                salt,
                iterations,
                arcs,
            },
            Record::Nsec3(nsec3),
        ) => Ok(ChainSpans::Nsec3 {
            salt: salt.copy(alloc)?,
            iterations: *iterations,
            arcs: arcs.without(alloc, NO_HASH, nsec3.hash())?,
        }),
        _ => unreachable!(),
    }
}
