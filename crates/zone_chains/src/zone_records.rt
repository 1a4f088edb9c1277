//! The denial records of one zone.
ghost use Rattle.std.specs.Prelude.{◌≡◌, ◌≢◌, ◌↔◌, ◌⊎◌, ◌≤◌, ◌+◌, [], ◌∷◌, length, map, filter, not, false, true, None, Some, slice_get, MatchOption, IfSome, IfOk, IsTrue, is_some};
ghost use Rattle.std.specs.Arc.{arc_value};
ghost use Rattle.std.specs.List.{Contains, list_any};
ghost use Rattle.std.specs.Option.{option_map};
ghost use Rattle.std.specs.Str.{bytes_eq};
ghost use Rattle.denial_records.specs.declared.record.Record.{Record};
ghost use Rattle.cache_meaning.specs.Held.{chain_of, is_of_chain, displaces};
ghost use Rattle.cache_meaning.specs.Zones.{as_nsec_at, as_nsec3_at, IsInArc};
ghost use Rattle.cache_meaning.specs.Evidence.{nsec_matches};
ghost use Rattle.cache_meaning.specs.Lent.{lent_chain, parameters_by, place_by};
ghost use Rattle.nsec3_hash.specs.IteratedHash.{hash_of};
ghost use Rattle.zone_chains.specs.Zone.{chains_in, records_in, IsOneZone, IsChosen, IsDenialOf, is_new_to, chains_with, third_for, DisplacesAt, is_of, has_records};
ghost use Rattle.zone_chains.specs.Views.{AreChains};

use crate::chain_records::ChainRecords;
use crate::changes::{chains_held, chains_with, chains_without};
use crate::zone_chains::ZoneChains;
use cache_meaning::{Chain, Place};
use denial_records::{HASH_OCTETS, KeptNsec, KeptNsec3, Record};
use dname::{Name, OutOfMemory};
use range_index::Met;
use std::alloc::Global;
use std::marker::Model;
use std::sync::Arc;

/// The denial records of one zone, seen as its apex and its chains with their records, the newest first. It has two chains
/// at most. A change makes another value, which shares with it what it doesn't touch.
#[derive(Drop)]
pub struct ZoneRecords {
    apex: Name,
    chains: ZoneChains,
}

impl Model for ZoneRecords {
    ghost use Rattle.zone_chains.specs.Zone.{OneZone};
    ghost use Rattle.zone_chains.specs.Views.{AreChains};
    ghost use Rattle.zone_chains.specs.Chains.{zone_by, chains_by};

    ghost Value = { OneZone };

    ghost view = { λ z. zone_by z.apex z.chains };

    ghost invariant = { λ z. AreChains z.apex (chains_by z.chains) };
}

impl ZoneRecords {
    /// A zone without chains. It takes no memory.
    pub fn of(apex: Name) -> ZoneRecords
        ensures apex { result.apex ≡ apex }
        ensures chains { result.chains ≡ [] }
    {
        ZoneRecords {
            apex,
            chains: ZoneChains::Bare,
        }
    }

    /// The zone's apex. Its chains are of it, each of them is there once, each record is of its chain, and none displaces
    /// another.
    pub fn apex(&self) -> &Name
        ensures apex { result.now ≡ self.now.apex }
        ensures zone { IsOneZone self.now }
    {
        &self.apex
    }

    /// Whether it has no chain.
    pub fn is_empty(&self) -> bool
        ensures { IsTrue result ↔ (self.now.chains ≡ []) }
    {
        match &self.chains {
            ZoneChains::Bare => true,
            _ => false,
        }
    }

    /// The chains, the newest first, and `Bare` where there is none.
    pub fn chains(&self) -> [Chain<'_>; 2]
        ensures first { map lent_chain result
            ≡ slice_get (map (λ each. each.chain) (chains_in self.now)) 0
            ∷ slice_get (map (λ each. each.chain) (chains_in self.now)) 1 ∷ [] }
        ensures all { length self.now.chains ≤ 2 }
    {
        match &self.chains {
            ZoneChains::Bare => [Chain::Bare, Chain::Bare],
            ZoneChains::One(only) => [only.chain(), Chain::Bare],
            ZoneChains::Two { newer, older } => [newer.chain(), older.chain()],
        }
    }

    /// The NSEC record whose arc, from its owner name to the next, has the name, and where in it (RFC 4034, section 4.1.1).
    pub fn nsec_at(&self, name: &Name) -> Option<(&KeptNsec, Place)>
        ensures record { IsChosen (as_nsec_at self.now.apex name.now) (records_in self.now)
            (option_map (λ found. found.0.now) result) }
        ensures place { IfSome result (λ found.
            found.1 ≡ place_by (nsec_matches found.0.now name.now)) }
        ensures arc { IfSome result (λ found. IsInArc name.now found.0.now) }
    {
        match &self.chains {
            ZoneChains::Bare => None,
            ZoneChains::One(only) => only.nsec_at(name),
            ZoneChains::Two { newer, older } => match newer.nsec_at(name) {
                Some(found) => Some(found),
                None => older.nsec_at(name),
            },
        }
    }

    /// The NSEC3 record of the chain of a salt and a number of iterations whose arc, from its hash to the next, has the hash,
    /// and where in it (RFC 5155, section 3.1.7).
    pub fn nsec3_at(
        &self,
        salt: &[u8],
        iterations: u16,
        hash: &[u8; HASH_OCTETS],
    ) -> Option<(&KeptNsec3, Place)>
        ensures record { IsChosen
            (as_nsec3_at self.now.apex (parameters_by salt.now iterations) hash.now)
            (records_in self.now) (option_map (λ found. found.0.now) result) }
        ensures place { IfSome result (λ found.
            found.1 ≡ place_by (bytes_eq found.0.now.hash hash.now)) }
    {
        match &self.chains {
            ZoneChains::Bare => None,
            ZoneChains::One(only) => only.nsec3_at(salt, iterations, hash),
            ZoneChains::Two { newer, older } => match newer.nsec3_at(salt, iterations, hash) {
                Some(found) => Some(found),
                None => older.nsec3_at(salt, iterations, hash),
            },
        }
    }

    /// The hash of a name by a salt and a number of iterations, where a chain keeps it: of the apex and of the wildcard below it,
    /// for the chain's own salt and number. It saves time, and nothing else rests on it.
    pub fn kept_hash(&self, name: &Name, salt: &[u8], iterations: u16) -> Option<&[u8; HASH_OCTETS]>
        ensures { IfSome result (λ hash. hash.now ≡ hash_of name.now salt.now iterations) }
    {
        match &self.chains {
            ZoneChains::Bare => None,
            ZoneChains::One(only) => only.kept_hash(name, salt, iterations),
            ZoneChains::Two { newer, older } => match newer.kept_hash(name, salt, iterations) {
                Some(hash) => Some(hash),
                None => older.kept_hash(name, salt, iterations),
            },
        }
    }

    /// Whether the record's chain isn't among the zone's.
    pub fn is_new(&self, item: &Record) -> bool
        ensures { result ≡ is_new_to (chains_in self.now) (chain_of item.now) }
    {
        match item {
            Record::Set(_) => false,
            _ => self.chain_for(item).is_none(),
        }
    }

    // The chain that the record is of.
    fn chain_for(&self, item: &Record) -> Option<&ChainRecords>
        ensures { is_some result
            ≡ list_any (λ chain. is_of_chain chain item.now) (chains_in self.now) }
    {
        match &self.chains {
            ZoneChains::One(only) if only.is_of(item) => Some(only),
            ZoneChains::Two { newer, .. } if newer.is_of(item) => Some(newer),
            ZoneChains::Two { older, .. } if older.is_of(item) => Some(older),
            _ => None,
        }
    }

    /// The chain that goes where the record comes: the older of two, where the record's own is a third.
    pub fn third_for(&self, item: &Record) -> Option<&ChainRecords>
        ensures chain { option_map (λ chain. chain.now.chain) result
            ≡ third_for (chains_in self.now) (chain_of item.now) }
        ensures held { IfSome result (λ chain. Contains self.now.chains chain.now) }
    {
        match &self.chains {
            ZoneChains::Two { older, .. } if self.is_new(item) => Some(older),
            _ => None,
        }
    }

    /// With the record in its chain, in the place of those that it displaces. A new chain comes first, and a third one goes with
    /// its records. Beside it the chain that the record joined, as it was, and the places there of those that it displaces; none
    /// where the zone didn't have the chain.
    pub fn with(
        &self,
        alloc: Global,
        item: Arc<Record>,
    ) -> Result<(ZoneRecords, Option<(&ChainRecords, Met)>), OutOfMemory>
        requires { IsDenialOf self.now.apex (arc_value item) }
        ensures apex { IfOk result (λ made. made.0.apex ≡ self.now.apex) }
        ensures chains { IfOk result (λ made.
            chains_in made.0 ≡ chains_with (chains_in self.now) (chain_of (arc_value item))) }
        ensures records { IfOk result (λ made. (each : Record)
            → Contains (records_in made.0) each
            ↔ ((each ≡ arc_value item) ⊎ (Contains (records_in self.now) each
            × (displaces (arc_value item) each ≡ false)
            × (is_of (third_for (chains_in self.now) (chain_of (arc_value item))) each
            ≡ false)))) }
        ensures met { IfOk result (λ made. MatchOption made.1
            ((old : Record) → Contains (records_in self.now) old
            → displaces (arc_value item) old ≡ false)
            (λ met. DisplacesAt (arc_value item) self.now met.0.now
            met.1.from met.1.to met.1.last)) }
        ensures whole { IfOk result (λ made. IsOneZone made.0) }
    {
        let (chains, met) = chains_with(alloc, &self.chains, item)?;
        let made = ZoneRecords {
            apex: self.apex.copy(),
            chains,
        };
        Ok((made, met))
    }

    /// Without a record that it has. The record's chain stays, also where it was its last.
    pub fn without(&self, alloc: Global, item: &Record) -> Result<ZoneRecords, OutOfMemory>
        requires { Contains (records_in self.now) item.now }
        ensures apex { IfOk result (λ made. made.apex ≡ self.now.apex) }
        ensures chains { IfOk result (λ made. chains_in made ≡ chains_in self.now) }
        ensures records { IfOk result (λ made. (each : Record) → Contains (records_in made) each
            ↔ (Contains (records_in self.now) each × (each ≢ item.now))) }
        ensures count { IfOk result (λ made.
            length (records_in made) + 1 ≡ length (records_in self.now)) }
        ensures whole { IfOk result (λ made. IsOneZone made) }
    {
        let chains = chains_without(alloc, &self.chains, item)?;
        Ok(ZoneRecords {
            apex: self.apex.copy(),
            chains,
        })
    }

    /// Without the chains that have no record. Want of memory where a chain can have no further owner.
    pub fn without_empty(&self) -> Result<ZoneRecords, OutOfMemory>
        ensures apex { IfOk result (λ made. made.apex ≡ self.now.apex) }
        ensures chains { IfOk result (λ made.
            made.chains ≡ filter has_records self.now.chains) }
        ensures whole { IfOk result (λ made. IsOneZone made) }
    {
        let chains = chains_held(&self.chains)?;
        Ok(ZoneRecords {
            apex: self.apex.copy(),
            chains,
        })
    }
}
