ghost use Rattle.std.specs.Prelude.{◌≡◌, IfSome};
ghost use Rattle.std.specs.Option.{option_map, option_copied};
ghost use Rattle.cache_meaning.specs.Zones.{IsInArc, zone_in, as_set_at, as_nsec_at, as_nsec3_at};
ghost use Rattle.cache_meaning.specs.Lent.{lent_chain, place_by, parameters_by};

use crate::held_chain::HeldChain;
use crate::held_records::chain_at;
use crate::{Chain, HeldZone, Place, PlainStore};
use denial_records::{HASH_OCTETS, KeptNsec, KeptNsec3, KeptSet, Record};
use dname::{Name, arc_has};
use std::alloc::Global;
use std::marker::Model;
use std::sync::Arc;

/// A zone of which a store holds a record. What it lends lives as long as the store. A record that has expired is lent too.
#[derive(Drop)]
pub struct PlainZone<'a> {
    store: &'a PlainStore,
    apex: Name,
}

impl<'a> Model for PlainZone<'a> {
    ghost use Rattle.cache_meaning.specs.Zones.{HeldZone, zone_in};

    ghost Value = { HeldZone };

    ghost view = { λ z. zone_in z.store.now z.apex };
}

impl<'a> HeldZone<'a> for PlainZone<'a> {
    ghost zone = { λ z. z };

    fn apex(&self) -> &Name {
        &self.apex
    }

    fn chains(&self) -> [Chain<'a>; 2] {
        let chains = self.store.chains();
        [
            lent(chain_at(chains, &self.apex, 0)),
            lent(chain_at(chains, &self.apex, 1)),
        ]
    }

    fn set_at(&self, owner: &Name, rtype: u16) -> Option<&'a KeptSet> {
        for item in self.store.records() {
            if let Some(set) = as_set_at(item, &self.apex, owner, rtype) {
                return Some(set);
            }
        }
        None
    }

    fn nsec_at(&self, name: &Name) -> Option<(&'a KeptNsec, Place)> {
        for item in self.store.records() {
            if let Some(nsec) = as_nsec_at(item, &self.apex, name) {
                return Some((nsec, place_by(nsec.owner() == name.lent())));
            }
        }
        None
    }

    fn nsec3_at(
        &self,
        salt: &[u8],
        iterations: u16,
        hash: &[u8; HASH_OCTETS],
    ) -> Option<(&'a KeptNsec3, Place)> {
        for item in self.store.records() {
            if let Some(nsec3) = as_nsec3_at(item, &self.apex, salt, iterations, hash) {
                return Some((nsec3, place_by(*nsec3.hash() == *hash)));
            }
        }
        None
    }

    fn kept_hash(
        &self,
        _name: &Name,
        _salt: &[u8],
        _iterations: u16,
    ) -> Option<&'a [u8; HASH_OCTETS]> {
        None
    }
}

/// The zone of the store at the apex.
pub(crate) fn zone_in(store: &PlainStore, apex: Name) -> PlainZone<'_>
    ensures { result ≡ zone_in store.now apex }
{
    PlainZone { store, apex }
}

fn lent<'c>(chain: Option<&'c HeldChain>) -> Chain<'c>
    ensures { lent_chain result ≡ option_map (λ chain. chain.now.chain) chain.entry }
{
    match chain {
        Some(chain) => chain.chain(),
        None => Chain::Bare,
    }
}

fn place_by(matches: bool) -> Place
    ensures { result ≡ place_by matches }
{
    if matches { Place::Start } else { Place::Inside }
}

fn as_set_at<'r>(item: &'r Record, zone: &Name, owner: &Name, rtype: u16) -> Option<&'r KeptSet>
    ensures { option_copied result ≡ as_set_at zone.now owner.now rtype item.now }
{
    match item {
        Record::Set(set)
            if set.zone() == zone.lent() && set.owner() == owner.lent() && set.rtype() == rtype => {
            Some(set)
        }
        _ => None,
    }
}

fn as_nsec_at<'r>(item: &'r Record, zone: &Name, name: &Name) -> Option<&'r KeptNsec>
    ensures record { option_copied result ≡ as_nsec_at zone.now name.now item.now }
    ensures arc { IfSome result (λ nsec. IsInArc name.now nsec.now) }
{
    match item {
        Record::Nsec(nsec)
            if nsec.zone() == zone.lent() && arc_has(&nsec.owner(), &nsec.next(), &name.lent()) => {
            Some(nsec)
        }
        _ => None,
    }
}

fn as_nsec3_at<'r>(
    item: &'r Record,
    zone: &Name,
    salt: &[u8],
    iterations: u16,
    hash: &[u8; HASH_OCTETS],
) -> Option<&'r KeptNsec3>
    ensures { option_copied result
        ≡ as_nsec3_at zone.now (parameters_by salt.now iterations) hash.now item.now }
{
    match item {
        Record::Nsec3(nsec3)
            if nsec3.zone() == zone.lent()
                && (nsec3.salt() == salt && nsec3.iterations() == iterations)
                && arc_has(nsec3.hash(), nsec3.next(), hash) => { Some(nsec3) }
        _ => None,
    }
}
