ghost use Rattle.std.specs.Prelude.{◌≡◌, ◌≤◌, [], ◌∷◌, ◌++◌, List, length, IfOk, OnOk, None};
ghost use Rattle.intake.specs.Pile.{IsTable, HasPlaces, place_of, has_key, begun, key_of, with_record, signed};

use crate::key::{Key, LentKey};
use crate::pile::{Pile, counted_ttl};
use dname::{Octets, OctetsList, OutOfMemory};
use dnswire::Rr;
use std::alloc::Global;
use std::collections::BTreeMap;

/// So many piles are searched one after the other, and need no map.
pub(crate) const FEW: usize = 8;

/// The piles of a message's records in order of first appearance, and where they are more than few the place of each by
/// its key.
#[derive(Drop)]
pub(crate) struct Table {
    pub(crate) piles: Vec<Pile>,
    pub(crate) places: BTreeMap<Key, usize>,
}

impl Table {
    /// With room for so many piles.
    pub(crate) fn new(alloc: Global, room: usize) -> Result<Table, OutOfMemory>
        ensures table { IfOk result IsTable }
        ensures piles { IfOk result (λ table. table.piles.items ≡ []) }
    {
        Ok(Table {
            piles: Vec::with_capacity(alloc, room)?,
            places: BTreeMap::new(alloc),
        })
    }

    /// Takes in a record that is no RRSIG.
    pub(crate) fn add(&mut self, alloc: Global, rr: Rr) -> Result<(), OutOfMemory>
        requires { IsTable self.old }
        ensures table { OnOk result (IsTable self.new) }
        ensures piles { OnOk result (self.new.piles.items ≡ with_record self.old.piles.items rr) }
    {
        let place = self.place(&key_of(&rr));
        match place {
            Some(at) => self.piles[at].join(rr.ttl, rr.octets),
            None => self.begin(alloc, rr),
        }
    }

    /// Takes in the data of a signature for the pile of that key. Without one it is dropped.
    pub(crate) fn sign(&mut self, key: &Key, octets: Octets) -> Result<(), OutOfMemory>
        requires { IsTable self.old }
        ensures table { OnOk result (IsTable self.new) }
        ensures piles { OnOk result (self.new.piles.items
            ≡ signed key.now octets self.old.piles.items) }
    {
        match self.place(&key.lent()) {
            Some(at) => self.piles[at].sign(octets),
            None => Ok(()),
        }
    }

    // The place of the key's pile.
    fn place(&self, key: &LentKey<'_>) -> Option<usize>
        requires { IsTable self.now }
        ensures { result ≡ place_of (has_key key.now) self.now.piles.items }
    {
        if self.piles.len() <= FEW {
            first_of(self.piles.as_slice(), key)
        } else {
            self.places.get(&key.owned()).copied()
        }
    }

    // Begins a pile with the first record of its key.
    fn begin(&mut self, alloc: Global, rr: Rr) -> Result<(), OutOfMemory>
        requires table { IsTable self.old }
        requires new { place_of (has_key (key_of rr)) self.old.piles.items ≡ None }
        ensures table { OnOk result (IsTable self.new) }
        ensures piles { OnOk result (self.new.piles.items ≡ self.old.piles.items
            ++ begun (key_of rr) rr.ttl rr.octets ∷ []) }
    {
        let mut items = OctetsList::empty(alloc);
        items.push(rr.octets)?;
        let pile = Pile {
            owner: rr.owner,
            class: rr.class,
            rtype: rr.rtype,
            ttl: counted_ttl(rr.ttl),
            items,
            signatures: OctetsList::empty(alloc),
        };
        if self.piles.len() >= FEW {
            self.make_places(alloc)?;
            self.places.insert(pile.key(), self.piles.len())?;
        }
        self.piles.push(pile)?;
        Ok(())
    }

    // Makes the map of the few, before there are more.
    fn make_places(&mut self, alloc: Global) -> Result<(), OutOfMemory>
        requires table { IsTable self.old }
        requires all { 8 ≤ length self.old.piles.items }
        ensures piles { OnOk result (self.new.piles.items ≡ self.old.piles.items) }
        ensures places { OnOk result (HasPlaces self.new.places self.old.piles.items) }
    {
        if self.piles.len() == FEW {
            self.places = places_of(alloc, self.piles.as_slice())?;
        }
        Ok(())
    }
}

fn key_of(rr: &Rr) -> LentKey<'_>
    ensures { result ≡ key_of rr.now }
{
    LentKey {
        owner: rr.owner.name(),
        class: rr.class,
        rtype: rr.rtype,
    }
}

// The place of the first pile of that key.
fn first_of(piles: &[Pile], key: &LentKey<'_>) -> Option<usize>
    ensures { result ≡ place_of (has_key key.now) piles.now }
{
    for at in 0..piles.len() {
        if piles[at].has(key) {
            return Some(at);
        }
    }
    None
}

// The place of each pile by its key.
fn places_of(alloc: Global, piles: &[Pile]) -> Result<BTreeMap<Key, usize>, OutOfMemory>
    ensures { IfOk result (λ places. HasPlaces places piles.now) }
{
    let mut places = BTreeMap::new(alloc);
    for at in 0..piles.len() {
        enter(&mut places, &piles[at], at)?;
    }
    Ok(places)
}

// Enters the pile that comes behind so many, unless one of these has its key.
fn enter(places: &mut BTreeMap<Key, usize>, pile: &Pile, at: usize) -> Result<(), OutOfMemory>
    ensures { OnOk result ((piles : List Pile) → at ≡ length piles → HasPlaces places.old piles
        → HasPlaces places.new (piles ++ pile.now ∷ [])) }
{
    let key = pile.key();
    match places.get(&key).copied() {
        Some(_) => Ok(()),
        None => {
            places.insert(key, at)?;
            Ok(())
        }
    }
}
