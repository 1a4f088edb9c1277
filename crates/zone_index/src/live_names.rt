ghost use Rattle.std.specs.Prelude.{◌≡◌, ◌≤◌, ◌<◌, ◌↔◌, true, false, length, get_or, IfOk, IfSome, IfNone};
ghost use Rattle.std.specs.List.{Contains};
ghost use Rattle.std.specs.List.Sorted.{IsSorted, IsPartitionPoint};
ghost use Rattle.std.specs.Ordering.{is_le};
ghost use Rattle.dname.specs.Name.{canonical_cmp};
ghost use Rattle.zone_meaning.specs.Zone.{IsLive};
ghost use Rattle.zone_index.specs.Entries.{IsRepeated};
ghost use Rattle.zone_index.specs.Live.{AreLive, ArePlaces};
ghost use Rattle.zone_index.specs.declared.entry.Entry.{Entry};

use crate::ZoneIndex;
use crate::entry::Entry;
use dname::{LentName, OutOfMemory};
use std::alloc::Global;
use std::marker::Model;

/// The live names of a zone in canonical order, lent by it, and seen as their list.
#[derive(Drop)]
pub struct LiveNames<'a> {
    names: Vec<LentName<'a>>,
}

impl<'a> Model for LiveNames<'a> {
    ghost use Rattle.std.specs.Prelude.{List, ℕ};
    ghost use Rattle.std.specs.List.Sorted.{IsSorted};
    ghost use Rattle.dname.specs.Name.{canonical_cmp};

    ghost Value = { List (List (List ℕ)) };

    ghost view = { λ n. n.names.items };

    ghost invariant = { λ n. IsSorted canonical_cmp n.names.items };
}

impl<'a> LiveNames<'a> {
    /// The live names of the zone.
    pub fn of(alloc: Global, zone: &'a ZoneIndex) -> Result<LiveNames<'a>, OutOfMemory>
        ensures { IfOk result (AreLive zone.now) }
    {
        let mut names = live_owners(alloc, zone)?;
        names.sort()?;
        Ok(LiveNames { names })
    }

    /// How many they are.
    pub fn len(&self) -> usize
        ensures { result ≡ length self.now }
    {
        self.names.len()
    }

    /// The name at place `i`, counted from 0.
    pub fn get(&self, i: usize) -> &LentName<'a>
        requires { i < length self.now }
        ensures { (d : _) → result.now ≡ get_or self.now i d }
    {
        &self.names[i]
    }

    /// Where the name stands among them, and where the next of them does on the ring.
    pub(crate) fn places_of(&self, name: &LentName<'_>) -> Option<(usize, usize)>
        ensures some { IfSome result (λ places. ArePlaces self.now name.now places.0 places.1) }
        ensures none { IfNone result (Contains self.now name.now → ⊥) }
    {
        places_of(self.names(), name)
    }

    fn names(&self) -> &[LentName<'a>]
        ensures names { result.now ≡ self.now }
        ensures sorted { IsSorted canonical_cmp result.now }
    {
        self.names.as_slice()
    }
}

fn places_of(names: &[LentName<'_>], name: &LentName<'_>) -> Option<(usize, usize)>
    requires { IsSorted canonical_cmp names.now }
    ensures some { IfSome result (λ places. ArePlaces names.now name.now places.0 places.1) }
    ensures none { IfNone result (Contains names.now name.now → ⊥) }
{
    let upto = place_behind(names, name);
    if upto == 0 {
        return None;
    }
    let same = names[upto - 1] == *name;
    if !same {
        return None;
    }
    Some((upto - 1, next_place(upto, names.len())))
}

// How many of them are the name or before it.
fn place_behind(names: &[LentName<'_>], name: &LentName<'_>) -> usize
    requires { IsSorted canonical_cmp names.now }
    ensures bound { result ≤ length names.now }
    ensures point { IsPartitionPoint (λ n. is_le (canonical_cmp n name.now) ≡ true)
        (λ n. is_le (canonical_cmp n name.now) ≡ false) names.now result }
{
    names.partition_point(|other| other.cmp(name).is_le())
}

/// On the ring of a list of some length, the place after so many.
pub(crate) fn next_place(upto: usize, len: usize) -> usize
    requires some { 0 < len }
    requires bound { upto ≤ len }
    ensures next { upto < len → result ≡ upto }
    ensures first { len ≤ upto → result ≡ 0 }
{
    if upto < len { upto } else { 0 }
}

// The owner names that are live.
fn live_owners<'a>(alloc: Global, zone: &'a ZoneIndex) -> Result<Vec<LentName<'a>>, OutOfMemory>
    ensures { IfOk result (λ names. (name : _) → Contains names.items name ↔ IsLive zone.now name) }
{
    let mut names = Vec::new(alloc);
    let entries = zone.entries();
    for at in 0..entries.len() {
        if is_new(zone, entries, at) {
            names.push(entries[at].owner.name().lent())?;
        }
    }
    Ok(names)
}

// Whether the entry's owner is live, and not that of the entry before.
fn is_new(zone: &ZoneIndex, entries: &[Entry], at: usize) -> bool
    requires { at < length entries.now }
    ensures live { result ≡ true → (d : Entry) → IsLive zone.now (get_or entries.now at d).owner }
    ensures met { result ≡ false → (d : Entry)
        → IsLive zone.now (get_or entries.now at d).owner → IsRepeated entries.now at d }
{
    let owner = entries[at].owner.name();
    if is_repeated(entries, at) {
        return false;
    }
    zone.is_live(owner)
}

// Whether the entry before it has the same owner.
fn is_repeated(entries: &[Entry], at: usize) -> bool
    requires { at < length entries.now }
    ensures { result ≡ true → (d : Entry) → IsRepeated entries.now at d }
{
    at > 0 && *entries[at - 1].owner.name() == *entries[at].owner.name()
}
