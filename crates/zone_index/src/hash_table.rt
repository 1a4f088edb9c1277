ghost use Rattle.std.specs.Prelude.{◌≡◌, ◌≢◌, ◌≤◌, ◌<◌, ◌↔◌, ◌⊎◌, ◌-◌, length, take, drop, true, false, IsTrue, IfOk, OnOk};
ghost use Rattle.std.specs.List.{Any, Contains};
ghost use Rattle.std.specs.List.Sorted.{IsPartitionPoint};
ghost use Rattle.std.specs.Ordering.{is_lt, is_le};
ghost use Rattle.dname.specs.Arc.{IsInside};
ghost use Rattle.dname.specs.Name.{IsUnder};
ghost use Rattle.nsec3_hash.specs.IteratedHash.{hash_of};
ghost use Rattle.zone_meaning.specs.Hashed.{hash_cmp};
ghost use Rattle.zone_meaning.specs.Zone.{Exists};
ghost use Rattle.zone_index.specs.Hashes.{IsNamed, HaveHashes, AreByHash, IsTableOf, HasClash, AreKnown};
ghost use Rattle.zone_index.specs.Live.{AreLive};
ghost use Rattle.zone_index.specs.declared.hash_table.HashedName.{HashedName};

use crate::live_names::next_place;
use crate::{LiveNames, ZoneIndex};
use dname::{LentName, Name, Octets, OutOfMemory, arc_has};
use nsec3_hash::hash_name;
use std::alloc::Global;
use std::cmp::Ordering;

/// A name that exists in the zone, and its hash.
#[derive(Drop)]
pub(crate) struct HashedName<'a> {
    pub(crate) hash: [u8; 20],
    pub(crate) name: LentName<'a>,
}

/// The names that exist in a zone, in the order of their hashes by one salt and number of iterations.
#[derive(Drop)]
pub(crate) struct HashTable<'a> {
    pub(crate) salt: Octets,
    pub(crate) iterations: u16,
    pub(crate) names: Vec<HashedName<'a>>,
}

impl<'a> HashTable<'a> {
    /// The table of the zone's names. Each name is hashed once.
    pub(crate) fn of(
        alloc: Global,
        zone: &ZoneIndex,
        live: &LiveNames<'a>,
        salt: &[u8],
        iterations: u16,
    ) -> Result<HashTable<'a>, OutOfMemory>
        requires { AreLive zone.now live.now }
        ensures { IfOk result (IsTableOf zone.now salt.now iterations) }
    {
        let mut names = hashed_names(alloc, zone, live, salt, iterations)?;
        names.sort_by(|one, other| order(one, other))?;
        Ok(HashTable {
            salt: Octets::of(alloc, salt)?,
            iterations,
            names,
        })
    }

    /// The names with this hash.
    pub(crate) fn run_of(&self, hash: &[u8; 20]) -> &[HashedName<'a>]
        requires { AreByHash self.now.names.items }
        ensures { (e : HashedName) → Contains result.now e
            ↔ (Contains self.now.names.items e × (e.hash ≡ hash.now)) }
    {
        run_in(self.names.as_slice(), hash)
    }

    /// Whether a name of the table has the hash of this one and is another.
    pub(crate) fn has_clash(&self, name: &Name) -> bool
        requires { AreByHash self.now.names.items }
        ensures { IsTrue result ↔ HasClash self.now name.now }
    {
        let hash = hash_name(name, self.salt.as_slice(), self.iterations);
        any_other(self.run_of(&hash), name)
    }

    /// Whether no hash of the table is inside the arc from one hash to another.
    pub(crate) fn none_inside(&self, start: &[u8; 20], end: &[u8; 20]) -> bool
        requires { AreByHash self.now.names.items }
        ensures { IsTrue result ↔ ((e : HashedName) → Contains self.now.names.items e
            → IsInside hash_cmp start.now end.now e.hash → ⊥) }
    {
        none_inside(self.names.as_slice(), start, end)
    }
}

// How many names have a lesser hash.
fn place_before(names: &[HashedName<'_>], hash: &[u8; 20]) -> usize
    requires { AreByHash names.now }
    ensures bound { result ≤ length names.now }
    ensures point { IsPartitionPoint (λ e. is_lt (hash_cmp e.hash hash.now) ≡ true)
        (λ e. is_lt (hash_cmp e.hash hash.now) ≡ false) names.now result }
{
    names.partition_point(|other| other.hash.cmp(hash).is_lt())
}

// How many names have this hash or a lesser one.
fn place_behind(names: &[HashedName<'_>], hash: &[u8; 20]) -> usize
    requires { AreByHash names.now }
    ensures bound { result ≤ length names.now }
    ensures point { IsPartitionPoint (λ e. is_le (hash_cmp e.hash hash.now) ≡ true)
        (λ e. is_le (hash_cmp e.hash hash.now) ≡ false) names.now result }
{
    names.partition_point(|other| other.hash.cmp(hash).is_le())
}

// The names with this hash.
fn run_in<'b, 'a>(names: &'b [HashedName<'a>], hash: &[u8; 20]) -> &'b [HashedName<'a>]
    requires { AreByHash names.now }
    ensures { (e : HashedName) → Contains result.now e
        ↔ (Contains names.now e × (e.hash ≡ hash.now)) }
{
    let from = place_before(names, hash);
    let upto = place_behind(names, hash);
    between(names, from, upto)
}

// Whether no hash of the names is inside the arc from one hash to another.
fn none_inside(names: &[HashedName<'_>], start: &[u8; 20], end: &[u8; 20]) -> bool
    requires { AreByHash names.now }
    ensures { IsTrue result ↔ ((e : HashedName) → Contains names.now e
        → IsInside hash_cmp start.now end.now e.hash → ⊥) }
{
    if names.is_empty() {
        return true;
    }
    let at = next_place(place_behind(names, start), names.len());
    let next = &names[at].hash;
    let same = *next == *start;
    let has = arc_has(start, end, next);
    same || !has
}

fn order(one: &HashedName<'_>, other: &HashedName<'_>) -> Ordering
    ensures { result ≡ hash_cmp one.now.hash other.now.hash }
{
    one.hash.cmp(&other.hash)
}

fn between<'b, 'a>(names: &'b [HashedName<'a>], from: usize, upto: usize) -> &'b [HashedName<'a>]
    requires order { from ≤ upto }
    requires within { upto ≤ length names.now }
    ensures { result.now ≡ take (upto - from) (drop from names.now) }
{
    names.split_at(upto).0.split_at(from).1
}

// Whether one of the names isn't this one.
fn any_other(names: &[HashedName<'_>], name: &Name) -> bool
    ensures { IsTrue result ↔ Any (λ e. e.name ≢ name.now) names.now }
{
    let name = name.lent();
    names.iter().any(|other| is_other(&other.name, &name))
}

fn is_other(name: &LentName<'_>, other: &LentName<'_>) -> bool
    ensures { IsTrue result ↔ (name.now ≢ other.now) }
{
    let same = *name == *other;
    !same
}

// The names that exist, each once, with their hashes: of each live name itself and those above it that aren't above the
// live name before it.
fn hashed_names<'a>(
    alloc: Global,
    zone: &ZoneIndex,
    live: &LiveNames<'a>,
    salt: &[u8],
    iterations: u16,
) -> Result<Vec<HashedName<'a>>, OutOfMemory>
    requires { AreLive zone.now live.now }
    ensures named { IfOk result (λ names. (name : _) → IsNamed names.items name
        ↔ Exists zone.now name) }
    ensures hashed { IfOk result (λ names. HaveHashes salt.now iterations names.items) }
{
    let mut names = Vec::new(alloc);
    let apex = zone.apex().labels();
    for at in 0..live.len() {
        let from = first_new(apex, live, at);
        push_ancestors(&mut names, live.get(at), from, salt, iterations)?;
    }
    Ok(names)
}

// With how few labels an ancestor of the live name at a place may not be one of the live name before it.
fn first_new(apex: usize, live: &LiveNames<'_>, at: usize) -> usize
    requires { at < length live.now }
    ensures least { apex ≤ result }
    ensures known { AreKnown live.now at apex result }
{
    if at == 0 {
        return apex;
    }
    let known = live.get(at).common(live.get(at - 1)).name().labels() + 1;
    if known < apex { apex } else { known }
}

// Puts the name's ancestors with so many labels or more behind the names.
fn push_ancestors<'a>(
    names: &mut Vec<HashedName<'a>>,
    name: &LentName<'a>,
    from: usize,
    salt: &[u8],
    iterations: u16,
) -> Result<(), OutOfMemory>
    ensures named { OnOk result ((other : _) → IsNamed names.new.items other
        ↔ (IsNamed names.old.items other ⊎ (IsUnder name.now other × (from ≤ length other)))) }
    ensures hashed { OnOk result (HaveHashes salt.now iterations names.old.items
        → HaveHashes salt.now iterations names.new.items) }
{
    let whole = name.name();
    for labels in from..whole.labels() + 1 {
        let other = whole.last(labels);
        let hash = hash_name(&other, salt, iterations);
        let name = name.common(&other.lent());
        names.push(HashedName { hash, name })?;
    }
    Ok(())
}
