//! Whether kept records are true of a zone.
ghost use Rattle.std.specs.Prelude.{◌≡◌, ◌<◌, ◌≤◌, ◌∷◌, ◌↔◌, true, false, length, map, get_or, IsTrue, IfOk};
ghost use Rattle.std.specs.List.{All, Any, Contains};
ghost use Rattle.std.specs.List.Sorted.{IsSorted, IsPartitionPoint};
ghost use Rattle.std.specs.Ordering.{nat_cmp, is_le};
ghost use Rattle.std.specs.Cmp.Lexicographic.{slice_cmp};
ghost use Rattle.dname.specs.Name.{IsUnder, asterisk};
ghost use Rattle.dname.specs.declared.types.TheConstants.{DS_TYPE};
ghost use Rattle.nsec3_hash.specs.IteratedHash.{hash_of};
ghost use Rattle.zone_meaning.specs.Zone.{IsBelow, IsCut};
ghost use Rattle.zone_meaning.specs.Consistent.{IsConsistentSet, IsConsistentNsec};
ghost use Rattle.zone_meaning.specs.Hashed.{IsConsistentNsec3, IsClashFree};
ghost use Rattle.soundness.specs.True.{set_part, nsec_part, nsec3_part};
ghost use Rattle.zone_index.specs.Hashes.{AreByHash, IsTableOf, HasTypes, HasNamed, Clashes};
ghost use Rattle.zone_index.specs.Entries.{AreOwners, AreRuns};
ghost use Rattle.zone_index.specs.Live.{AreLive};
ghost use Rattle.zone_index.specs.Truth.{HasJust, HasEach, HasSet, IsAmong, octets_cmp};

use crate::entry::Entry;
use crate::hash_table::{HashTable, HashedName};
use crate::owner_records::{OwnerRecords, is_apex};
use crate::type_bits::types_agree;
use crate::{LiveNames, ZoneIndex};
use denial_records::{KeptNsec, KeptNsec3, KeptSet, LentTypes};
use dname::types::DS_TYPE;
use dname::{LentName, Name, OutOfMemory, Packed};
use std::alloc::Global;

/// Whether the set is true of the zone.
pub(crate) fn is_true_set<'a>(
    alloc: Global,
    zone: &'a ZoneIndex,
    live: &LiveNames<'_>,
    runs: &[&'a [Entry]],
    set: &KeptSet,
) -> Result<bool, OutOfMemory>
    requires live { AreLive zone.now live.now }
    requires runs { AreRuns zone.now live.now runs.now }
    ensures { IfOk result (λ is. IsTrue is ↔ IsConsistentSet zone.now (set_part set.now)) }
{
    let top = set.zone();
    let owner = set.owner();
    let is = is_set_of(alloc, zone, live, runs, &top, &owner, set)?;
    Ok(is)
}

fn is_set_of<'a>(
    alloc: Global,
    zone: &'a ZoneIndex,
    live: &LiveNames<'_>,
    runs: &[&'a [Entry]],
    top: &LentName<'_>,
    owner: &LentName<'_>,
    set: &KeptSet,
) -> Result<bool, OutOfMemory>
    requires live { AreLive zone.now live.now }
    requires runs { AreRuns zone.now live.now runs.now }
    ensures { IfOk result (λ is. IsTrue is ↔ IsConsistentSet zone.now (record {
      zone = top.now;
      owner = owner.now;
      rtype = set.now.rtype;
      items = set.now.items;
    })) }
{
    if !is_apex(zone, top) {
        return Ok(false);
    }
    let Some((at, _)) = live.places_of(owner) else {
        return Ok(false);
    };
    let is = has_set(alloc, &records_at(zone, runs, at, owner), set)?;
    Ok(is)
}

// The records of the live name at a place.
fn records_at<'a>(
    zone: &'a ZoneIndex,
    runs: &[&'a [Entry]],
    at: usize,
    name: &'a LentName<'a>,
) -> OwnerRecords<'a>
    requires within { at < length runs.now }
    requires owners { (e : _) → AreOwners zone.now name.now (get_or runs.now at e).now }
    ensures zone { result.zone ≡ zone.now }
    ensures name { result.name ≡ name.now }
{
    OwnerRecords::of(zone, name, runs[at])
}

// Whether the zone has just the set's data, and speaks for them.
fn has_set(alloc: Global, records: &OwnerRecords<'_>, set: &KeptSet) -> Result<bool, OutOfMemory>
    ensures { IfOk result (λ is. IsTrue is ↔ HasSet records.now.zone records.now.name
        set.now.rtype set.now.items) }
{
    if is_beyond(records, set.rtype()) {
        return Ok(false);
    }
    let just = has_just(alloc, records, set)?;
    Ok(just)
}

// Whether the name is a cut and the type another than DS, so that the zone doesn't speak for it.
fn is_beyond(records: &OwnerRecords<'_>, rtype: u16) -> bool
    ensures beyond { result ≡ true
        → (IsCut records.now.zone records.now.name → rtype ≡ DS_TYPE) → ⊥ }
    ensures within { result ≡ false
        → IsCut records.now.zone records.now.name → rtype ≡ DS_TYPE }
{
    if rtype == DS_TYPE {
        return false;
    }
    records.is_cut()
}

// Whether the data of the owner and type are just the set's, and there are some.
fn has_just(alloc: Global, records: &OwnerRecords<'_>, set: &KeptSet) -> Result<bool, OutOfMemory>
    ensures { IfOk result (λ is. IsTrue is ↔ HasJust records.now.zone records.now.name
        set.now.rtype set.now.items) }
{
    let just = has_just_items(alloc, records, set.rtype(), set.items())?;
    Ok(just)
}

fn has_just_items(
    alloc: Global,
    records: &OwnerRecords<'_>,
    rtype: u16,
    items: Packed<'_>,
) -> Result<bool, OutOfMemory>
    ensures { IfOk result (λ is. IsTrue is ↔ HasJust records.now.zone records.now.name
        rtype items.entry) }
{
    if items.is_empty() {
        return Ok(false);
    }
    if !are_there(records, rtype, items.again()) {
        return Ok(false);
    }
    let list = sorted(alloc, items)?;
    let run = records.of_type(rtype);
    Ok(are_among(run, list.as_slice()))
}

// Whether the zone has each of the data.
fn are_there(records: &OwnerRecords<'_>, rtype: u16, items: Packed<'_>) -> bool
    ensures { IsTrue result ↔ HasEach records.now.zone records.now.name rtype items.entry }
{
    let mut items = items;
    while let Some(item) = items.next() {
        if !records.has_data(rtype, item) {
            return false;
        }
    }
    true
}

// Whether the data of each entry is among the items.
fn are_among(entries: &[Entry], items: &[&[u8]]) -> bool
    requires { IsSorted octets_cmp items.now }
    ensures { IsTrue result ↔ All (λ e. IsAmong items.now e.octets) entries.now }
{
    for at in 0..entries.len() {
        if !is_among(&entries[at], items) {
            return false;
        }
    }
    true
}

fn is_among(entry: &Entry, items: &[&[u8]]) -> bool
    requires { IsSorted octets_cmp items.now }
    ensures { IsTrue result ↔ IsAmong items.now entry.now.octets }
{
    has_item(items, entry.octets.as_slice())
}

fn has_item(items: &[&[u8]], octets: &[u8]) -> bool
    requires { IsSorted octets_cmp items.now }
    ensures { IsTrue result ↔ IsAmong items.now octets.now }
{
    let upto = item_place(items, octets);
    if upto == 0 {
        return false;
    }
    item_is(items, upto - 1, octets)
}

fn item_is(items: &[&[u8]], at: usize, octets: &[u8]) -> bool
    requires { at < length items.now }
    ensures { (d : _) → IsTrue result ↔ ((get_or items.now at d).now ≡ octets.now) }
{
    let item = items[at];
    item == octets
}

// How many items are the octets or before them.
fn item_place(items: &[&[u8]], octets: &[u8]) -> usize
    requires { IsSorted octets_cmp items.now }
    ensures bound { result ≤ length items.now }
    ensures point { IsPartitionPoint (λ item. is_le (slice_cmp nat_cmp item.now octets.now) ≡ true)
        (λ item. is_le (slice_cmp nat_cmp item.now octets.now) ≡ false) items.now result }
{
    items.partition_point(|item| is_upto(item, octets))
}

fn is_upto(item: &[u8], octets: &[u8]) -> bool
    ensures { result ≡ is_le (slice_cmp nat_cmp item.now octets.now) }
{
    item.cmp(octets).is_le()
}

// The items in their order.
fn sorted<'a>(alloc: Global, items: Packed<'a>) -> Result<Vec<&'a [u8]>, OutOfMemory>
    ensures same { IfOk result (λ sorted. (octets : _) → IsAmong sorted.items octets
        ↔ Contains items.entry octets) }
    ensures order { IfOk result (λ sorted. IsSorted octets_cmp sorted.items) }
{
    let mut list = listed(alloc, items)?;
    list.sort()?;
    Ok(list)
}

// The items one by one.
fn listed<'a>(alloc: Global, items: Packed<'a>) -> Result<Vec<&'a [u8]>, OutOfMemory>
    ensures { IfOk result (λ list. map (λ item. item.now) list.items ≡ items.entry) }
{
    let mut items = items;
    let mut list = Vec::new(alloc);
    while let Some(item) = items.next() {
        list.push(item)?;
    }
    Ok(list)
}

/// Whether the NSEC record is true of the zone.
pub(crate) fn is_true_nsec<'a>(
    zone: &'a ZoneIndex,
    live: &LiveNames<'_>,
    runs: &[&'a [Entry]],
    nsec: &KeptNsec,
) -> bool
    requires live { AreLive zone.now live.now }
    requires runs { AreRuns zone.now live.now runs.now }
    ensures { IsTrue result ↔ IsConsistentNsec zone.now (nsec_part nsec.now) }
{
    let top = nsec.zone();
    let owner = nsec.owner();
    let next = nsec.next();
    let types = nsec.types();
    is_nsec_of(zone, live, runs, &top, &owner, &next, &types)
}

fn is_nsec_of<'a>(
    zone: &'a ZoneIndex,
    live: &LiveNames<'_>,
    runs: &[&'a [Entry]],
    top: &LentName<'_>,
    owner: &LentName<'_>,
    next: &LentName<'_>,
    types: &LentTypes<'_>,
) -> bool
    requires live { AreLive zone.now live.now }
    requires runs { AreRuns zone.now live.now runs.now }
    ensures { IsTrue result ↔ IsConsistentNsec zone.now (record {
      zone = top.now;
      owner = owner.now;
      next = next.now;
      types = types.now;
    }) }
{
    if !is_apex(zone, top) {
        return false;
    }
    let Some((at, after)) = live.places_of(owner) else {
        return false;
    };
    let same = *live.get(after) == *next;
    if !same {
        return false;
    }
    types_agree(&records_at(zone, runs, at, owner), types)
}

/// Whether the NSEC3 record is true of the zone, of which the table has the names by the record's salt and iterations.
pub(crate) fn is_true_nsec3(zone: &ZoneIndex, table: &HashTable<'_>, nsec3: &KeptNsec3) -> bool
    requires { IsTableOf zone.now nsec3.now.salt nsec3.now.iterations table.now }
    ensures { IsTrue result ↔ IsConsistentNsec3 zone.now (nsec3_part nsec3.now) }
{
    if !is_apex(zone, &nsec3.zone()) {
        return false;
    }
    if !has_named(zone, table, nsec3) {
        return false;
    }
    if nsec3.opt_out() {
        return true;
    }
    table.none_inside(nsec3.hash(), nsec3.next())
}

// Whether a name of the zone has the record's hash and types.
fn has_named(zone: &ZoneIndex, table: &HashTable<'_>, nsec3: &KeptNsec3) -> bool
    requires { AreByHash table.now.names.items }
    ensures { IsTrue result ↔ HasNamed zone.now table.now nsec3.now.hash nsec3.now.types }
{
    any_agrees(zone, table.run_of(nsec3.hash()), &nsec3.types())
}

fn any_agrees(zone: &ZoneIndex, names: &[HashedName<'_>], types: &LentTypes<'_>) -> bool
    ensures { IsTrue result ↔ Any (λ e. HasTypes zone.now e.name types.now) names.now }
{
    names.iter().any(|name| agrees(zone, name, types))
}

fn agrees(zone: &ZoneIndex, name: &HashedName<'_>, types: &LentTypes<'_>) -> bool
    ensures { IsTrue result ↔ HasTypes zone.now name.now.name types.now }
{
    types_agree(&zone.records_of(&name.name), types)
}

/// Whether no name of the zone is taken by its hash for another of those that a question for the name turns on.
pub(crate) fn is_clash_free(zone: &ZoneIndex, table: &HashTable<'_>, name: &Name) -> bool
    requires { IsTableOf zone.now table.now.salt table.now.iterations table.now }
    ensures { IsTrue result ↔ IsClashFree zone.now
        (λ n. hash_of n table.now.salt table.now.iterations) name.now }
{
    let apex = zone.apex();
    if !name.is_under(apex) {
        return true;
    }
    for labels in apex.labels()..name.labels() + 1 {
        if clashes(table, name, &name.last(labels)) {
            return false;
        }
    }
    true
}

// Whether a name of the table is taken for this one at or above the other, or for the source of synthesis below it.
fn clashes(table: &HashTable<'_>, name: &Name, above: &Name) -> bool
    requires under { IsUnder name.now above.now }
    requires order { AreByHash table.now.names.items }
    ensures { IsTrue result ↔ Clashes table.now name.now above.now }
{
    if table.has_clash(above) {
        return true;
    }
    if *name == *above {
        return false;
    }
    table.has_clash(&wildcard_of(name, above))
}

// The wildcard below a name that another is below.
fn wildcard_of(name: &Name, encloser: &Name) -> Name
    requires { IsBelow name.now encloser.now }
    ensures { result ≡ asterisk ∷ encloser.now }
{
    let _wire = name.wire();
    match encloser.star() {
        Some(source) => source,
        None => unreachable!(),
    }
}
