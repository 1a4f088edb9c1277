//! Sets by search.
ghost use Rattle.std.specs.Prelude.{◌≡◌, ◌<◌, Some, IfSome, MatchOption};
ghost use Rattle.std.specs.Option.{option_copied};
ghost use Rattle.std.specs.Ordering.{is_le};
ghost use Rattle.record_store.specs.Ranks.{set_cmp};
ghost use Rattle.record_store.specs.Marks.{set_number};
ghost use Rattle.cache_meaning.specs.Zones.{as_set_at};
ghost use Rattle.zone_chains.specs.Zone.{IsChosen};
ghost use Rattle.record_store.specs.LookUp.{set_like, AreAllAbove, IsLastSet};
ghost use Rattle.dname.specs.declared.types.TheConstants.{CNAME_TYPE};

use crate::SetAndAlias;
use crate::marks::{owner_number, set_number, type_part};
use crate::sets::SetList;
use denial_records::{KeptSet, Record};
use dname::Name;
use dname::types::CNAME_TYPE;
use page_list::Last;
use std::cmp::Ordering;

/// The set of the zone at the owner name and type.
pub(crate) fn set_in<'s>(
    sets: &'s SetList,
    zone: &Name,
    owner: &Name,
    rtype: u16,
) -> Option<&'s KeptSet>
    ensures { IsChosen (as_set_at zone.now owner.now rtype) sets.now (option_copied result) }
{
    set_and_alias_in(sets, zone, owner, rtype).set
}

/// The same, and the CNAME set at the owner name where the one search tells of it: it is the first of the owner name's sets, so
/// that whatever comes next before such a set tells, unless it is another of them.
pub(crate) fn set_and_alias_in<'s>(
    sets: &'s SetList,
    zone: &Name,
    owner: &Name,
    rtype: u16,
) -> SetAndAlias<'s>
    ensures set { IsChosen (as_set_at zone.now owner.now rtype) sets.now
        (option_copied result.set) }
    ensures alias { IfSome result.alias (λ alias.
        IsChosen (as_set_at zone.now owner.now CNAME_TYPE) sets.now (option_copied alias)) }
{
    let least = owner_number(zone, owner);
    let number = least + type_part(rtype);
    let Some((mark, item)) = last_upto(sets, zone, owner, rtype, number) else {
        return SetAndAlias {
            set: None,
            alias: Some(None),
        };
    };
    // a record of another number is no such set, and isn't read
    if mark == number {
        return SetAndAlias {
            set: as_set_at(item, zone, owner, rtype),
            alias: None,
        };
    }
    SetAndAlias {
        set: None,
        alias: alias_by(item, mark, zone, owner, least),
    }
}

// The last record, with its number, that comes before such a set, whose number it is, or is one.
#[inline(always)]
fn last_upto<'s>(
    sets: &'s SetList,
    zone: &Name,
    owner: &Name,
    rtype: u16,
    number: u64,
) -> Option<(u64, &'s Record)>
    requires { number ≡ set_number zone.now owner.now rtype }
    ensures { MatchOption result (AreAllAbove sets.now (set_like zone.now owner.now rtype))
        (λ last. IsLastSet sets.now (set_like zone.now owner.now rtype) last.0 last.1.now) }
{
    match sets.last_at(number, |item| is_upto(item, zone, owner, rtype, number)) {
        Some(Last { mark, share, .. }) => Some((mark, share)),
        None => None,
    }
}

// What the last record tells of the CNAME set at the owner name: that there is none, where it comes before all sets of the name, or
// which it is. A record of another number isn't read.
fn alias_by<'r>(
    item: &'r Record,
    mark: u64,
    zone: &Name,
    owner: &Name,
    least: u64,
) -> Option<Option<&'r KeptSet>>
    ensures { IfSome result (λ alias. MatchOption alias (mark < least)
        (λ set. as_set_at zone.now owner.now CNAME_TYPE item.now ≡ Some set.now)) }
{
    if mark < least {
        return Some(None);
    }
    if mark == least {
        let alias = as_set_at(item, zone, owner, CNAME_TYPE)?;
        return Some(Some(alias));
    }
    None
}

// Whether the record comes before such a set, whose number it is, or is one.
fn is_upto(item: &Record, zone: &Name, owner: &Name, rtype: u16, number: u64) -> bool
    requires { number ≡ set_number zone.now owner.now rtype }
    ensures { result ≡ is_le (set_cmp item.now (set_like zone.now owner.now rtype)) }
{
    match item {
        Record::Set(set) => set_is_upto(set, zone, owner, rtype, number),
        _ => 0 < number,
    }
}

fn set_is_upto(set: &KeptSet, zone: &Name, owner: &Name, rtype: u16, number: u64) -> bool
    requires { number ≡ set_number zone.now owner.now rtype }
    ensures { result ≡ is_le (set_cmp (Record.Set set.now) (set_like zone.now owner.now rtype)) }
{
    let by_key = set.zone().cmp(&zone.lent()).then_with(|| set
        .owner()
        .cmp(&owner.lent())
        .then(set.rtype().cmp(&rtype)));
    match by_key {
        // sets of one key have one number
        Ordering::Equal => true,
        _ => set_number(&set.zone().name(), &set.owner().name(), set.rtype())
            .cmp(&number)
            .then(by_key)
            .is_le(),
    }
}

#[inline(always)]
fn as_set_at<'r>(item: &'r Record, zone: &Name, owner: &Name, rtype: u16) -> Option<&'r KeptSet>
    ensures { option_copied result ≡ as_set_at zone.now owner.now rtype item.now }
{
    match item {
        Record::Set(set)
            if set.zone() == zone.lent() && set.owner() == owner.lent() && set.rtype() == rtype => {
            Some(set)
        }
        _ => None,
    }
}
