ghost use Rattle.std.specs.Prelude.{◌≡◌, ◌≢◌, ◌<◌, ◌≤◌, ◌↔◌, ℕ, List, [], ◌∷◌, ◌++◌, length, slice_set, vec_len, true, false, IsTrue, IfSome, IfNone, OnOk, OnErr};
ghost use Rattle.std.specs.List.{Any, All, HoldsAt, Contains};
ghost use Rattle.std.specs.Ordering.{nat_cmp, is_gt};
ghost use Rattle.std.specs.Cmp.Lexicographic.{slice_cmp};
ghost use Rattle.dname.specs.Name.{Label, IsUnder};
ghost use Rattle.zone_meaning.specs.ZoneTable.{IsOf};

use dname::{Name, Octets, OctetsList, OutOfMemory};
use std::alloc::Global;

/// The data of one owner and type, in the order in which they came.
#[derive(Debug, Drop)]
pub(crate) struct Group {
    pub(crate) owner: Name,
    pub(crate) rtype: u16,
    pub(crate) items: OctetsList,
}

/// The place of the owner's group of the type.
pub(crate) fn place_of(groups: &[Group], owner: &Name, rtype: u16) -> Option<usize>
    ensures found { IfSome result (λ place. (place < length groups.now)
        × HoldsAt (λ group. IsOf group owner.now rtype) groups.now place) }
    ensures none { IfNone result (All (λ group. IsOf group owner.now rtype → ⊥) groups.now) }
{
    for (place, group) in groups.iter().enumerate() {
        if group.rtype == rtype && group.owner == *owner {
            return Some(place);
        }
    }
    None
}

/// Whether a group's owner is the name or below it.
pub(crate) fn any_under(groups: &[Group], name: &Name) -> bool
    ensures { IsTrue result ↔ Any (λ group. IsUnder group.owner name.now) groups.now }
{
    groups.iter().any(|group| group.owner.is_under(name))
}

/// The longest name that `name` is under, and the apex or a group's owner too.
pub(crate) fn nearest(groups: &[Group], apex: &Name, name: &Name) -> Name
    requires { IsUnder name.now apex.now }
    ensures above { IsUnder name.now result }
    ensures shared { (result ≢ apex.now)
        → Any (λ group. IsUnder group.owner result) groups.now }
    ensures longest { All (λ group. (other : List Label) → IsUnder name.now other
        → IsUnder group.owner other → IsUnder result other) groups.now }
{
    let mut nearest = apex.copy();
    for group in groups {
        nearest = longer(nearest, name.common(&group.owner));
    }
    nearest
}

fn longer(first: Name, second: Name) -> Name
    ensures first { length second ≤ length first → result ≡ first }
    ensures second { length first < length second → result ≡ second }
{
    if first.labels() < second.labels() {
        second
    } else {
        first
    }
}

/// The least of the items, octet by octet, a missing octet before octet zero.
pub(crate) fn least(items: &OctetsList) -> &Octets
    requires { items.now ≢ [] }
    ensures among { Contains items.now result.now }
    ensures least { All (λ item. is_gt (slice_cmp nat_cmp result.now item) ≡ false) items.now }
{
    let mut least = items.get(0);
    for item in items.as_slice() {
        least = lesser(least, item);
    }
    least
}

fn lesser<'a>(one: &'a Octets, other: &'a Octets) -> &'a Octets
    ensures one { is_gt (slice_cmp nat_cmp one.now other.now) ≡ false → result.now ≡ one.now }
    ensures other { is_gt (slice_cmp nat_cmp one.now other.now) ≡ true → result.now
        ≡ other.now }
{
    let octets = one.as_slice();
    let others = other.as_slice();
    if octets.cmp(&others).is_gt() {
        other
    } else {
        one
    }
}

/// Whether the octets are among the items.
pub(crate) fn has_item(items: &OctetsList, octets: &Octets) -> bool
    ensures { IsTrue result ↔ Any (λ item. item ≡ octets.now) items.now }
{
    items
        .as_slice()
        .iter()
        .any(|item| item.as_slice() == octets.as_slice())
}

/// Puts the octets last in the group at the place.
pub(crate) fn add_item(
    groups: &mut Vec<Group>,
    place: usize,
    octets: Octets,
) -> Result<(), OutOfMemory>
    requires { place < vec_len groups.old }
    ensures ok { OnOk result ((group : _) → HoldsAt (λ g. g ≡ group) groups.old.items place
        → groups.new.items ≡ slice_set groups.old.items place (record group {
          items = group.items ++ octets ∷ [];
        })) }
    ensures refused { OnErr result (groups.new.items ≡ groups.old.items) }
{
    let group = &mut groups[place];
    group.items.push(octets)
}

/// Puts a group of one item last.
pub(crate) fn begin(
    alloc: Global,
    groups: &mut Vec<Group>,
    owner: Name,
    rtype: u16,
    octets: Octets,
) -> Result<(), OutOfMemory>
    ensures ok { OnOk result (groups.new.items ≡ groups.old.items ++ record {
      owner = owner;
      rtype = rtype;
      items = octets ∷ [];
    } ∷ []) }
    ensures refused { OnErr result (groups.new.items ≡ groups.old.items) }
{
    let mut items = OctetsList::empty(alloc);
    items.push(octets)?;
    groups.push(Group {
        owner,
        rtype,
        items,
    })?;
    Ok(())
}
