ghost use Rattle.std.specs.Prelude.{◌≡◌, ◌+◌, ◌≤◌, ◌<◌, ℕ, List, [], ◌∷◌, length, take, drop, reverse, slice_index, MatchOption, IsTrue, ◌↔◌};
ghost use Rattle.dname.specs.Digest.{first_label};
ghost use Rattle.dname.specs.Name.{wire_of, IsName, IsUnder, IsCommon, label_cmp, canonical_cmp};

use crate::pieces::octets_eq;
use std::marker::Model;

/// The last labels of a name, leftmost first, in the name's own octets.
#[derive(Drop)]
pub(crate) struct Labels<'a> {
    wire: &'a [u8],
}

impl<'a> Model for Labels<'a> {
    ghost use Rattle.std.specs.Prelude.{List, ℕ};
    ghost use Rattle.dname.specs.Name.{labels_of, IsWire};

    ghost Value = { List (List ℕ) };

    ghost view = { λ l. labels_of l.wire.now };

    ghost invariant = { λ l. IsWire l.wire.now };
}

impl<'a> Labels<'a> {
    ghost use Rattle.dname.specs.Name.{labels_of, IsWire};

    pub(crate) fn in_wire(wire: &'a [u8]) -> Labels<'a>
        requires { IsWire wire.now }
        ensures { result ≡ labels_of wire.now }
    {
        Labels { wire }
    }

    pub(crate) fn wire(&self) -> &'a [u8]
        ensures spelled { result.now ≡ wire_of self.now }
        ensures wire { IsWire result.now }
        ensures name { IsName self.now }
    {
        self.wire
    }

    /// Takes the leftmost label off.
    pub(crate) fn next(&mut self) -> Option<&'a [u8]>
        ensures label { MatchOption result (self.old ≡ [])
            (λ label. self.old ≡ label.now ∷ self.new) }
        ensures rest { self.new ≡ drop 1 self.old }
    {
        if self.wire().len() <= 1 {
            return None;
        }
        Some(self.take_first())
    }

    /// Takes the leftmost label off a name that isn't the root.
    #[inline(always)]
    fn take_first(&mut self) -> &'a [u8]
        requires { 1 < length (wire_of self.old) }
        ensures { self.old ≡ result.now ∷ self.new }
    {
        let (label, rest) = split_label(self.wire);
        self.wire = rest;
        label
    }
}

/// Where two names meet: their longest common ancestor, and of each name the label in front of it, empty for none.
#[derive(Drop)]
pub(crate) struct Meeting<'a, 'b> {
    pub(crate) rest: Labels<'a>,
    pub(crate) label: &'a [u8],
    pub(crate) other: &'b [u8],
}

// Each name loses labels from the left, the one with more octets left first, until the same octets are left of both.
#[inline(always)]
pub(crate) fn meet<'a, 'b>(mut name: Labels<'a>, mut other: Labels<'b>) -> Meeting<'a, 'b>
    ensures common { IsCommon name.entry other.entry result.rest }
    ensures order { label_cmp result.label.now result.other.now
        ≡ canonical_cmp name.entry other.entry }
{
    let mut label: &[u8] = &[];
    let mut another: &[u8] = &[];
    loop {
        let (size, other_size) = (name.wire().len(), other.wire().len());
        if size == other_size {
            if octets_eq(name.wire(), other.wire()) {
                break;
            }
            label = name.take_first();
            another = other.take_first();
        } else if size > other_size {
            label = name.take_first();
        } else {
            another = other.take_first();
        }
    }
    Meeting {
        rest: name,
        label,
        other: another,
    }
}

// Whether the first name is the other or below it: it loses labels from the left until it has no more octets.
#[inline(always)]
pub(crate) fn ends_in(mut name: Labels<'_>, other: Labels<'_>) -> bool
    ensures { IsTrue result ↔ IsUnder name.entry other.entry }
{
    while name.wire().len() > other.wire().len() {
        name.take_first();
    }
    octets_eq(name.wire(), other.wire())
}

// The label in front of the apex's, which is empty where there is none.
#[inline(always)]
pub(crate) fn label_below<'a>(mut name: Labels<'a>, apex: Labels<'_>) -> &'a [u8]
    requires { IsUnder name apex }
    ensures { result.now ≡ first_label (drop (length apex.entry) (reverse name.entry)) }
{
    let mut label: &[u8] = &[];
    while name.wire().len() > apex.wire().len() {
        label = name.take_first();
    }
    label
}

// The label that a length octet begins, and what follows it.
fn split_label(octets: &[u8]) -> (&[u8], &[u8])
    requires { 1 + slice_index octets.now 0 ≤ length octets.now }
    ensures label { result.0.now ≡ take (slice_index octets.now 0) (drop 1 octets.now) }
    ensures rest { result.1.now ≡ drop (1 + slice_index octets.now 0) octets.now }
{
    octets[1..].split_at(usize::from(octets[0]))
}
