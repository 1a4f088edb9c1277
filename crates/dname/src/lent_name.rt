ghost use Rattle.std.specs.Prelude.{◌≡◌, ◌↔◌, IsTrue};
ghost use Rattle.std.specs.Cmp.Lexicographic.{pointwise};
ghost use Rattle.dname.specs.Name.{wire_of, labels_of, IsName, IsWire, IsUnder, IsCommon, canonical_cmp};

use crate::Name;
use crate::labels::{Labels, ends_in, meet};
use crate::pieces::{octets_cmp, octets_eq};
use std::cmp::Ordering;
use std::marker::Model;

/// A name whose wire form is lent, seen as a `Name` is.
#[derive(Debug, Drop)]
pub struct LentName<'a> {
    wire: &'a [u8],
}

impl<'a> Model for LentName<'a> {
    ghost use Rattle.std.specs.Prelude.{List, ℕ};
    ghost use Rattle.dname.specs.Name.{labels_of, IsWire};

    ghost Value = { List (List ℕ) };

    ghost view = { λ n. labels_of n.wire.now };

    ghost invariant = { λ n. IsWire n.wire.now };
}

impl<'a> LentName<'a> {
    /// The name of a wire form as a `Name` has it.
    pub fn of(wire: &'a [u8]) -> LentName<'a>
        requires { IsWire wire.now }
        ensures { result ≡ labels_of wire.now }
    {
        LentName { wire }
    }

    /// The wire form, uncompressed (RFC 1035, section 3.1).
    pub fn wire(&self) -> &'a [u8]
        ensures spelled { result.now ≡ wire_of self.now }
        ensures name { IsName self.now }
    {
        self.wire
    }

    /// The name itself. It takes no memory.
    pub fn name(&self) -> Name
        ensures { result ≡ self.now }
    {
        Name::of_labels(&self.all_labels())
    }

    /// Whether the name is `other` or a name below it (RFC 1034, section 3.1).
    pub fn is_under(&self, other: &LentName<'_>) -> bool
        ensures { IsTrue result ↔ IsUnder self.now other.now }
    {
        ends_in(self.all_labels(), other.all_labels())
    }

    /// The longest common ancestor, possibly one of the two, lent as the name is.
    pub fn common(&self, other: &LentName<'_>) -> LentName<'a>
        ensures { IsCommon self.now other.now result }
    {
        LentName::of(meet(self.all_labels(), other.all_labels()).rest.wire())
    }

    fn all_labels(&self) -> Labels<'a>
        ensures { result ≡ self.now }
    {
        Labels::in_wire(self.wire)
    }
}

impl<'a> PartialEq for LentName<'a> {
    ghost use Rattle.std.specs.Prelude.{nat_eq};
    ghost use Rattle.std.specs.Cmp.{partial_equiv_from_equiv};
    ghost use Rattle.std.specs.Cmp.Lexicographic.{pointwise, nat_list_eq_equiv, lists_equiv};

    ghost eq = { pointwise (pointwise nat_eq) };

    ghost laws = { partial_equiv_from_equiv (lists_equiv nat_list_eq_equiv) };

    fn eq(&self, other: &LentName<'a>) -> bool
        ensures value { result ≡ pointwise (pointwise nat_eq) self.now other.now }
        ensures same { IsTrue result ↔ (self.now ≡ other.now) }
    {
        octets_eq(self.wire(), other.wire())
    }
}

impl<'a> Eq for LentName<'a> {
    ghost use Rattle.std.specs.Cmp.Lexicographic.{nat_list_eq_equiv, lists_equiv};

    ghost laws = { lists_equiv nat_list_eq_equiv };
}

impl<'a> PartialOrd for LentName<'a> {
    ghost use Rattle.std.specs.Ordering.{as_partial_cmp};
    ghost use Rattle.dname.specs.Name.{canonical_cmp};
    ghost use Rattle.dname.specs.Order.{canonical_partial};

    ghost partial_cmp = { as_partial_cmp canonical_cmp };

    ghost laws = { canonical_partial };

    fn partial_cmp(&self, other: &LentName<'a>) -> Option<Ordering> {
        Some(self.cmp(other))
    }
}

/// Canonical order: by labels from the rightmost, octet by octet (RFC 4034, section 6.1).
impl<'a> Ord for LentName<'a> {
    ghost use Rattle.std.specs.Prelude.{refl};
    ghost use Rattle.dname.specs.Name.{canonical_cmp};
    ghost use Rattle.dname.specs.Order.{canonical_total, canonical_ties};

    ghost cmp = { canonical_cmp };

    ghost total = { canonical_total };

    ghost matches_partial_cmp = { λ _ _. refl };

    ghost matches_eq = { canonical_ties };

    #[tactic(auto, using(crate::specs::Order::canonical_equal, crate::specs::Order::canonical_same))]
    fn cmp(&self, other: &LentName<'a>) -> Ordering
        ensures value { result ≡ canonical_cmp self.now other.now }
        ensures equal { (result ≡ Ordering.Equal) ↔ (self.now ≡ other.now) }
    {
        let met = meet(self.all_labels(), other.all_labels());
        octets_cmp(met.label, met.other)
    }
}
