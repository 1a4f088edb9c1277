ghost use Rattle.std.specs.Prelude.{◌≡◌, ◌-◌, ◌≤◌, ◌↔◌, ℕ, List, [], ◌∷◌, ◌++◌, length, drop, IsTrue, IsSome, IfSome, IfOk, IfErr, Ok, Err, MatchOption, true, false};
ghost use Rattle.std.specs.Cmp.Lexicographic.{pointwise};
ghost use Rattle.dname.specs.Read.{Spells, StopsAt, IsWireForm, IsReadFrom};
ghost use Rattle.dname.specs.declared.name_fault.NameFault.{NameFault};
ghost use Rattle.dname.specs.Digest.{digest_below};
ghost use Rattle.dname.specs.Name.{wire_of, IsName, IsUnder, IsCommon, HasLabelLength, lowered, asterisk, without_asterisk, canonical_cmp};

use crate::labels::{Labels, ends_in, label_below, meet};
use crate::pieces::{first_word, octets_cmp, octets_eq};
use crate::reader::wire_size;
use crate::wire::{MAX_WIRE, Wire};
use crate::{LentName, NameFault};
use std::cmp::Ordering;
use std::marker::Model;

/// A domain name, seen as the list of its labels, the leftmost first, with A to Z lowered. The root has none.
/// No call on it takes memory.
#[derive(Debug, Drop)]
pub struct Name {
    wire: Wire,
}

impl Model for Name {
    ghost use Rattle.std.specs.Prelude.{List, ℕ};
    ghost use Rattle.dname.specs.Name.{labels_of, IsWire};

    ghost Value = { List (List ℕ) };

    ghost view = { λ n. labels_of n.wire };

    ghost invariant = { λ n. IsWire n.wire };
}

impl Name {
    ghost use Rattle.dname.specs.Name.{labels_of, IsWire};

    pub fn root() -> Name
        ensures { result ≡ [] }
    {
        let mut wire = Wire::empty();
        wire.push(0);
        Name { wire }
    }

    /// Reads the uncompressed wire form at the front, in whatever case its letters are, and gives the name and the
    /// octets taken. A fault is that of the first label, or end, that can't be read.
    pub fn read(octets: &[u8]) -> Result<(Name, usize), NameFault>
        ensures read { IfOk result (λ read. Spells octets.now read.0 read.1) }
        ensures refused { IfErr result (StopsAt octets.now) }

        // Octets that spell a name are read, and each fault is told where it stands.
        ensures every_name { (name : List (List ℕ)) (taken : ℕ) → Spells octets.now name taken
            → result ≡ Ok (name, taken) }
        ensures every_fault { (fault : NameFault) → StopsAt octets.now fault
            → result ≡ Err fault }
    {
        let taken = wire_size(octets)?;
        Ok((Name::of_wire(&octets[..taken]), taken))
    }

    /// The name of an uncompressed wire form, in whatever case its letters are.
    pub fn of_wire(octets: &[u8]) -> Name
        requires { IsWireForm octets.now }
        ensures { IsReadFrom octets.now result }
    {
        let mut wire = Wire::empty();
        wire.append_lowered(octets);
        Name { wire }
    }

    /// An equal name.
    pub fn copy(&self) -> Name
        ensures { result ≡ self.now }
    {
        Name {
            wire: self.wire.copy(),
        }
    }

    /// The wire form, uncompressed (RFC 1035, section 3.1).
    pub fn wire(&self) -> &[u8]
        ensures spelled { result.now ≡ wire_of self.now }
        ensures name { IsName self.now }
    {
        self.wire.as_slice()
    }

    /// The name, lent.
    pub fn lent(&self) -> LentName<'_>
        ensures { result ≡ self.now }
    {
        LentName::of(self.wire.as_slice())
    }

    /// A number that is less than that of another name under the apex only where the name goes before it: the first 8
    /// octets of the label in front of the apex.
    pub fn digest_below(&self, apex: &Name) -> u64
        requires { IsUnder self.now apex.now }
        ensures { result ≡ digest_below (length apex.now) self.now }
    {
        first_word(label_below(self.all_labels(), apex.all_labels()))
    }

    /// The number of labels, the root not counted.
    pub fn labels(&self) -> usize
        ensures value { result ≡ length self.now }
        ensures few { result ≤ 127 }
    {
        let mut labels = self.all_labels();
        let mut count = 0;
        while labels.next().is_some() {
            count += 1;
        }
        count
    }

    /// The number of labels, the root and a leading asterisk label not counted (RFC 4034, section 3.1.3).
    pub fn owner_labels(&self) -> usize
        ensures { result ≡ length (without_asterisk self.now) }
    {
        let labels = self.labels();
        if self.is_wildcard() {
            labels - 1
        } else {
            labels
        }
    }

    /// Whether the name is `other` or a name below it (RFC 1034, section 3.1).
    pub fn is_under(&self, other: &Name) -> bool
        ensures { IsTrue result ↔ IsUnder self.now other.now }
    {
        ends_in(self.all_labels(), other.all_labels())
    }

    /// The name with its leftmost label taken off; the root has none.
    pub fn parent(&self) -> Option<Name>
        ensures { MatchOption result (self.now ≡ [])
            (λ parent. (label : List ℕ) × (self.now ≡ label ∷ parent)) }
    {
        let mut labels = self.all_labels();
        labels.next()?;
        Some(Name::of_labels(&labels))
    }

    /// The last `n` labels.
    pub fn last(&self, n: usize) -> Name
        requires { n ≤ length self.now }
        ensures { result ≡ drop (length self.now - n) self.now }
    {
        Name::of_labels(&self.last_labels(n))
    }

    /// The longest common ancestor, possibly one of the two.
    pub fn common(&self, other: &Name) -> Name
        ensures { IsCommon self.now other.now result }
    {
        Name::of_labels(&meet(self.all_labels(), other.all_labels()).rest)
    }

    /// The name below it that the label begins; none where its wire form would have more than 255 octets.
    pub fn child(&self, label: &[u8]) -> Option<Name>
        requires { HasLabelLength label.now }
        ensures room { IsSome result ↔ (length (wire_of (label.now ∷ self.now)) ≤ 255) }
        ensures value { IfSome result (λ child. child ≡ lowered label.now ∷ self.now) }
    {
        let rest = self.wire.as_slice();
        if 1 + label.len() + rest.len() > MAX_WIRE {
            return None;
        }
        let mut wire = Wire::empty();
        wire.push(label.len() as u8);
        wire.append_lowered(label);
        wire.append(rest);
        Some(Name { wire })
    }

    /// The wildcard below the name (RFC 4592, section 2.1.1); none where the name's wire form has more than 253 octets.
    pub fn star(&self) -> Option<Name>
        ensures room { IsSome result ↔ (length (wire_of self.now) ≤ 253) }
        ensures value { IfSome result (λ star. star ≡ asterisk ∷ self.now) }
    {
        self.child(b"*")
    }

    fn is_wildcard(&self) -> bool
        ensures yes { result ≡ true
            → (rest : List (List ℕ)) × (self.now ≡ asterisk ∷ rest) }
        ensures no { result ≡ false → without_asterisk self.now ≡ self.now }
    {
        let mut labels = self.all_labels();
        match labels.next() {
            Some(label) => label == b"*".as_slice(),
            None => false,
        }
    }

    pub(crate) fn of_labels(labels: &Labels<'_>) -> Name
        ensures { result ≡ labels.now }
    {
        Name {
            wire: Wire::of(labels.wire()),
        }
    }

    fn last_labels(&self, n: usize) -> Labels<'_>
        requires { n ≤ length self.now }
        ensures { result ≡ drop (length self.now - n) self.now }
    {
        let mut labels = self.all_labels();
        for _ in n..self.labels() {
            labels.next();
        }
        labels
    }

    fn all_labels(&self) -> Labels<'_>
        ensures all { result ≡ self.now }
        ensures few { length self.now ≤ 127 }
    {
        Labels::in_wire(self.wire.as_slice())
    }
}

impl PartialEq for Name {
    ghost use Rattle.std.specs.Prelude.{nat_eq};
    ghost use Rattle.std.specs.Cmp.{partial_equiv_from_equiv};
    ghost use Rattle.std.specs.Cmp.Lexicographic.{pointwise, nat_list_eq_equiv, lists_equiv};

    ghost eq = { pointwise (pointwise nat_eq) };

    ghost laws = { partial_equiv_from_equiv (lists_equiv nat_list_eq_equiv) };

    fn eq(&self, other: &Name) -> bool
        ensures value { result ≡ pointwise (pointwise nat_eq) self.now other.now }
        ensures same { IsTrue result ↔ (self.now ≡ other.now) }
    {
        octets_eq(self.wire(), other.wire())
    }
}

impl Eq for Name {
    ghost use Rattle.std.specs.Cmp.Lexicographic.{nat_list_eq_equiv, lists_equiv};

    ghost laws = { lists_equiv nat_list_eq_equiv };
}

impl PartialOrd for Name {
    ghost use Rattle.std.specs.Ordering.{as_partial_cmp};
    ghost use Rattle.dname.specs.Name.{canonical_cmp};
    ghost use Rattle.dname.specs.Order.{canonical_partial};

    ghost partial_cmp = { as_partial_cmp canonical_cmp };

    ghost laws = { canonical_partial };

    fn partial_cmp(&self, other: &Name) -> Option<Ordering> {
        Some(self.cmp(other))
    }
}

/// Canonical order: by labels from the rightmost, octet by octet (RFC 4034, section 6.1).
impl Ord for Name {
    ghost use Rattle.std.specs.Prelude.{refl};
    ghost use Rattle.dname.specs.Name.{canonical_cmp};
    ghost use Rattle.dname.specs.Order.{canonical_total, canonical_ties};

    ghost cmp = { canonical_cmp };

    ghost total = { canonical_total };

    ghost matches_partial_cmp = { λ _ _. refl };

    ghost matches_eq = { canonical_ties };

    #[tactic(auto, using(crate::specs::Order::canonical_equal, crate::specs::Order::canonical_same))]
    fn cmp(&self, other: &Name) -> Ordering
        ensures value { result ≡ canonical_cmp self.now other.now }
        ensures equal { (result ≡ Ordering.Equal) ↔ (self.now ≡ other.now) }
    {
        let met = meet(self.all_labels(), other.all_labels());
        octets_cmp(met.label, met.other)
    }
}
