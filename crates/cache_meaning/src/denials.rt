ghost use Rattle.std.specs.Prelude.{◌≡◌, ◌≤◌, ◌∷◌, [], length, map, min, fold, slice_get};
ghost use Rattle.std.specs.Option.{option_map};
ghost use Rattle.denial_records.specs.Proof.{denied_by};
ghost use Rattle.denial_records.specs.declared.record.Record.TheVariants.{Nsec, Nsec3};
ghost use Rattle.cache_meaning.specs.NsecSteps.{nsecs_once, same_nsec_arc};
ghost use Rattle.cache_meaning.specs.Nsec3Steps.{nsec3s_once, same_nsec3_arc};
ghost use Rattle.cache_meaning.specs.Ttl.{left_of};

use denial_records::{Denial, KeptNsec, KeptNsec3, remaining};
use std::marker::Model;

/// The denial records of a proof, in order, seen as their list. It lends them.
#[derive(Drop)]
pub struct Denials<'a> {
    lent: Lent<'a>,
}

#[derive(Drop)]
enum Lent<'a> {
    Zero,
    One(Denial<'a>),
    Two(Denial<'a>, Denial<'a>),
    Three(Denial<'a>, Denial<'a>, Denial<'a>),
}

impl<'a> Model for Denials<'a> {
    ghost use Rattle.std.specs.Prelude.{List};
    ghost use Rattle.denial_records.specs.declared.record.Record.{Record};
    ghost use Rattle.cache_meaning.specs.Views.{denials_of};

    ghost Value = { List Record };

    ghost view = { λ d. denials_of d.lent };
}

impl<'a> Denials<'a> {
    pub(crate) fn none() -> Denials<'a>
        ensures { result ≡ [] }
    {
        Denials { lent: Lent::Zero }
    }

    pub fn nsec(nsec: &'a KeptNsec) -> Denials<'a>
        ensures { result ≡ Nsec nsec.now ∷ [] }
    {
        Denials {
            lent: Lent::One(Denial::Nsec(nsec)),
        }
    }

    /// Two NSEC records of one chain, each once.
    pub fn nsecs_once(first: &'a KeptNsec, second: &'a KeptNsec) -> Denials<'a>
        ensures { result ≡ nsecs_once (first.now ∷ second.now ∷ []) }
    {
        if same_nsec_arc(first, second) {
            return Denials::nsec(first);
        }
        Denials {
            lent: Lent::Two(Denial::Nsec(first), Denial::Nsec(second)),
        }
    }

    pub fn nsec3(nsec3: &'a KeptNsec3) -> Denials<'a>
        ensures { result ≡ Nsec3 nsec3.now ∷ [] }
    {
        Denials {
            lent: Lent::One(Denial::Nsec3(nsec3)),
        }
    }

    /// Three NSEC3 records of one chain, each once.
    pub fn nsec3s_once(
        first: &'a KeptNsec3,
        second: &'a KeptNsec3,
        third: &'a KeptNsec3,
    ) -> Denials<'a>
        ensures { result ≡ nsec3s_once (first.now ∷ second.now ∷ third.now ∷ []) }
    {
        let is_new = !same_nsec3_arc(second, third) && !same_nsec3_arc(first, third);
        let lent = match (same_nsec3_arc(first, second), is_new) {
            (true, true) => Lent::Two(Denial::Nsec3(first), Denial::Nsec3(third)),
            (true, false) => Lent::One(Denial::Nsec3(first)),
            (false, true) => Lent::Three(
                Denial::Nsec3(first),
                Denial::Nsec3(second),
                Denial::Nsec3(third),
            ),
            (false, false) => Lent::Two(Denial::Nsec3(first), Denial::Nsec3(second)),
        };
        Denials { lent }
    }

    // The first, second and third.
    pub(crate) fn in_turn(self) -> (Option<Denial<'a>>, Option<Denial<'a>>, Option<Denial<'a>>)
        ensures first { option_map denied_by result.0 ≡ slice_get self.entry 0 }
        ensures second { option_map denied_by result.1 ≡ slice_get self.entry 1 }
        ensures third { option_map denied_by result.2 ≡ slice_get self.entry 2 }
        ensures few { length self.entry ≤ 3 }
    {
        let Denials { lent } = self;
        match lent {
            Lent::Zero => (None, None, None),
            Lent::One(first) => (Some(first), None, None),
            Lent::Two(first, second) => (Some(first), Some(second), None),
            Lent::Three(first, second, third) => (Some(first), Some(second), Some(third)),
        }
    }

    // The least of a number of seconds and what each record has left.
    pub(crate) fn least_left(&self, ttl: u32, now: u32) -> u32
        ensures { result ≡ fold min ttl (map (left_of now) self.now) }
    {
        match &self.lent {
            Lent::Zero => ttl,
            Lent::One(first) => ttl.min(left_of(first, now)),
            Lent::Two(first, second) => ttl.min(left_of(first, now)).min(left_of(second, now)),
            Lent::Three(first, second, third) => ttl
                .min(left_of(first, now))
                .min(left_of(second, now))
                .min(left_of(third, now)),
        }
    }
}

fn same_nsec_arc(nsec: &KeptNsec, other: &KeptNsec) -> bool
    ensures { result ≡ same_nsec_arc nsec.now other.now }
{
    nsec.owner() == other.owner() && nsec.next() == other.next()
}

fn same_nsec3_arc(nsec3: &KeptNsec3, other: &KeptNsec3) -> bool
    ensures { result ≡ same_nsec3_arc nsec3.now other.now }
{
    nsec3.hash() == other.hash() && nsec3.next() == other.next()
}

fn left_of(denial: &Denial<'_>, now: u32) -> u32
    ensures { result ≡ left_of now (denied_by denial.now) }
{
    match denial {
        Denial::Nsec(nsec) => remaining(nsec.life(), nsec.expiry(), now),
        Denial::Nsec3(nsec3) => remaining(nsec3.life(), nsec3.expiry(), now),
    }
}
