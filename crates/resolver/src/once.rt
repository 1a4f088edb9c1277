//! DNAME sets and denial records, each once.
ghost use Rattle.std.specs.Prelude.{◌≡◌};
ghost use Rattle.std.specs.List.{list_any};
ghost use Rattle.denial_records.specs.Proof.{denied_by};
ghost use Rattle.denial_records.specs.declared.record.Record.TheVariants.{Nsec, Nsec3};
ghost use Rattle.reply_core.specs.Shown.{shown_by, denial_in};
ghost use Rattle.resolver.specs.WalkReply.{same_set, same_denial};
ghost use Rattle.resolver.specs.Lent.{dnames_in, dnames_by, denials_in, denials_by};

use crate::Way;
use denial_records::{Denial, KeptNsec, KeptNsec3, KeptSet, Verdict};

/// Whether a link goes by the DNAME set.
pub(crate) fn go_by(links: &[Way<'_>], set: &KeptSet) -> bool
    ensures { result ≡ list_any (λ each. same_set each set.now) (dnames_by links.now) }
{
    for way in links {
        if goes_by(way, set) {
            return true;
        }
    }
    false
}

fn goes_by(way: &Way<'_>, set: &KeptSet) -> bool
    ensures { result ≡ list_any (λ each. same_set each set.now) (dnames_in way.now) }
{
    match way {
        Way::Alias { verdict: _ } => false,
        Way::Dname { set: other } => other.owner() == set.owner(),
    }
}

/// Whether the record is among those of the links.
pub(crate) fn is_among(links: &[Way<'_>], denial: &Denial<'_>) -> bool
    ensures { result ≡ list_any (λ each. same_denial each (denied_by denial.now))
        (denials_by links.now) }
{
    for way in links {
        if uses(way, denial) {
            return true;
        }
    }
    false
}

fn uses(way: &Way<'_>, denial: &Denial<'_>) -> bool
    ensures { result ≡ list_any (λ each. same_denial each (denied_by denial.now))
        (denials_in way.now) }
{
    match way {
        Way::Alias { verdict } => has(verdict, denial),
        Way::Dname { set: _ } => false,
    }
}

fn has(verdict: &Verdict<'_>, denial: &Denial<'_>) -> bool
    ensures { result ≡ list_any (λ each. same_denial each (denied_by denial.now))
        (shown_by verdict.now).denials }
{
    is_at(&verdict.first, denial)
        || (is_at(&verdict.second, denial) || is_at(&verdict.third, denial))
}

fn is_at(place: &Option<Denial<'_>>, denial: &Denial<'_>) -> bool
    ensures { result ≡ list_any (λ each. same_denial each (denied_by denial.now))
        (denial_in place.now) }
{
    match place {
        Some(each) => same_denial(each, denial),
        None => false,
    }
}

// Whether two are one record: of one zone and chain, with one owner name.
fn same_denial(denial: &Denial<'_>, other: &Denial<'_>) -> bool
    ensures { result ≡ same_denial (denied_by denial.now) (denied_by other.now) }
{
    match denial {
        Denial::Nsec(nsec) => match other {
            Denial::Nsec(other) => same_nsec(nsec, other),
            Denial::Nsec3(_) => false,
        },
        Denial::Nsec3(nsec3) => match other {
            Denial::Nsec(_) => false,
            Denial::Nsec3(other) => same_nsec3(nsec3, other),
        },
    }
}

fn same_nsec(nsec: &KeptNsec, other: &KeptNsec) -> bool
    ensures { result ≡ same_denial (Nsec nsec.now) (Nsec other.now) }
{
    nsec.zone() == other.zone() && nsec.owner() == other.owner()
}

fn same_nsec3(nsec3: &KeptNsec3, other: &KeptNsec3) -> bool
    ensures { result ≡ same_denial (Nsec3 nsec3.now) (Nsec3 other.now) }
{
    nsec3.zone() == other.zone()
        && (nsec3.salt() == other.salt()
            && nsec3.iterations() == other.iterations()
            && nsec3.hash() == other.hash())
}
