ghost use Rattle.std.specs.Prelude.{◌≡◌, IfSome, Some, false};
ghost use Rattle.std.specs.Option.{option_map};
ghost use Rattle.dname.specs.Tests.{is_under};
ghost use Rattle.cache_meaning.specs.Zones.{IsInArc};
ghost use Rattle.cache_meaning.specs.Evidence.{that, speaks_of, nsec_for, nsec_matches};
ghost use Rattle.synth_nsec.specs.NsecEvidence.{record_of, Says};

use cache_meaning::{HeldZone, Place, hand_nothing_on};
use denial_records::KeptNsec;
use dname::{LentName, Name};

/// What an NSEC record says of a name in its arc (RFC 4035, section 5.4).
#[derive(Drop)]
pub(crate) enum NsecEvidence<'a> {
    /// It is the name's own.
    Matches(&'a KeptNsec),
    /// The name exists without records: the next name is below it (RFC 4592, section 2.2.2).
    ShowsEmpty(&'a KeptNsec),
    /// The name doesn't exist.
    Covers(&'a KeptNsec),
}

/// What the record that speaks of the name says, if it may be used now.
pub(crate) fn nsec_evidence<'a, Z: HeldZone<'a>>(
    zone: &Z,
    now: u32,
    name: &Name,
) -> Option<NsecEvidence<'a>>
    ensures record { option_map record_of result
        ≡ nsec_for (Z.zone zone.now).held now (Z.zone zone.now).apex name.now }
    ensures says { IfSome result (Says name.now) }
{
    let (nsec, place) = zone.nsec_at(name)?;
    if u64::from(now) >= nsec.expiry() {
        return None;
    }
    match place {
        Place::Start => Some(NsecEvidence::Matches(nsec)),
        Place::Inside => inside(zone.apex(), name, nsec),
    }
}

// Of a name behind the record's owner. A record says nothing of the names that its owner hands on.
fn inside<'a>(apex: &Name, name: &Name, nsec: &'a KeptNsec) -> Option<NsecEvidence<'a>>
    requires arc { IsInArc name.now nsec.now }
    requires behind { nsec_matches nsec.now name.now ≡ false }
    ensures record { option_map record_of result
        ≡ that (speaks_of apex.now name.now) (Some nsec.now) }
    ensures says { IfSome result (Says name.now) }
{
    if is_under(name.lent(), nsec.owner())
        && !hand_nothing_on(&nsec.types(), apex.lent(), nsec.owner())
    {
        return None;
    }
    if is_under(nsec.next(), name.lent()) {
        Some(NsecEvidence::ShowsEmpty(nsec))
    } else {
        Some(NsecEvidence::Covers(nsec))
    }
}

fn is_under(name: LentName<'_>, other: LentName<'_>) -> bool
    ensures { result ≡ is_under name.entry other.entry }
{
    name.is_under(&other)
}
