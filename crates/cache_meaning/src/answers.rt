ghost use Rattle.std.specs.Prelude.{◌≡◌, []};
ghost use Rattle.denial_records.specs.declared.verdict.Kind.TheVariants.{NoData, NxDomain};
ghost use Rattle.cache_meaning.specs.NsecSteps.{denial_by, answer_by_wildcard};
ghost use Rattle.cache_meaning.specs.Prove.{exact_proof};

use crate::claim::Claim;
use crate::sets::{usable_set, usable_soa};
use crate::{Denials, HeldZone, Proven};
use dname::Name;
use dname::types::DS_TYPE;

/// An answer by the set at the name and type at a moment, in seconds.
pub fn exact_proof<'a, Z: HeldZone<'a>>(
    zone: &Z,
    now: u32,
    name: &Name,
    qtype: u16,
) -> Option<Proven<'a>>
    ensures { result
        ≡ exact_proof (Z.zone zone.now).held now (Z.zone zone.now).apex name.now qtype }
{
    let set = usable_set(zone, now, name, qtype)?;
    Some(Proven::of(Claim::Answer(set), Denials::none()))
}

/// No data by denial records at a moment, in seconds, where the zone's SOA is held.
pub fn no_data<'a, Z: HeldZone<'a>>(zone: &Z, now: u32, denials: Denials<'a>) -> Option<Proven<'a>>
    ensures { result
        ≡ denial_by (Z.zone zone.now).held now (Z.zone zone.now).apex NoData denials.entry }
{
    let soa = usable_soa(zone, now)?;
    Some(Proven::of(Claim::NoData(soa), denials))
}

/// A name error by denial records at a moment, in seconds, where the zone's SOA is held.
pub fn name_error<'a, Z: HeldZone<'a>>(
    zone: &Z,
    now: u32,
    denials: Denials<'a>,
) -> Option<Proven<'a>>
    ensures { result
        ≡ denial_by (Z.zone zone.now).held now (Z.zone zone.now).apex NxDomain denials.entry }
{
    let soa = usable_soa(zone, now)?;
    Some(Proven::of(Claim::NxDomain(soa), denials))
}

/// An answer by the set at the wildcard at a moment, in seconds. A DS is never made from a wildcard (RFC 4592, section 4.6).
pub fn answer_by_wildcard<'a, Z: HeldZone<'a>>(
    zone: &Z,
    now: u32,
    qtype: u16,
    source: &Name,
    denials: Denials<'a>,
) -> Option<Proven<'a>>
    ensures { result
        ≡ answer_by_wildcard (Z.zone zone.now).held now (Z.zone zone.now).apex qtype source.now
        denials.entry }
{
    if qtype == DS_TYPE {
        return None;
    }
    let set = usable_set(zone, now, source, qtype)?;
    Some(Proven::of(Claim::Answer(set), denials))
}
