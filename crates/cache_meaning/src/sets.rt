ghost use Rattle.std.specs.Prelude.{◌≡◌, nat_lt};
ghost use Rattle.std.specs.Option.{option_copied};
ghost use Rattle.cache_meaning.specs.Evidence.{that, usable_set, usable_soa};

use crate::HeldZone;
use denial_records::KeptSet;
use dname::Name;
use dname::types::SOA_TYPE;

/// The set at the owner name and type that may be used at a moment, in seconds.
pub fn usable_set<'a, Z: HeldZone<'a>>(
    zone: &Z,
    now: u32,
    owner: &Name,
    rtype: u16,
) -> Option<&'a KeptSet>
    ensures { option_copied result
        ≡ usable_set (Z.zone zone.now).held now (Z.zone zone.now).apex owner.now rtype }
{
    that_is_usable(zone.set_at(owner, rtype), now)
}

/// What is found, if it may be used at a moment, in seconds.
pub fn that_is_usable<'a>(found: Option<&'a KeptSet>, now: u32) -> Option<&'a KeptSet>
    ensures { option_copied result
        ≡ that (λ set. nat_lt now set.expiry) (option_copied found.entry) }
{
    let set = found?;
    if u64::from(now) < set.expiry() {
        Some(set)
    } else {
        None
    }
}

/// The zone's SOA.
pub(crate) fn usable_soa<'a, Z: HeldZone<'a>>(zone: &Z, now: u32) -> Option<&'a KeptSet>
    ensures { option_copied result
        ≡ usable_soa (Z.zone zone.now).held now (Z.zone zone.now).apex }
{
    usable_set(zone, now, zone.apex(), SOA_TYPE)
}
