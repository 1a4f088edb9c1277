ghost use Rattle.std.specs.Prelude.{◌≡◌, IfSome};
ghost use Rattle.cache_meaning.specs.Prove.{exact_proof};
ghost use Rattle.soundness.specs.Steps.{IsAsked};
ghost use Rattle.soundness.specs.Sound.{IsSound};

use cache_meaning::{HeldZone, Proven, exact_proof};
use dname::Name;
use soundness::answer_by_the_set;

/// The answer by the set at the name and type that may be used now; none exactly where there is none. It takes no memory.
pub fn exact<'a, Z: HeldZone<'a>>(zone: &Z, name: &Name, qtype: u16, now: u32) -> Option<Proven<'a>>
    ensures proof { result
        ≡ exact_proof (Z.zone zone.now).held now (Z.zone zone.now).apex name.now qtype }
    ensures sound { IsAsked (Z.zone zone.now).apex name.now qtype
        → IfSome result (IsSound name.now qtype) }
{
    answer_by_the_set();
    exact_proof(zone, now, name, qtype)
}
