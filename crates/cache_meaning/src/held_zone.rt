ghost use Rattle.std.specs.Prelude.{◌≡◌, ◌≤◌, [], ◌∷◌, length, map, slice_get, IfSome};
ghost use Rattle.std.specs.Option.{option_map, option_copied};
ghost use Rattle.std.specs.Str.{bytes_eq};
ghost use Rattle.nsec3_hash.specs.IteratedHash.{hash_of};
ghost use Rattle.cache_meaning.specs.Zones.{HeldZone, IsInArc, chains_of, set_at, nsec_at, nsec3_at};
ghost use Rattle.cache_meaning.specs.Evidence.{nsec_matches};
ghost use Rattle.cache_meaning.specs.Lent.{lent_chain, place_by, parameters_by};

use crate::{Chain, Place};
use denial_records::{HASH_OCTETS, KeptNsec, KeptNsec3, KeptSet};
use dname::Name;

/// A zone of which a record is held, however its records are found. What it lends lives as long as what is held. A record that has
/// expired is lent too. No call takes memory.
pub trait HeldZone<'a> {
    /// The zone, and what is held.
    ghost zone: { Self → HeldZone };

    fn apex(&self) -> &Name
        ensures { result.now ≡ (zone self.now).apex };

    /// The chains of which a denial record is held, the newest first, and `Bare` where there is none.
    fn chains(&self) -> [Chain<'a>; 2]
        ensures first { map lent_chain result
            ≡ slice_get (chains_of (zone self.now).held (zone self.now).apex) 0 ∷ slice_get
            (chains_of (zone self.now).held (zone self.now).apex) 1 ∷ [] }
        ensures all { length (chains_of (zone self.now).held (zone self.now).apex) ≤ 2 };

    /// The set at the owner name and type.
    fn set_at(&self, owner: &Name, rtype: u16) -> Option<&'a KeptSet>
        ensures { option_copied result
            ≡ set_at (zone self.now).held (zone self.now).apex owner.now rtype };

    /// The NSEC record whose arc, from its owner name to the next, has the name, and where in it (RFC 4034, section 4.1.1).
    fn nsec_at(&self, name: &Name) -> Option<(&'a KeptNsec, Place)>
        ensures record { option_map (λ found. found.0.now) result
            ≡ nsec_at (zone self.now).held (zone self.now).apex name.now }
        ensures place { IfSome result (λ found.
            found.1 ≡ place_by (nsec_matches found.0.now name.now)) }
        ensures arc { IfSome result (λ found. IsInArc name.now found.0.now) };

    /// The NSEC3 record of the chain of a salt and a number of iterations whose arc, from its hash to the next, has the hash,
    /// and where in it (RFC 5155, section 3.1.7).
    fn nsec3_at(
        &self,
        salt: &[u8],
        iterations: u16,
        hash: &[u8; HASH_OCTETS],
    ) -> Option<(&'a KeptNsec3, Place)>
        ensures record { option_map (λ found. found.0.now) result
            ≡ nsec3_at (zone self.now).held (zone self.now).apex (parameters_by salt.now
            iterations) hash.now }
        ensures place { IfSome result (λ found.
            found.1 ≡ place_by (bytes_eq found.0.now.hash hash.now)) };

    /// The hash of a name by a salt and a number of iterations, where one of the zone's chains keeps it. It saves time, and nothing
    /// else rests on it.
    fn kept_hash(&self, name: &Name, salt: &[u8], iterations: u16) -> Option<&'a [u8; HASH_OCTETS]>
        ensures { IfSome result (λ hash. hash.now ≡ hash_of name.now salt.now iterations) };
}
