//! A zone of a store.
ghost use Rattle.std.specs.Prelude.{◌≡◌, IfSome};
ghost use Rattle.std.specs.Option.{option_copied};
ghost use Rattle.dname.specs.declared.types.TheConstants.{CNAME_TYPE};
ghost use Rattle.cache_meaning.specs.Zones.{zone_in, set_at};
ghost use Rattle.held_laws.specs.KeyOrder.{in_key_order};
ghost use Rattle.record_store.specs.LookUp.{IsZoneIn};

use crate::SetAndAlias;
use crate::holding::Holding;
use cache_meaning::{Chain, HeldZone, Place};
use denial_records::{HASH_OCTETS, KeptNsec, KeptNsec3, KeptSet};
use dname::Name;
use std::marker::Model;
use zone_chains::ZoneRecords;

/// A zone of which a store holds a record. What it lends lives as long as the store. A record that has expired is lent too. No call
/// takes memory.
#[derive(Drop)]
pub struct ZoneRef<'a> {
    holding: &'a Holding,
    zone: &'a ZoneRecords,
}

impl<'a> Model for ZoneRef<'a> {
    ghost use Rattle.cache_meaning.specs.Zones.{HeldZone, zone_in};
    ghost use Rattle.held_laws.specs.KeyOrder.{in_key_order};
    ghost use Rattle.record_store.specs.LookUp.{IsZoneIn};

    ghost Value = { HeldZone };

    ghost view = { λ z. zone_in (in_key_order z.holding.now) z.zone.now.apex };

    ghost invariant = { λ z. IsZoneIn (in_key_order z.holding.now) z.zone.now };
}

impl<'a> HeldZone<'a> for ZoneRef<'a> {
    ghost zone = { λ z. z };

    fn apex(&self) -> &Name {
        self.zone.apex()
    }

    fn chains(&self) -> [Chain<'a>; 2] {
        self.zone.chains()
    }

    fn set_at(&self, owner: &Name, rtype: u16) -> Option<&'a KeptSet> {
        self.holding.set_at(self.zone.apex(), owner, rtype)
    }

    fn nsec_at(&self, name: &Name) -> Option<(&'a KeptNsec, Place)> {
        self.zone.nsec_at(name)
    }

    fn nsec3_at(
        &self,
        salt: &[u8],
        iterations: u16,
        hash: &[u8; HASH_OCTETS],
    ) -> Option<(&'a KeptNsec3, Place)> {
        self.zone.nsec3_at(salt, iterations, hash)
    }

    fn kept_hash(
        &self,
        name: &Name,
        salt: &[u8],
        iterations: u16,
    ) -> Option<&'a [u8; HASH_OCTETS]> {
        self.zone.kept_hash(name, salt, iterations)
    }
}

impl<'a> ZoneRef<'a> {
    /// What `set_at` gives, and the owner name's CNAME set where the one search tells of it: always where no other set of the owner
    /// name is held, but for two that have one number.
    pub fn set_and_alias_at(&self, owner: &Name, rtype: u16) -> SetAndAlias<'a>
        ensures set { option_copied result.set
            ≡ set_at self.now.held self.now.apex owner.now rtype }
        ensures alias { IfSome result.alias (λ alias. option_copied alias
            ≡ set_at self.now.held self.now.apex owner.now CNAME_TYPE) }
    {
        self.holding
            .set_and_alias_at(self.zone.apex(), owner, rtype)
    }
}

/// A zone of what is held.
pub(crate) fn zone_in<'a>(holding: &'a Holding, zone: &'a ZoneRecords) -> ZoneRef<'a>
    requires { IsZoneIn (in_key_order holding.now) zone.now }
    ensures { result ≡ zone_in (in_key_order holding.now) zone.now.apex }
{
    ZoneRef { holding, zone }
}
