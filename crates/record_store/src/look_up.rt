//! What is looked up in a store.
ghost use Rattle.std.specs.Prelude.{◌≡◌, None, Some, MatchOption, IfSome};
ghost use Rattle.dname.specs.declared.types.TheConstants.{CNAME_TYPE};
ghost use Rattle.std.specs.Option.{option_map, option_copied};
ghost use Rattle.cache_meaning.specs.Zones.{zone_in, zone_for, set_at};
ghost use Rattle.held_laws.specs.KeyOrder.{in_key_order};
ghost use Rattle.record_store.specs.LookUp.{IsZoneIn};

use crate::holding::{Holding, Zones};
use crate::set_search::{set_and_alias_in, set_in};
use crate::zone_ref::zone_in;
use crate::zone_search::zone_for;
use crate::{SetAndAlias, Store, ZoneRef};
use denial_records::KeptSet;
use dname::Name;
use zone_chains::ZoneRecords;

impl Store {
    /// The zone that may answer: the longest zone of a held record, expired or not, that the name is at or below; for a DS,
    /// which is the parent's, strictly below (RFC 4035, section 3.1.4.1). It takes no memory.
    pub fn zone_for(&self, name: &Name, qtype: u16) -> Option<ZoneRef<'_>>
        ensures { result ≡ option_map (zone_in self.now) (zone_for self.now name.now qtype) }
    {
        let zone = self.holding.zone_for(name, qtype)?;
        Some(zone_in(&self.holding, zone))
    }
}

impl Holding {
    fn zone_for(&self, name: &Name, qtype: u16) -> Option<&ZoneRecords>
        ensures { MatchOption result (zone_for (in_key_order self.now) name.now qtype ≡ None)
            (λ zone. (zone_for (in_key_order self.now) name.now qtype ≡ Some zone.now.apex)
            × IsZoneIn (in_key_order self.now) zone.now) }
    {
        let zones: &Zones = &self.zones;
        let zone: &ZoneRecords = zone_for(zones, name, qtype)?;
        Some(zone)
    }

    /// The set of the zone at the owner name and type.
    pub(crate) fn set_at(&self, zone: &Name, owner: &Name, rtype: u16) -> Option<&KeptSet>
        ensures { option_copied result ≡ set_at (in_key_order self.now) zone.now owner.now rtype }
    {
        set_in(self.sets.list(), zone, owner, rtype)
    }

    /// The same, and the CNAME set at the owner name where the one search tells of it.
    pub(crate) fn set_and_alias_at(&self, zone: &Name, owner: &Name, rtype: u16) -> SetAndAlias<'_>
        ensures set { option_copied result.set
            ≡ set_at (in_key_order self.now) zone.now owner.now rtype }
        ensures alias { IfSome result.alias (λ alias. option_copied alias
            ≡ set_at (in_key_order self.now) zone.now owner.now CNAME_TYPE) }
    {
        set_and_alias_in(self.sets.list(), zone, owner, rtype)
    }
}
