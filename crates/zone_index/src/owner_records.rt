ghost use Rattle.std.specs.Prelude.{◌≡◌, ◌↔◌, IsTrue};
ghost use Rattle.zone_meaning.specs.Zone.{HasData, HasType, IsBar, IsCut, IsOwner};
ghost use Rattle.zone_index.specs.Entries.{AreOfType, AreOwners};

use crate::ZoneIndex;
use crate::entry::Entry;
use crate::sought::Sought;
use crate::zone_index::run_in;
use dname::LentName;
use dname::types::{DNAME_TYPE, NS_TYPE};
use std::marker::Model;

/// The records that a zone has of a name, seen as the two.
#[derive(Drop)]
pub(crate) struct OwnerRecords<'a> {
    zone: &'a ZoneIndex,
    name: &'a LentName<'a>,
    // By type and data.
    entries: &'a [Entry],
}

impl<'a> Model for OwnerRecords<'a> {
    ghost use Rattle.zone_index.specs.Entries.{AreOwners, NameInZone};

    ghost Value = { NameInZone };

    ghost view = { λ r. record { zone = r.zone.now; name = r.name.now } };

    ghost invariant = { λ r. AreOwners r.zone.now r.name.now r.entries.now };
}

impl<'a> OwnerRecords<'a> {
    pub(crate) fn of(
        zone: &'a ZoneIndex,
        name: &'a LentName<'a>,
        entries: &'a [Entry],
    ) -> OwnerRecords<'a>
        requires { AreOwners zone.now name.now entries.now }
        ensures zone { result.zone ≡ zone.now }
        ensures name { result.name ≡ name.now }
    {
        OwnerRecords {
            zone,
            name,
            entries,
        }
    }

    /// The zone.
    pub(crate) fn zone(&self) -> &ZoneIndex
        ensures { result.now ≡ self.now.zone }
    {
        self.zone
    }

    /// The records, by type and data.
    pub(crate) fn entries(&self) -> &[Entry]
        ensures { AreOwners self.now.zone self.now.name result.now }
    {
        self.entries
    }

    /// Whether there are some.
    pub(crate) fn are_some(&self) -> bool
        ensures { IsTrue result ↔ IsOwner self.now.zone self.now.name }
    {
        !self.entries().is_empty()
    }

    /// Whether one has the type.
    pub(crate) fn has_type(&self, rtype: u16) -> bool
        ensures { IsTrue result ↔ HasType self.now.zone self.now.name rtype }
    {
        !self.of_type(rtype).is_empty()
    }

    /// Whether one has the type and data.
    pub(crate) fn has_data(&self, rtype: u16, octets: &[u8]) -> bool
        ensures { IsTrue result ↔ HasData self.now.zone self.now.name rtype octets.now }
    {
        !run_in(self.entries(), &Sought::WithData(rtype, octets)).is_empty()
    }

    /// Those of the type.
    pub(crate) fn of_type(&self, rtype: u16) -> &[Entry]
        ensures { AreOfType self.now.zone self.now.name rtype result.now }
    {
        run_in(self.entries(), &Sought::OfType(rtype))
    }

    fn is_at_apex(&self) -> bool
        ensures { IsTrue result ↔ (self.now.zone.apex ≡ self.now.name) }
    {
        is_apex(self.zone, self.name)
    }

    /// Whether another zone begins at the name.
    pub(crate) fn is_cut(&self) -> bool
        ensures { IsTrue result ↔ IsCut self.now.zone self.now.name }
    {
        !self.is_at_apex() && self.has_type(NS_TYPE)
    }

    /// Whether the zone says nothing below the name.
    pub(crate) fn is_bar(&self) -> bool
        ensures { IsTrue result ↔ IsBar self.now.zone self.now.name }
    {
        self.is_cut() || self.has_type(DNAME_TYPE)
    }
}

/// Whether the name is the zone's apex.
pub(crate) fn is_apex(zone: &ZoneIndex, name: &LentName<'_>) -> bool
    ensures { IsTrue result ↔ (zone.now.apex ≡ name.now) }
{
    let apex = zone.apex().lent();
    apex == *name
}
