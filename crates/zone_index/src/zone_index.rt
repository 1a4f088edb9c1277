ghost use Rattle.std.specs.Prelude.{◌≡◌, ◌≤◌, ◌↔◌, ◌-◌, true, false, length, map, take, drop, IsTrue, IfOk};
ghost use Rattle.std.specs.List.{Contains};
ghost use Rattle.std.specs.List.Sorted.{IsSorted, IsPartitionPoint};
ghost use Rattle.std.specs.Ordering.{is_lt, is_le};
ghost use Rattle.dname.specs.Name.{IsUnder};
ghost use Rattle.zone_meaning.specs.Zone.{IsZone, IsSameZone, HasData, HasType, IsOwner, IsCut, IsBar, IsLive};
ghost use Rattle.zone_index.specs.Entries.{AreIndexed, AreOwners, IsRun, Rises, entry_cmp, record_of, versus, zone_in};
ghost use Rattle.zone_index.specs.Live.{IsBarred};

use crate::entry::Entry;
use crate::owner_records::OwnerRecords;
use crate::sought::{Sought, versus};
use dname::{LentName, Name, OutOfMemory};
use std::cmp::Ordering;
use std::marker::Model;

/// A zone whose records are found by search, seen as the zone with its apex and records.
#[derive(Drop)]
pub struct ZoneIndex {
    apex: Name,
    // By owner name, type and data.
    entries: Vec<Entry>,
}

impl Model for ZoneIndex {
    ghost use Rattle.zone_meaning.specs.Zone.{Zone};
    ghost use Rattle.zone_index.specs.Entries.{zone_in, AreIndexed};

    ghost Value = { Zone };

    ghost view = { λ z. zone_in z.apex z.entries.items };

    ghost invariant = { λ z. AreIndexed z.apex z.entries.items };
}

impl ZoneIndex {
    pub(crate) fn of(apex: Name, entries: Vec<Entry>) -> Result<ZoneIndex, OutOfMemory>
        requires { IsZone (zone_in apex entries.items) }
        ensures { IfOk result (λ index. IsSameZone (zone_in apex entries.items) index) }
    {
        let mut entries = entries;
        entries.sort_by(|one, other| order(one, other))?;
        Ok(ZoneIndex { apex, entries })
    }

    /// The name at the zone's top.
    pub fn apex(&self) -> &Name
        ensures value { result.now ≡ self.now.apex }
        ensures zone { IsZone self.now }
    {
        &self.apex
    }

    /// Whether there is a record of the owner and type.
    pub fn has_type(&self, owner: &Name, rtype: u16) -> bool
        ensures { IsTrue result ↔ HasType self.now owner.now rtype }
    {
        self.records_of(&owner.lent()).has_type(rtype)
    }

    /// Whether there is a record of the owner and type with this data.
    pub fn has_data(&self, owner: &Name, rtype: u16, octets: &[u8]) -> bool
        ensures { IsTrue result ↔ HasData self.now owner.now rtype octets.now }
    {
        self.records_of(&owner.lent()).has_data(rtype, octets)
    }

    /// Whether there is a record of the owner.
    pub fn is_owner(&self, name: &Name) -> bool
        ensures { IsTrue result ↔ IsOwner self.now name.now }
    {
        self.records_of(&name.lent()).are_some()
    }

    /// Whether another zone begins at the name.
    pub fn is_cut(&self, name: &Name) -> bool
        ensures { IsTrue result ↔ IsCut self.now name.now }
    {
        self.records_of(&name.lent()).is_cut()
    }

    fn is_bar(&self, name: &Name) -> bool
        ensures { IsTrue result ↔ IsBar self.now name.now }
    {
        self.records_of(&name.lent()).is_bar()
    }

    /// Whether a cut or a DNAME is above the name.
    pub fn is_barred(&self, name: &Name) -> bool
        requires { IsUnder name.now self.now.apex }
        ensures { IsTrue result ↔ IsBarred self.now name.now }
    {
        for labels in self.apex().labels()..name.labels() {
            if self.is_bar(&name.last(labels)) {
                return true;
            }
        }
        false
    }

    /// Whether the name is live.
    pub fn is_live(&self, name: &Name) -> bool
        ensures { IsTrue result ↔ IsLive self.now name.now }
    {
        if !name.is_under(self.apex()) {
            return false;
        }
        if !self.is_owner(name) {
            return false;
        }
        !self.is_barred(name)
    }

    /// The entries of the zone.
    pub(crate) fn entries(&self) -> &[Entry]
        ensures records { self.now ≡ zone_in self.now.apex result.now }
        ensures indexed { AreIndexed self.now.apex result.now }
    {
        self.entries.as_slice()
    }

    /// The records of the name.
    pub(crate) fn records_of<'a>(&'a self, name: &'a LentName<'a>) -> OwnerRecords<'a>
        ensures zone { result.zone ≡ self.now }
        ensures name { result.name ≡ name.now }
    {
        OwnerRecords::of(self, name, self.run_of(name))
    }

    /// The entries of the name.
    pub(crate) fn run_of(&self, name: &LentName<'_>) -> &[Entry]
        ensures { AreOwners self.now name.now result.now }
    {
        run_in(self.entries(), &Sought::AtOwner(name))
    }
}

/// The entries that are looked for.
pub(crate) fn run_in<'a>(entries: &'a [Entry], sought: &Sought<'_>) -> &'a [Entry]
    requires { Rises sought.now entries.now }
    ensures run { IsRun sought.now entries.now result.now }
    ensures sorted { IsSorted entry_cmp entries.now → IsSorted entry_cmp result.now }
{
    let from = place_before(entries, sought);
    let upto = place_behind(entries, sought);
    between(entries, from, upto)
}

// How many entries stand before those.
fn place_before(entries: &[Entry], sought: &Sought<'_>) -> usize
    requires { Rises sought.now entries.now }
    ensures bound { result ≤ length entries.now }
    ensures point { IsPartitionPoint
        (λ e. is_lt (versus sought.now (record_of e)) ≡ true)
        (λ e. is_lt (versus sought.now (record_of e)) ≡ false) entries.now result }
{
    entries.partition_point(|entry| versus(sought, entry).is_lt())
}

// How many entries stand before those or are of them.
fn place_behind(entries: &[Entry], sought: &Sought<'_>) -> usize
    requires { Rises sought.now entries.now }
    ensures bound { result ≤ length entries.now }
    ensures point { IsPartitionPoint
        (λ e. is_le (versus sought.now (record_of e)) ≡ true)
        (λ e. is_le (versus sought.now (record_of e)) ≡ false) entries.now result }
{
    entries.partition_point(|entry| versus(sought, entry).is_le())
}

fn between(entries: &[Entry], from: usize, upto: usize) -> &[Entry]
    requires order { from ≤ upto }
    requires within { upto ≤ length entries.now }
    ensures { result.now ≡ take (upto - from) (drop from entries.now) }
{
    entries.split_at(upto).0.split_at(from).1
}

// By owner name, type and data.
fn order(one: &Entry, other: &Entry) -> Ordering
    ensures { result ≡ entry_cmp one.now other.now }
{
    let owners = one.owner.name().cmp(other.owner.name());
    let data = one.octets.as_slice().cmp(other.octets.as_slice());
    owners.then(one.rtype.cmp(&other.rtype).then(data))
}
