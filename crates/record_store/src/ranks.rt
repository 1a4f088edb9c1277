//! The orders in which records are held.
ghost use Rattle.std.specs.Prelude.{◌≡◌};
ghost use Rattle.cache_meaning.specs.Held.{zone_of, expiry_of, key_cmp, set_key_cmp, nsec_key_cmp, nsec3_key_cmp};
ghost use Rattle.dname.specs.Name.{canonical_cmp};
ghost use Rattle.record_store.specs.Ranks.{going_cmp, set_cmp, apex_cmp};

use crate::marks::lent_set_number;
use denial_records::{KeptNsec, KeptNsec3, KeptSet, Record};
use dname::{LentName, Name};
use ordered_list::{Marking, Ranking};
use std::cmp::Ordering;
use zone_chains::ZoneRecords;

/// Zones by their apex, in canonical order.
pub(crate) struct ByApex;

impl Marking<ZoneRecords> for ByApex {
    ghost mark = { λ zone. 0 };

    ghost note = { λ _. 0 };

    fn mark(_zone: &ZoneRecords) -> u64 {
        0
    }

    fn note(_entry: &ZoneRecords) -> u64 {
        0
    }
}

impl Ranking<ZoneRecords> for ByApex {
    ghost use Rattle.record_store.specs.Ranks.{apex_cmp, apexes_total, apexes_rise};

    ghost cmp = { apex_cmp };

    ghost total = { apexes_total };

    ghost marks_rise = { apexes_rise };

    fn compare(one: &ZoneRecords, other: &ZoneRecords) -> Ordering
        ensures { result ≡ apex_cmp one.now other.now }
    {
        one.apex().cmp(other.apex())
    }
}

/// Sets by the numbers by which they are sought, and then by their keys.
pub(crate) struct BySet;

impl Marking<Record> for BySet {
    ghost use Rattle.record_store.specs.Marks.{set_mark};

    ghost mark = { set_mark };

    ghost note = { λ _. 0 };

    fn mark(item: &Record) -> u64 {
        match item {
            Record::Set(set) => lent_set_number(&set.zone(), &set.owner(), set.rtype()),
            _ => 0,
        }
    }

    fn note(_entry: &Record) -> u64 {
        0
    }
}

impl Ranking<Record> for BySet {
    ghost use Rattle.record_store.specs.Ranks.{set_cmp, sets_total, sets_rise};

    ghost cmp = { set_cmp };

    ghost total = { sets_total };

    ghost marks_rise = { sets_rise };

    fn compare(one: &Record, other: &Record) -> Ordering
        ensures { result ≡ set_cmp one.now other.now }
    {
        // records of one key have one number
        match key_cmp(one, other) {
            Ordering::Equal => Ordering::Equal,
            by_key => BySet::mark(one).cmp(&BySet::mark(other)).then(by_key),
        }
    }
}

/// Records in the order in which they go where there are too many: what expires first, of several the first by its key.
pub(crate) struct ByGoing;

impl Marking<Record> for ByGoing {
    ghost use Rattle.cache_meaning.specs.Held.{expiry_of};

    ghost mark = { expiry_of };

    ghost note = { λ _. 0 };

    fn mark(item: &Record) -> u64 {
        expiry_of(item)
    }

    fn note(_entry: &Record) -> u64 {
        0
    }
}

impl Ranking<Record> for ByGoing {
    ghost use Rattle.record_store.specs.Ranks.{going_cmp, goings_total, goings_rise};

    ghost cmp = { going_cmp };

    ghost total = { goings_total };

    ghost marks_rise = { goings_rise };

    fn compare(one: &Record, other: &Record) -> Ordering
        ensures { result ≡ going_cmp one.now other.now }
    {
        expiry_of(one)
            .cmp(&expiry_of(other))
            .then_with(|| key_cmp(one, other))
    }
}

/// The moment from which the record may not be used, in seconds.
pub(crate) fn expiry_of(item: &Record) -> u64
    ensures { result ≡ expiry_of item.now }
{
    match item {
        Record::Set(set) => set.expiry(),
        Record::Nsec(nsec) => nsec.expiry(),
        Record::Nsec3(nsec3) => nsec3.expiry(),
    }
}

fn key_cmp(item: &Record, other: &Record) -> Ordering
    ensures { result ≡ key_cmp item.now other.now }
{
    match (item, other) {
        (Record::Set(set), Record::Set(other)) => set_key_cmp(set, other),
        (Record::Set(_), _) => Ordering::Less,
        (_, Record::Set(_)) => Ordering::Greater,
        (Record::Nsec(nsec), Record::Nsec(other)) => nsec_key_cmp(nsec, other),
        (Record::Nsec(nsec), Record::Nsec3(other)) => {
            zone_cmp(&nsec.zone(), &other.zone()).then(Ordering::Less)
        }
        (Record::Nsec3(nsec3), Record::Nsec(other)) => {
            zone_cmp(&nsec3.zone(), &other.zone()).then(Ordering::Greater)
        }
        (Record::Nsec3(nsec3), Record::Nsec3(other)) => nsec3_key_cmp(nsec3, other),
    }
}

fn set_key_cmp(set: &KeptSet, other: &KeptSet) -> Ordering
    ensures { result ≡ set_key_cmp set.now other.now }
{
    zone_cmp(&set.zone(), &other.zone()).then_with(|| set
        .owner()
        .cmp(&other.owner())
        .then(set.rtype().cmp(&other.rtype())))
}

fn nsec_key_cmp(nsec: &KeptNsec, other: &KeptNsec) -> Ordering
    ensures { result ≡ nsec_key_cmp nsec.now other.now }
{
    zone_cmp(&nsec.zone(), &other.zone()).then_with(|| nsec.owner().cmp(&other.owner()))
}

fn nsec3_key_cmp(nsec3: &KeptNsec3, other: &KeptNsec3) -> Ordering
    ensures { result ≡ nsec3_key_cmp nsec3.now other.now }
{
    zone_cmp(&nsec3.zone(), &other.zone()).then_with(|| nsec3
        .iterations()
        .cmp(&other.iterations())
        .then_with(|| nsec3
            .salt()
            .cmp(other.salt())
            .then_with(|| nsec3.hash().cmp(other.hash()))))
}

// Canonical order. Most records that are compared are of one zone, and that is seen without taking names apart.
fn zone_cmp(zone: &LentName<'_>, other: &LentName<'_>) -> Ordering
    ensures { result ≡ canonical_cmp zone.now other.now }
{
    if *zone == *other {
        Ordering::Equal
    } else {
        zone.cmp(other)
    }
}

/// The apex of the zone that signed the record.
pub(crate) fn zone_of(item: &Record) -> Name
    ensures { result ≡ zone_of item.now }
{
    match item {
        Record::Set(set) => set.zone().name(),
        Record::Nsec(nsec) => nsec.zone().name(),
        Record::Nsec3(nsec3) => nsec3.zone().name(),
    }
}
