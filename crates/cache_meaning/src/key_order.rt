ghost use Rattle.std.specs.Prelude.{◌≡◌};
ghost use Rattle.cache_meaning.specs.Held.{goes_before, key_cmp, set_key_cmp, nsec_key_cmp, nsec3_key_cmp};

use crate::records::expiry_of;
use denial_records::{KeptNsec, KeptNsec3, KeptSet, Record};
use std::cmp::Ordering;

/// Whether of the two the record is the first to go when there are too many: it expires first, or is first in key order.
pub(crate) fn goes_before(item: &Record, other: &Record) -> bool
    ensures { result ≡ goes_before item.now other.now }
{
    expiry_of(item)
        .cmp(&expiry_of(other))
        .then(key_cmp(item, other))
        .is_lt()
}

fn key_cmp(item: &Record, other: &Record) -> Ordering
    ensures { result ≡ key_cmp item.now other.now }
{
    match (item, other) {
        (Record::Set(set), Record::Set(other)) => set_key_cmp(set, other),
        (Record::Set(_), _) => Ordering::Less,
        (_, Record::Set(_)) => Ordering::Greater,
        (Record::Nsec(nsec), Record::Nsec(other)) => nsec_key_cmp(nsec, other),
        (Record::Nsec(nsec), Record::Nsec3(other)) => nsec
            .zone()
            .cmp(&other.zone())
            .then(Ordering::Less),
        (Record::Nsec3(nsec3), Record::Nsec(other)) => nsec3
            .zone()
            .cmp(&other.zone())
            .then(Ordering::Greater),
        (Record::Nsec3(nsec3), Record::Nsec3(other)) => nsec3_key_cmp(nsec3, other),
    }
}

fn set_key_cmp(set: &KeptSet, other: &KeptSet) -> Ordering
    ensures { result ≡ set_key_cmp set.now other.now }
{
    set.zone().cmp(&other.zone()).then(
        set.owner()
            .cmp(&other.owner())
            .then(set.rtype().cmp(&other.rtype())),
    )
}

fn nsec_key_cmp(nsec: &KeptNsec, other: &KeptNsec) -> Ordering
    ensures { result ≡ nsec_key_cmp nsec.now other.now }
{
    nsec.zone()
        .cmp(&other.zone())
        .then(nsec.owner().cmp(&other.owner()))
}

fn nsec3_key_cmp(nsec3: &KeptNsec3, other: &KeptNsec3) -> Ordering
    ensures { result ≡ nsec3_key_cmp nsec3.now other.now }
{
    let by_salt = nsec3.salt().cmp(other.salt());
    nsec3.zone().cmp(&other.zone()).then(
        nsec3
            .iterations()
            .cmp(&other.iterations())
            .then(by_salt.then(nsec3.hash().cmp(other.hash()))),
    )
}
