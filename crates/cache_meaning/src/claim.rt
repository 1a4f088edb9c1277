ghost use Rattle.std.specs.Prelude.{◌≡◌, ◌-◌, [], min, nat_lt, if◌then◌else◌, length, drop};
ghost use Rattle.byteorder.specs.Endian.{big_number};
ghost use Rattle.denial_records.specs.TimeLeft.{time_left};
ghost use Rattle.cache_meaning.specs.Ttl.{minimum_of, ttl_of};
ghost use Rattle.cache_meaning.specs.Views.{proof_by};

use denial_records::{KeptSet, remaining};
use dname::{Packed, u32_at};

/// What a proof says of a name and a type, by the set that answers or by the zone's SOA.
#[derive(Drop)]
pub(crate) enum Claim<'a> {
    Answer(&'a KeptSet),
    NoData(&'a KeptSet),
    NxDomain(&'a KeptSet),
}

impl<'a> Claim<'a> {
    /// The TTL of the proof without its denial records, in seconds.
    pub(crate) fn ttl(&self, now: u32) -> u32
        ensures { result ≡ ttl_of now (proof_by self.now []) }
    {
        match self {
            Claim::Answer(set) => set_left(set, now),
            Claim::NoData(soa) => denial_left(soa, now),
            Claim::NxDomain(soa) => denial_left(soa, now),
        }
    }
}

fn set_left(set: &KeptSet, now: u32) -> u32
    ensures { result ≡ time_left set.now.life set.now.expiry now }
{
    remaining(set.life(), set.expiry(), now)
}

// What the SOA has left, and at most its MINIMUM.
fn denial_left(soa: &KeptSet, now: u32) -> u32
    ensures { result ≡ min (time_left soa.now.life soa.now.expiry now)
        (minimum_of soa.now.items) }
{
    set_left(soa, now).min(minimum_of(soa.items()))
}

// An SOA's MINIMUM: the last four octets of its data, and 0 where they aren't there.
fn minimum_of(items: Packed<'_>) -> u32
    ensures { result ≡ minimum_of items.entry }
{
    let mut rest = items;
    match rest.next() {
        Some(first) => last_number(first),
        None => 0,
    }
}

fn last_number(octets: &[u8]) -> u32
    ensures { result
        ≡ (if nat_lt (length octets.now) 4 then 0 else big_number 4 (drop (length octets.now -
        4) octets.now)) }
{
    if octets.len() < 4 {
        return 0;
    }
    u32_at(octets, octets.len() - 4)
}
