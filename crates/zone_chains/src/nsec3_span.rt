//! NSEC3 records as spans of hashes.
ghost use Rattle.std.specs.Prelude.{◌≡◌, [], ◌∷◌, filter, MatchOption, IfSome};
ghost use Rattle.zone_chains.specs.Views.{AreNsec3s, IsNsec3, nsec3_start, nsec3_end};
ghost use Rattle.cache_meaning.specs.Lent.{place_by};
ghost use Rattle.range_index.specs.Arcs.{span_has};
ghost use Rattle.std.specs.Ordering.{nat_cmp};
ghost use Rattle.std.specs.Cmp.Lexicographic.{slice_cmp};
ghost use Rattle.std.specs.Str.{bytes_eq};

use crate::placed::placed;
use cache_meaning::Place;
use denial_records::{HASH_OCTETS, KeptNsec3, Record};
use range_index::{Arcs, RingSpan, hash_mark};
use std::cmp::Ordering;

/// NSEC3 records as spans from their hashes to the next (RFC 5155, section 3.1.7), sought by the first octets of the hash.
pub(crate) struct ByHash;

// What stands for the hash of a record that has none.
pub(crate) const NO_HASH: &[u8; HASH_OCTETS] = &[0; HASH_OCTETS];

impl RingSpan<Record> for ByHash {
    type Key = [u8; HASH_OCTETS];

    ghost use Rattle.zone_chains.specs.Views.{nsec3_start, nsec3_end, no_hash};
    ghost use Rattle.range_index.specs.Marks.{hash_mark};
    ghost use Rattle.range_index.proofs.KeyMarkLemmas.{hashes_rise};

    ghost start = { nsec3_start };

    ghost end = { nsec3_end };

    ghost origin = { λ item. no_hash };

    ghost mark = { λ origin key. hash_mark key };

    fn start_key(item: &Record) -> [u8; HASH_OCTETS] {
        *start_of(item)
    }

    fn end_key(item: &Record) -> [u8; HASH_OCTETS] {
        *end_of(item)
    }

    fn origin(_item: &Record) -> [u8; HASH_OCTETS] {
        *NO_HASH
    }

    fn compare_start(item: &Record, key: &[u8; HASH_OCTETS]) -> Ordering {
        start_of(item).cmp(key)
    }

    fn compare_end(item: &Record, key: &[u8; HASH_OCTETS]) -> Ordering {
        end_of(item).cmp(key)
    }

    fn compare_ends(item: &Record) -> Ordering {
        start_of(item).cmp(end_of(item))
    }

    fn mark(_within: &[u8; HASH_OCTETS], key: &[u8; HASH_OCTETS]) -> u64 {
        hash_mark(key)
    }

    ghost marks_rise = { λ origin. hashes_rise };
}

// The hash at which an NSEC3 record's span starts.
fn start_of(item: &Record) -> &[u8; HASH_OCTETS]
    ensures { result.now ≡ nsec3_start item.now }
{
    match item {
        Record::Nsec3(nsec3) => nsec3.hash(),
        _ => NO_HASH,
    }
}

// The hash at which it ends.
fn end_of(item: &Record) -> &[u8; HASH_OCTETS]
    ensures { result.now ≡ nsec3_end item.now }
{
    match item {
        Record::Nsec3(nsec3) => nsec3.next(),
        _ => NO_HASH,
    }
}

/// The NSEC3 record whose span has the hash, and where in it.
pub(crate) fn nsec3_in<'a>(
    arcs: &'a Arcs<Record, ByHash>,
    hash: &[u8; HASH_OCTETS],
) -> Option<(&'a KeptNsec3, Place)>
    requires { AreNsec3s arcs.now }
    ensures record { MatchOption result
        (filter (span_has (slice_cmp nat_cmp) nsec3_start nsec3_end hash.now) arcs.now ≡ [])
        (λ found. filter (span_has (slice_cmp nat_cmp) nsec3_start nsec3_end hash.now) arcs.now
        ≡ Record.Nsec3 found.0.now ∷ []) }
    ensures place { IfSome result
        (λ found. found.1 ≡ place_by (bytes_eq found.0.now.hash hash.now)) }
{
    match arcs.at(NO_HASH, hash) {
        Some((item, place)) => Some((nsec3_of(item), placed(place))),
        None => None,
    }
}

fn nsec3_of(item: &Record) -> &KeptNsec3
    requires { IsNsec3 item.now }
    ensures { Record.Nsec3 result.now ≡ item.now }
{
    match item {
        Record::Nsec3(nsec3) => nsec3,
        _ => unreachable!(),
    }
}
