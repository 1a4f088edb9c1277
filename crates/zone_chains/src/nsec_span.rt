//! NSEC records as spans of names.
ghost use Rattle.std.specs.Prelude.{◌≡◌, [], ◌∷◌, filter, MatchOption, IfSome};
ghost use Rattle.zone_chains.specs.Views.{AreOf, IsNsec, nsec_start, nsec_end};
ghost use Rattle.cache_meaning.specs.Held.{NsecChain, zone_of};
ghost use Rattle.cache_meaning.specs.Lent.{place_by};
ghost use Rattle.range_index.specs.Arcs.{span_has};
ghost use Rattle.dname.specs.Name.{canonical_cmp};
ghost use Rattle.cache_meaning.specs.Evidence.{nsec_matches};

use crate::placed::placed;
use cache_meaning::Place;
use denial_records::{KeptNsec, Record};
use dname::{LentName, Name};
use range_index::{Arcs, RingSpan, name_mark};
use std::cmp::Ordering;

/// NSEC records as spans from their owner names to the next (RFC 4034, section 4.1.1), sought by the label in front of their
/// zone's apex.
pub(crate) struct ByOwner;

impl RingSpan<Record> for ByOwner {
    type Key = Name;

    ghost use Rattle.zone_chains.specs.Views.{nsec_start, nsec_end};
    ghost use Rattle.range_index.specs.Marks.{name_mark};
    ghost use Rattle.range_index.proofs.KeyMarkLemmas.{names_rise};

    ghost start = { nsec_start };

    ghost end = { nsec_end };

    ghost origin = { zone_of };

    ghost mark = { name_mark };

    fn start_key(item: &Record) -> Name {
        start_of(item).name()
    }

    fn end_key(item: &Record) -> Name {
        end_of(item).name()
    }

    fn origin(item: &Record) -> Name {
        zone_of(item).name()
    }

    fn compare_start(item: &Record, key: &Name) -> Ordering {
        start_of(item).cmp(&key.lent())
    }

    fn compare_end(item: &Record, key: &Name) -> Ordering {
        end_of(item).cmp(&key.lent())
    }

    fn compare_ends(item: &Record) -> Ordering {
        start_of(item).cmp(&end_of(item))
    }

    fn mark(within: &Name, key: &Name) -> u64 {
        name_mark(within, key)
    }

    ghost marks_rise = { names_rise };
}

/// The apex of the zone that the record is of.
pub(crate) fn zone_of(item: &Record) -> LentName<'_>
    ensures { result ≡ zone_of item.now }
{
    match item {
        Record::Set(set) => set.zone(),
        Record::Nsec(nsec) => nsec.zone(),
        Record::Nsec3(nsec3) => nsec3.zone(),
    }
}

// Where an NSEC record's span starts; another record has its owner or zone there.
fn start_of(item: &Record) -> LentName<'_>
    ensures { result ≡ nsec_start item.now }
{
    match item {
        Record::Set(set) => set.owner(),
        Record::Nsec(nsec) => nsec.owner(),
        Record::Nsec3(nsec3) => nsec3.zone(),
    }
}

// Where it ends.
fn end_of(item: &Record) -> LentName<'_>
    ensures { result ≡ nsec_end item.now }
{
    match item {
        Record::Set(set) => set.owner(),
        Record::Nsec(nsec) => nsec.next(),
        Record::Nsec3(nsec3) => nsec3.zone(),
    }
}

/// The NSEC record of the zone whose span has the name, and where in it.
pub(crate) fn nsec_in<'a>(
    arcs: &'a Arcs<Record, ByOwner>,
    zone: &Name,
    name: &Name,
) -> Option<(&'a KeptNsec, Place)>
    requires { AreOf (record { zone = zone.now; chain = NsecChain }) arcs.now }
    ensures record { MatchOption result
        (filter (span_has canonical_cmp nsec_start nsec_end name.now) arcs.now ≡ [])
        (λ found. filter (span_has canonical_cmp nsec_start nsec_end name.now) arcs.now
        ≡ Record.Nsec found.0.now ∷ []) }
    ensures place { IfSome result
        (λ found. found.1 ≡ place_by (nsec_matches found.0.now name.now)) }
{
    match arcs.at(zone, name) {
        Some((item, place)) => Some((nsec_of(item), placed(place))),
        None => None,
    }
}

fn nsec_of(item: &Record) -> &KeptNsec
    requires { IsNsec item.now }
    ensures { Record.Nsec result.now ≡ item.now }
{
    match item {
        Record::Nsec(nsec) => nsec,
        _ => unreachable!(),
    }
}
