//! How many sets of each zone are held.
ghost use Rattle.std.specs.Prelude.{◌≡◌, ◌<◌, ◌+◌, ◌-◌, IfOk};
ghost use Rattle.record_store.specs.Counts.{count_at, IsRecounted, count_cmp};

use dname::{Name, OutOfMemory};
use ordered_list::{Marking, OrderedList, Ranking};
use std::alloc::{AllocError, Global};
use std::cmp::Ordering;
use std::sync::Arc;

// A walk over the sets of a zone's number would do without counts, but two zones may share these 32 bits, and whoever
// signs zones finds such a pair among some 100,000 names: then each set that goes would cost a walk over all sets of
// the other.

/// A zone, and how many sets of it are held.
#[derive(Drop)]
pub(crate) struct SetCount {
    pub(crate) apex: Name,
    pub(crate) count: usize,
}

pub(crate) type SetCounts = OrderedList<SetCount, ByZone>;

/// Counts by the apexes of their zones, in canonical order.
pub(crate) struct ByZone;

impl Marking<SetCount> for ByZone {
    ghost mark = { λ each. 0 };

    ghost note = { λ _. 0 };

    fn mark(_each: &SetCount) -> u64 {
        0
    }

    fn note(_entry: &SetCount) -> u64 {
        0
    }
}

impl Ranking<SetCount> for ByZone {
    ghost use Rattle.record_store.specs.Counts.{count_cmp, counts_total, counts_rise};

    ghost cmp = { count_cmp };

    ghost total = { counts_total };

    ghost marks_rise = { counts_rise };

    fn compare(one: &SetCount, other: &SetCount) -> Ordering
        ensures { result ≡ count_cmp one.now other.now }
    {
        one.apex.cmp(&other.apex)
    }
}

/// How many sets of the zone are held, by search.
pub(crate) fn count_at(counts: &SetCounts, apex: &Name) -> usize
    ensures { result ≡ count_at apex.now counts.now }
{
    let like = SetCount {
        apex: apex.copy(),
        count: 0,
    };
    match counts.at(&like) {
        Some(each) => each.count,
        None => 0,
    }
}

/// With one set more of the zone, or want of memory where the number has no place.
pub(crate) fn one_more(
    alloc: Global,
    counts: &SetCounts,
    apex: &Name,
) -> Result<SetCounts, OutOfMemory>
    ensures { IfOk result (λ made.
        IsRecounted apex.now (count_at apex.now counts.now + 1) counts.now made) }
{
    let count = count_at(counts, apex).checked_add(1).ok_or(AllocError)?;
    recounted(alloc, counts, apex, count)
}

/// With one set less of the zone, of which there is one.
pub(crate) fn one_less(
    alloc: Global,
    counts: &SetCounts,
    apex: &Name,
) -> Result<SetCounts, OutOfMemory>
    requires { 0 < count_at apex.now counts.now }
    ensures { IfOk result (λ made.
        IsRecounted apex.now (count_at apex.now counts.now - 1) counts.now made) }
{
    recounted(alloc, counts, apex, count_at(counts, apex) - 1)
}

// With another number of sets of the zone. A zone without sets isn't listed.
fn recounted(
    alloc: Global,
    counts: &SetCounts,
    apex: &Name,
    count: usize,
) -> Result<SetCounts, OutOfMemory>
    ensures { IfOk result (λ made. IsRecounted apex.now count counts.now made) }
{
    let each = SetCount {
        apex: apex.copy(),
        count,
    };
    if count == 0 {
        counts.without(alloc, &each)
    } else {
        counts.with(alloc, Arc::new(alloc, each)?)
    }
}
