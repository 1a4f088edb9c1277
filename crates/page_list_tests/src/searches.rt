//! Searches, and how often they ask.
ghost use Rattle.std.specs.Prelude.{◌≡◌, ◌/◌, nat_lt};
ghost use Rattle.std.specs.List.{prefix_len};
ghost use Rattle.std.specs.List.Sorted.{IsPartitionedBy};

use crate::numbers::{Numbers, list_of, next, one_changed};
use page_list::{MarkedList, Marking, NoMarks, OutOfMemory};
use std::alloc::Global;
use std::cell::Cell;
use std::sync::Arc;
use std::test::Fail;

// How many entries are below a number, in a list that rises.
fn count_below(list: &Numbers, bound: u64) -> usize
    requires { IsPartitionedBy (λ x. nat_lt x bound) list.now }
    ensures { result ≡ prefix_len (λ x. nat_lt x bound) list.now }
{
    list.find(|x| *x < bound)
}

// The most calls of `before` in a search in the list of 0..count for each of 2001 bounds, or fewer, that lie
// `step` apart; none where a search is wrong.
fn most_calls(list: &Numbers, count: u64, step: u64) -> Option<u64> {
    let mut most = 0;
    for k in 0..2001u64 {
        let bound = k.saturating_mul(step).min(count);
        let calls = Cell::new(0u64);
        let found = list.find(|x| {
            calls.set(calls.get().wrapping_add(1));
            *x < bound
        });
        if found as u64 != bound {
            return None;
        }
        most = most.max(calls.get());
    }
    Some(most)
}

// How many entries, how far apart the bounds are, and how many calls are enough.
const CALLS: [(u64, u64, u64); 8] = [
    (0, 1, 0),
    (1, 1, 1),
    (31, 1, 5),
    (32, 1, 6),
    (33, 1, 6),
    (1024, 1, 11),
    (1025, 1, 12),
    (131_072, 67, 18),
];

// The first full list in which a search takes more calls, or is wrong: how many entries it has, and how many calls it took.
fn first_dear(
    alloc: Global,
    rows: &[(u64, u64, u64)],
) -> Result<Option<(u64, Option<u64>)>, OutOfMemory> {
    for (count, step, enough) in rows {
        let most = most_calls(&list_of(alloc, *count)?, *count, *step);
        if most.is_none_or(|most| most > *enough) {
            return Ok(Some((*count, most)));
        }
    }
    Ok(None)
}

#[test]
fn finds_with_few_calls(rt: HostRuntime) -> Result<(), Fail> {
    let dear = first_dear(rt.alloc(), &CALLS)?;
    assert!(rt; dear.is_none(), "{dear:?}");
    Ok(())
}

fn calls_in_worn(alloc: Global) -> Result<Option<u64>, OutOfMemory> {
    let mut seed = 3;
    let mut list = list_of(alloc, 131_072)?;
    for _ in 0..20_000u64 {
        let at = next(&mut seed) % 131_072;
        let without = one_changed(alloc, &list, at as usize, None)?;
        list = one_changed(alloc, &without, at as usize, Some(at))?;
    }
    Ok(most_calls(&list, 131_072, 67))
}

#[test]
fn finds_with_few_calls_in_a_worn_list(rt: HostRuntime) -> Result<(), Fail> {
    let most = calls_in_worn(rt.alloc())?;
    assert!(rt; most.is_some_and(|most| most <= 20), "{most:?}");
    Ok(())
}

// The entry itself as its mark.
#[derive(Drop)]
struct Itself;

impl Marking<u64> for Itself {
    ghost mark = { λ x. x };

    ghost note = { λ x. x };

    fn mark(entry: &u64) -> u64 {
        *entry
    }

    fn note(entry: &u64) -> u64 {
        *entry
    }
}

// Ten numbers with one mark.
#[derive(Drop)]
struct Tens;

impl Marking<u64> for Tens {
    ghost mark = { λ x. x / 10 };

    ghost note = { λ x. x };

    fn mark(entry: &u64) -> u64 {
        *entry / 10
    }

    fn note(entry: &u64) -> u64 {
        *entry
    }
}

// The numbers up to `count` in order, each as often as `repeat` says.
fn marked<M: Marking<u64>>(
    alloc: Global,
    count: u64,
    repeat: u64,
) -> Result<MarkedList<u64, M>, OutOfMemory> {
    let mut items = Vec::new(alloc);
    for n in 0..count {
        for _ in 0..repeat {
            items.push(Arc::new(alloc, n)?)?;
        }
    }
    let empty: MarkedList<u64, M> = MarkedList::empty(alloc);
    empty.with_replaced(alloc, 0, 0, items)
}

// Whether `find_at` finds each of up to 201 bounds where `find` does, and asks of entries with its mark alone.
fn finds_by_marks<M: Marking<u64>>(list: &MarkedList<u64, M>, count: u64, repeat: u64) -> bool {
    let step = count / 200 + 1;
    for k in 0..201u64 {
        let bound = k.saturating_mul(step).min(count);
        let mark = M::mark(&bound);
        let strange = Cell::new(false);
        let found = list.find_at(mark, |x| {
            if M::mark(x) != mark {
                strange.set(true);
            }
            *x < bound
        });
        if strange.get() || found as u64 != bound.saturating_mul(repeat) {
            return false;
        }
        if found != list.find(|x| *x < bound) {
            return false;
        }
    }
    true
}

// In a full list, and in one worn by 100 changes.
fn searches_agree<M: Marking<u64>>(
    alloc: Global,
    count: u64,
    repeat: u64,
) -> Result<bool, OutOfMemory> {
    let mut list: MarkedList<u64, M> = marked(alloc, count, repeat)?;
    if !finds_by_marks(&list, count, repeat) {
        return Ok(false);
    }
    let mut seed = 5;
    for _ in 0..100u64 {
        let at = next(&mut seed) as usize % list.len().max(1);
        if at < list.len() {
            let number = **list.get(at);
            let without = one_changed(alloc, &list, at, None)?;
            list = one_changed(alloc, &without, at, Some(number))?;
        }
    }
    Ok(finds_by_marks(&list, count, repeat))
}

// How many numbers, and how often each stands there.
const REPEATED: [[u64; 2]; 7] = [
    [0, 1],
    [1, 1],
    [33, 1],
    [1100, 1],
    [70, 40],
    [3000, 3],
    [20_000, 1],
];

fn first_apart<M: Marking<u64>>(
    alloc: Global,
    rows: &[[u64; 2]],
) -> Result<Option<[u64; 2]>, OutOfMemory> {
    for [count, repeat] in rows {
        if !searches_agree::<M>(alloc, *count, *repeat)? {
            return Ok(Some([*count, *repeat]));
        }
    }
    Ok(None)
}

#[test]
fn finds_by_marks_what_it_finds_without(rt: HostRuntime) -> Result<(), Fail> {
    let apart = first_apart::<NoMarks>(rt.alloc(), &REPEATED)?;
    assert!(rt; apart.is_none(), "all marks zero, {apart:?}");
    let apart = first_apart::<Tens>(rt.alloc(), &REPEATED)?;
    assert!(rt; apart.is_none(), "equal marks, {apart:?}");
    let apart = first_apart::<Itself>(rt.alloc(), &REPEATED)?;
    assert!(rt; apart.is_none(), "marks that decide all, {apart:?}");
    Ok(())
}
