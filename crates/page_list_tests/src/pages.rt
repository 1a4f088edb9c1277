//! What lists share, and what they let go.
use crate::numbers::{Numbers, list_of, next, numbers, one_changed};
use page_list::OutOfMemory;
use std::alloc::Global;
use std::sync::Arc;
use std::test::Fail;

// How many entries of a list have further owners.
fn shared_in(list: &Numbers) -> usize {
    let mut count = 0usize;
    for entry in list {
        if Arc::strong_count(entry) > 1 {
            count = count.saturating_add(1);
        }
    }
    count
}

// How many of those near a place.
fn shared_near(list: &Numbers, at: usize) -> usize {
    let mut count = 0usize;
    for i in at.saturating_sub(70)..at.saturating_add(70) {
        if i < list.len() && Arc::strong_count(list.get(i)) > 1 {
            count = count.saturating_add(1);
        }
    }
    count
}

// How many entries a change at a place has copied, while the old list stays; now and then all are looked at.
fn copied(old: &Numbers, at: usize, of_all: bool) -> usize {
    if of_all {
        shared_in(old)
    } else {
        shared_near(old, at)
    }
}

// The most entries that one of 5000 changes of a list copies into new pages.
fn most_copied(alloc: Global) -> Result<usize, OutOfMemory> {
    let mut seed = 11;
    let mut list = list_of(alloc, 131_072)?;
    let mut most = 0;
    for turn in 0..5000u64 {
        // at each border of the full pages first
        let at = if turn < 1000 {
            turn * 32
        } else {
            next(&mut seed) % 100_000
        };
        let new = if turn % 2 == 0 { None } else { Some(turn) };
        let new = one_changed(alloc, &list, at as usize, new)?;
        most = most.max(copied(&list, at as usize, turn % 500 == 0));
        list = new;
    }
    Ok(most)
}

#[test]
fn shares_what_it_does_not_touch(rt: HostRuntime) -> Result<(), Fail> {
    let most = most_copied(rt.alloc())?;
    // those of two pages
    assert!(rt; 0 < most && most <= 64, "{most}");
    Ok(())
}

// Whether an entry that goes from the start of a list of so many is kept by nothing else then.
fn first_is_let_go(alloc: Global, count: u64, in_place: bool) -> Result<bool, OutOfMemory> {
    let first = Arc::new(alloc, 0)?;
    let one = Numbers::empty(alloc).with_one(alloc, 0, 0, Arc::try_clone(&first)?)?;
    let at = one.len();
    let old = one.with_replaced(alloc, at, at, numbers(alloc, 1, count)?)?;
    drop(one);
    if Arc::strong_count(&first) == 1 || old.is_empty() {
        return Ok(false);
    }
    let new = if in_place {
        old.into_without_run(alloc, 0, 1)?
    } else {
        let new = old.without_run(alloc, 0, 1)?;
        drop(old);
        new
    };
    Ok(Arc::strong_count(&first) == 1 && new.len() as u64 == count.saturating_sub(1))
}

// How many entries a list has from which the first isn't let go, and whether it went in place.
fn first_kept(alloc: Global, counts: &[u64]) -> Result<Option<(u64, bool)>, OutOfMemory> {
    for count in counts {
        if !first_is_let_go(alloc, *count, false)? {
            return Ok(Some((*count, false)));
        }
        if !first_is_let_go(alloc, *count, true)? {
            return Ok(Some((*count, true)));
        }
    }
    Ok(None)
}

#[test]
fn what_goes_is_let_go(rt: HostRuntime) -> Result<(), Fail> {
    // in one page, in one row of pages, in two such rows
    let kept = first_kept(rt.alloc(), &[3, 40, 600, 2000])?;
    assert!(rt; kept.is_none(), "{kept:?}");
    Ok(())
}
