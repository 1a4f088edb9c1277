//! Changes of a list beside those of a plain one.
ghost use Rattle.std.specs.Prelude.{◌≤◌, vec_len};

use crate::numbers::{Numbers, list_of, next, numbers, pages_of};
use page_list::{OutOfMemory, PageList};
use std::alloc::Global;
use std::sync::Arc;
use std::test::Fail;

fn shared(alloc: Global, items: &[Arc<u64>]) -> Result<Vec<Arc<u64>>, OutOfMemory> {
    let mut owners = Vec::new(alloc);
    for x in items {
        owners.push(Arc::try_clone(x)?)?;
    }
    Ok(owners)
}

// The plain list with the numbers in place of `from..to`.
fn replace(
    alloc: Global,
    plain: &mut Vec<u64>,
    from: usize,
    to: usize,
    items: &[Arc<u64>],
) -> Result<(), OutOfMemory>
    requires order { from ≤ to }
    requires in_range { to ≤ vec_len plain.old }
{
    let mut values = Vec::new(alloc);
    for x in items {
        values.push(**x)?;
    }
    drop(plain.splice(from..to, values)?);
    Ok(())
}

// By `get` and by the iterator.
fn same(list: &Numbers, plain: &[u64]) -> bool {
    if list.len() != plain.len() {
        return false;
    }
    for (i, x) in plain.iter().enumerate() {
        if i < list.len() && **list.get(i) != *x {
            return false;
        }
    }
    let mut rest = plain.iter();
    for entry in list {
        if rest.next() != Some(&**entry) {
            return false;
        }
    }
    rest.next().is_none()
}

const TURNS: u64 = 10_000;

// A random number that is mostly small, now and then below a hundred, and rarely below `most`.
fn some_count(seed: &mut u64, most: u64) -> u64 {
    let bound = match next(seed) % 1000 {
        0 => most.max(1),
        1..200 => 100,
        _ => 4,
    };
    next(seed) % bound
}

// Replaces a random part of both lists by random numbers; false where they then differ, or the old list
// did not stay.
fn replaced_alike(
    alloc: Global,
    list: &mut Numbers,
    plain: &mut Vec<u64>,
    seed: &mut u64,
    compares: bool,
) -> Result<bool, OutOfMemory> {
    let from = (next(seed) as usize) % list.len().saturating_add(1);
    let to = from
        .saturating_add(some_count(seed, 8000) as usize)
        .min(list.len());
    let first = next(seed);
    let items = numbers(alloc, first, first.saturating_add(some_count(seed, 4000)))?;
    if from > to || to > list.len() || to > plain.len() {
        return Ok(false);
    }
    let new = list.with_replaced(alloc, from, to, shared(alloc, items.as_slice())?)?;
    if compares && !same(list, plain.as_slice()) {
        return Ok(false);
    }
    *list = new;
    replace(alloc, plain, from, to, items.as_slice())?;
    Ok(list.len() == plain.len() && (!compares || same(list, plain.as_slice())))
}

// The turn at which a random list and a plain one differ, or pages are small; none where there is no such turn.
fn differs_at(alloc: Global, turns: u64) -> Result<Option<u64>, OutOfMemory> {
    let mut seed = 7;
    let mut list = Numbers::empty(alloc);
    let mut plain: Vec<u64> = Vec::new(alloc);
    for turn in 0..turns {
        let same = replaced_alike(alloc, &mut list, &mut plain, &mut seed, turn % 250 == 0)?;
        if !same || turn % 10 == 0 && !pages_of(&list).1 {
            return Ok(Some(turn));
        }
    }
    if same(&list, plain.as_slice()) {
        Ok(None)
    } else {
        Ok(Some(turns))
    }
}

#[test]
fn says_the_same_as_a_plain_list(rt: HostRuntime) -> Result<(), Fail> {
    let wrong = differs_at(rt.alloc(), TURNS)?;
    assert!(rt; wrong.is_none(), "at turn {wrong:?}");
    Ok(())
}

// How many pages a list has that got so many numbers at its end, one after another; none where it isn't as it must be.
fn pages_grown(alloc: Global, count: u64) -> Result<Option<usize>, OutOfMemory> {
    let mut list = Numbers::empty(alloc);
    let mut plain: Vec<u64> = Vec::new(alloc);
    for n in 0..count {
        let at = list.len();
        list = list.into_with_one(alloc, at, at, Arc::new(alloc, n)?)?;
        plain.push(n)?;
    }
    let (pages, are_filled) = pages_of(&list);
    if are_filled && same(&list, plain.as_slice()) {
        Ok(Some(pages))
    } else {
        Ok(None)
    }
}

#[test]
fn fills_its_pages_where_it_grows_at_its_end(rt: HostRuntime) -> Result<(), Fail> {
    // three quarters of a page each: 24 of 32
    let pages = pages_grown(rt.alloc(), 24_000)?;
    assert!(rt; pages == Some(1000), "{pages:?} pages");
    Ok(())
}

// In both lists a random entry comes in, takes the place of one or goes.
fn changed_in_place(
    alloc: Global,
    list: Numbers,
    plain: &mut Vec<u64>,
    seed: &mut u64,
) -> Result<Numbers, OutOfMemory> {
    let from = (next(seed) as usize) % list.len().saturating_add(1);
    let to = from
        .saturating_add((next(seed) % 2) as usize)
        .min(list.len());
    if from > to || to > list.len() || to > plain.len() {
        return Ok(list);
    }
    if next(seed) % 2 == 0 {
        let first = next(seed);
        let items = numbers(alloc, first, first.saturating_add(1))?;
        replace(alloc, plain, from, to, items.as_slice())?;
        list.into_with_one(alloc, from, to, Arc::new(alloc, first)?)
    } else {
        replace(alloc, plain, from, to, &[])?;
        list.into_without_run(alloc, from, to)
    }
}

fn plain_of(alloc: Global, count: u64) -> Result<Vec<u64>, OutOfMemory> {
    let mut plain = Vec::new(alloc);
    for n in 0..count {
        plain.push(n)?;
    }
    Ok(plain)
}

// Whether a list of 3000 numbers is changed as a plain one is, while another owner of its pages stays as it was.
fn is_changed_in_place(alloc: Global) -> Result<bool, OutOfMemory> {
    let old = list_of(alloc, 3000)?;
    let first = plain_of(alloc, 3000)?;
    let mut plain = plain_of(alloc, 3000)?;
    let mut seed = 11;
    let mut list = old.try_clone(alloc)?;
    for turn in 0..TURNS {
        list = changed_in_place(alloc, list, &mut plain, &mut seed)?;
        if turn % 500 == 0 && !same(&list, plain.as_slice()) {
            return Ok(false);
        }
    }
    Ok(same(&list, plain.as_slice()) && pages_of(&list).1 && same(&old, first.as_slice()))
}

#[test]
fn is_changed_in_place_while_another_stays(rt: HostRuntime) -> Result<(), Fail> {
    let right = is_changed_in_place(rt.alloc())?;
    assert!(rt; right);
    Ok(())
}

// How many entries there are at first, the part that goes, and how many come in.
type Row = [u64; 4];

const EDGES: [Row; 25] = [
    // an empty list stays empty, or gets its first entry, or its second page
    [0, 0, 0, 0],
    [0, 0, 0, 1],
    [0, 0, 0, 17],
    [0, 0, 0, 33],
    // the only entry goes, or is replaced
    [1, 0, 1, 0],
    [1, 0, 1, 1],
    // at the start and at the end of half a page and of a full one
    [16, 0, 0, 1],
    [16, 16, 16, 1],
    [16, 0, 16, 0],
    [32, 0, 0, 1],
    [32, 32, 32, 1],
    [32, 31, 32, 0],
    [32, 0, 32, 0],
    // at the border of two pages: before it, on it, over it
    [32, 15, 17, 0],
    [64, 31, 32, 1],
    [64, 32, 32, 1],
    [64, 32, 33, 1],
    [64, 31, 33, 0],
    // a page goes, and its neighbours stay
    [96, 32, 64, 0],
    // at the border of two rows of pages, and of two rows of these
    [2048, 1023, 1025, 3],
    [65_536, 32_767, 32_769, 1],
    [65_536, 32_768, 32_768, 2],
    // all goes but the first and the last
    [65_536, 1, 65_535, 0],
    // a list of three levels comes into the middle of one page
    [10, 5, 6, 40_000],
    // nothing changes
    [100, 50, 50, 0],
];

fn first_wrong(alloc: Global, rows: &[Row]) -> Result<Option<Row>, OutOfMemory> {
    for row in rows {
        if !replaces_as_told(alloc, *row)? {
            return Ok(Some(*row));
        }
    }
    Ok(None)
}

#[test]
fn replaces_at_the_edges(rt: HostRuntime) -> Result<(), Fail> {
    let wrong = first_wrong(rt.alloc(), &EDGES)?;
    assert!(rt; wrong.is_none(), "{wrong:?}");
    Ok(())
}

// In the list of the numbers up to len, from..to is replaced by count others, and the old list stays.
fn replaces_as_told(alloc: Global, row: Row) -> Result<bool, OutOfMemory> {
    let [len, from, to, count] = row;
    let old = list_of(alloc, len)?;
    let mut plain = plain_of(alloc, len)?;
    let items = numbers(alloc, len, len.saturating_add(count))?;
    let (from, to) = (from as usize, to as usize);
    if from > to || to > old.len() || to > plain.len() {
        return Ok(false);
    }
    let new = old.with_replaced(alloc, from, to, shared(alloc, items.as_slice())?)?;
    if !same(&old, plain.as_slice()) {
        return Ok(false);
    }
    replace(alloc, &mut plain, from, to, items.as_slice())?;
    Ok(same(&new, plain.as_slice()))
}

// Threads may share a list of what they may share.
fn is_shared<X: Send + Sync>(_list: &X) {}

#[test]
fn threads_may_share_it(rt: HostRuntime) -> Result<(), Fail> {
    let list: PageList<u64> = PageList::empty(rt.alloc());
    is_shared(&list);
    assert!(rt; list.is_empty());
    Ok(())
}
