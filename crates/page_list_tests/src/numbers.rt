//! Lists of numbers, and random numbers.
use page_list::{MarkedList, Marking, NoMarks, OutOfMemory};
use std::alloc::Global;
use std::sync::Arc;

/// Numbers without marks.
pub(crate) type Numbers = MarkedList<u64, NoMarks>;

/// The next random number.
pub(crate) fn next(seed: &mut u64) -> u64 {
    *seed = seed
        .wrapping_mul(6_364_136_223_846_793_005)
        .wrapping_add(1_442_695_040_888_963_407);
    *seed >> 33
}

/// The numbers from..to, each with one owner.
pub(crate) fn numbers(alloc: Global, from: u64, to: u64) -> Result<Vec<Arc<u64>>, OutOfMemory> {
    let mut items = Vec::new(alloc);
    for n in from..to {
        items.push(Arc::new(alloc, n)?)?;
    }
    Ok(items)
}

/// The list of the numbers up to so many.
pub(crate) fn list_of(alloc: Global, count: u64) -> Result<Numbers, OutOfMemory> {
    Numbers::empty(alloc).with_replaced(alloc, 0, 0, numbers(alloc, 0, count)?)
}

/// The list without the entry at a place, or with a new one before it.
pub(crate) fn one_changed<M: Marking<u64>>(
    alloc: Global,
    list: &MarkedList<u64, M>,
    at: usize,
    new: Option<u64>,
) -> Result<MarkedList<u64, M>, OutOfMemory> {
    let at = at.min(list.len());
    let mut to = at;
    let mut items = Vec::new(alloc);
    match new {
        Some(number) => items.push(Arc::new(alloc, number)?)?,
        None if at < list.len() => to = at + 1,
        None => {}
    }
    list.with_replaced(alloc, at, to, items)
}

/// How many pages a list has, and whether each of several has at least a quarter of the 32 entries that it may have.
pub(crate) fn pages_of(list: &Numbers) -> (usize, bool) {
    let mut rest = list.iter();
    let mut pages = 0usize;
    let mut left = 0;
    let mut are_filled = true;
    while rest.next().is_some() {
        if left == 0 {
            // what is left of the page whose first entry this is
            left = rest.size_hint().0;
            pages = pages.saturating_add(1);
            are_filled = are_filled && (left >= 7 || list.len() == left.saturating_add(1));
        } else {
            left -= 1;
        }
    }
    (pages, are_filled)
}
