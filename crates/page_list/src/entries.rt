//! Entries that lie in a row.
ghost use Rattle.std.specs.Prelude.{◌≡◌, ◌<◌, ◌≤◌, ◌+◌, ◌-◌, ◌++◌, ◌∷◌, false, length, take, drop, IfOk, IsTrue, OnOk};
ghost use Rattle.page_list.specs.declared.short.TheConstants.{MOST};

use crate::parts::{items_before, items_from};
use crate::short::MOST;
use crate::{Entry, OutOfMemory};
use std::alloc::Global;

/// New owners of what stands in `before`, then in `between`, then in `after`, with room for no more: so the memory of a page that
/// is given back is taken again for one of as many entries.
pub(crate) fn entries_round<T: Drop>(
    alloc: Global,
    before: &[Entry<T>],
    between: &[Entry<T>],
    after: &[Entry<T>],
) -> Result<Vec<Entry<T>>, OutOfMemory>
    ensures { IfOk result (λ all. all.items ≡ before.now ++ between.now ++ after.now) }
{
    let count = before
        .len()
        .saturating_add(between.len())
        .saturating_add(after.len());
    let mut all = Vec::with_capacity(alloc, count)?;
    put_onto(&mut all, before)?;
    put_onto(&mut all, between)?;
    put_onto(&mut all, after)?;
    Ok(all)
}

/// New owners of what stands in `items`.
pub(crate) fn copies_of<T: Drop>(
    alloc: Global,
    items: &[Entry<T>],
) -> Result<Vec<Entry<T>>, OutOfMemory>
    ensures { IfOk result (λ all. all.items ≡ items.now) }
{
    let mut all = Vec::with_capacity(alloc, items.len())?;
    put_onto(&mut all, items)?;
    Ok(all)
}

// Puts another owner of each of `from` behind `onto`.
fn put_onto<T: Drop>(onto: &mut Vec<Entry<T>>, from: &[Entry<T>]) -> Result<(), OutOfMemory>
    ensures { OnOk result (onto.new.items ≡ onto.old.items ++ from.now) }
{
    for entry in from {
        onto.push(entry.try_clone()?)?;
    }
    Ok(())
}

/// Whether so many entries may come in the place of `from..to` in a page of `before`: it then has no more than `MOST`, and isn't made
/// smaller than a quarter of that.
pub(crate) fn may_have(before: usize, from: usize, to: usize, items: usize) -> bool
    requires order { from ≤ to }
    requires in_range { to ≤ before }
    ensures some { IsTrue result → 0 < from + items + (before - to) }
    ensures few { IsTrue result → from + items + (before - to) ≤ MOST }
{
    let kept = from + (before - to);
    if kept > MOST || items > MOST - kept {
        return false;
    }
    let count = kept + items;
    0 < count && (MOST / 4 <= count || before <= count)
}

/// Puts `items` in place of the entries `from..to`: of one entry where it lies. Nothing is changed for want of memory.
pub(crate) fn replace_entries<T: Drop>(
    all: &mut Vec<Entry<T>>,
    alloc: Global,
    from: usize,
    to: usize,
    items: &[Entry<T>],
) -> bool
    requires order { from ≤ to }
    requires in_range { to ≤ length all.old.items }
    ensures done { IsTrue result
        → all.new.items ≡ take from all.old.items ++ items.now ++ drop to all.old.items }
    ensures same { result ≡ false → all.new.items ≡ all.old.items }
{
    if items.len() == 1 && to == from {
        return insert_one(all, from, &items[0]);
    }
    if items.len() == 1 && to == from + 1 {
        return exchange_one(all, from, &items[0]);
    }
    if items.is_empty() && to == from + 1 {
        all.remove(from);
        return true;
    }
    replace_all(all, alloc, from, to, items)
}

// Another owner of the entry, before the entry `at`.
fn insert_one<T: Drop>(all: &mut Vec<Entry<T>>, at: usize, entry: &Entry<T>) -> bool
    requires { at ≤ length all.old.items }
    ensures done { IsTrue result
        → all.new.items ≡ take at all.old.items ++ entry.now ∷ drop at all.old.items }
    ensures same { result ≡ false → all.new.items ≡ all.old.items }
{
    if all.reserve_exact(1).is_err() {
        return false;
    }
    match entry.try_clone() {
        Ok(entry) => all.insert(at, entry).is_ok(),
        Err(_) => false,
    }
}

// Another owner of the entry, in the place of the entry `at`.
fn exchange_one<T: Drop>(all: &mut Vec<Entry<T>>, at: usize, entry: &Entry<T>) -> bool
    requires { at < length all.old.items }
    ensures done { IsTrue result
        → all.new.items ≡ take at all.old.items ++ entry.now ∷ drop (at + 1) all.old.items }
    ensures same { result ≡ false → all.new.items ≡ all.old.items }
{
    match entry.try_clone() {
        Ok(entry) => {
            all[at] = entry;
            true
        }
        Err(_) => false,
    }
}

// The entries in a new vector.
fn replace_all<T: Drop>(
    all: &mut Vec<Entry<T>>,
    alloc: Global,
    from: usize,
    to: usize,
    items: &[Entry<T>],
) -> bool
    ensures done { IsTrue result
        → all.new.items ≡ take from all.old.items ++ items.now ++ drop to all.old.items }
    ensures same { result ≡ false → all.new.items ≡ all.old.items }
{
    let old = all.as_slice();
    match entries_round(alloc, items_before(old, from), items, items_from(old, to)) {
        Ok(made) => {
            *all = made;
            true
        }
        Err(_) => false,
    }
}
