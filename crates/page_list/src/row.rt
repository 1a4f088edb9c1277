//! A row of shared blocks.
ghost use Rattle.std.specs.Prelude.{◌≡◌, ℕ, ◌<◌, ◌≤◌, ◌+◌, ◌++◌, [], Bool, false, length, get_or, set, take, drop, map, IfOk, IfSome, IsTrue, OnOk, slice_index_or, vec_capacity, vec_len};
ghost use Rattle.std.specs.List.{flat_map, prefix_len};
ghost use Rattle.std.specs.List.Sorted.{IsPartitionedBy};
ghost use Rattle.std.specs.Arc.{arc_value};
ghost use Rattle.page_list.specs.Marks.{Marked, mark_of, PartsAtMark};
ghost use Rattle.page_list.specs.Rows.{IsPlace, IsSeam, IsShelf, IsShelved, Shelved, block_of, shifted};
ghost use Rattle.page_list.specs.Search.{IsLastOf, IsTestOf, IsTestAt, HasNarrowed, BeginsLesser, BeginsGreater};

use crate::in_place::replace_at;
use crate::parts::{items_before, items_from};
use crate::slot::Slot;
use crate::{Block, Entry, Found, OutOfMemory, STRIDE};
use std::alloc::{AllocError, Global};
use std::marker::{Model, PhantomData};
use std::sync::Arc;

/// Shared blocks, seen as the list of them.
#[derive(Drop)]
pub(crate) struct Row<T: Drop, B: Block<T>> {
    slots: Vec<Slot<B>>,
    of: PhantomData<T>,
}

impl<T: Drop, B: Block<T>> Model for Row<T, B> {
    ghost use Rattle.std.specs.Prelude.{List, map};
    ghost use Rattle.page_list.specs.Marks.{mark_of};
    ghost use Rattle.page_list.specs.Rows.{IsShelf, block_of};

    ghost Value = { List B };

    ghost view = { λ r. map block_of r.slots.items };

    ghost invariant = { λ r. IsShelf mark_of B.entries r.slots.items };
}

// The block behind `start` entries; want of memory where a number has no place in a word.
fn shelved<T: Drop, B: Block<T>>(block: Arc<B>, start: usize) -> Result<Slot<B>, OutOfMemory>
    ensures { IfOk result (λ slot. IsShelved mark_of B.entries (arc_value block) start slot) }
{
    let mark = block.first().mark();
    match start.checked_add(block.len()) {
        Some(end) => Ok(Slot::of(block, end, mark)),
        None => Err(AllocError),
    }
}

// The blocks, one behind another.
fn slots_of<T: Drop, B: Block<T>>(
    alloc: Global,
    blocks: Vec<Arc<B>>,
) -> Result<Vec<Slot<B>>, OutOfMemory>
    ensures blocks { IfOk result (λ slots.
        map block_of slots.items ≡ map arc_value blocks.items) }
    ensures shelf { IfOk result (λ slots. IsShelf mark_of B.entries slots.items) }
{
    let mut slots = Vec::with_capacity(alloc, blocks.len())?;
    let mut end = 0usize;
    for block in blocks {
        let slot = shelved::<T, B>(block, end)?;
        end = slot.end();
        slots.push(slot)?;
    }
    Ok(slots)
}

// New owners of the blocks.
fn copies_of<B: Drop>(alloc: Global, slots: &[Slot<B>]) -> Result<Vec<Slot<B>>, OutOfMemory>
    ensures { IfOk result (λ all. all.items ≡ slots.now) }
{
    let mut all = Vec::with_capacity(alloc, slots.len())?;
    for slot in slots {
        all.push(slot.try_clone()?)?;
    }
    Ok(all)
}

fn at_most(n: usize, most: usize) -> usize
    ensures low { result ≤ n }
    ensures high { result ≤ most }
{
    if n < most { n } else { most }
}

impl<T: Drop, B: Block<T>> Row<T, B> {
    pub(crate) fn empty(alloc: Global) -> Row<T, B>
        ensures { result ≡ [] }
    {
        Row {
            slots: Vec::new(alloc),
            of: PhantomData,
        }
    }

    pub(crate) fn of(alloc: Global, blocks: Vec<Arc<B>>) -> Result<Row<T, B>, OutOfMemory>
        ensures { IfOk result (λ row. row ≡ map arc_value blocks.items) }
    {
        let slots = slots_of::<T, B>(alloc, blocks)?;
        Ok(Row {
            slots,
            of: PhantomData,
        })
    }

    /// Another owner of each block.
    pub(crate) fn try_clone(&self, alloc: Global) -> Result<Row<T, B>, OutOfMemory>
        ensures { IfOk result (λ row. row ≡ self.now) }
    {
        let slots = copies_of(alloc, self.slots.as_slice())?;
        Ok(Row {
            slots,
            of: PhantomData,
        })
    }

    /// How many blocks there are.
    pub(crate) fn count(&self) -> usize
        ensures { result ≡ length self.now }
    {
        self.slots.len()
    }

    pub(crate) fn block(&self, p: usize) -> &B
        requires { p < length self.now }
        ensures { result.now ≡ slice_index_or self.now p result.now }
    {
        self.slots[p].share()
    }

    pub(crate) fn slots_before(&self, p: usize) -> &[Slot<B>]
        ensures { map block_of result.now ≡ take p self.now }
    {
        items_before(self.slots.as_slice(), p)
    }

    /// The blocks up to the block `p`.
    pub(crate) fn slots_through(&self, p: usize) -> &[Slot<B>]
        requires { p < length self.now }
        ensures { map block_of result.now ≡ take (p + 1) self.now }
    {
        items_before(self.slots.as_slice(), p + 1)
    }

    pub(crate) fn slots_from(&self, p: usize) -> &[Slot<B>]
        ensures { map block_of result.now ≡ drop p self.now }
    {
        items_from(self.slots.as_slice(), p)
    }

    pub(crate) fn slots_after(&self, p: usize) -> &[Slot<B>]
        requires { p < length self.now }
        ensures { map block_of result.now ≡ drop (p + 1) self.now }
    {
        items_from(self.slots.as_slice(), p + 1)
    }

    /// The row with `items` in place of the entries `from..to`, where one block takes them all: where it lies, as far as
    /// nothing else shares it. Else nothing is changed.
    pub(crate) fn replace(
        &mut self,
        alloc: Global,
        from: usize,
        to: usize,
        items: &[Entry<T>],
    ) -> bool
        requires order { from ≤ to }
        requires in_range { to ≤ length (flat_map B.entries self.old) }
        ensures done { IsTrue result → flat_map B.entries self.new
            ≡ take from (flat_map B.entries self.old) ++ items.now
            ++ drop to (flat_map B.entries self.old) }
        ensures same { result ≡ false → self.new ≡ self.old }
        ensures count { length self.new ≡ length self.old }
    {
        let Some((p, x, y)) = self.block_of(from, to) else {
            return false;
        };
        if self.total().checked_add(items.len()).is_none() {
            return false;
        }
        replace_at::<T, B>(&mut self.slots, alloc, p, x, y, items)
    }

    // The block that has all of `from..to`, and both places in it; none where there are two of them or more.
    pub(crate) fn block_of(&self, from: usize, to: usize) -> Option<(usize, usize, usize)>
        requires order { from ≤ to }
        requires in_range { to ≤ length (flat_map B.entries self.now) }
        ensures first { IfSome result (λ w. IsSeam B.entries self.now from w.0 w.1) }
        ensures last { IfSome result (λ w. IsSeam B.entries self.now to w.0 w.2) }
        ensures order { IfSome result (λ w. w.1 ≤ w.2) }
    {
        let total = self.total();
        if total == 0 {
            return None;
        }
        let (p, _) = self.place(at_most(from, total - 1));
        let start = self.start(p);
        if to > self.slots[p].end() {
            return None;
        }
        Some((p, from - start, to - start))
    }

    /// How many entries there are before the block `p`.
    fn start(&self, p: usize) -> usize
        requires { p ≤ length self.now }
        ensures { result ≡ length (flat_map B.entries (take p self.now)) }
    {
        if p == 0 { 0 } else { self.slots[p - 1].end() }
    }

    /// How many entries there are.
    pub(crate) fn total(&self) -> usize
        ensures { result ≡ length (flat_map B.entries self.now) }
    {
        self.start(self.count())
    }

    /// The block of the entry `at`, and its place there.
    pub(crate) fn place(&self, at: usize) -> (usize, usize)
        requires { at < length (flat_map B.entries self.now) }
        ensures { IsPlace B.entries self.now at result.0 result.1 }
    {
        let mut low = 0;
        let mut high = self.count();
        while high - low > 1 {
            let middle = low + (high - low) / 2;
            if self.start(middle) <= at {
                low = middle;
            } else {
                high = middle;
            }
        }
        (low, at - self.start(low))
    }

    /// The entries from the entry `at` on, as far as its page goes.
    pub(crate) fn page_from(&self, at: usize) -> &[Entry<T>]
        requires { at < length (flat_map B.entries self.now) }
        ensures some { 0 < length result.now }
        ensures entries { result.now
            ≡ take (length result.now) (drop at (flat_map B.entries self.now)) }
    {
        let (p, x) = self.place(at);
        self.block(p).page_from(x)
    }

    /// How many entries `before` holds of, which are the first ones.
    pub(crate) fn find<F: Fn(&T) -> bool>(&self, before: &F) -> usize
        requires { F.IsAlwaysCallable before.now }
        ensures in_range { result ≤ length (flat_map B.entries self.now) }
        ensures exact { (p : Marked T → Bool) → IsTestOf F.Fn before.now p
            → IsPartitionedBy p (flat_map B.entries self.now)
            → result ≡ prefix_len p (flat_map B.entries self.now) }
    {
        if self.total() == 0 {
            return 0;
        }
        let p = self.block_to_search(before);
        self.start(p) + self.block(p).find(before)
    }

    // The last block whose first entry `before` holds of, or the first block.
    fn block_to_search<F: Fn(&T) -> bool>(&self, before: &F) -> usize
        requires callable { F.IsAlwaysCallable before.now }
        requires some { 0 < length self.now }
        ensures in_range { result < length self.now }
        ensures narrowed { HasNarrowed (flat_map B.entries self.now) (IsTestOf F.Fn before.now)
            (length (flat_map B.entries (take result self.now)))
            (length (flat_map B.entries (take (result + 1) self.now))) }
    {
        let mut low = 0;
        let mut high = self.count();
        while high - low > 1 {
            let middle = low + (high - low) / 2;
            if before(self.block(middle).first().share()) {
                low = middle;
            } else {
                high = middle;
            }
        }
        low
    }

    /// How many entries `before` holds of, which are the first ones, and the last of them where the block that was searched has it;
    /// it is asked only of entries with the mark.
    pub(crate) fn find_at<F: Fn(&T) -> bool>(&self, mark: u64, before: &F) -> Found<'_, T>
        requires { F.IsAlwaysCallable before.now }
        ensures in_range { result.count ≤ length (flat_map B.entries self.now) }
        ensures exact { (p : Marked T → Bool) → IsTestOf F.Fn before.now p
            → PartsAtMark mark_of mark p (flat_map B.entries self.now)
            → result.count ≡ prefix_len p (flat_map B.entries self.now) }
        ensures last { IfSome result.last
            (λ last. IsLastOf (flat_map B.entries self.now) result.count last.now) }
    {
        if self.total() == 0 {
            return Found {
                count: 0,
                last: None,
            };
        }
        let p = self.block_to_search_at(mark, before);
        let start = self.start(p);
        let len = self.slots[p].end() - start;
        let found = self.block(p).find_at(len, mark, before);
        Found {
            count: start + found.count,
            last: found.last,
        }
    }

    // The last block whose first entry comes before, or the first block.
    fn block_to_search_at<F: Fn(&T) -> bool>(&self, mark: u64, before: &F) -> usize
        requires callable { F.IsAlwaysCallable before.now }
        requires some { 0 < length self.now }
        ensures in_range { result < length self.now }
        ensures narrowed { HasNarrowed (flat_map B.entries self.now)
            (IsTestAt F.Fn before.now mark (flat_map B.entries self.now))
            (length (flat_map B.entries (take result self.now)))
            (length (flat_map B.entries (take (result + 1) self.now))) }
    {
        let mut low = self.last_lesser(mark);
        let mut high = self.first_greater(low, mark);
        while high - low > 1 {
            let middle = low + (high - low) / 2;
            if self.starts_before(middle, mark, before) {
                low = middle;
            } else {
                high = middle;
            }
        }
        low
    }

    // A block whose first entry has a lesser mark, or the first block; where marks never fall, the last such. One of each
    // `STRIDE` is read first: none of these reads waits for another, as those of a search by halves would, and what they find
    // decides no jump, so the processor needn't guess it. The few behind the last of them are read in turn.
    fn last_lesser(&self, mark: u64) -> usize
        requires { 0 < length self.now }
        ensures in_range { result < length self.now }
        ensures lesser { 0 < result
            → BeginsLesser B.entries self.now mark result }
    {
        let count = self.count();
        let mut last = 0;
        let mut at = STRIDE;
        while at < count {
            if self.mark_of(at) < mark {
                last = at;
            }
            at = at.saturating_add(STRIDE);
        }
        while last + 1 < count && self.mark_of(last + 1) < mark {
            last += 1;
        }
        last
    }

    // The first block behind `low` whose first entry has a greater mark, or the end.
    fn first_greater(&self, low: usize, mark: u64) -> usize
        requires { low < length self.now }
        ensures order { low < result }
        ensures in_range { result ≤ length self.now }
        ensures greater { result < length self.now
            → BeginsGreater B.entries self.now mark result }
    {
        let count = self.count();
        let mut first = low + 1;
        while first < count {
            if self.mark_of(first) > mark {
                return first;
            }
            first += 1;
        }
        first
    }

    // The mark of the first entry of the block `p`.
    fn mark_of(&self, p: usize) -> u64
        requires { p < length self.now }
        ensures some { length (flat_map B.entries (take p self.now))
            < length (flat_map B.entries self.now) }
        ensures first { (a : Marked T) → result ≡ mark_of (get_or (flat_map B.entries self.now)
            (length (flat_map B.entries (take p self.now))) a) }
    {
        self.slots[p].mark()
    }

    // Whether the first entry of the block `p` comes before; the block is read only where its mark doesn't tell.
    fn starts_before<F: Fn(&T) -> bool>(&self, p: usize, mark: u64, before: &F) -> bool
        requires callable { F.IsAlwaysCallable before.now }
        requires in_range { p < length self.now }
        ensures some { length (flat_map B.entries (take p self.now))
            < length (flat_map B.entries self.now) }
        ensures told { (q : Marked T → Bool)
            → IsTestAt F.Fn before.now mark (flat_map B.entries self.now) q → (d : Marked T)
            → q (get_or (flat_map B.entries self.now)
            (length (flat_map B.entries (take p self.now))) d) ≡ result }
    {
        let own = self.slots[p].mark();
        if own == mark {
            before(self.block(p).first().share())
        } else {
            own < mark
        }
    }
}
