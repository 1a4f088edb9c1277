//! A block: one or more entries that lie together, a page or a run of blocks.
ghost use Rattle.std.specs.Prelude.{◌≡◌, ◌<◌, ◌≤◌, ◌++◌, Bool, false, List, length, take, drop, map, IfOk, IfSome, IsTrue, slice_index_or};
ghost use Rattle.std.specs.List.{flat_map, prefix_len};
ghost use Rattle.std.specs.List.Sorted.{IsPartitionedBy};
ghost use Rattle.std.specs.Arc.{arc_value};
ghost use Rattle.page_list.specs.Marks.{Marked, mark_of, PartsAtMark};
ghost use Rattle.page_list.specs.Search.{IsLastOf, IsTestOf};

use crate::{Entry, Found, OutOfMemory};
use std::alloc::Global;
use std::sync::Arc;

/// A part of a list: a page, or a row of parts.
pub(crate) trait Block<T: Drop>: Drop {
    // its entries, in order
    ghost entries: { Self → List (Marked T) };

    /// The items in new blocks, as even as they go.
    fn made(alloc: Global, items: Vec<Entry<T>>) -> Result<Vec<Arc<Self>>, OutOfMemory>
        ensures { IfOk result (λ made. flat_map entries (map arc_value made.items)
            ≡ items.items) };

    fn len(&self) -> usize
        ensures { result ≡ length (entries self.now) };

    /// Whether it has so few of the parts that it may have that it is joined with a neighbour: a page fewer than half, a block of
    /// blocks fewer than a quarter.
    fn is_small(&self) -> bool;

    fn first(&self) -> &Entry<T>
        ensures some { 0 < length (entries self.now) }
        ensures first { result.now ≡ slice_index_or (entries self.now) 0 result.now };

    /// The entries from the entry `i` on, as far as its page goes.
    fn page_from(&self, i: usize) -> &[Entry<T>]
        requires { i < length (entries self.now) }
        ensures some { 0 < length result.now }
        ensures entries { result.now ≡ take (length result.now) (drop i (entries self.now)) };

    /// How many entries `before` holds of, which are the first ones.
    fn find<F: Fn(&T) -> bool>(&self, before: &F) -> usize
        requires { F.IsAlwaysCallable before.now }
        ensures in_range { result ≤ length (entries self.now) }
        ensures exact { (p : Marked T → Bool) → IsTestOf F.Fn before.now p
            → IsPartitionedBy p (entries self.now) → result
            ≡ prefix_len p (entries self.now) };

    /// The same, asked only of entries with the mark: those of a lesser mark come before, those of a greater one don't. Who asks
    /// tells how many entries there are, so that the search of a page needn't wait for its memory to know where it ends.
    fn find_at<F: Fn(&T) -> bool>(&self, len: usize, mark: u64, before: &F) -> Found<'_, T>
        requires callable { F.IsAlwaysCallable before.now }
        requires len { len ≡ length (entries self.now) }
        ensures in_range { result.count ≤ length (entries self.now) }
        ensures exact { (p : Marked T → Bool) → IsTestOf F.Fn before.now p
            → PartsAtMark mark_of mark p (entries self.now)
            → result.count ≡ prefix_len p (entries self.now) }
        ensures last { IfSome result.last
            (λ last. IsLastOf (entries self.now) result.count last.now) };

    /// Puts `items` in place of the entries `from..to`, in as many parts, or in a page that has at least a quarter of what it may
    /// have, or no fewer entries than before, and isn't too long. Nothing is changed where that can't be, and for want of memory.
    fn replace(&mut self, alloc: Global, from: usize, to: usize, items: &[Entry<T>]) -> bool
        requires order { from ≤ to }
        requires in_range { to ≤ length (entries self.old) }
        ensures done { IsTrue result → entries self.new
            ≡ take from (entries self.old) ++ items.now ++ drop to (entries self.old) }
        ensures same { result ≡ false → self.new ≡ self.old };

    /// What `replace` makes of the block, beside it. None where that can't be, and for want of memory.
    fn replaced(&self, alloc: Global, from: usize, to: usize, items: &[Entry<T>]) -> Option<Self>
        requires order { from ≤ to }
        requires in_range { to ≤ length (entries self.now) }
        ensures { IfSome result (λ made. entries made
            ≡ take from (entries self.now) ++ items.now ++ drop to (entries self.now)) };

    /// The entries of `left` before `from`, `items`, and the entries of `right` from `to` on, in new blocks.
    fn spliced(
        alloc: Global,
        left: &Self,
        from: usize,
        items: Vec<Entry<T>>,
        right: &Self,
        to: usize,
    ) -> Result<Vec<Arc<Self>>, OutOfMemory>
        requires from_in { from ≤ length (entries left.now) }
        requires to_in { to ≤ length (entries right.now) }
        ensures { IfOk result (λ made. flat_map entries (map arc_value made.items)
            ≡ take from (entries left.now) ++ items.items
            ++ drop to (entries right.now)) };
}
