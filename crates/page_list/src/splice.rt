//! Rows made of parts of two rows.
ghost use Rattle.std.specs.Prelude.{[], ◌≡◌, ◌<◌, ◌≤◌, ◌+◌, ◌++◌, length, take, drop, map, IfOk, IsTrue};
ghost use Rattle.std.specs.List.{flat_map};
ghost use Rattle.std.specs.Arc.{arc_value};
ghost use Rattle.page_list.specs.Rows.{IsSeam};

use crate::entries::copies_of;
use crate::row::Row;
use crate::share::shared_round;
use crate::{Block, Entry, OutOfMemory};
use std::alloc::Global;
use std::sync::Arc;

// The block before whose end, and the place in it before which, the first `at` entries end.
fn seam<T: Drop, B: Block<T>>(row: &Row<T, B>, at: usize) -> (usize, usize)
    requires some { 0 < length row.now }
    requires in_range { at ≤ length (flat_map B.entries row.now) }
    ensures { IsSeam B.entries row.now at result.0 result.1 }
{
    if at == 0 {
        return (0, 0);
    }
    let (p, x) = row.place(at - 1);
    (p, x + 1)
}

// The same, but at the start of the block that has the entry `at` where `inner` says that there is one.
fn first_seam<T: Drop, B: Block<T>>(row: &Row<T, B>, at: usize, inner: bool) -> (usize, usize)
    requires some { 0 < length row.now }
    requires in_range { at ≤ length (flat_map B.entries row.now) }
    requires inner { IsTrue inner → at < length (flat_map B.entries row.now) }
    ensures { IsSeam B.entries row.now at result.0 result.1 }
{
    if inner { row.place(at) } else { seam(row, at) }
}

// The blocks that go in between, joined with a neighbour where they are one small block: those blocks,
// how many of `left` stand before them, and the last block of `right` that they replace.
fn joined<T: Drop, B: Block<T>>(
    alloc: Global,
    left: &Row<T, B>,
    p: usize,
    made: Vec<Arc<B>>,
    right: &Row<T, B>,
    q: usize,
) -> Result<(Vec<Arc<B>>, usize, usize), OutOfMemory>
    requires left_in { p < length left.now }
    requires right_in { q < length right.now }
    ensures right_in { IfOk result (λ w. w.2 < length right.now) }
    ensures same { IfOk result (λ w.
        flat_map B.entries (take w.1 left.now) ++ flat_map B.entries (map arc_value w.0.items)
        ++ flat_map B.entries (drop (w.2 + 1) right.now)
        ≡ flat_map B.entries (take p left.now) ++ flat_map B.entries (map arc_value made.items)
        ++ flat_map B.entries (drop (q + 1) right.now)) }
{
    if made.len() == 1 && made[0].is_small() {
        if p > 0 {
            let made = together::<T, B>(alloc, left.block(p - 1), &made[0])?;
            return Ok((made, p - 1, q));
        }
        if q < right.count() - 1 {
            let made = together::<T, B>(alloc, &made[0], right.block(q + 1))?;
            return Ok((made, p, q + 1));
        }
    }
    Ok((made, p, q))
}

// The entries of two blocks in new blocks.
fn together<T: Drop, B: Block<T>>(
    alloc: Global,
    left: &B,
    right: &B,
) -> Result<Vec<Arc<B>>, OutOfMemory>
    ensures { IfOk result (λ both. flat_map B.entries (map arc_value both.items)
        ≡ B.entries left.now ++ B.entries right.now) }
{
    B::spliced(alloc, left, left.len(), Vec::new(alloc), right, 0)
}

// Whether no entry comes in, and whole blocks stay on both sides, neither of them small.
fn is_clean_cut<T: Drop, B: Block<T>>(
    first: &B,
    x: usize,
    items: &[Entry<T>],
    last: &B,
    y: usize,
) -> bool
    ensures none { IsTrue result → items.now ≡ [] }
    ensures whole_first { IsTrue result → x ≡ length (B.entries first.now) }
    ensures whole_last { IsTrue result → y ≡ 0 }
{
    items.is_empty() && x == first.len() && y == 0 && !first.is_small() && !last.is_small()
}

/// The entries of `left` before `from`, `items`, and the entries of `right` from `to` on.
pub(crate) fn spliced_row<T: Drop, B: Block<T>>(
    alloc: Global,
    left: &Row<T, B>,
    from: usize,
    items: Vec<Entry<T>>,
    right: &Row<T, B>,
    to: usize,
) -> Result<Vec<Arc<B>>, OutOfMemory>
    requires left_some { 0 < length left.now }
    requires right_some { 0 < length right.now }
    requires from_in { from ≤ length (flat_map B.entries left.now) }
    requires to_in { to ≤ length (flat_map B.entries right.now) }
    ensures { IfOk result (λ made. flat_map B.entries (map arc_value made.items)
        ≡ take from (flat_map B.entries left.now) ++ items.items
        ++ drop to (flat_map B.entries right.now)) }
{
    let inner = from < to && from < left.total();
    let (p, x) = first_seam(left, from, inner);
    let (q, y) = seam(right, to);
    let first = left.block(p);
    let last = right.block(q);
    if is_clean_cut(first, x, items.as_slice(), last, y) {
        return shared_round(
            alloc,
            left.slots_through(p),
            Vec::new(alloc),
            right.slots_from(q),
        );
    }
    let made = B::spliced(alloc, first, x, items, last, y)?;
    let (made, p, q) = joined(alloc, left, p, made, right, q)?;
    shared_round(alloc, left.slots_before(p), made, right.slots_after(q))
}

// The row's blocks with `items` in place of the entries `from..to`, in new blocks there.
fn respliced<T: Drop, B: Block<T>>(
    alloc: Global,
    row: &Row<T, B>,
    from: usize,
    to: usize,
    items: Vec<Entry<T>>,
) -> Result<Vec<Arc<B>>, OutOfMemory>
    requires order { from ≤ to }
    requires in_range { to ≤ length (flat_map B.entries row.now) }
    ensures { IfOk result (λ made. flat_map B.entries (map arc_value made.items)
        ≡ take from (flat_map B.entries row.now) ++ items.items
        ++ drop to (flat_map B.entries row.now)) }
{
    if row.count() == 0 {
        return B::made(alloc, items);
    }
    spliced_row(alloc, row, from, items, row, to)
}

/// The row with `items` in place of the entries `from..to`. What no other row shares with it is changed where it lies, if one page
/// takes them all.
pub(crate) fn row_with<T: Drop, B: Block<T>>(
    alloc: Global,
    row: Row<T, B>,
    from: usize,
    to: usize,
    items: &[Entry<T>],
) -> Result<Row<T, B>, OutOfMemory>
    requires order { from ≤ to }
    requires in_range { to ≤ length (flat_map B.entries row) }
    ensures { IfOk result (λ made. flat_map B.entries made
        ≡ take from (flat_map B.entries row) ++ items.now ++ drop to (flat_map B.entries row)) }
{
    let mut row = row;
    if row.replace(alloc, from, to, items) {
        return Ok(row);
    }
    let items = copies_of(alloc, items)?;
    let blocks = respliced(alloc, &row, from, to, items)?;
    let made = Row::of(alloc, blocks)?;
    Ok(made)
}
