//! Changes of blocks and rows where they lie.
ghost use Rattle.std.specs.Prelude.{◌≡◌, ℕ, ◌<◌, ◌≤◌, ◌+◌, ◌-◌, ◌^◌, ◌++◌, false, length, get_or, take, drop, map, IsTrue};
ghost use Rattle.std.specs.List.{flat_map};
ghost use Rattle.std.specs.Arc.{arc_value};
ghost use Rattle.page_list.specs.Marks.{mark_of};
ghost use Rattle.page_list.specs.Rows.{IsSeam, IsShelf, Shelved, block_of, shifted};

use crate::slot::Slot;
use crate::{Block, Entry};
use std::alloc::Global;
use std::sync::Arc;

/// The block with `items` in place of its entries `from..to`: where it lies, if it has no other owner, and else a new
/// block. Nothing is changed where that can't be, and for want of memory.
pub(crate) fn replace_block<T: Drop, B: Block<T>>(
    share: &mut Arc<B>,
    alloc: Global,
    from: usize,
    to: usize,
    items: &[Entry<T>],
) -> bool
    requires order { from ≤ to }
    requires in_range { to ≤ length (B.entries (arc_value share.old)) }
    ensures done { IsTrue result → B.entries (arc_value share.new)
        ≡ take from (B.entries (arc_value share.old)) ++ items.now
        ++ drop to (B.entries (arc_value share.old)) }
    ensures same { result ≡ false → arc_value share.new ≡ arc_value share.old }
{
    if let Some(block) = Arc::get_mut(share) {
        return block.replace(alloc, from, to, items);
    }
    let Some(block) = share.replaced(alloc, from, to, items) else {
        return false;
    };
    match Arc::new(alloc, block) {
        Ok(made) => {
            *share = made;
            true
        }
        Err(_) => false,
    }
}

// Moves the ends of the slots from `from` on, in a row that has `new` entries before them in place of `old`.
fn shift_from<B: Drop>(slots: &mut Vec<Slot<B>>, from: usize, old: usize, new: usize)
    requires in_range { from ≤ length slots.old.items }
    requires long { (k : ℕ) (d : Shelved B) → from ≤ k → k < length slots.old.items
        → old ≤ (get_or slots.old.items k d).end }
    requires room { (k : ℕ) (d : Shelved B) → from ≤ k → k < length slots.old.items
        → (get_or slots.old.items k d).end - old + new < 2 ^ 64 }
    ensures { slots.new.items
        ≡ take from slots.old.items ++ map (shifted old new) (drop from slots.old.items) }
{
    let mut i = from;
    while i < slots.len() {
        slots[i].shift(old, new);
        i += 1;
    }
}

/// The row with `items` in place of the entries `x..y` of its block `p`, which begins behind `start` entries. Nothing is
/// changed where that block can't take them, and for want of memory.
pub(crate) fn replace_at<T: Drop, B: Block<T>>(
    slots: &mut Vec<Slot<B>>,
    alloc: Global,
    p: usize,
    x: usize,
    y: usize,
    items: &[Entry<T>],
) -> bool
    requires shelf { IsShelf mark_of B.entries slots.old.items }
    requires in_range { p < length slots.old.items }
    requires order { x ≤ y }
    requires in_block { (d : Shelved B)
        → y ≤ length (B.entries (get_or slots.old.items p d).block) }
    requires room { length (flat_map B.entries (map block_of slots.old.items))
        + length items.now < 2 ^ 64 }
    ensures shelf { IsShelf mark_of B.entries slots.new.items }
    ensures count { length slots.new.items ≡ length slots.old.items }
    ensures done { IsTrue result → (from to : ℕ)
        → IsSeam B.entries (map block_of slots.old.items) from p x
        → IsSeam B.entries (map block_of slots.old.items) to p y
        → flat_map B.entries (map block_of slots.new.items)
        ≡ take from (flat_map B.entries (map block_of slots.old.items)) ++ items.now
        ++ drop to (flat_map B.entries (map block_of slots.old.items)) }
    ensures same { result ≡ false → slots.new.items ≡ slots.old.items }
{
    let old = slots[p].share().len();
    let start = slots[p].end() - old;
    if !slots[p].replace::<T>(alloc, start, x, y, items) {
        return false;
    }
    let new = slots[p].share().len();
    shift_from(slots, p + 1, old, new);
    true
}
