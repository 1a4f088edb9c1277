//! A shared block in its place in a row.
ghost use Rattle.std.specs.Prelude.{◌≡◌, ◌<◌, ◌≤◌, ◌+◌, ◌-◌, ◌^◌, ◌++◌, false, length, take, drop, IfOk, IsTrue};
ghost use Rattle.std.specs.Arc.{arc_value};
ghost use Rattle.page_list.specs.Marks.{mark_of};
ghost use Rattle.page_list.specs.Rows.{IsShelved, shifted};

use crate::in_place::replace_block;
use crate::{Block, Entry, OutOfMemory};
use std::alloc::Global;
use std::marker::Model;
use std::sync::Arc;

/// A shared block, how many entries there are up to its end, and the mark of its first one, which lie together.
#[derive(Drop)]
pub(crate) struct Slot<B> {
    share: Arc<B>,
    end: usize,
    mark: u64,
}

impl<B> Model for Slot<B> {
    ghost use Rattle.std.specs.Arc.{arc_value};
    ghost use Rattle.page_list.specs.Rows.{Shelved};

    ghost Value = { Shelved B };

    ghost view = { λ s. record { block = arc_value s.share; end = s.end; mark = s.mark } };
}

impl<B> Slot<B> {
    pub(crate) fn of(share: Arc<B>, end: usize, mark: u64) -> Slot<B>
        ensures { result ≡ record { block = arc_value share; end = end; mark = mark } }
    {
        Slot { share, end, mark }
    }

    pub(crate) fn share(&self) -> &Arc<B>
        ensures { arc_value result.now ≡ self.now.block }
    {
        &self.share
    }

    pub(crate) fn end(&self) -> usize
        ensures { result ≡ self.now.end }
    {
        self.end
    }

    pub(crate) fn mark(&self) -> u64
        ensures { result ≡ self.now.mark }
    {
        self.mark
    }
}

impl<B: Drop> Slot<B> {
    /// The block with `items` in place of its entries `x..y`, behind `start` entries. Nothing is changed where it can't take
    /// them, and for want of memory.
    pub(crate) fn replace<T: Drop>(
        &mut self,
        alloc: Global,
        start: usize,
        x: usize,
        y: usize,
        items: &[Entry<T>],
    ) -> bool
    where
        B: Block<T>,
        requires order { x ≤ y }
        requires in_range { y ≤ length (B.entries self.old.block) }
        requires room { start + length (B.entries self.old.block) + length items.now < 2 ^ 64 }
        ensures done { IsTrue result → B.entries self.new.block
            ≡ take x (B.entries self.old.block) ++ items.now ++ drop y (B.entries self.old.block) }
        ensures shelved { IsTrue result
            → IsShelved mark_of B.entries self.new.block start self.new }
        ensures same { result ≡ false → self.new ≡ self.old }
    {
        if !replace_block::<T, B>(&mut self.share, alloc, x, y, items) {
            return false;
        }
        self.end = start + self.share.len();
        self.mark = self.share.first().mark();
        true
    }

    /// The block in a row that has `new` entries up to it in place of `old` of them.
    pub(crate) fn shift(&mut self, old: usize, new: usize)
        requires long { old ≤ self.old.end }
        requires room { self.old.end - old + new < 2 ^ 64 }
        ensures { self.new ≡ shifted old new self.old }
    {
        self.end = self.end - old + new;
    }

    /// Another owner of the block.
    pub(crate) fn try_clone(&self) -> Result<Slot<B>, OutOfMemory>
        ensures { IfOk result (λ slot. slot ≡ self.now) }
    {
        Ok(Slot {
            share: Arc::try_clone(&self.share)?,
            end: self.end,
            mark: self.mark,
        })
    }
}
