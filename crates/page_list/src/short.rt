//! One to `MOST` values.
ghost use Rattle.std.specs.Prelude.{◌≡◌, ◌<◌, ◌≤◌, ◌+◌, ◌-◌, ◌++◌, false, length, take, drop, IsTrue};

use crate::Entry;
use crate::entries::replace_entries;
use std::alloc::Global;
use std::marker::Model;

/// How many entries a page may have, and how many blocks a block of blocks.
pub(crate) const MOST: usize = 32;

#[derive(Drop)]
pub(crate) struct Short<X> {
    items: Vec<X>,
}

impl<X> Model for Short<X> {
    ghost use Rattle.std.specs.Prelude.{List, length, ◌<◌, ◌≤◌};
    ghost use Rattle.page_list.specs.declared.short.TheConstants.{MOST};

    ghost Value = { List X };

    ghost view = { λ s. s.items.items };

    ghost invariant = { λ s. (0 < length s.items.items) × (length s.items.items ≤ MOST) };
}

impl<X> Short<X> {
    pub(crate) fn of(items: Vec<X>) -> Short<X>
        requires some { 0 < length items.items }
        requires few { length items.items ≤ MOST }
        ensures { result ≡ items.items }
    {
        Short { items }
    }

    pub(crate) fn as_slice(&self) -> &[X]
        ensures values { result.now ≡ self.now }
        ensures some { 0 < length self.now }
        ensures few { length self.now ≤ MOST }
    {
        self.items.as_slice()
    }

    pub(crate) fn into_vec(self) -> Vec<X>
        ensures values { result.items ≡ self }
        ensures some { 0 < length self }
        ensures few { length self ≤ MOST }
    {
        let Short { items } = self;
        items
    }
}

impl<T: Drop> Short<Entry<T>> {
    /// Puts `items` in place of the entries `from..to`. Nothing is changed for want of memory.
    pub(crate) fn replace(
        &mut self,
        alloc: Global,
        from: usize,
        to: usize,
        items: &[Entry<T>],
    ) -> bool
        requires order { from ≤ to }
        requires in_range { to ≤ length self.old }
        requires some { 0 < from + length items.now + (length self.old - to) }
        requires few { from + length items.now + (length self.old - to) ≤ MOST }
        ensures done { IsTrue result
            → self.new ≡ take from self.old ++ items.now ++ drop to self.old }
        ensures same { result ≡ false → self.new ≡ self.old }
    {
        replace_entries(&mut self.items, alloc, from, to, items)
    }
}
