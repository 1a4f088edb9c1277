//! The entries of a list, in shared pages.
ghost use Rattle.std.specs.Prelude.{◌≡◌, ◌<◌, ◌≤◌, ◌+◌, ◌++◌, [], Bool, length, take, drop, IfOk, IfSome, MatchOption, slice_index_or};
ghost use Rattle.std.specs.List.{prefix_len};
ghost use Rattle.std.specs.List.Sorted.{IsPartitionedBy};
ghost use Rattle.page_list.specs.Marks.{Marked, mark_of, PartsAtMark};
ghost use Rattle.page_list.specs.Search.{IsLastOf, IsTestOf};

use crate::blocks::Blocks;
use crate::page::Page;
use crate::row::Row;
use crate::splice::row_with;
use crate::{Entry, Found, OutOfMemory};
use std::alloc::Global;
use std::marker::Model;

/// Entries in shared pages, seen as the list of them.
#[derive(Drop)]
pub(crate) struct EntryList<T: Drop> {
    row: Row<T, Blocks<T, Blocks<T, Page<T>>>>,
}

impl<T: Drop> Model for EntryList<T> {
    ghost use Rattle.std.specs.Prelude.{List};
    ghost use Rattle.std.specs.List.{flat_map};
    ghost use Rattle.page_list.specs.Marks.{Marked};

    ghost Value = { List (Marked T) };

    ghost view = { λ l. flat_map (λ block. block) l.row };
}

impl<T: Drop> EntryList<T> {
    pub(crate) fn empty(alloc: Global) -> EntryList<T>
        ensures { result ≡ [] }
    {
        EntryList {
            row: Row::empty(alloc),
        }
    }

    pub(crate) fn len(&self) -> usize
        ensures { result ≡ length self.now }
    {
        self.row.total()
    }

    pub(crate) fn get(&self, i: usize) -> &Entry<T>
        requires { i < length self.now }
        ensures { result.now ≡ slice_index_or self.now i result.now }
    {
        &self.page_from(i)[0]
    }

    /// The entries from the entry `i` on, as far as its page goes.
    pub(crate) fn page_from(&self, i: usize) -> &[Entry<T>]
        requires { i < length self.now }
        ensures some { 0 < length result.now }
        ensures entries { result.now ≡ take (length result.now) (drop i self.now) }
    {
        self.row.page_from(i)
    }

    /// How many entries `before` holds of, which are the first ones.
    pub(crate) fn find<F: Fn(&T) -> bool>(&self, before: &F) -> usize
        requires { F.IsAlwaysCallable before.now }
        ensures in_range { result ≤ length self.now }
        ensures exact { (p : Marked T → Bool) → IsTestOf F.Fn before.now p
            → IsPartitionedBy p self.now → result ≡ prefix_len p self.now }
    {
        self.row.find(before)
    }

    /// The same, asked only of entries with the mark, and the last of those entries where it was met.
    pub(crate) fn find_at<F: Fn(&T) -> bool>(&self, mark: u64, before: &F) -> Found<'_, T>
        requires { F.IsAlwaysCallable before.now }
        ensures in_range { result.count ≤ length self.now }
        ensures exact { (p : Marked T → Bool) → IsTestOf F.Fn before.now p
            → PartsAtMark mark_of mark p self.now → result.count ≡ prefix_len p self.now }
        ensures last { IfSome result.last (λ last. IsLastOf self.now result.count last.now) }
    {
        self.row.find_at(mark, before)
    }

    /// The last of the entries that `find_at` counts, and its place.
    pub(crate) fn last_at<F: Fn(&T) -> bool>(
        &self,
        mark: u64,
        before: &F,
    ) -> Option<(usize, &Entry<T>)>
        requires { F.IsAlwaysCallable before.now }
        ensures in_range { IfSome result (λ last. last.0 < length self.now) }
        ensures entry { IfSome result
            (λ last. last.1.now ≡ slice_index_or self.now last.0 last.1.now) }
        ensures exact { (p : Marked T → Bool) → IsTestOf F.Fn before.now p
            → PartsAtMark mark_of mark p self.now → MatchOption result
            (prefix_len p self.now ≡ 0) (λ last. last.0 + 1 ≡ prefix_len p self.now) }
    {
        let Found { count, last } = self.find_at(mark, before);
        if count == 0 {
            return None;
        }
        match last {
            Some(entry) => Some((count - 1, entry)),
            None => Some((count - 1, self.get(count - 1))),
        }
    }

    /// Another owner of its pages.
    pub(crate) fn try_clone(&self, alloc: Global) -> Result<EntryList<T>, OutOfMemory>
        ensures { IfOk result (λ clone. clone ≡ self.now) }
    {
        let row = self.row.try_clone(alloc)?;
        Ok(EntryList { row })
    }

    /// The list with `items` in place of the entries `from..to`. What no other list shares with it is changed where it lies,
    /// if one page takes them all.
    pub(crate) fn into_replaced(
        self,
        alloc: Global,
        from: usize,
        to: usize,
        items: &[Entry<T>],
    ) -> Result<EntryList<T>, OutOfMemory>
        requires order { from ≤ to }
        requires in_range { to ≤ length self }
        ensures { IfOk result
            (λ made. made ≡ take from self ++ items.now ++ drop to self) }
    {
        let EntryList { row } = self;
        let row = row_with(alloc, row, from, to, items)?;
        Ok(EntryList { row })
    }
}
