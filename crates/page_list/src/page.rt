//! A page: some entries.
ghost use Rattle.std.specs.Prelude.{◌≡◌, ◌<◌, ◌≤◌, ◌+◌, ◌-◌, ◌++◌, Bool, length, get_or, take, drop, map, IfOk, IsTrue};
ghost use Rattle.std.specs.Arc.{arc_value};
ghost use Rattle.std.specs.List.{flat_map};
ghost use Rattle.page_list.specs.Marks.{Marked, mark_of};
ghost use Rattle.page_list.specs.Search.{IsBehindLesser, IsTestAt};

use crate::cut::{Growth, cut};
use crate::entries::{entries_round, may_have};
use crate::parts::{items_before, items_from, last_of};
use crate::short::{MOST, Short};
use crate::{Block, Entry, Found, OutOfMemory, STRIDE};
use std::alloc::Global;
use std::marker::Model;
use std::sync::Arc;

/// A page of a list, seen as its entries.
#[derive(Drop)]
pub(crate) struct Page<T: Drop> {
    entries: Short<Entry<T>>,
}

impl<T: Drop> Model for Page<T> {
    ghost use Rattle.std.specs.Prelude.{List};
    ghost use Rattle.page_list.specs.Marks.{Marked};

    ghost Value = { List (Marked T) };

    ghost view = { λ p. p.entries };
}

// The entries in new pages.
fn pages_of<T: Drop>(
    alloc: Global,
    entries: Vec<Entry<T>>,
    growth: Growth,
) -> Result<Vec<Arc<Page<T>>>, OutOfMemory>
    ensures { IfOk result (λ made. flat_map (λ page. page) (map arc_value made.items)
        ≡ entries.items) }
{
    let mut pages = Vec::new(alloc);
    for entries in cut(alloc, entries, growth)? {
        pages.push(Arc::new(alloc, Page { entries })?)?;
    }
    Ok(pages)
}

impl<T: Drop> Page<T> {
    // A place behind an entry of a lesser mark, or the first place; where marks never fall, behind the last such. One entry of
    // each `STRIDE` is read first: a page has few, none of these reads waits for another, as those of a search by halves would,
    // and what they find decides no jump, so the processor needn't guess it. The few behind the last of them are read in turn.
    fn start_of_run(&self, len: usize, mark: u64) -> usize
        requires { len ≡ length self.now }
        ensures { IsBehindLesser mark self.now result }
    {
        let entries = self.entries.as_slice();
        let mut start = 0;
        let mut at = STRIDE - 1;
        while at < len {
            if entries[at].mark() < mark {
                start = at + 1;
            }
            at = at.saturating_add(STRIDE);
        }
        while start < len && entries[start].mark() < mark {
            start += 1;
        }
        start
    }

    // The first place from `low` on whose entry has a greater mark, or the end.
    fn end_of_run(&self, len: usize, low: usize, mark: u64) -> usize
        requires len { len ≡ length self.now }
        requires low { low ≤ length self.now }
        ensures order { low ≤ result }
        ensures in_range { result ≤ length self.now }
        ensures greater { (d : Marked T) → result < length self.now
            → mark < mark_of (get_or self.now result d) }
    {
        let entries = self.entries.as_slice();
        let mut end = low;
        while end < len {
            if entries[end].mark() > mark {
                return end;
            }
            end += 1;
        }
        end
    }

    // Whether the entry `i` comes before; its value is read only where its mark doesn't tell.
    fn is_before<F: Fn(&T) -> bool>(&self, i: usize, mark: u64, before: &F) -> bool
        requires callable { F.IsAlwaysCallable before.now }
        requires in_range { i < length self.now }
        ensures { (q : Marked T → Bool) → IsTestAt F.Fn before.now mark self.now q
            → (d : Marked T) → q (get_or self.now i d) ≡ result }
    {
        let entry = &self.entries.as_slice()[i];
        let own = entry.mark();
        if own == mark {
            before(entry.share())
        } else {
            own < mark
        }
    }
}

impl<T: Drop> Block<T> for Page<T> {
    ghost entries = { λ page. page };

    fn made(alloc: Global, items: Vec<Entry<T>>) -> Result<Vec<Arc<Page<T>>>, OutOfMemory>
        ensures { IfOk result (λ made. flat_map (λ page. page) (map arc_value made.items)
            ≡ items.items) }
    {
        pages_of(alloc, items, Growth::Anywhere)
    }

    fn len(&self) -> usize {
        self.entries.as_slice().len()
    }

    fn is_small(&self) -> bool {
        self.entries.as_slice().len() < MOST / 2
    }

    fn first(&self) -> &Entry<T> {
        &self.entries.as_slice()[0]
    }

    fn page_from(&self, i: usize) -> &[Entry<T>] {
        items_from(self.entries.as_slice(), i)
    }

    fn find<F: Fn(&T) -> bool>(&self, before: &F) -> usize {
        let entries = self.entries.as_slice();
        let mut low = 0;
        let mut high = entries.len();
        while low < high {
            let middle = low + (high - low) / 2;
            if before(entries[middle].share()) {
                low = middle + 1;
            } else {
                high = middle;
            }
        }
        low
    }

    fn find_at<F: Fn(&T) -> bool>(&self, len: usize, mark: u64, before: &F) -> Found<'_, T> {
        let mut low = self.start_of_run(len, mark);
        let mut high = self.end_of_run(len, low, mark);
        while low < high {
            let middle = low + (high - low) / 2;
            if self.is_before(middle, mark, before) {
                low = middle + 1;
            } else {
                high = middle;
            }
        }
        Found {
            count: low,
            last: last_of(self.entries.as_slice(), low),
        }
    }

    fn replace(&mut self, alloc: Global, from: usize, to: usize, items: &[Entry<T>]) -> bool {
        may_have(self.entries.as_slice().len(), from, to, items.len())
            && self.entries.replace(alloc, from, to, items)
    }

    fn replaced(&self, alloc: Global, from: usize, to: usize, items: &[Entry<T>]) -> Option<Self> {
        let old = self.entries.as_slice();
        if !may_have(old.len(), from, to, items.len()) {
            return None;
        }
        match entries_round(alloc, items_before(old, from), items, items_from(old, to)) {
            Ok(entries) => Some(Page {
                entries: Short::of(entries),
            }),
            Err(_) => None,
        }
    }

    fn spliced(
        alloc: Global,
        left: &Self,
        from: usize,
        items: Vec<Entry<T>>,
        right: &Self,
        to: usize,
    ) -> Result<Vec<Arc<Self>>, OutOfMemory>
        requires from_in { from ≤ length left.now }
        requires to_in { to ≤ length right.now }
        ensures { IfOk result (λ made. flat_map (λ page. page) (map arc_value made.items)
            ≡ take from left.now ++ items.items ++ drop to right.now) }
    {
        let before = items_before(left.entries.as_slice(), from);
        let after = items_from(right.entries.as_slice(), to);
        let entries = entries_round(alloc, before, items.as_slice(), after)?;
        pages_of(alloc, entries, Growth::after(after.is_empty()))
    }
}
