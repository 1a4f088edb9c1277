//! The list itself.
ghost use Rattle.std.specs.Prelude.{◌≡◌, ◌<◌, ◌≤◌, ◌↔◌, ◌+◌, ◌++◌, ◌∷◌, [], Bool, length, take, drop, map, IfOk, IfSome, IsTrue, MatchOption, slice_index_or};
ghost use Rattle.std.specs.List.{prefix_len};
ghost use Rattle.std.specs.List.Sorted.{IsPartitionedBy};
ghost use Rattle.std.specs.Fn.{FnReturnsAt};
ghost use Rattle.std.specs.Arc.{arc_value};
ghost use Rattle.page_list.specs.Marks.{marked_by, PartsAtMark};

use crate::entry_list::EntryList;
use crate::{Entry, Iter, Last, Marking, NoMarks, OutOfMemory};
use std::alloc::Global;
use std::marker::{Model, PhantomData};
use std::slice::from_ref;
use std::sync::Arc;

/// A list that stays, seen as the list of its entries: a change makes another list, which shares with it all that
/// it does not touch. It keeps the mark of each entry beside it for its searches.
#[derive(Drop)]
pub struct MarkedList<T: Drop, M: Marking<T>> {
    entries: EntryList<T>,
    by: PhantomData<M>,
}

/// A list that stays, without marks.
pub type PageList<T> = MarkedList<T, NoMarks>;

impl<T: Drop, M: Marking<T>> Model for MarkedList<T, M> {
    ghost use Rattle.std.specs.Prelude.{◌≡◌, List, map};
    ghost use Rattle.page_list.specs.Marks.{marked_by, value_of};

    ghost Value = { List T };

    ghost view = { λ l. map value_of l.entries };

    ghost invariant = { λ l. l.entries ≡ map (marked_by M.mark M.note) (map value_of l.entries) };
}

impl<T: Drop, M: Marking<T>> MarkedList<T, M> {
    /// A list with no entry, which takes no memory.
    pub fn empty(alloc: Global) -> MarkedList<T, M>
        ensures { result ≡ [] }
    {
        MarkedList {
            entries: EntryList::empty(alloc),
            by: PhantomData,
        }
    }

    pub fn len(&self) -> usize
        ensures { result ≡ length self.now }
    {
        self.entries.len()
    }

    pub fn is_empty(&self) -> bool
        ensures { IsTrue result ↔ (self.now ≡ []) }
    {
        self.len() == 0
    }

    pub fn get(&self, i: usize) -> &Arc<T>
        requires { i < length self.now }
        ensures { arc_value result.now ≡ slice_index_or self.now i (arc_value result.now) }
    {
        self.entries.get(i).share()
    }

    /// The entries in order, one after another: the whole list at a cost linear in its length.
    pub fn iter(&self) -> Iter<'_, T>
        ensures { result ≡ self.now }
    {
        Iter::over(&self.entries)
    }

    /// How many entries `before` holds of, where these are the first ones: about 20 calls at 131,072 entries.
    pub fn find<C: Fn(&T) -> bool>(&self, before: C) -> usize
        requires { C.IsAlwaysCallable before }
        ensures in_range { result ≤ length self.now }
        ensures exact { (p : T → Bool)
            → ((x : T) (r : Bool) → FnReturnsAt C.Fn before x r → r ≡ p x)
            → IsPartitionedBy p self.now → result ≡ prefix_len p self.now }
    {
        self.entries.find(&before)
    }

    /// How many entries `before` holds of, where these are the first ones. It is asked only of entries with the mark
    /// itself: those of a lesser mark come before, those of a greater one don't.
    pub fn find_at<C: Fn(&T) -> bool>(&self, mark: u64, before: C) -> usize
        requires { C.IsAlwaysCallable before }
        ensures in_range { result ≤ length self.now }
        ensures exact { (p : T → Bool)
            → ((x : T) (r : Bool) → FnReturnsAt C.Fn before x r → r ≡ p x)
            → PartsAtMark M.mark mark p self.now → result ≡ prefix_len p self.now }
    {
        self.entries.find_at(mark, &before).count
    }

    /// The last of the entries that `find_at` counts, found with them. None where there are none.
    pub fn last_at<C: Fn(&T) -> bool>(&self, mark: u64, before: C) -> Option<Last<'_, T>>
        requires { C.IsAlwaysCallable before }
        ensures in_range { IfSome result (λ last. last.place < length self.now) }
        ensures value { IfSome result (λ last. arc_value last.share.now
            ≡ slice_index_or self.now last.place (arc_value last.share.now)) }
        ensures mark { IfSome result (λ last. last.mark ≡ M.mark (arc_value last.share.now)) }
        ensures note { IfSome result (λ last. last.note ≡ M.note (arc_value last.share.now)) }
        ensures exact { (p : T → Bool)
            → ((x : T) (r : Bool) → FnReturnsAt C.Fn before x r → r ≡ p x)
            → PartsAtMark M.mark mark p self.now → MatchOption result (prefix_len p self.now ≡ 0)
            (λ last. last.place + 1 ≡ prefix_len p self.now) }
    {
        match self.entries.last_at(mark, &before) {
            Some((place, entry)) => Some(Last {
                place,
                mark: entry.mark(),
                note: entry.note(),
                share: entry.share(),
            }),
            None => None,
        }
    }

    /// The list with `items` in place of the entries `from..to`. Want of memory also where an entry can have no
    /// further owner.
    pub fn with_replaced(
        &self,
        alloc: Global,
        from: usize,
        to: usize,
        items: Vec<Arc<T>>,
    ) -> Result<MarkedList<T, M>, OutOfMemory>
        requires order { from ≤ to }
        requires in_range { to ≤ length self.now }
        ensures { IfOk result (λ made.
            made ≡ take from self.now ++ map arc_value items.items ++ drop to self.now) }
    {
        let marked = marked_entries::<T, M>(alloc, items)?;
        let clone = self.entries.try_clone(alloc)?;
        let entries = clone.into_replaced(alloc, from, to, marked.as_slice())?;
        Ok(MarkedList {
            entries,
            by: PhantomData,
        })
    }

    /// Another owner of its entries: a list that may be changed where it lies, while this one stays.
    pub fn try_clone(&self, alloc: Global) -> Result<MarkedList<T, M>, OutOfMemory>
        ensures { IfOk result (λ clone. clone ≡ self.now) }
    {
        let entries = self.entries.try_clone(alloc)?;
        Ok(MarkedList {
            entries,
            by: PhantomData,
        })
    }

    /// The list with `item` in place of the entries `from..to`.
    pub fn with_one(
        &self,
        alloc: Global,
        from: usize,
        to: usize,
        item: Arc<T>,
    ) -> Result<MarkedList<T, M>, OutOfMemory>
        requires order { from ≤ to }
        requires in_range { to ≤ length self.now }
        ensures { IfOk result (λ made.
            made ≡ take from self.now ++ arc_value item ∷ drop to self.now) }
    {
        self.try_clone(alloc)?.into_with_one(alloc, from, to, item)
    }

    /// The list without the entries `from..to`.
    pub fn without_run(
        &self,
        alloc: Global,
        from: usize,
        to: usize,
    ) -> Result<MarkedList<T, M>, OutOfMemory>
        requires order { from ≤ to }
        requires in_range { to ≤ length self.now }
        ensures { IfOk result (λ made. made ≡ take from self.now ++ drop to self.now) }
    {
        self.try_clone(alloc)?.into_without_run(alloc, from, to)
    }

    /// The list with `item` in place of the entries `from..to`. What no other list shares with it is changed where it lies.
    pub fn into_with_one(
        self,
        alloc: Global,
        from: usize,
        to: usize,
        item: Arc<T>,
    ) -> Result<MarkedList<T, M>, OutOfMemory>
        requires order { from ≤ to }
        requires in_range { to ≤ length self }
        ensures { IfOk result
            (λ made. made ≡ take from self ++ arc_value item ∷ drop to self) }
    {
        let MarkedList { entries, by } = self;
        let mark = M::mark(&item);
        let note = M::note(&item);
        let entry = Entry::of(mark, note, item);
        let entries = entries.into_replaced(alloc, from, to, from_ref(&entry))?;
        Ok(MarkedList { entries, by })
    }

    /// The list without the entries `from..to`. What no other list shares with it is changed where it lies.
    pub fn into_without_run(
        self,
        alloc: Global,
        from: usize,
        to: usize,
    ) -> Result<MarkedList<T, M>, OutOfMemory>
        requires order { from ≤ to }
        requires in_range { to ≤ length self }
        ensures { IfOk result (λ made. made ≡ take from self ++ drop to self) }
    {
        let MarkedList { entries, by } = self;
        let none = Vec::new(alloc);
        let entries = entries.into_replaced(alloc, from, to, none.as_slice())?;
        Ok(MarkedList { entries, by })
    }
}

// The values, each with its mark.
fn marked_entries<T: Drop, M: Marking<T>>(
    alloc: Global,
    items: Vec<Arc<T>>,
) -> Result<Vec<Entry<T>>, OutOfMemory>
    ensures { IfOk result (λ made.
        made.items ≡ map (marked_by M.mark M.note) (map arc_value items.items)) }
{
    let mut made = Vec::with_capacity(alloc, items.len())?;
    for share in items {
        let mark = M::mark(&share);
        let note = M::note(&share);
        made.push(Entry::of(mark, note, share))?;
    }
    Ok(made)
}

impl<'a, T: Drop, M: Marking<T>> IntoIterator for &'a MarkedList<T, M> {
    type Item = &'a Arc<T>;

    type IntoIter = Iter<'a, T>;

    ghost into_iter_gives = { λ list it. it ≡ list.now };

    fn into_iter(self) -> Iter<'a, T>
        ensures { result ≡ self.now }
    {
        self.iter()
    }
}
