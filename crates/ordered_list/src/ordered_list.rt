//! The list itself.
ghost use Rattle.std.specs.Prelude.{◌≡◌, ◌<◌, ◌≤◌, ◌↔◌, ◌+◌, [], Bool, length, drop, IfOk, IfSome, IsTrue, MatchOption, slice_index_or, option_map};
ghost use Rattle.std.specs.List.{filter, prefix_len};
ghost use Rattle.std.specs.List.Sorted.{IsPartitionedBy};
ghost use Rattle.std.specs.Ordering.{is_lt, is_eq};
ghost use Rattle.std.specs.Fn.{FnReturnsAt};
ghost use Rattle.std.specs.Arc.{arc_value};
ghost use Rattle.page_list.specs.Marks.{PartsAtMark};
ghost use Rattle.ordered_list.specs.Order.{IsInOrder, IsRank, entry_at, with_entry, without_entry};

use crate::{Rank, Ranking};
use page_list::{Iter, Last, MarkedList, OutOfMemory};
use std::alloc::Global;
use std::marker::Model;
use std::sync::Arc;

/// Entries in strict order, seen as their list: of those that rank equal it holds one. A change makes another list,
/// which shares with this one all that it does not touch, and reads no more of it than its place.
#[derive(Drop)]
pub struct OrderedList<T: Drop, R: Ranking<T>> {
    list: MarkedList<T, R>,
}

impl<T: Drop, R: Ranking<T>> Model for OrderedList<T, R> {
    ghost use Rattle.std.specs.Prelude.{List};
    ghost use Rattle.ordered_list.specs.Order.{IsInOrder};

    ghost Value = { List T };

    ghost view = { λ l. l.list };

    ghost invariant = { λ l. IsInOrder R.cmp l.list };
}

// Whether the entry ranks equal with `like`, by the marks of both; it is read only where these are equal.
fn ranks_equal<T: Drop, R: Ranking<T>>(entry: &T, own: u64, like: &T, mark: u64) -> bool
    requires own { own ≡ R.mark entry.now }
    requires mark { mark ≡ R.mark like.now }
    ensures { result ≡ is_eq (R.cmp entry.now like.now) }
{
    own == mark && R::compare(entry, like).is_eq()
}

impl<T: Drop, R: Ranking<T>> OrderedList<T, R> {
    /// A list with no entry, which takes no memory.
    pub fn empty(alloc: Global) -> OrderedList<T, R>
        ensures { result ≡ [] }
    {
        OrderedList {
            list: MarkedList::empty(alloc),
        }
    }

    pub fn len(&self) -> usize
        ensures count { result ≡ length self.now }
        ensures in_order { IsInOrder R.cmp self.now }
    {
        self.list.len()
    }

    pub fn is_empty(&self) -> bool
        ensures { IsTrue result ↔ (self.now ≡ []) }
    {
        self.list.is_empty()
    }

    pub fn get(&self, i: usize) -> &Arc<T>
        requires { i < length self.now }
        ensures { arc_value result.now ≡ slice_index_or self.now i (arc_value result.now) }
    {
        self.list.get(i)
    }

    /// The entries in order, one after another: the whole list at a cost linear in its length.
    pub fn iter(&self) -> Iter<'_, T>
        ensures all { result ≡ self.now }
        ensures in_order { IsInOrder R.cmp self.now }
    {
        self.list.iter()
    }

    /// The entry that ranks equal with `like`. It is compared with entries of its own mark alone.
    pub fn at(&self, like: &T) -> Option<&Arc<T>>
        ensures entry { option_map (λ entry. arc_value entry.now) result
            ≡ entry_at R.cmp like.now self.now }
        ensures in_order { IsInOrder R.cmp self.now }
    {
        self.ranked(self.rank(like))
    }

    /// The rank of `like`, whether an entry ranks equal with it or none does.
    pub fn rank(&self, like: &T) -> Rank
        ensures rank { IsRank R.cmp like.now self.now result.from result.to }
        ensures in_order { IsInOrder R.cmp self.now }
    {
        let (from, to) = self.place(like);
        Rank { from, to }
    }

    /// The entry of that rank, if there is one.
    pub fn ranked(&self, rank: Rank) -> Option<&Arc<T>>
        requires { (like : T) × IsRank R.cmp like self.now rank.from rank.to }
        ensures { (like : T) → IsRank R.cmp like self.now rank.from rank.to
            → option_map (λ entry. arc_value entry.now) result ≡ entry_at R.cmp like self.now }
    {
        if rank.from < rank.to {
            Some(self.list.get(rank.from))
        } else {
            None
        }
    }

    /// What `with` gives, where the entry's rank is known.
    pub fn with_at(
        &self,
        alloc: Global,
        rank: Rank,
        entry: Arc<T>,
    ) -> Result<OrderedList<T, R>, OutOfMemory>
        requires { IsRank R.cmp (arc_value entry) self.now rank.from rank.to }
        ensures { IfOk result (λ made. made ≡ with_entry R.cmp (arc_value entry) self.now) }
    {
        let list = self.list.with_one(alloc, rank.from, rank.to, entry)?;
        Ok(OrderedList { list })
    }

    // How many entries rank below `like`, and how many don't rank above it.
    fn place(&self, like: &T) -> (usize, usize)
        ensures from { result.0 ≡ length (filter (λ x. is_lt (R.cmp x like.now)) self.now) }
        ensures to { result.1
            ≡ result.0 + length (filter (λ x. is_eq (R.cmp x like.now)) self.now) }
        ensures order { result.0 ≤ result.1 }
        ensures in_range { result.1 ≤ length self.now }
        ensures in_order { IsInOrder R.cmp self.now }
    {
        let mark = R::mark(like);
        let _count = self.list.len();
        let last = self
            .list
            .last_at(mark, |entry| R::compare(entry, like).is_le());
        match last {
            Some(
                Last {
                    place,
                    mark: own,
                    share,
                    ..
                },
            ) => {
                if ranks_equal::<T, R>(share, own, like, mark) {
                    (place, place + 1)
                } else {
                    (place + 1, place + 1)
                }
            }
            None => (0, 0),
        }
    }

    /// How many entries `before` holds of, where these are the first ones: about 20 calls at 131,072 entries.
    pub fn find<F: Fn(&T) -> bool>(&self, before: F) -> usize
        requires { F.IsAlwaysCallable before }
        ensures in_range { result ≤ length self.now }
        ensures exact { (p : T → Bool)
            → ((x : T) (r : Bool) → FnReturnsAt F.Fn before x r → r ≡ p x)
            → IsPartitionedBy p self.now → result ≡ prefix_len p self.now }
        ensures in_order { IsInOrder R.cmp self.now }
    {
        self.list.find(before)
    }

    /// How many entries `before` holds of, where these are the first ones: all with a lesser mark, and none with a greater
    /// one. It is asked of entries with the mark itself alone.
    pub fn find_at<F: Fn(&T) -> bool>(&self, mark: u64, before: F) -> usize
        requires { F.IsAlwaysCallable before }
        ensures in_range { result ≤ length self.now }
        ensures exact { (p : T → Bool)
            → ((x : T) (r : Bool) → FnReturnsAt F.Fn before x r → r ≡ p x)
            → PartsAtMark R.mark mark p self.now → result ≡ prefix_len p self.now }
        ensures in_order { IsInOrder R.cmp self.now }
    {
        self.list.find_at(mark, before)
    }

    /// The last of the entries that `find_at` counts, found with them. None where there are none.
    pub fn last_at<F: Fn(&T) -> bool>(&self, mark: u64, before: F) -> Option<Last<'_, T>>
        requires { F.IsAlwaysCallable before }
        ensures in_range { IfSome result (λ last. last.place < length self.now) }
        ensures value { IfSome result (λ last. arc_value last.share.now
            ≡ slice_index_or self.now last.place (arc_value last.share.now)) }
        ensures mark { IfSome result (λ last. last.mark ≡ R.mark (arc_value last.share.now)) }
        ensures note { IfSome result (λ last. last.note ≡ R.note (arc_value last.share.now)) }
        ensures exact { (p : T → Bool)
            → ((x : T) (r : Bool) → FnReturnsAt F.Fn before x r → r ≡ p x)
            → PartsAtMark R.mark mark p self.now → MatchOption result (prefix_len p self.now ≡ 0)
            (λ last. last.place + 1 ≡ prefix_len p self.now) }
        ensures in_order { IsInOrder R.cmp self.now }
    {
        self.list.last_at(mark, before)
    }

    /// The list with the entry in its place, and so in the place of the one that ranks equal, if there is one.
    pub fn with(&self, alloc: Global, entry: Arc<T>) -> Result<OrderedList<T, R>, OutOfMemory>
        ensures made { IfOk result (λ made. made ≡ with_entry R.cmp (arc_value entry) self.now) }
        ensures in_order { IsInOrder R.cmp self.now }
    {
        self.with_at(alloc, self.rank(&entry), entry)
    }

    /// The list without the entry that ranks equal with `like`.
    pub fn without(&self, alloc: Global, like: &T) -> Result<OrderedList<T, R>, OutOfMemory>
        ensures made { IfOk result (λ made. made ≡ without_entry R.cmp like.now self.now) }
        ensures in_order { IsInOrder R.cmp self.now }
    {
        let (from, to) = self.place(like);
        let list = self.list.without_run(alloc, from, to)?;
        Ok(OrderedList { list })
    }

    /// The list without its first `n` entries.
    pub fn without_first(&self, alloc: Global, n: usize) -> Result<OrderedList<T, R>, OutOfMemory>
        requires { n ≤ length self.now }
        ensures { IfOk result (λ made. made ≡ drop n self.now) }
    {
        let list = self.list.without_run(alloc, 0, n)?;
        Ok(OrderedList { list })
    }

    /// Another owner of its entries: a list that may be changed in place, while this one stays.
    pub fn try_clone(&self, alloc: Global) -> Result<OrderedList<T, R>, OutOfMemory>
        ensures same { IfOk result (λ clone. clone ≡ self.now) }
        ensures in_order { IsInOrder R.cmp self.now }
    {
        let list = self.list.try_clone(alloc)?;
        Ok(OrderedList { list })
    }

    /// The list with the entry in its place, and so in the place of the one that ranks equal, if there is one. What no other list
    /// shares with it is changed where it lies.
    pub fn into_with(self, alloc: Global, entry: Arc<T>) -> Result<OrderedList<T, R>, OutOfMemory>
        ensures made { IfOk result (λ made. made ≡ with_entry R.cmp (arc_value entry) self) }
        ensures in_order { IsInOrder R.cmp self }
    {
        let (from, to) = self.place(&entry);
        let OrderedList { list } = self;
        let list = list.into_with_one(alloc, from, to, entry)?;
        Ok(OrderedList { list })
    }

    /// The list without the entry that ranks equal with `like`. What no other list shares with it is changed where it lies.
    pub fn into_without(self, alloc: Global, like: &T) -> Result<OrderedList<T, R>, OutOfMemory>
        ensures made { IfOk result (λ made. made ≡ without_entry R.cmp like.now self) }
        ensures in_order { IsInOrder R.cmp self }
    {
        let (from, to) = self.place(like);
        let OrderedList { list } = self;
        let list = list.into_without_run(alloc, from, to)?;
        Ok(OrderedList { list })
    }

    /// The list without its first `n` entries. What no other list shares with it is changed where it lies.
    pub fn into_without_first(
        self,
        alloc: Global,
        n: usize,
    ) -> Result<OrderedList<T, R>, OutOfMemory>
        requires { n ≤ length self }
        ensures { IfOk result (λ made. made ≡ drop n self) }
    {
        let OrderedList { list } = self;
        let list = list.into_without_run(alloc, 0, n)?;
        Ok(OrderedList { list })
    }
}

impl<'a, T: Drop, R: Ranking<T>> IntoIterator for &'a OrderedList<T, R> {
    type Item = &'a Arc<T>;

    type IntoIter = Iter<'a, T>;

    ghost into_iter_gives = { λ list it. it ≡ list.now };

    fn into_iter(self) -> Iter<'a, T> {
        self.iter()
    }
}

#[cfg(test)]
mod tests;
