//! The sets by search, and how many each zone has.
ghost use Rattle.std.specs.Prelude.{◌≡◌, [], IfOk, IsTrue};
ghost use Rattle.std.specs.List.{Contains};
ghost use Rattle.std.specs.Arc.{arc_value};
ghost use Rattle.denial_records.specs.declared.record.Record.{Record};
ghost use Rattle.cache_meaning.specs.Held.{zone_of};
ghost use Rattle.ordered_list.specs.Order.{IsRank, with_entry, without_entry};
ghost use Rattle.record_store.specs.Counts.{AreCounted};
ghost use Rattle.record_store.specs.Ranks.{set_cmp};

use crate::counts::{SetCounts, count_at, one_less, one_more};
use crate::ranks::{BySet, zone_of};
use denial_records::Record;
use dname::{Name, OutOfMemory};
use ordered_list::{OrderedList, Rank};
use std::alloc::Global;
use std::marker::Model;
use std::sync::Arc;

pub(crate) type SetList = OrderedList<Record, BySet>;

/// Sets by search, seen as their list. How many each zone has is kept beside them, so that whether it has one is found without a
/// walk: the sets of zones that have one number stand mixed, and who signs zones can make as many of one number as he likes.
#[derive(Drop)]
pub(crate) struct Sets {
    list: SetList,
    counts: Arc<SetCounts, Global>,
}

impl Model for Sets {
    ghost use Rattle.std.specs.Prelude.{List};
    ghost use Rattle.std.specs.Arc.{arc_value};
    ghost use Rattle.denial_records.specs.declared.record.Record.{Record};
    ghost use Rattle.record_store.specs.Counts.{AreCounted};

    ghost Value = { List Record };

    ghost view = { λ s. s.list };

    ghost invariant = { λ s. AreCounted s.list (arc_value s.counts) };
}

impl Sets {
    pub(crate) fn empty(alloc: Global) -> Result<Sets, OutOfMemory>
        ensures { IfOk result (λ sets. sets ≡ []) }
    {
        Ok(Sets {
            list: SetList::empty(alloc),
            counts: Arc::new(alloc, SetCounts::empty(alloc))?,
        })
    }

    /// The list to be searched.
    pub(crate) fn list(&self) -> &SetList
        ensures { result.now ≡ self.now }
    {
        &self.list
    }

    /// With a set of that rank, in the place of the one of its key, if there is one.
    pub(crate) fn with_at(
        &self,
        alloc: Global,
        rank: Rank,
        new: Arc<Record, Global>,
    ) -> Result<Sets, OutOfMemory>
        requires { IsRank set_cmp (arc_value new) self.now rank.from rank.to }
        ensures { IfOk result (λ made. made ≡ with_entry set_cmp (arc_value new) self.now) }
    {
        let counts = self.counts_with(alloc, rank, &new)?;
        let list = self.list.with_at(alloc, rank, new)?;
        Ok(Sets { list, counts })
    }

    /// Without one of them.
    pub(crate) fn without(&self, alloc: Global, gone: &Record) -> Result<Sets, OutOfMemory>
        requires { Contains self.now gone.now }
        ensures { IfOk result (λ made. made ≡ without_entry set_cmp gone.now self.now) }
    {
        let counts = self.counts_without(alloc, gone)?;
        let list = self.list.without(alloc, gone)?;
        Ok(Sets { list, counts })
    }

    /// Whether a set of the zone is held.
    pub(crate) fn has_set_of(&self, apex: &Name) -> bool
        ensures yes { IsTrue result → (item : Record) × Contains self.now item
            × (zone_of item ≡ apex.now) }
        ensures no { (item : Record) → Contains self.now item → zone_of item ≡ apex.now
            → IsTrue result }
    {
        count_at(&self.counts, apex) > 0
    }

    // The counts with the set. One in the place of another leaves them as they are.
    fn counts_with(
        &self,
        alloc: Global,
        rank: Rank,
        new: &Record,
    ) -> Result<Arc<SetCounts, Global>, OutOfMemory>
        requires { IsRank set_cmp new.now self.now rank.from rank.to }
        ensures { IfOk result (λ counts.
            AreCounted (with_entry set_cmp new.now self.now) (arc_value counts)) }
    {
        if rank.from < rank.to {
            return Arc::try_clone(&self.counts);
        }
        let counts = one_more(alloc, &self.counts, &zone_of(new))?;
        Ok(Arc::new(alloc, counts)?)
    }

    // The counts without the set.
    fn counts_without(
        &self,
        alloc: Global,
        gone: &Record,
    ) -> Result<Arc<SetCounts, Global>, OutOfMemory>
        requires { Contains self.now gone.now }
        ensures { IfOk result (λ counts.
            AreCounted (without_entry set_cmp gone.now self.now) (arc_value counts)) }
    {
        let counts = one_less(alloc, &self.counts, &zone_of(gone))?;
        Ok(Arc::new(alloc, counts)?)
    }
}
