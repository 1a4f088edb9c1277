//! Records in the order in which they go.
ghost use Rattle.std.specs.Prelude.{◌≡◌, ◌<◌, [], false, length, drop, slice_index_or, IfOk};
ghost use Rattle.std.specs.List.{Contains};
ghost use Rattle.std.specs.Arc.{arc_value};
ghost use Rattle.cache_meaning.specs.Held.{displaces};
ghost use Rattle.held_laws.specs.HeldLaws.{NoneDisplaces};
ghost use Rattle.ordered_list.specs.Order.{IsInOrder};
ghost use Rattle.record_store.specs.Holding.{AreBut, AreWith};
ghost use Rattle.record_store.specs.Ranks.{going_cmp};

use crate::ranks::ByGoing;
use denial_records::Record;
use dname::OutOfMemory;
use ordered_list::OrderedList;
use std::alloc::Global;
use std::marker::Model;
use std::sync::Arc;

/// Records in the order in which they go from a full cache, of which none displaces another. Seen as their list.
#[derive(Drop)]
pub(crate) struct Goings {
    list: OrderedList<Record, ByGoing>,
}

impl Model for Goings {
    ghost use Rattle.std.specs.Prelude.{List};
    ghost use Rattle.denial_records.specs.declared.record.Record.{Record};
    ghost use Rattle.record_store.specs.Holding.{AreGoings};

    ghost Value = { List Record };

    ghost view = { λ g. g.list };

    ghost invariant = { λ g. AreGoings g.list };
}

impl Goings {
    pub(crate) fn empty(alloc: Global) -> Goings
        ensures { result ≡ [] }
    {
        Goings {
            list: OrderedList::empty(alloc),
        }
    }

    pub(crate) fn len(&self) -> usize
        ensures value { result ≡ length self.now }
        ensures in_order { IsInOrder going_cmp self.now }
    {
        self.list.len()
    }

    /// The record that goes first.
    pub(crate) fn first(&self) -> &Arc<Record>
        requires { 0 < length self.now }
        ensures value { arc_value result.now ≡ slice_index_or self.now 0 (arc_value result.now) }
        ensures in_order { IsInOrder going_cmp self.now }
    {
        self.list.get(0)
    }

    /// Another owner of the records, whose order may be changed in place.
    pub(crate) fn try_clone(&self, alloc: Global) -> Result<Goings, OutOfMemory>
        ensures { IfOk result (λ clone. clone ≡ self.now) }
    {
        Ok(Goings {
            list: self.list.try_clone(alloc)?,
        })
    }

    /// With a record that displaces none.
    pub(crate) fn with(self, alloc: Global, new: Arc<Record, Global>) -> Result<Goings, OutOfMemory>
        requires { (item : Record) → Contains self item → displaces (arc_value new) item ≡ false }
        ensures records { IfOk result (λ more. AreWith (arc_value new) self more) }
        ensures apart { IfOk result (λ more. NoneDisplaces more) }
    {
        let Goings { list } = self;
        Ok(Goings {
            list: list.into_with(alloc, new)?,
        })
    }

    /// Without a record that is there.
    pub(crate) fn without(self, alloc: Global, gone: &Record) -> Result<Goings, OutOfMemory>
        requires { Contains self gone.now }
        ensures { IfOk result (λ left. AreBut gone.now self left) }
    {
        let Goings { list } = self;
        Ok(Goings {
            list: list.into_without(alloc, gone)?,
        })
    }

    /// Without the record that goes first.
    pub(crate) fn without_first(self, alloc: Global) -> Result<Goings, OutOfMemory>
        requires { 0 < length self }
        ensures { IfOk result (λ left. left ≡ drop 1 self) }
    {
        let Goings { list } = self;
        Ok(Goings {
            list: list.into_without_first(alloc, 1)?,
        })
    }
}
