//! The parts of a store.
ghost use Rattle.std.specs.Prelude.{◌≡◌, [], length, IfOk};
ghost use Rattle.std.specs.Arc.{arc_value};
ghost use Rattle.cache_meaning.specs.Held.{nothing_held};
ghost use Rattle.held_laws.specs.HeldLaws.{NoneDisplaces};

use crate::goings::Goings;
use crate::ranks::ByApex;
use crate::sets::Sets;
use dname::OutOfMemory;
use ordered_list::OrderedList;
use std::alloc::Global;
use std::marker::Model;
use std::sync::Arc;
use zone_chains::ZoneRecords;

pub(crate) type Zones = OrderedList<ZoneRecords, ByApex>;

/// Records in the order in which they go from a full cache, and by search: the sets by their keys, the denial records in their
/// zones. Seen as the records in that order and the chains of all zones.
#[derive(Drop)]
pub(crate) struct Holding {
    pub(crate) goings: Goings,
    pub(crate) sets: Arc<Sets, Global>,
    pub(crate) zones: Arc<Zones, Global>,
}

impl Model for Holding {
    ghost use Rattle.std.specs.Arc.{arc_value};
    ghost use Rattle.cache_meaning.specs.Held.{Held};
    ghost use Rattle.record_store.specs.Holding.{held_in, IsTied};

    ghost Value = { Held };

    ghost view = { λ h. held_in h.goings (arc_value h.zones) };

    ghost invariant = { λ h. IsTied h.goings (arc_value h.sets) (arc_value h.zones) };
}

impl Holding {
    pub(crate) fn empty(alloc: Global) -> Result<Holding, OutOfMemory>
        ensures { IfOk result (λ holding. holding ≡ nothing_held) }
    {
        Ok(Holding {
            goings: Goings::empty(alloc),
            sets: Arc::new(alloc, Sets::empty(alloc)?)?,
            zones: Arc::new(alloc, Zones::empty(alloc))?,
        })
    }

    /// How many records there are, of which none displaces another.
    pub(crate) fn len(&self) -> usize
        ensures value { result ≡ length self.now.records }
        ensures apart { NoneDisplaces self.now.records }
    {
        self.goings.len()
    }
}
