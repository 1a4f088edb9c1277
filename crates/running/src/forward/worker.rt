//! What a worker of a forwarder has at hand.
ghost use Rattle.std.specs.Prelude.{◌≡◌, IfOk};
ghost use Rattle.counters.specs.Counts.{no_counts};
ghost use Rattle.resolver.specs.Caches.{IsSeatOf};
ghost use Rattle.waiting_table.specs.Waiting.{empty_table};
ghost use Rattle.forwarding.specs.Lawful.{IsNew};

use crate::forward::start::Start;
use arrivals::{Came, Event, MessageOctets, Moment};
use counters::Counts;
use dname::OutOfMemory;
use forwarding::{Dice, Outlet, PassedNames, serve_on};
use resolver::{CacheSeat, SharedCache};
use std::alloc::Global;
use std::sync::Wait;
use waiting_table::WaitingTable;

/// What a place for events shows before the first has come.
const START: Moment = Moment {
    seconds: 0,
    millis: 0,
};

/// A worker that has not begun.
#[derive(Drop)]
pub(crate) struct ForwardWorker<O: Outlet> {
    pub(crate) seat: CacheSeat,
    pub(crate) outlet: O,
    table: WaitingTable,
    counts: Counts,
    ghost waits: { table ≡ empty_table },
    ghost uncounted: { counts ≡ no_counts },
}

impl<O: Outlet + Drop> ForwardWorker<O> {
    /// The worker of the seat and the outlet. The memory for its waiting questions is taken here.
    pub(crate) fn new(
        alloc: Global,
        seat: CacheSeat,
        outlet: O,
    ) -> Result<ForwardWorker<O>, OutOfMemory>
        ensures seat { IfOk result (λ worker. worker.seat ≡ seat) }
        ensures outlet { IfOk result (λ worker. worker.outlet ≡ outlet) }
    {
        Ok(ForwardWorker {
            seat,
            outlet,
            table: WaitingTable::new(alloc)?,
            counts: Counts::new(),
        })
    }

    /// Waits for the word at the start, and then serves without end, or leaves.
    pub(crate) fn serve_from<R: Wait, D: Dice>(
        self,
        rt: &R,
        alloc: Global,
        cache: &SharedCache,
        passed: &PassedNames,
        ids: &D,
        start: &Start,
    )
        requires object { IsSeatOf cache.now self.seat }
        requires new { IsNew passed.now (O.Outlet.told self.outlet) }
    {
        if start.is_given(rt) {
            self.serve(rt, alloc, cache, passed, ids);
        }
    }

    // Serves without end.
    fn serve<R: Wait, D: Dice>(
        self,
        rt: &R,
        alloc: Global,
        cache: &SharedCache,
        passed: &PassedNames,
        ids: &D,
    )
        requires object { IsSeatOf cache.now self.seat }
        requires new { IsNew passed.now (O.Outlet.told self.outlet) }
        ensures { ⊥ }
    {
        let ForwardWorker {
            mut seat,
            mut outlet,
            mut table,
            mut counts,
        } = self;
        let mut event = Event {
            moment: START,
            came: Came::Tick,
            octets: MessageOctets::new(),
        };
        serve_on(
            rt,
            alloc,
            cache,
            &mut seat,
            passed,
            &mut table,
            &mut counts,
            &mut event,
            &mut outlet,
            ids,
        );
    }
}
