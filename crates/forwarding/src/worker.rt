//! A worker that never ends.
ghost use Rattle.std.specs.Prelude.{◌≡◌};
ghost use Rattle.cache_versions.specs.Seats.{seen_by};
ghost use Rattle.counters.specs.Counts.{no_counts};
ghost use Rattle.resolver.specs.Caches.{IsSeatOf};
ghost use Rattle.waiting_table.specs.Waiting.{empty_table};
ghost use Rattle.forwarding.specs.Holding.{WasHeld};
ghost use Rattle.forwarding.specs.Lawful.{IsAtWork, IsCalled, IsNew};

use crate::answering::serve_answer;
use crate::buffers::Buffers;
use crate::querying::serve_query;
use crate::ticking::serve_tick;
use crate::{Dice, Holding, Outlet, PassedNames};
use arrivals::{Came, Event};
use counters::Counts;
use resolver::{CacheSeat, SharedCache};
use std::alloc::Global;
use std::sync::Wait;
use waiting_table::WaitingTable;

/// Serves without end. Whatever it sends is lawful when it is sent, as `Outlet` requires; so it held whenever something was sent,
/// whatever ends the program. No event ends it: where memory is wanted at an answer, it is relayed and not stored. `event` is a
/// place for what comes, and `counts` has what was counted so far.
pub fn serve_on<R: Wait, O: Outlet, D: Dice>(
    rt: &R,
    alloc: Global,
    cache: &SharedCache,
    seat: &mut CacheSeat,
    passed: &PassedNames,
    table: &mut WaitingTable,
    counts: &mut Counts,
    event: &mut Event,
    outlet: &mut O,
    dice: &D,
)
    requires object { IsSeatOf cache.now seat.old }
    requires table { table.old ≡ empty_table }
    requires counts { counts.old ≡ no_counts }
    requires outlet { IsNew passed.now (O.Outlet.told outlet.old) }
    ensures { ⊥ }
{
    let mut holding = Holding::nothing();
    let mut out = Buffers::new();
    for _ in rt.forever() {
        serve_next(
            rt,
            alloc,
            cache,
            seat,
            passed,
            table,
            counts,
            &mut holding,
            event,
            outlet,
            dice,
            &mut out,
        );
    }
    unreachable!()
}

/// Serves so many events, and then lets go.
pub fn serve_some<R: Wait, O: Outlet, D: Dice>(
    rt: &R,
    alloc: Global,
    cache: &SharedCache,
    seat: &mut CacheSeat,
    passed: &PassedNames,
    table: &mut WaitingTable,
    counts: &mut Counts,
    event: &mut Event,
    outlet: &mut O,
    dice: &D,
    events: usize,
)
    requires object { IsSeatOf cache.now seat.old }
    requires table { table.old ≡ empty_table }
    requires counts { counts.old ≡ no_counts }
    requires outlet { IsNew passed.now (O.Outlet.told outlet.old) }
    ensures object { IsSeatOf cache.now seat.new }
    ensures work { IsAtWork passed.now (seen_by seat.new) table.new counts.new
        (O.Outlet.told outlet.new) }
{
    let mut holding = Holding::nothing();
    let mut out = Buffers::new();
    for _ in 0..events {
        serve_next(
            rt,
            alloc,
            cache,
            seat,
            passed,
            table,
            counts,
            &mut holding,
            event,
            outlet,
            dice,
            &mut out,
        );
    }
}

// Waits for the next event, and does what it asks for. `holding` is what was held at the last tick.
fn serve_next<R: Wait, O: Outlet, D: Dice>(
    rt: &R,
    alloc: Global,
    cache: &SharedCache,
    seat: &mut CacheSeat,
    passed: &PassedNames,
    table: &mut WaitingTable,
    counts: &mut Counts,
    holding: &mut Holding,
    event: &mut Event,
    outlet: &mut O,
    dice: &D,
    out: &mut Buffers,
)
    requires object { IsSeatOf cache.now seat.old }
    requires work { IsAtWork passed.now (seen_by seat.old) table.old counts.old
        (O.Outlet.told outlet.old) }
    requires holding { WasHeld holding.old (seen_by seat.old) }
    ensures object { IsSeatOf cache.now seat.new }
    ensures work { IsAtWork passed.now (seen_by seat.new) table.new counts.new
        (O.Outlet.told outlet.new) }
    ensures holding { WasHeld holding.new (seen_by seat.new) }
{
    outlet.receive(rt, event);
    serve_event(
        rt, alloc, cache, seat, passed, table, counts, holding, event, outlet, dice, out,
    );
}

// Does what the event asks for.
fn serve_event<R: Wait, O: Outlet, D: Dice>(
    rt: &R,
    alloc: Global,
    cache: &SharedCache,
    seat: &mut CacheSeat,
    passed: &PassedNames,
    table: &mut WaitingTable,
    counts: &mut Counts,
    holding: &mut Holding,
    event: &Event,
    outlet: &mut O,
    dice: &D,
    out: &mut Buffers,
)
    requires object { IsSeatOf cache.now seat.old }
    requires called { IsCalled passed.now (seen_by seat.old) table.old counts.old event.now
        (O.Outlet.told outlet.old) }
    requires holding { WasHeld holding.old (seen_by seat.old) }
    ensures object { IsSeatOf cache.now seat.new }
    ensures work { IsAtWork passed.now (seen_by seat.new) table.new counts.new
        (O.Outlet.told outlet.new) }
    ensures holding { WasHeld holding.new (seen_by seat.new) }
{
    match event.came {
        Came::Query { client, carrier } => {
            serve_query(
                outlet, dice, cache, seat, passed, table, counts, event, client, carrier, out,
            );
        }
        Came::Answer { slot, carrier } => {
            let at = usize::from(slot);
            serve_answer(
                rt, alloc, outlet, dice, cache, seat, passed, table, counts, event, at, carrier,
                out,
            );
        }
        Came::Tick => {
            serve_tick(
                outlet, dice, cache, seat, passed, table, counts, holding, event,
            );
            outlet.show(cache, seat, passed, counts, *holding);
        }
    }
}
