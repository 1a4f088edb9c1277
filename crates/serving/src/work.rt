//! One worker over its link.
ghost use Rattle.std.specs.Prelude.{◌≡◌, ◌≤◌, length, IfOk, IfErr, Err};
ghost use Rattle.cache_versions.specs.Seats.{number_by};
ghost use Rattle.resolver.specs.Caches.{IsSeatOf};
ghost use Rattle.serving.specs.declared.workspace.TheConstants.{AT_ONCE};
ghost use Rattle.serving.specs.AtWork.{Halts, WorksOn, state_of};
ghost use Rattle.serving.specs.Worker.{HasServed, HasFaults};

use crate::ServeFault;
use crate::parts::first;
use crate::round::{do_all, receive_some, send_all};
use crate::workspace::Workspace;
use outside_core::{Clock, Link};
use resolver::{CacheSeat, SharedCache};
use std::alloc::Global;
use std::sync::Wait;

/// Receives so many datagrams, does each at a moment that the clock tells, and sends what is to be sent. Datagrams of clients
/// that have come together are all received before the first is done, and all done before anything is sent, sixteen at most; one of
/// the upstream is done alone. The link is waited for only once all is sent that is due. No query waits at first. It stops at the
/// first fault; what was received, sent and stored before stays.
pub fn serve_worker<R: Wait, L: Link, C: Clock>(
    rt: &R,
    alloc: Global,
    cache: &SharedCache,
    seat: &mut CacheSeat,
    link: &mut L,
    clock: &C,
    datagrams: u32,
) -> Result<(), ServeFault>
    requires { IsSeatOf cache.now seat.old }
    ensures object { IsSeatOf cache.now seat.new }
    ensures number { number_by seat.new ≡ number_by seat.old }
    ensures port { L.Link.port link.new ≡ L.Link.port link.old }
    ensures upstream { L.Link.upstream link.new ≡ L.Link.upstream link.old }
    ensures faults { HasFaults (L.Link.faults link.old) (L.Link.faults link.new) result }
    ensures served { HasServed datagrams (C.Clock.moment clock.now) seat.old seat.new
        (L.Link.events link.old) (L.Link.events link.new) result }
{
    let mut workspace = Workspace::new(alloc)?;
    let mut left = datagrams as usize;
    while left > 0 {
        left -= serve_next(rt, alloc, cache, seat, link, clock, &mut workspace, left)?;
    }
    Ok(())
}

// Receives the next datagram, or some that came together, so many at most, does them and sends what they say. How many these were.
fn serve_next<R: Wait, L: Link, C: Clock>(
    rt: &R,
    alloc: Global,
    cache: &SharedCache,
    seat: &mut CacheSeat,
    link: &mut L,
    clock: &C,
    workspace: &mut Workspace,
    most: usize,
) -> Result<usize, ServeFault>
    requires object { IsSeatOf cache.now seat.old }
    requires some { 1 ≤ most }
    requires datagrams { length workspace.old.datagrams.items ≡ AT_ONCE }
    requires answers { length workspace.old.answers.items ≡ AT_ONCE }
    ensures object { IsSeatOf cache.now seat.new }
    ensures number { number_by seat.new ≡ number_by seat.old }
    ensures datagrams { length workspace.new.datagrams.items ≡ AT_ONCE }
    ensures answers { length workspace.new.answers.items ≡ AT_ONCE }
    ensures port { L.Link.port link.new ≡ L.Link.port link.old }
    ensures upstream { L.Link.upstream link.new ≡ L.Link.upstream link.old }
    ensures some { IfOk result (λ count. 1 ≤ count) }
    ensures most { IfOk result (λ count. count ≤ most) }
    ensures unfailing { IfOk result (λ _. L.Link.faults link.new ≡ L.Link.faults link.old) }
    ensures faults { IfErr result (λ fault.
        HasFaults (L.Link.faults link.old) (L.Link.faults link.new) (Err fault)) }
    ensures works { IfOk result (λ count. WorksOn count (C.Clock.moment clock.now)
        (state_of seat.old workspace.old.core (L.Link.events link.old))
        (state_of seat.new workspace.new.core (L.Link.events link.new))) }
    ensures halts { IfErr result (Halts most (C.Clock.moment clock.now)
        (state_of seat.old workspace.old.core (L.Link.events link.old))
        (state_of seat.new workspace.new.core (L.Link.events link.new))) }
{
    let count = receive_some(rt, link, &mut workspace.datagrams, most)?;
    do_all(
        rt,
        alloc,
        cache,
        seat,
        clock,
        &mut workspace.core,
        first(&workspace.datagrams, count),
        &mut workspace.answers,
    )?;
    send_all(link, first(&workspace.answers, count))?;
    Ok(count)
}
