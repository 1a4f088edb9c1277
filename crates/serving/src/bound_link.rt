//! A link with its port.
ghost use Rattle.std.specs.Prelude.{◌≡◌, ◌≤◌, IfOk};
ghost use Rattle.cache_versions.specs.Seats.{number_by};
ghost use Rattle.resolver.specs.Caches.{IsSeatOf};
ghost use Rattle.outside_core.specs.Fault.{HasCause, Rose};
ghost use Rattle.outside_core.specs.Returned.{TellsAtMost, then_returned};
ghost use Rattle.serving.specs.Worker.{HasFaults, HasServed};
ghost use Rattle.serving.specs.Sight.{IsNew, returned};

use crate::{ServeFault, serve_worker};
use outside_core::{Clock, Failed, Harbor, Link};
use resolver::{CacheSeat, SharedCache};
use std::alloc::Global;
use std::marker::Model;
use std::sync::Wait;

/// A link and its port, seen as what shows of the link.
#[derive(Drop)]
pub(crate) struct BoundLink<L: Link> {
    port: u16,
    link: L,
}

impl<L: Link> Model for BoundLink<L> {
    ghost use Rattle.std.specs.Prelude.{◌≡◌};
    ghost use Rattle.serving.specs.Sight.{Sight};

    ghost Value = { Sight };

    ghost view = { λ bound. record {
      port = L.Link.port bound.link;
      upstream = L.Link.upstream bound.link;
      events = L.Link.events bound.link;
      faults = L.Link.faults bound.link;
    } };

    ghost invariant = { λ bound. bound.port ≡ L.Link.port bound.link };
}

impl<L: Link> BoundLink<L> {
    /// Serves as a worker does, over this link.
    pub(crate) fn serve<R: Wait, C: Clock>(
        &mut self,
        rt: &R,
        alloc: Global,
        cache: &SharedCache,
        seat: &mut CacheSeat,
        clock: &C,
        datagrams: u32,
    ) -> Result<(), ServeFault>
        requires { IsSeatOf cache.now seat.old }
        ensures object { IsSeatOf cache.now seat.new }
        ensures port { self.new.port ≡ self.old.port }
        ensures upstream { self.new.upstream ≡ self.old.upstream }
        ensures faults { HasFaults self.old.faults self.new.faults result }
        ensures served { HasServed datagrams (C.Clock.moment clock.now) seat.old seat.new
            self.old.events self.new.events result }
    {
        serve_worker(rt, alloc, cache, seat, &mut self.link, clock, datagrams)
    }
}

/// A new link of the harbor.
pub(crate) fn bind<H: Harbor>(
    harbor: &mut H,
    port: u16,
    upstream: u16,
) -> Result<BoundLink<H::Link>, Failed>
    ensures new { IfOk result (IsNew port upstream) }
    ensures came_back { H.Harbor.came_back harbor.new ≡ H.Harbor.came_back harbor.old }
    ensures cause { HasCause (H.Harbor.faults harbor.old) (H.Harbor.faults harbor.new) result }
{
    let link = harbor.bind(port, upstream)?;
    Ok(BoundLink { port, link })
}

/// Gives the link back to the harbor.
pub(crate) fn part<H: Harbor>(harbor: &mut H, bound: BoundLink<H::Link>)
    ensures came_back { TellsAtMost (H.Harbor.came_back harbor.new)
        (then_returned (H.Harbor.came_back harbor.old) (returned bound)) }
    ensures unfailing { bound.faults ≡ 0
        → H.Harbor.faults harbor.new ≡ H.Harbor.faults harbor.old }
    ensures failed { 1 ≤ bound.faults
        → Rose (H.Harbor.faults harbor.old) (H.Harbor.faults harbor.new) }
{
    let BoundLink { port, link } = bound;
    harbor.part(port, link);
}
