//! One worker of all.
ghost use Rattle.resolver.specs.Caches.{IsSeatOf};
ghost use Rattle.serving.specs.Workers.{HasWorkedOver};

use crate::ServeFault;
use crate::bound_link::BoundLink;
use outside_core::{Clock, Link};
use resolver::{CacheSeat, SharedCache};
use std::alloc::Global;
use std::sync::Wait;

/// A worker's seat of the cache and its link, and how its work has ended.
#[derive(Drop)]
pub(crate) struct Worker<L: Link> {
    pub(crate) seat: CacheSeat,
    pub(crate) link: BoundLink<L>,
    pub(crate) ended: Result<(), ServeFault>,
}

impl<L: Link> Worker<L> {
    /// Serves over the seat and the link until so many datagrams have come, the link fails, or memory is wanted.
    pub(crate) fn serve<R: Wait, C: Clock>(
        &mut self,
        rt: &R,
        alloc: Global,
        cache: &SharedCache,
        clock: &C,
        datagrams: u32,
    )
        requires { IsSeatOf cache.now self.old.seat }
        ensures { HasWorkedOver cache.now datagrams (C.Clock.moment clock.now)
            self.old.seat self.new.seat self.old.link self.new.link self.new.ended }
    {
        self.ended = self
            .link
            .serve(rt, alloc, cache, &mut self.seat, clock, datagrams);
    }
}
