ghost use Rattle.std.specs.Prelude.{◌≡◌, ◌+◌, ◌≤◌, IfErr, OnOk, Err, length};
ghost use Rattle.serving.specs.Back.{AllServedWhole, CameBack, EndsEarly};
ghost use Rattle.serving.specs.Sight.{AreNew};
ghost use Rattle.serving.specs.Workers.{HaveServed};
ghost use Rattle.serving.specs.declared.serve_fault.ServeFault.TheVariants.{OutOfMemory};

use crate::binding::{Bound, bind_all};
use crate::bound_link::BoundLink;
use crate::parting::part_all;
use crate::workers::{AllEnded, room_for, serve_all};
use crate::{ServeError, ServeFault, Service};
use outside_core::{Clock, Harbor, Link};
use resolver::SharedCache;
use std::alloc::Global;
use std::sync::Wait;
use std::thread::Threads;

/// Binds the links of all workers in order of port, serves over them, each on a thread of its own and all over one new cache, and
/// gives them back in order of port once all have ended. After a fault of one worker the others go on to their own end. Where a
/// link can't be bound, those bound before are given back, and nothing is served. After want of memory all are given back too.
pub fn serve<R: Threads + Wait + Sync, H: Harbor, C: Clock>(
    rt: &R,
    alloc: Global,
    service: &Service,
    harbor: &mut H,
    clock: &C,
) -> Result<(), ServeError>
    requires some { 1 ≤ service.now.workers }
    requires most { service.now.workers ≤ 32 }
    requires ports { service.now.listen + service.now.workers ≤ 65_536 }
    ensures unfailed { OnOk result (H.Harbor.faults harbor.new ≡ H.Harbor.faults harbor.old) }
    ensures served { OnOk result (CameBack (H.Harbor.came_back harbor.old)
        (H.Harbor.came_back harbor.new)
        (AllServedWhole service.now (C.Clock.moment clock.now))) }
    ensures early { IfErr result (EndsEarly service.now (C.Clock.moment clock.now)
        harbor.old harbor.new (H.Harbor.came_back harbor.old) (H.Harbor.came_back harbor.new)
        (H.Harbor.faults harbor.old) (H.Harbor.faults harbor.new)) }
{
    let Bound { links, all } = bind_all(alloc, service, harbor)?;
    if !all {
        part_all(harbor, links);
        return Err(ServeError::Harbor);
    }
    let Served { links, ended } = serve_links(rt, alloc, service, links, clock);
    part_all(harbor, links);
    match ended {
        Ok(()) => Ok(()),
        Err(ServeFault::Link) => Err(ServeError::Harbor),
        Err(ServeFault::OutOfMemory) => Err(ServeError::OutOfMemory),
    }
}

// The links after all workers have ended, and how the worst of their work has ended.
#[derive(Drop)]
struct Served<L: Link> {
    links: Vec<BoundLink<L>>,
    ended: Result<(), ServeFault>,
}

// Serves over the links and one new cache. All memory but that of the workers is taken before, so that no link is lost.
fn serve_links<R: Threads + Wait + Sync, L: Link + Send + Drop, C: Clock>(
    rt: &R,
    alloc: Global,
    service: &Service,
    links: Vec<BoundLink<L>>,
    clock: &C,
) -> Served<L>
    requires some { 1 ≤ service.now.workers }
    requires most { service.now.workers ≤ 32 }
    requires new { AreNew service.now.listen service.now.upstream links.items }
    requires all { length links.items ≡ service.now.workers }
    ensures { HaveServed service.now (C.Clock.moment clock.now) result.links.items result.ended }
{
    let Ok((cache, seats)) = SharedCache::with_seats(rt, alloc, service.workers) else {
        return unserved(links);
    };
    let Ok(room) = room_for(alloc, links.len()) else {
        cache.give_up(rt);
        return unserved(links);
    };
    let datagrams = u32::from(service.datagrams);
    let AllEnded {
        seats,
        links,
        ended,
    } = serve_all(rt, alloc, &cache, seats, links, room, clock, datagrams);
    let _closed = cache.close(rt, seats);
    Served { links, ended }
}

// There was no memory to serve over the links.
fn unserved<L: Link>(links: Vec<BoundLink<L>>) -> Served<L>
    ensures links { result.links.items ≡ links.items }
    ensures ended { result.ended ≡ Err OutOfMemory }
{
    let ended = Err(ServeFault::OutOfMemory);
    Served { links, ended }
}
