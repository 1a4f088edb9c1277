//! Links are bound before anything is served.
ghost use Rattle.std.specs.Prelude.{◌≡◌, ◌+◌, ◌<◌, ◌≤◌, IfOk, MatchBool, OnErr, length};
ghost use Rattle.outside_core.specs.Fault.{Rose};
ghost use Rattle.serving.specs.Sight.{AreNew};

use crate::Service;
use crate::bound_link::{BoundLink, bind};
use dname::OutOfMemory;
use outside_core::{Harbor, Link};
use std::alloc::Global;

/// The links that were bound, in order of port, and whether these are all.
#[derive(Drop)]
pub(crate) struct Bound<L: Link> {
    pub(crate) links: Vec<BoundLink<L>>,
    pub(crate) all: bool,
}

/// Binds the links in order of port, up to the first that can't be bound. The memory for them is taken before.
pub(crate) fn bind_all<H: Harbor>(
    alloc: Global,
    service: &Service,
    harbor: &mut H,
) -> Result<Bound<H::Link>, OutOfMemory>
    requires { service.now.listen + service.now.workers ≤ 65_536 }
    ensures new { IfOk result (λ bound.
        AreNew service.now.listen service.now.upstream bound.links.items) }
    ensures all { IfOk result (λ bound. MatchBool bound.all
        ((length bound.links.items ≡ service.now.workers)
        × (H.Harbor.faults harbor.new ≡ H.Harbor.faults harbor.old))
        ((length bound.links.items < service.now.workers)
        × Rose (H.Harbor.faults harbor.old) (H.Harbor.faults harbor.new))) }
    ensures came_back { H.Harbor.came_back harbor.new ≡ H.Harbor.came_back harbor.old }
    ensures untouched { OnErr result (harbor.new ≡ harbor.old) }
{
    let mut links = Vec::with_capacity(alloc, usize::from(service.workers))?;
    for place in 0..service.workers {
        let port = service.listen + u16::from(place);
        match bind(harbor, port, service.upstream) {
            Ok(link) => links.push_reserved(link),
            Err(_) => return Ok(Bound { links, all: false }),
        }
    }
    Ok(Bound { links, all: true })
}
