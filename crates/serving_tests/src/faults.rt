//! Links that fail, and harbors that can't bind.
ghost use Rattle.std.specs.Prelude.{IfOk};
ghost use Rattle.std.specs.List.{All};
ghost use Rattle.outside_core.specs.MemoryLink.{IsFresh};

use super::messages::{QUERY, THEN};
use super::went::count_sent;
use outside_core::{Datagram, FixedClock, MemoryHarbor, MemoryLink, OutOfMemory, Peer};
use serving::{ServeError, Service, serve};
use std::alloc::Global;
use std::sync::Wait;
use std::test::Fail;
use std::thread::Threads;

const SERVICE: Service = Service {
    listen: 5300,
    upstream: 5353,
    workers: 2,
    datagrams: 1,
};

// A link that receives a query, which goes upstream.
fn one_to_come(alloc: Global, failing: Vec<u32>) -> Result<MemoryLink, OutOfMemory>
    ensures { IfOk result IsFresh }
{
    let mut incoming = Vec::new(alloc);
    incoming.push(Datagram::of(Peer::Client(7), QUERY))?;
    MemoryLink::with_room(alloc, incoming, 1, failing)
}

// Two links, of which the first fails in these calls, in a harbor that fails in those binds.
fn two_links(
    alloc: Global,
    failing: Vec<u32>,
    binds: Vec<u32>,
) -> Result<MemoryHarbor, OutOfMemory> {
    let mut links = Vec::new(alloc);
    links.push(one_to_come(alloc, failing)?)?;
    links.push(one_to_come(alloc, Vec::new(alloc))?)?;
    MemoryHarbor::with_links(alloc, links, binds)
}

// Each link's port, and how many datagrams it has sent.
fn sent_by_port(alloc: Global, harbor: &MemoryHarbor) -> Result<Vec<(u16, usize)>, OutOfMemory> {
    let mut came = Vec::new(alloc);
    for back in harbor.came_back() {
        came.push((back.0, count_sent(back.1.events())))?;
    }
    Ok(came)
}

// How a service of two workers ends, and what comes back.
type Served = (Result<(), ServeError>, Vec<(u16, usize)>);

// The first link fails in these calls, and the harbor in those binds.
fn served<R: Threads + Wait + Sync>(
    rt: &R,
    alloc: Global,
    failing: &[u32],
    binds: &[u32],
) -> Result<Served, OutOfMemory> {
    let failing = Vec::from_slice(alloc, failing)?;
    let binds = Vec::from_slice(alloc, binds)?;
    let mut harbor = two_links(alloc, failing, binds)?;
    let clock = FixedClock { now: THEN };
    let ended = serve(rt, alloc, &SERVICE, &mut harbor, &clock);
    Ok((ended, sent_by_port(alloc, &harbor)?))
}

// Which calls of the first link and which binds fail, how the service ends, and the links that come back, in order of port.
type Run = (
    &'static str,
    &'static [u32],
    &'static [u32],
    Result<(), ServeError>,
    &'static [(u16, usize)],
);

const RUNS: [Run; 4] = [
    ("nothing fails", &[], &[], Ok(()), &[(5300, 1), (5301, 1)]),
    // The other worker goes on to its own end.
    (
        "the first receipt fails",
        &[1],
        &[],
        Err(ServeError::Harbor),
        &[(5300, 0), (5301, 1)],
    ),
    (
        "the first sending fails",
        &[2],
        &[],
        Err(ServeError::Harbor),
        &[(5300, 0), (5301, 1)],
    ),
    // The link that was bound before comes back, and nothing was served.
    (
        "the second link can't be bound",
        &[],
        &[2],
        Err(ServeError::Harbor),
        &[(5300, 0)],
    ),
];

// The first row whose service ends otherwise or gives back other links, and how.
fn served_otherwise<R: Threads + Wait + Sync>(
    rt: &R,
    alloc: Global,
    rows: &[Run],
) -> Result<Option<(&'static str, Served)>, OutOfMemory> {
    for (name, failing, binds, ended, came) in rows.iter() {
        let found = served(rt, alloc, failing, binds)?;
        if found.0 != *ended || found.1.as_slice() != *came {
            return Ok(Some((name, found)));
        }
    }
    Ok(None)
}

#[test]
fn links_come_back_in_order_of_port_whatever_fails(rt: HostRuntime) -> Result<(), Fail> {
    let wrong = served_otherwise(&rt, rt.alloc(), &RUNS)?;
    assert!(rt; wrong.is_none(), "{wrong:?}");
    Ok(())
}
