//! Two workers over links that wait for each other.
ghost use Rattle.std.specs.Prelude.{IfOk};
ghost use Rattle.std.specs.List.{All};
ghost use Rattle.outside_core.specs.MemoryLink.{IsFresh};

use super::messages::{ANSWER, ASKED, DENIED, NEXT_QUERY, QUERY, RELAYED, THEN};
use super::waiting::{Flags, WaitingHarbor, Waits};
use super::went::{Went, Wrong, went_otherwise};
use outside_core::{Datagram, FixedClock, MemoryHarbor, MemoryLink, OutOfMemory, Peer};
use serving::{ServeError, Service, serve};
use std::alloc::Global;
use std::sync::Wait;
use std::test::Fail;
use std::thread::Threads;

const CLIENT: Peer = Peer::Client(7);

const OTHER: Peer = Peer::Client(8);

// A link that receives a query, and then this datagram.
fn two_to_come(alloc: Global, first: Datagram, second: Datagram) -> Result<MemoryLink, OutOfMemory>
    ensures { IfOk result IsFresh }
{
    let mut incoming = Vec::new(alloc);
    incoming.push(first)?;
    incoming.push(second)?;
    MemoryLink::with_room(alloc, incoming, 2, Vec::new(alloc))
}

// The first link receives a query and the upstream's answer to it, the other twice a query that the answer proves.
fn two_links(alloc: Global) -> Result<MemoryHarbor, OutOfMemory> {
    let query = Datagram::of(CLIENT, QUERY);
    let answer = Datagram::of(Peer::Upstream, ANSWER);
    let mut links = Vec::new(alloc);
    links.push(two_to_come(alloc, query, answer)?)?;
    let once = Datagram::of(OTHER, NEXT_QUERY);
    let again = Datagram::of(OTHER, NEXT_QUERY);
    links.push(two_to_come(alloc, once, again)?)?;
    MemoryHarbor::with_links(alloc, links, Vec::new(alloc))
}

fn harbor(alloc: Global, flags: &Flags, waits: Waits) -> Result<WaitingHarbor<'_>, OutOfMemory> {
    let inner = two_links(alloc)?;
    Ok(WaitingHarbor {
        inner,
        flags,
        waits,
        bound: 0,
    })
}

// How a service of two workers ends, each of whom receives so many datagrams.
fn served<R: Threads + Wait + Sync>(
    rt: &R,
    alloc: Global,
    harbor: &mut WaitingHarbor<'_>,
    datagrams: u16,
) -> Result<(), ServeError> {
    let service = Service {
        listen: 5300,
        upstream: 5353,
        workers: 2,
        datagrams,
    };
    serve(rt, alloc, &service, harbor, &FixedClock { now: THEN })
}

// The first link over which not what is wanted went, the place where, and what went there; or how many links came back.
fn links_otherwise(harbor: &MemoryHarbor) -> Option<(usize, Option<Wrong>)> {
    let [(_, first), (_, second)] = harbor.came_back() else {
        return Some((harbor.came_back().len(), None));
    };
    let wanted = [
        Went::From(CLIENT, QUERY),
        Went::To(Peer::Upstream, ASKED),
        Went::From(Peer::Upstream, ANSWER),
        Went::To(CLIENT, RELAYED),
    ];
    if let Some(wrong) = went_otherwise(first.events(), &wanted) {
        return Some((0, Some(wrong)));
    }
    let wanted = [
        Went::From(OTHER, NEXT_QUERY),
        Went::To(OTHER, DENIED),
        Went::From(OTHER, NEXT_QUERY),
        Went::To(OTHER, DENIED),
    ];
    match went_otherwise(second.events(), &wanted) {
        Some(wrong) => Some((1, Some(wrong))),
        None => None,
    }
}

// Neither could go on if both ran on one thread.
#[test]
fn two_workers_receive_at_one_time(rt: HostRuntime) -> Result<(), Fail> {
    let flags = Flags::down();
    let mut harbor = harbor(rt.alloc(), &flags, Waits::ForEachOther)?;
    let ended = served(&rt, rt.alloc(), &mut harbor, 1);
    assert!(rt; ended == Ok(()) && !flags.gave_up(), "{ended:?}");
    Ok(())
}

// What one worker has stored the other answers.
#[test]
fn a_worker_answers_by_what_another_has_stored(rt: HostRuntime) -> Result<(), Fail> {
    let flags = Flags::down();
    let mut harbor = harbor(rt.alloc(), &flags, Waits::ForTheRelay)?;
    let ended = served(&rt, rt.alloc(), &mut harbor, 2);
    assert!(rt; ended == Ok(()) && !flags.gave_up(), "{ended:?}");
    let wrong = links_otherwise(&harbor.inner);
    assert!(rt; wrong.is_none(), "{wrong:?}");
    Ok(())
}
