//! One worker under a clock that moves: each datagram is done at the moment that the clock then tells.
ghost use Rattle.std.specs.Prelude.{IfOk};
ghost use Rattle.std.specs.List.{All};
ghost use Rattle.outside_core.specs.MemoryLink.{IsFresh};

use super::messages::{
    ANSWER, ASKED, ASKED_LATER, DENIED_LATER, NEXT_ASKED_LATER, NEXT_QUERY, QUERY, RELAYED, THEN,
};
use super::moving::{MovingClock, MovingHarbor};
use super::went::{Went, went_otherwise};
use outside_core::{Datagram, MemoryHarbor, MemoryLink, OutOfMemory, Peer};
use serving::{Service, serve};
use std::alloc::Global;
use std::test::Fail;

const CLIENT: Peer = Peer::Client(7);

const OTHER: Peer = Peer::Client(8);

/// The records of the answer live 3,600 seconds. A query waits for the upstream for 5 seconds.
const MOMENTS: [u32; 5] = [THEN, THEN, THEN + 3_400, THEN + 3_600, THEN + 3_605];

// A query, the upstream's answer to it, twice a query that the answer proves, and the first query once more.
fn five_to_come(alloc: Global) -> Result<MemoryLink, OutOfMemory>
    ensures { IfOk result IsFresh }
{
    let mut incoming = Vec::new(alloc);
    incoming.push(Datagram::of(CLIENT, QUERY))?;
    incoming.push(Datagram::of(Peer::Upstream, ANSWER))?;
    incoming.push(Datagram::of(OTHER, NEXT_QUERY))?;
    incoming.push(Datagram::of(OTHER, NEXT_QUERY))?;
    incoming.push(Datagram::of(CLIENT, QUERY))?;
    MemoryLink::with_room(alloc, incoming, 5, Vec::new(alloc))
}

fn one_link(alloc: Global) -> Result<MemoryHarbor, OutOfMemory> {
    let mut links = Vec::new(alloc);
    links.push(five_to_come(alloc)?)?;
    MemoryHarbor::with_links(alloc, links, Vec::new(alloc))
}

// The TTL has counted down by the second query, the records have expired by the third, and the third has waited too long for the
// upstream by the fourth, which takes its slot.
#[test]
fn each_datagram_is_done_at_its_own_moment(rt: HostRuntime) -> Result<(), Fail> {
    let alloc = rt.alloc();
    let clock = MovingClock::at(THEN);
    let mut harbor = MovingHarbor {
        inner: one_link(alloc)?,
        clock: &clock,
        moments: &MOMENTS,
    };
    let service = Service {
        listen: 5300,
        upstream: 5353,
        workers: 1,
        datagrams: 5,
    };
    let ended = serve(&rt, alloc, &service, &mut harbor, &clock);
    let [(_, link)] = harbor.inner.came_back() else {
        return Err("not one link")?;
    };
    let wanted = [
        Went::From(CLIENT, QUERY),
        Went::To(Peer::Upstream, ASKED),
        Went::From(Peer::Upstream, ANSWER),
        Went::To(CLIENT, RELAYED),
        Went::From(OTHER, NEXT_QUERY),
        Went::To(OTHER, DENIED_LATER),
        Went::From(OTHER, NEXT_QUERY),
        Went::To(Peer::Upstream, NEXT_ASKED_LATER),
        Went::From(CLIENT, QUERY),
        Went::To(Peer::Upstream, ASKED_LATER),
    ];
    let wrong = went_otherwise(link.events(), &wanted);
    assert!(rt; ended == Ok(()), "{ended:?}");
    assert!(rt; wrong.is_none(), "{wrong:?}");
    Ok(())
}
