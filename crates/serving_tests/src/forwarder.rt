//! One worker over a harbor in memory. What it sends is what the RFCs say of the answers of another program, and it sends it before
//! it waits again.
ghost use Rattle.std.specs.Prelude.{IfOk};
ghost use Rattle.std.specs.List.{All};
ghost use Rattle.outside_core.specs.MemoryLink.{IsFresh};

use super::messages::{ANSWER, ASKED, DENIED, NEXT_QUERY, QUERY, RELAYED, THEN};
use super::went::{Went, went_otherwise};
use outside_core::{Datagram, FixedClock, MemoryHarbor, MemoryLink, OutOfMemory, Peer};
use serving::{Service, serve};
use std::alloc::Global;
use std::test::Fail;

const CLIENT: Peer = Peer::Client(0x7f00_0001_0035);

const OTHER: Peer = Peer::Client(0x7f00_0001_0036);

// A query, the upstream's answer to it, and a query that the answer proves.
fn three_to_come(alloc: Global) -> Result<MemoryLink, OutOfMemory>
    ensures { IfOk result IsFresh }
{
    let mut incoming = Vec::new(alloc);
    incoming.push(Datagram::of(CLIENT, QUERY))?;
    incoming.push(Datagram::of(Peer::Upstream, ANSWER))?;
    incoming.push(Datagram::of(OTHER, NEXT_QUERY))?;
    MemoryLink::with_room(alloc, incoming, 3, Vec::new(alloc))
}

fn one_link(alloc: Global) -> Result<MemoryHarbor, OutOfMemory> {
    let mut links = Vec::new(alloc);
    links.push(three_to_come(alloc)?)?;
    MemoryHarbor::with_links(alloc, links, Vec::new(alloc))
}

// The answer is stored before it is relayed: the next query is answered by it.
#[test]
fn an_answer_is_stored_and_relayed(rt: HostRuntime) -> Result<(), Fail> {
    let alloc = rt.alloc();
    let mut harbor = one_link(alloc)?;
    let service = Service {
        listen: 5300,
        upstream: 5353,
        workers: 1,
        datagrams: 3,
    };
    let ended = serve(&rt, alloc, &service, &mut harbor, &FixedClock { now: THEN });
    let [(port, link)] = harbor.came_back() else {
        return Err("not one link")?;
    };
    let wanted = [
        Went::From(CLIENT, QUERY),
        Went::To(Peer::Upstream, ASKED),
        Went::From(Peer::Upstream, ANSWER),
        Went::To(CLIENT, RELAYED),
        Went::From(OTHER, NEXT_QUERY),
        Went::To(OTHER, DENIED),
    ];
    let wrong = went_otherwise(link.events(), &wanted);
    assert!(rt; wrong.is_none(), "{wrong:?}");
    assert!(rt; ended == Ok(()) && *port == 5300, "{ended:?} {port}");
    Ok(())
}
