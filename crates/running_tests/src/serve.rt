//! A server of one worker over a link in memory: a name error that is asked upstream, and one that its records prove (RFC
//! 8198, section 5.1). What is sent is what the RFCs say of it, and it is sent before the link is waited for again.
ghost use Rattle.std.specs.Prelude.{IfOk};
ghost use Rattle.std.specs.List.{All};
ghost use Rattle.outside_core.specs.MemoryLink.{IsFresh};

use super::replays::{source_of, words_of};
use super::shut_outlets::{Hindrance, ShutOutlets};
use gateway::MemoryGateway;
use outside_core::{
    Datagram, Event, FixedClock, MemoryHarbor, MemoryLink, MemorySink, OpenGate, OutOfMemory, Peer,
};
use running::{Status, run};
use std::alloc::Global;
use std::process::ExitCode;
use std::sync::Wait;
use std::test::Fail;
use std::thread::Threads;

/// The moment of all, in seconds.
pub const THEN: u32 = 1_000_000_000;

const CLIENT: Peer = Peer::Client(0x7f00_0001_0035);

const OTHER: Peer = Peer::Client(0x7f00_0001_0036);

/// A query for d.example A, with an OPT record of size 1232 and DO.
pub const QUERY: &[u8] = b"\
    \x124\x01\x00\x00\x01\x00\x00\x00\x00\x00\x01\
    \x01d\x07example\x00\x00\x01\x00\x01\
    \x00\x00)\x04\xd0\x00\x00\x80\x00\x00\x00";

/// The answer that there is no such name: the SOA, the NSEC of example up to a.example, and that of c.example up to f.example,
/// signed, with ID 0, RCODE 3 and AD.
pub const ANSWER: &[u8] = b"\
    \x00\x00\x81\xa3\x00\x01\x00\x00\x00\x06\x00\x01\
    \x01d\x07example\x00\x00\x01\x00\x01\
    \x07example\x00\x00\x06\x00\x01\x00\x00\x0e\x10\x00\x16\x00\x00\x00\x00\x00\x01\x00\x00\x0e\x10\x00\x00\x02X\x00\x01Q\x80\x00\x00\x01,\
    \x07example\x00\x00.\x00\x01\x00\x00\x0e\x10\x00\x1f\x00\x06\x0d\x01\x00\x00\x0e\x10w5\x94\x005\xa4\xe9\x00\x00\x01\x07example\x00ZZZZ\
    \x07example\x00\x00/\x00\x01\x00\x00\x0e\x10\x00\x13\x01a\x07example\x00\x00\x06\"\x00\x00\x00\x00\x03\
    \x07example\x00\x00.\x00\x01\x00\x00\x0e\x10\x00\x1f\x00/\x0d\x01\x00\x00\x0e\x10w5\x94\x005\xa4\xe9\x00\x00\x01\x07example\x00ZZZZ\
    \x01c\x07example\x00\x00/\x00\x01\x00\x00\x0e\x10\x00\x13\x01f\x07example\x00\x00\x06@\x00\x00\x00\x00\x03\
    \x01c\x07example\x00\x00.\x00\x01\x00\x00\x0e\x10\x00\x1f\x00/\x0d\x02\x00\x00\x0e\x10w5\x94\x005\xa4\xe9\x00\x00\x01\x07example\x00ZZZZ\
    \x00\x00)\x04\xd0\x00\x00\x00\x00\x00\x00";

/// A query for dd.example A, with an OPT record of size 1232 and DO.
pub const NEXT_QUERY: &[u8] = b"\
    Vx\x01\x00\x00\x01\x00\x00\x00\x00\x00\x01\
    \x02dd\x07example\x00\x00\x01\x00\x01\
    \x00\x00)\x04\xd0\x00\x00\x80\x00\x00\x00";

/// The first query as it is asked upstream: with ID 0, RD and AD, and an OPT record of size 1232 and DO.
pub const ASKED: &[u8] = b"\
    \x00\x00\x01\x20\x00\x01\x00\x00\x00\x00\x00\x01\
    \x01d\x07example\x00\x00\x01\x00\x01\
    \x00\x00)\x04\xd0\x00\x00\x80\x00\x00\x00";

/// The answer as the client gets it: with the ID of its query, and DO.
pub const RELAYED: &[u8] = b"\
    \x124\x81\xa3\x00\x01\x00\x00\x00\x06\x00\x01\
    \x01d\x07example\x00\x00\x01\x00\x01\
    \x07example\x00\x00\x06\x00\x01\x00\x00\x0e\x10\x00\x16\x00\x00\x00\x00\x00\x01\x00\x00\x0e\x10\x00\x00\x02X\x00\x01Q\x80\x00\x00\x01,\
    \x07example\x00\x00.\x00\x01\x00\x00\x0e\x10\x00\x1f\x00\x06\x0d\x01\x00\x00\x0e\x10w5\x94\x005\xa4\xe9\x00\x00\x01\x07example\x00ZZZZ\
    \x07example\x00\x00/\x00\x01\x00\x00\x0e\x10\x00\x13\x01a\x07example\x00\x00\x06\"\x00\x00\x00\x00\x03\
    \x07example\x00\x00.\x00\x01\x00\x00\x0e\x10\x00\x1f\x00/\x0d\x01\x00\x00\x0e\x10w5\x94\x005\xa4\xe9\x00\x00\x01\x07example\x00ZZZZ\
    \x01c\x07example\x00\x00/\x00\x01\x00\x00\x0e\x10\x00\x13\x01f\x07example\x00\x00\x06@\x00\x00\x00\x00\x03\
    \x01c\x07example\x00\x00.\x00\x01\x00\x00\x0e\x10\x00\x1f\x00/\x0d\x02\x00\x00\x0e\x10w5\x94\x005\xa4\xe9\x00\x00\x01\x07example\x00ZZZZ\
    \x00\x00)\x04\xd0\x00\x00\x80\x00\x00\x00";

// There is no dd.example either, by the NSEC of c.example, and no wildcard, by that of example. Their TTL is the SOA's MINIMUM
// (RFC 2308, section 5).
const DENIED: &[u8] = b"\
    Vx\x81\xa3\x00\x01\x00\x00\x00\x06\x00\x01\
    \x02dd\x07example\x00\x00\x01\x00\x01\
    \x07example\x00\x00\x06\x00\x01\x00\x00\x01,\x00\x16\x00\x00\x00\x00\x00\x01\x00\x00\x0e\x10\x00\x00\x02X\x00\x01Q\x80\x00\x00\x01,\
    \x07example\x00\x00.\x00\x01\x00\x00\x01,\x00\x1f\x00\x06\x0d\x01\x00\x00\x0e\x10w5\x94\x005\xa4\xe9\x00\x00\x01\x07example\x00ZZZZ\
    \x01c\x07example\x00\x00/\x00\x01\x00\x00\x01,\x00\x13\x01f\x07example\x00\x00\x06@\x00\x00\x00\x00\x03\
    \x01c\x07example\x00\x00.\x00\x01\x00\x00\x01,\x00\x1f\x00/\x0d\x02\x00\x00\x0e\x10w5\x94\x005\xa4\xe9\x00\x00\x01\x07example\x00ZZZZ\
    \x07example\x00\x00/\x00\x01\x00\x00\x01,\x00\x13\x01a\x07example\x00\x00\x06\"\x00\x00\x00\x00\x03\
    \x07example\x00\x00.\x00\x01\x00\x00\x01,\x00\x1f\x00/\x0d\x01\x00\x00\x0e\x10w5\x94\x005\xa4\xe9\x00\x00\x01\x07example\x00ZZZZ\
    \x00\x00)\x04\xd0\x00\x00\x80\x00\x00\x00";

// A link that receives a query, the upstream's answer to it, and a query that the answer proves, with room for three to send.
// The calls with these numbers fail.
fn three_to_come(alloc: Global, failing: Vec<u32>) -> Result<MemoryLink, OutOfMemory>
    ensures { IfOk result IsFresh }
{
    let mut incoming = Vec::new(alloc);
    incoming.push(Datagram::of(CLIENT, QUERY))?;
    incoming.push(Datagram::of(Peer::Upstream, ANSWER))?;
    incoming.push(Datagram::of(OTHER, NEXT_QUERY))?;
    MemoryLink::with_room(alloc, incoming, 3, failing)
}

fn one_link(alloc: Global, failing: Vec<u32>) -> Result<MemoryHarbor, OutOfMemory> {
    let mut links = Vec::new(alloc);
    links.push(three_to_come(alloc, failing)?)?;
    MemoryHarbor::with_links(alloc, links, Vec::new(alloc))
}

// How the server ends, the harbor then, and how many octets it writes.
fn served<R: Threads + Wait + Sync>(
    rt: &R,
    alloc: Global,
    failing: Vec<u32>,
) -> Result<(Status, MemoryHarbor, usize), OutOfMemory> {
    let words = words_of(
        alloc,
        "serve --listen 5300 --upstream 5353 --workers 1 --datagrams 3",
    )?;
    let mut source = source_of(alloc, b"")?;
    let mut sink = MemorySink::with_room(alloc, 4096, Vec::new(alloc))?;
    let mut harbor = one_link(alloc, failing)?;
    let mut gateway = MemoryGateway::with_connections(alloc, Vec::new(alloc), Vec::new(alloc))?;
    let clock = FixedClock { now: THEN };
    let mut outlets = ShutOutlets::by(Hindrance::Address);
    let status = run(
        rt,
        alloc,
        &words,
        &mut source,
        &mut sink,
        &OpenGate,
        &mut harbor,
        &clock,
        &mut gateway,
        &mut outlets,
    );
    Ok((status, harbor, sink.written().len()))
}

// One thing that goes over the link: a datagram of this peer that is waited for, or one that is sent to it.
#[derive(Clone, Copy)]
enum Went {
    From(Peer, &'static [u8]),
    To(Peer, &'static [u8]),
}

// What goes over the link, in turn.
const WENT: [Went; 6] = [
    Went::From(CLIENT, QUERY),
    Went::To(Peer::Upstream, ASKED),
    Went::From(Peer::Upstream, ANSWER),
    Went::To(CLIENT, RELAYED),
    Went::From(OTHER, NEXT_QUERY),
    Went::To(OTHER, DENIED),
];

fn is_of(found: &Datagram, peer: Peer, octets: &[u8]) -> bool {
    found.peer == peer && found.octets.as_slice() == octets
}

fn is_as(event: &Event, went: Went) -> bool {
    match (event, went) {
        (Event::Awaited(found), Went::From(peer, octets)) => is_of(found, peer, octets),
        (Event::Sent(found), Went::To(peer, octets)) => is_of(found, peer, octets),
        _ => false,
    }
}

// Whether one link came back, from port 5300, over which the first of these went, so many, and no more.
fn has_gone(harbor: &MemoryHarbor, count: usize) -> bool {
    let [(port, link)] = harbor.came_back() else {
        return false;
    };
    if *port != 5300 || link.events().len() != count {
        return false;
    }
    for (event, went) in link.events().iter().zip(WENT.iter()) {
        if !is_as(event, *went) {
            return false;
        }
    }
    true
}

// The status, its exit code, whether so many went over the link and no more, and how many octets are written.
type Served = (Status, ExitCode, bool, usize);

fn served_and_gone<R: Threads + Wait + Sync>(
    rt: &R,
    alloc: Global,
    failing: &[u32],
    count: usize,
) -> Result<Served, OutOfMemory> {
    let (status, harbor, written) = served(rt, alloc, Vec::from_slice(alloc, failing)?)?;
    Ok((
        status,
        status.exit_code(),
        has_gone(&harbor, count),
        written,
    ))
}

// The answer is stored before it is relayed, and denies the next name.
#[test]
fn a_server_stores_what_it_relays_and_denies_by_it(rt: HostRuntime) -> Result<(), Fail> {
    let found = served_and_gone(&rt, rt.alloc(), &[], 6)?;
    assert!(rt;
        found == (Status::Good, ExitCode::from(0), true, 0),
        "{found:?}"
    );
    Ok(())
}

// The calls of the link: each puts one thing over it.
const CALLS: [u32; 6] = [1, 2, 3, 4, 5, 6];

// The first call whose failure is told otherwise, and how.
fn failed_otherwise<R: Threads + Wait + Sync>(
    rt: &R,
    alloc: Global,
    calls: &[u32],
) -> Result<Option<(u32, Served)>, OutOfMemory> {
    for (before, call) in calls.iter().enumerate() {
        let found = served_and_gone(rt, alloc, &[*call], before)?;
        if found != (Status::HarborFault, ExitCode::from(8), true, 0) {
            return Ok(Some((*call, found)));
        }
    }
    Ok(None)
}

#[test]
fn a_link_that_fails_gives_status_8_and_comes_back(rt: HostRuntime) -> Result<(), Fail> {
    let wrong = failed_otherwise(&rt, rt.alloc(), &CALLS)?;
    assert!(rt; wrong.is_none(), "{wrong:?}");
    Ok(())
}
