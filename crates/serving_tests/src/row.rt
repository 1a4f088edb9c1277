//! A worker over a link in memory. What it sends is what the RFCs say of the answers of another program.
ghost use Rattle.resolver.specs.Caches.{IsSeatOf};

use super::messages::{ANSWER, ASKED, DENIED, NEXT_ASKED, NEXT_QUERY, QUERY, RELAYED, THEN};
use super::sent::{sent_among, sent_otherwise};
use outside_core::{Datagram, FixedClock, MemoryLink, OutOfMemory, Peer};
use resolver::{CacheSeat, SharedCache};
use serving::{ServeFault, serve_worker};
use std::alloc::Global;
use std::sync::Wait;
use std::test::Fail;

const CLIENT: Peer = Peer::Client(0x7f00_0001_0035);

const OTHER: Peer = Peer::Client(0x7f00_0001_0036);

// How the work ends, and the link then.
fn worked<R: Wait>(
    rt: &R,
    alloc: Global,
    cache: &SharedCache,
    seat: CacheSeat,
    link: MemoryLink,
) -> (Result<(), ServeFault>, MemoryLink)
    requires { IsSeatOf cache.now seat }
{
    let mut seat = seat;
    let mut link = link;
    let clock = FixedClock { now: THEN };
    let ended = serve_worker(rt, alloc, cache, &mut seat, &mut link, &clock, 3);
    (ended, link)
}

// A query, the answer with an ID below 256, and the next query.
fn incoming(alloc: Global, id: u8) -> Result<Vec<Datagram>, OutOfMemory> {
    let mut answer = Vec::from_slice(alloc, ANSWER)?;
    if let Some(low) = answer.get_mut(1) {
        *low = id;
    }
    let mut incoming = Vec::new(alloc);
    incoming.push(Datagram::of(CLIENT, QUERY))?;
    incoming.push(Datagram::of(Peer::Upstream, &answer))?;
    incoming.push(Datagram::of(OTHER, NEXT_QUERY))?;
    Ok(incoming)
}

// The work of one worker over a new cache, whose link fails in these calls.
fn served<R: Wait>(
    rt: &R,
    alloc: Global,
    id: u8,
    failing: &[u32],
) -> Result<(Result<(), ServeFault>, MemoryLink), Fail> {
    let failing = Vec::from_slice(alloc, failing)?;
    let link = MemoryLink::with_room(alloc, incoming(alloc, id)?, 3, failing)?;
    let (cache, mut seats) = SharedCache::with_seats(rt, alloc, 1)?;
    let done = match seats.pop() {
        Some(seat) => Ok(worked(rt, alloc, &cache, seat, link)),
        None => Err(Fail::from("no seat")),
    };
    cache.give_up(rt);
    done
}

// The answer is stored and relayed, and the next query is answered by it.
#[test]
fn an_answer_answers_the_next_query(rt: HostRuntime) -> Result<(), Fail> {
    let (ended, link) = served(&rt, rt.alloc(), 0, &[])?;
    let wanted = [(Peer::Upstream, ASKED), (CLIENT, RELAYED), (OTHER, DENIED)];
    let sent = sent_among(rt.alloc(), link.events())?;
    let wrong = sent_otherwise(&sent, &wanted);
    assert!(rt; ended == Ok(()), "{ended:?}");
    assert!(rt; wrong.is_none(), "{wrong:?}");
    Ok(())
}

// No query waits at ID 1: the answer is neither relayed nor stored, and the next query goes upstream too.
#[test]
fn an_answer_with_another_id_is_ignored(rt: HostRuntime) -> Result<(), Fail> {
    let (ended, link) = served(&rt, rt.alloc(), 1, &[])?;
    let wanted = [(Peer::Upstream, ASKED), (Peer::Upstream, NEXT_ASKED)];
    let sent = sent_among(rt.alloc(), link.events())?;
    let wrong = sent_otherwise(&sent, &wanted);
    assert!(rt; ended == Ok(()), "{ended:?}");
    assert!(rt; wrong.is_none(), "{wrong:?}");
    Ok(())
}

// How the work ends where this call fails, and how many datagrams are sent.
fn failed<R: Wait>(
    rt: &R,
    alloc: Global,
    call: u32,
) -> Result<(Result<(), ServeFault>, usize), Fail> {
    let (ended, link) = served(rt, alloc, 0, &[call])?;
    Ok((ended, sent_among(alloc, link.events())?.len()))
}

// The first receipt fails, or the first sending, which is the second call.
#[test]
fn a_link_that_fails_stops_the_worker(rt: HostRuntime) -> Result<(), Fail> {
    let found = failed(&rt, rt.alloc(), 1)?;
    assert!(rt; found == (Err(ServeFault::Link), 0), "{found:?}");
    let found = failed(&rt, rt.alloc(), 2)?;
    assert!(rt; found == (Err(ServeFault::Link), 0), "{found:?}");
    Ok(())
}
