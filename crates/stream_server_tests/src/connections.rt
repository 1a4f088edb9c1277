//! Connections in memory, one after the other.
ghost use Rattle.std.specs.Prelude.{◌≡◌, IsSome, IfOk, Some};
ghost use Rattle.std.specs.List.{All};
ghost use Rattle.gateway.specs.MemoryGateway.{IsFresh};
ghost use Rattle.resolver.specs.Caches.{IsSeatOf};

use super::messages::{ANSWER, DENIED, QUERY, THEN};
use super::row::store;
use gateway::{Gateway, MemoryGateway};
use outside_core::{FixedClock, MemorySink, MemorySource, OutOfMemory};
use resolver::{CacheSeat, SharedCache};
use std::alloc::Global;
use std::sync::Wait;
use std::test::Fail;
use stream_server::{ConnectFault, serve_connections};

// A connection that brings these octets, of which these reads fail.
fn one(
    alloc: Global,
    stream: &[u8],
    failing: &[u32],
) -> Result<(MemorySource, MemorySink), OutOfMemory>
    ensures { IfOk result IsFresh }
{
    let contents = Vec::from_slice(alloc, stream)?;
    let source = MemorySource::of(contents, Vec::from_slice(alloc, failing)?);
    let sink = MemorySink::with_room(alloc, 4096, Vec::new(alloc))?;
    Ok((source, sink))
}

// Three: half a length, a query of which this read fails, and a query.
fn three(alloc: Global, failing: &[u32]) -> Result<Vec<(MemorySource, MemorySink)>, OutOfMemory>
    ensures { IfOk result (λ all. All IsFresh all.items) }
{
    let mut all = Vec::new(alloc);
    all.push(one(alloc, b"\x00", &[])?)?;
    all.push(one(alloc, QUERY, failing)?)?;
    all.push(one(alloc, QUERY, &[])?)?;
    Ok(all)
}

// How the work ends, where the gateway listens.
fn over<R: Wait>(
    rt: &R,
    alloc: Global,
    cache: &SharedCache,
    seat: CacheSeat,
    gateway: &mut MemoryGateway,
) -> Result<Result<(), ConnectFault>, Fail>
    requires seat { IsSeatOf cache.now seat }
    requires listens { IsSome gateway.old.port }
{
    let mut seat = seat;
    store(rt, alloc, cache, &mut seat, ANSWER)?;
    let clock = FixedClock { now: THEN + 10 };
    Ok(serve_connections(rt, alloc, cache, &mut seat, gateway, &clock, 3))
}

fn served<R: Wait>(
    rt: &R,
    alloc: Global,
    failing: &[u32],
) -> Result<(Result<(), ConnectFault>, MemoryGateway), Fail> {
    let connections = three(alloc, failing)?;
    let mut gateway = MemoryGateway::with_connections(alloc, connections, Vec::new(alloc))?;
    if gateway.listen(53).is_err() {
        return Err(Fail::from("it doesn't listen"));
    }
    let (cache, mut seats) = SharedCache::with_seats(rt, alloc, 1)?;
    let done = match seats.pop() {
        Some(seat) => over(rt, alloc, &cache, seat, &mut gateway),
        None => Err(Fail::from("no seat")),
    };
    cache.give_up(rt);
    Ok((done?, gateway))
}

// What was written to the second and the third connection.
fn written(gateway: &MemoryGateway) -> Option<(&[u8], &[u8])> {
    match gateway.came_back() {
        [_, (_, second), (_, third)] => Some((second.written(), third.written())),
        _ => None,
    }
}

#[test]
fn half_a_length_ends_its_connection_alone(rt: HostRuntime) -> Result<(), Fail> {
    let (ended, gateway) = served(&rt, rt.alloc(), &[])?;
    assert!(rt; ended.is_ok() && written(&gateway) == Some((DENIED, DENIED)));
    Ok(())
}

#[test]
fn a_fault_ends_its_connection_alone(rt: HostRuntime) -> Result<(), Fail> {
    let (ended, gateway) = served(&rt, rt.alloc(), &[1])?;
    assert!(rt; ended == Err(ConnectFault::Gateway), "{ended:?}");
    assert!(rt; written(&gateway) == Some((b"".as_slice(), DENIED)));
    Ok(())
}
