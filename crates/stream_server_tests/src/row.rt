//! A stream over a source and a sink in memory, from a cache in which one answer was stored.
ghost use Rattle.resolver.specs.Caches.{IsSeatOf};

use super::messages::THEN;
use intake::batch_of;
use outside_core::{FixedClock, MemorySink, MemorySource};
use resolver::{CacheSeat, SharedCache};
use std::alloc::Global;
use std::sync::Wait;
use std::test::Fail;
use stream_server::{StreamFault, serve_stream};

/// How a stream ends, and what was written.
pub type Streamed = (Result<u32, StreamFault>, MemorySink);

/// Stores what intake takes of an upstream's answer.
pub fn store<R: Wait>(
    rt: &R,
    alloc: Global,
    cache: &SharedCache,
    seat: &mut CacheSeat,
    answer: &[u8],
) -> Result<(), Fail>
    requires { IsSeatOf cache.now seat.old }
    ensures { IsSeatOf cache.now seat.new }
{
    let Ok(taken) = batch_of(alloc, answer, THEN) else {
        return Err(Fail::from("nothing is taken"));
    };
    if cache.insert(rt, alloc, seat, &taken.batch).is_err() {
        return Err(Fail::from("nothing is placed"));
    }
    Ok(())
}

fn over<R: Wait>(
    rt: &R,
    alloc: Global,
    cache: &SharedCache,
    seat: CacheSeat,
    answer: &[u8],
    source: MemorySource,
    sink: MemorySink,
) -> Result<Streamed, Fail>
    requires { IsSeatOf cache.now seat }
{
    let (mut seat, mut source, mut sink) = (seat, source, sink);
    store(rt, alloc, cache, &mut seat, answer)?;
    let clock = FixedClock { now: THEN + 10 };
    let ended = serve_stream(alloc, cache, &mut seat, &mut source, &mut sink, &clock);
    Ok((ended, sink))
}

/// What a stream gets, ten seconds after the answer, whose reads and writes fail with these numbers.
pub fn streamed<R: Wait>(
    rt: &R,
    alloc: Global,
    answer: &[u8],
    stream: &[u8],
    failing: [&[u32]; 2],
) -> Result<Streamed, Fail> {
    let [reads, writes] = failing;
    let contents = Vec::from_slice(alloc, stream)?;
    let source = MemorySource::of(contents, Vec::from_slice(alloc, reads)?);
    let sink = MemorySink::with_room(alloc, 70_000, Vec::from_slice(alloc, writes)?)?;
    let (cache, mut seats) = SharedCache::with_seats(rt, alloc, 1)?;
    let done = match seats.pop() {
        Some(seat) => over(rt, alloc, &cache, seat, answer, source, sink),
        None => Err(Fail::from("no seat")),
    };
    cache.give_up(rt);
    done
}
