//! A stream that comes in pieces.
ghost use Rattle.std.specs.Prelude.{◌≤◌, None, length, IfOk};
ghost use Rattle.resolver.specs.Caches.{IsSeatOf};

use super::messages::{ANSWER, DENIED, QUERY, THEN};
use super::row::store;
use outside_core::{Failed, FixedClock, MemorySink, Source};
use resolver::{CacheSeat, SharedCache};
use std::alloc::Global;
use std::sync::Wait;
use std::test::Fail;
use stream_server::serve_stream;

// A source of a query that comes in two pieces, or octet by octet.
#[derive(Clone, Copy)]
struct Pieces {
    given: usize,
    cut: usize,
    most: usize,
}

impl Source for Pieces {
    ghost taken = { λ _. None };

    ghost left = { λ _. None };

    ghost faults = { λ _. 0 };

    fn read(&mut self, into: &mut [u8]) -> Result<usize, Failed> {
        let end = if self.given < self.cut {
            self.cut
        } else {
            QUERY.len()
        };
        let count = end
            .saturating_sub(self.given)
            .min(self.most)
            .min(into.len());
        for i in 0..count {
            if let Some(octet) = QUERY.get(self.given.saturating_add(i)) {
                into[i] = *octet;
            }
        }
        self.given = self.given.saturating_add(count);
        Ok(count)
    }
}

// Whether the query is answered, however it comes.
fn is_answered(
    alloc: Global,
    cache: &SharedCache,
    seat: &mut CacheSeat,
    pieces: Pieces,
) -> Result<bool, Fail>
    requires { IsSeatOf cache.now seat.old }
    ensures { IsSeatOf cache.now seat.new }
{
    let mut source = pieces;
    let mut sink = MemorySink::with_room(alloc, 4096, Vec::new(alloc))?;
    let clock = FixedClock { now: THEN + 10 };
    let ended = serve_stream(alloc, cache, seat, &mut source, &mut sink, &clock);
    Ok(ended == Ok(0) && sink.written() == DENIED)
}

// The last cut at which the query isn't answered, and whether it is octet by octet.
fn cut_anywhere<R: Wait>(
    rt: &R,
    alloc: Global,
    cache: &SharedCache,
    seat: CacheSeat,
) -> Result<(Option<usize>, bool), Fail>
    requires { IsSeatOf cache.now seat }
{
    let mut seat = seat;
    store(rt, alloc, cache, &mut seat, ANSWER)?;
    let mut wrong = None;
    for cut in 0..29 {
        let pieces = Pieces {
            given: 0,
            cut,
            most: 29,
        };
        if !is_answered(alloc, cache, &mut seat, pieces)? {
            wrong = Some(cut);
        }
    }
    let octets = Pieces {
        given: 0,
        cut: 0,
        most: 1,
    };
    let by_octets = is_answered(alloc, cache, &mut seat, octets)?;
    Ok((wrong, by_octets))
}

#[test]
fn a_query_may_be_cut_anywhere(rt: HostRuntime) -> Result<(), Fail> {
    let alloc = rt.alloc();
    let (cache, mut seats) = SharedCache::with_seats(&rt, alloc, 1)?;
    let done = match seats.pop() {
        Some(seat) => cut_anywhere(&rt, alloc, &cache, seat),
        None => Err(Fail::from("no seat")),
    };
    cache.give_up(&rt);
    let (wrong, by_octets) = done?;
    assert!(rt; wrong.is_none() && by_octets, "{wrong:?}");
    Ok(())
}
