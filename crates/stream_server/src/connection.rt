//! One connection.
ghost use Rattle.std.specs.Prelude.{◌≡◌, IsSome, length};
ghost use Rattle.cache_versions.specs.Seats.{seen_by};
ghost use Rattle.resolver.specs.Caches.{HasOnlyRead, IsSeatOf};
ghost use Rattle.stream_server.specs.Next.{HasServedNext, ended_as, noted};

use crate::{ConnectFault, StreamFault, serve_stream};
use gateway::Gateway;
use outside_core::Clock;
use resolver::{CacheSeat, SharedCache};
use std::alloc::Global;
use std::sync::Wait;

/// How a connection ended.
#[derive(Clone, Copy, Debug, PartialEq, Eq)]
pub(crate) enum Ended {
    Whole,
    /// Its source or its sink has failed.
    Failed,
}

/// Accepts the next connection, serves it, and gives it back.
pub(crate) fn serve_next<R: Wait, W: Gateway, C: Clock>(
    rt: &R,
    alloc: Global,
    cache: &SharedCache,
    seat: &mut CacheSeat,
    gateway: &mut W,
    clock: &C,
) -> Result<Ended, ConnectFault>
    requires seat { IsSeatOf cache.now seat.old }
    requires listens { IsSome (W.Gateway.listens gateway.old) }
    ensures read { HasOnlyRead cache.now seat.old seat.new }
    ensures listens { W.Gateway.listens gateway.new ≡ W.Gateway.listens gateway.old }
    ensures served { HasServedNext (C.Clock.moment clock.now)
        (length (seen_by seat.old)) (seen_by seat.new)
        (W.Gateway.came_back gateway.old) (W.Gateway.came_back gateway.new)
        (W.Gateway.failures gateway.old) (W.Gateway.failures gateway.new)
        (W.Gateway.faults gateway.old) (W.Gateway.faults gateway.new) result }
{
    let Ok((source, sink)) = gateway.accept(rt) else {
        return Err(ConnectFault::Gateway);
    };
    let mut source = source;
    let mut sink = sink;
    let ended = serve_stream(alloc, cache, seat, &mut source, &mut sink, clock);
    gateway.part(source, sink);
    ended_as(ended)
}

// What the end of its stream says of a connection.
fn ended_as(streamed: Result<u32, StreamFault>) -> Result<Ended, ConnectFault>
    ensures { result ≡ ended_as streamed }
{
    match streamed {
        Ok(_) | Err(StreamFault::TooSmall { length: _ }) | Err(StreamFault::TooLong) => Ok(
            Ended::Whole,
        ),
        Err(StreamFault::Source) | Err(StreamFault::Sink) => Ok(Ended::Failed),
        Err(StreamFault::OutOfMemory) => Err(ConnectFault::OutOfMemory),
    }
}

/// Whether a call of a connection has failed, where it was so before.
pub(crate) fn noted(failed: bool, ended: Ended) -> bool
    ensures { result ≡ noted failed ended }
{
    match ended {
        Ended::Whole => failed,
        Ended::Failed => true,
    }
}
