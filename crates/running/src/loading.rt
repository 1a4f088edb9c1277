//! Connections that are served from what frames have placed.
ghost use Rattle.std.specs.Prelude.{◌≡◌, ◌<◌, ◌^◌, All, IfErr, IsErrOf, None, OnOk, Some, length};
ghost use Rattle.cache_versions.specs.Seats.{seen_by};
ghost use Rattle.resolver.specs.Caches.{HasOnlyRead, IsSeatOf};
ghost use Rattle.stream_server.specs.Served.{AreAllServed, CameBack, EndsEarly};
ghost use Rattle.running.specs.Connections.{HasServedAfter, HasServedPartAfter};

use gateway::Gateway;
use outside_core::{Clock, Gate};
use resolver::{CacheSeat, SharedCache};
use std::alloc::Global;
use std::mem::forget;
use std::sync::Wait;
use std::thread::Threads;
use stream_server::{ConnectFault, serve_connections};
use worker_seats::{Answering, Frames, run_workers};

/// One worker does the frames over a cache that holds nothing at first, and what it writes of them is dropped. Then it listens at the
/// port, and serves so many connections, one after the other, from what the cache holds. The memory of the records is left to the
/// system, as after a replay.
pub fn serve_loaded<R: Threads + Wait + Sync, G: Gate, W: Gateway, C: Clock>(
    rt: &R,
    alloc: Global,
    frames: &Frames<'_>,
    gate: &G,
    gateway: &mut W,
    clock: &C,
    port: u16,
    connections: u32,
) -> Result<(), ConnectFault>
    requires below { All (λ frame. frame.worker < 1) frames.now }
    requires few { length frames.now < 2 ^ 32 }
    requires listens { W.Gateway.listens gateway.old ≡ None }
    ensures listens { OnOk result (W.Gateway.listens gateway.new ≡ Some port) }
    ensures unfailed { OnOk result (W.Gateway.faults gateway.new ≡ W.Gateway.faults gateway.old) }
    ensures served { OnOk result (HasServedAfter frames.now connections (C.Clock.moment clock.now)
        (W.Gateway.came_back gateway.old) (W.Gateway.came_back gateway.new)) }
    ensures early { IsErrOf result ConnectFault.Gateway
        → HasServedPartAfter frames.now connections (C.Clock.moment clock.now)
        (W.Gateway.came_back gateway.old) (W.Gateway.came_back gateway.new)
        (W.Gateway.failures gateway.old) (W.Gateway.failures gateway.new)
        (W.Gateway.faults gateway.old) (W.Gateway.faults gateway.new) }
{
    let Ok((cache, seats)) = SharedCache::with_seats(rt, alloc, 1) else {
        return Err(ConnectFault::OutOfMemory);
    };
    let worked = run_workers(rt, alloc, &cache, seats, Answering::ByProof, frames, gate);
    let Ok((seats, outputs)) = worked else {
        cache.give_up(rt);
        return Err(ConnectFault::OutOfMemory);
    };
    drop(outputs);
    let mut seats = seats;
    let seat = &mut seats[0];
    let ended = listen_and_serve(rt, alloc, &cache, seat, gateway, clock, port, connections);
    let closed = cache.close(rt, seats);
    forget(closed);
    ended
}

// Listens at the port, and serves so many connections over the seat.
fn listen_and_serve<R: Wait, W: Gateway, C: Clock>(
    rt: &R,
    alloc: Global,
    cache: &SharedCache,
    seat: &mut CacheSeat,
    gateway: &mut W,
    clock: &C,
    port: u16,
    connections: u32,
) -> Result<(), ConnectFault>
    requires seat { IsSeatOf cache.now seat.old }
    requires listens { W.Gateway.listens gateway.old ≡ None }
    ensures read { HasOnlyRead cache.now seat.old seat.new }
    ensures listens { OnOk result (W.Gateway.listens gateway.new ≡ Some port) }
    ensures unfailed { OnOk result (W.Gateway.faults gateway.new ≡ W.Gateway.faults gateway.old) }
    ensures served { OnOk result (CameBack
        (W.Gateway.came_back gateway.old) (W.Gateway.came_back gateway.new)
        (AreAllServed connections (C.Clock.moment clock.now)
        (length (seen_by seat.old)) (seen_by seat.new))) }
    ensures early { IfErr result (EndsEarly connections (C.Clock.moment clock.now)
        (length (seen_by seat.old)) (seen_by seat.new)
        (W.Gateway.came_back gateway.old) (W.Gateway.came_back gateway.new)
        (W.Gateway.failures gateway.old) (W.Gateway.failures gateway.new)
        (W.Gateway.faults gateway.old) (W.Gateway.faults gateway.new)) }
{
    match gateway.listen(port) {
        Ok(()) => serve_connections(rt, alloc, cache, seat, gateway, clock, connections),
        Err(_) => Err(ConnectFault::Gateway),
    }
}
