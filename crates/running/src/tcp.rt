//! The command `tcp`.
ghost use Rattle.std.specs.Prelude.{◌≡◌, ◌⊎◌, ℕ, ◌<◌, List, length, IfSome, None, Some};
ghost use Rattle.outside_core.specs.Fault.{Rose};
ghost use Rattle.running.specs.Connections.{HasServed, HasServedInPart, IsOfTcp};
ghost use Rattle.running.specs.Run.{HasGiven, IsNoFrames, IsReadOn, IsRefused, IsStatusOf};
ghost use Rattle.running.specs.declared.reading.TheConstants.{MAX_INPUT};

use crate::loading::serve_loaded;
use crate::reading::{MAX_INPUT, ReadError, read_whole};
use crate::status::Status;
use gateway::Gateway;
use outside_core::{Clock, Gate, Source};
use std::alloc::Global;
use std::sync::Wait;
use std::thread::Threads;
use stream_server::ConnectFault;
use worker_seats::Frames;

/// Reads the source as a replay for one worker does, and serves so many connections at the port, one after the other, from what its
/// frames have placed.
pub fn run_tcp<R: Threads + Wait + Sync, S: Source, G: Gate, C: Clock, W: Gateway>(
    rt: &R,
    alloc: Global,
    listen: u16,
    connections: u32,
    source: &mut S,
    gate: &G,
    clock: &C,
    gateway: &mut W,
) -> Status
    requires { W.Gateway.listens gateway.old ≡ None }
    ensures ends { IsOfTcp result }
    ensures served { result ≡ Status.Good
        → HasServed connections (C.Clock.moment clock.now)
        (S.left source.old) (S.left source.new)
        (W.Gateway.came_back gateway.old) (W.Gateway.came_back gateway.new) }
    ensures in_part { result ≡ Status.GatewayFault
        → HasServedInPart connections (C.Clock.moment clock.now)
        (S.left source.old) (S.left source.new)
        (W.Gateway.came_back gateway.old) (W.Gateway.came_back gateway.new)
        (W.Gateway.failures gateway.old) (W.Gateway.failures gateway.new)
        (W.Gateway.faults gateway.old) (W.Gateway.faults gateway.new) }
    ensures listens { result ≡ Status.Good → W.Gateway.listens gateway.new ≡ Some listen }
    ensures unopened { (result ≡ Status.ReadFault) ⊎ IsRefused result
        → gateway.new ≡ gateway.old }
    ensures no_fault { result ≡ Status.Good
        → (S.faults source.new ≡ S.faults source.old)
        × (W.Gateway.faults gateway.new ≡ W.Gateway.faults gateway.old) }
    ensures read_fault { result ≡ Status.ReadFault
        → Rose (S.faults source.old) (S.faults source.new) }
    ensures gateway_fault { result ≡ Status.GatewayFault
        → Rose (W.Gateway.faults gateway.old) (W.Gateway.faults gateway.new) }
    ensures read { HasGiven (S.left source.old) (S.left source.new) }
    ensures refused { IsRefused result → IsReadOn (S.left source.old) (S.left source.new) }
    ensures too_long { result ≡ Status.InputTooLong
        → IfSome (S.left source.old) (λ input. MAX_INPUT < length input) }
    ensures bad_frame { result ≡ Status.BadFrame
        → IfSome (S.left source.old) (IsNoFrames 1) }
    ensures complete { (input : List ℕ) → S.left source.old ≡ Some input
        → (Rose (S.faults source.old) (S.faults source.new) → ⊥)
        → (Rose (W.Gateway.faults gateway.old) (W.Gateway.faults gateway.new) → ⊥)
        → IsStatusOf 1 input result ⊎ (result ≡ Status.OutOfMemory) }
{
    let input = match read_whole(alloc, source, MAX_INPUT) {
        Ok(input) => input,
        Err(ReadError::Failed) => return Status::ReadFault,
        Err(ReadError::OutOfMemory) => return Status::OutOfMemory,
    };
    if input.len() > MAX_INPUT {
        return Status::InputTooLong;
    }
    let Some(frames) = Frames::of(&input, 1) else {
        return Status::BadFrame;
    };
    match serve_loaded(
        rt,
        alloc,
        &frames,
        gate,
        gateway,
        clock,
        listen,
        connections,
    ) {
        Ok(()) => Status::Good,
        Err(ConnectFault::Gateway) => Status::GatewayFault,
        Err(ConnectFault::OutOfMemory) => Status::OutOfMemory,
    }
}
