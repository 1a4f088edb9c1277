//! A gateway in memory, as generic callers see it.
ghost use Rattle.std.specs.Prelude.{◌≡◌, IsSome, IfOk};
ghost use Rattle.std.specs.List.{All};
ghost use Rattle.gateway.specs.MemoryGateway.{IsFresh};

use gateway::{Gateway, MemoryGateway};
use outside_core::{MemorySink, MemorySource, OutOfMemory, Sink, Source};
use std::alloc::Global;
use std::sync::Wait;
use std::test::Fail;

// A connection that brings `in`, has room for four octets, and of which these reads fail.
fn one(alloc: Global, failing: &[u32]) -> Result<(MemorySource, MemorySink), OutOfMemory>
    ensures { IfOk result IsFresh }
{
    let contents = Vec::from_slice(alloc, b"in")?;
    let source = MemorySource::of(contents, Vec::from_slice(alloc, failing)?);
    let sink = MemorySink::with_room(alloc, 4, Vec::new(alloc))?;
    Ok((source, sink))
}

// Two such, of which the second fails to read.
fn two(alloc: Global) -> Result<Vec<(MemorySource, MemorySink)>, OutOfMemory>
    ensures { IfOk result (λ both. All IsFresh both.items) }
{
    let mut both = Vec::new(alloc);
    both.push(one(alloc, &[])?)?;
    both.push(one(alloc, &[1])?)?;
    Ok(both)
}

// Whether the next connection is accepted; it is read, written and given back.
fn visits<R: Wait, W: Gateway>(rt: &R, gateway: &mut W, text: &[u8]) -> bool
    requires { IsSome (W.Gateway.listens gateway.old) }
    ensures listens { W.Gateway.listens gateway.new ≡ W.Gateway.listens gateway.old }
{
    let Ok((source, sink)) = gateway.accept(rt) else {
        return false;
    };
    let (mut source, mut sink) = (source, sink);
    let mut room = [0; 8];
    let _read = source.read(&mut room);
    if !text.is_empty() {
        let _written = sink.write(text);
    }
    gateway.part(source, sink);
    true
}

// What was written to the connections that came back, where these are two.
fn written(gateway: &MemoryGateway) -> Option<(&[u8], &[u8])> {
    match gateway.came_back() {
        [(_, first), (_, second)] => Some((first.written(), second.written())),
        _ => None,
    }
}

#[test]
fn connections_are_given_in_order_and_come_back(rt: HostRuntime) -> Result<(), Fail> {
    let alloc = rt.alloc();
    // The second call of all fails, which is an `accept`, and each beyond the connections.
    let failing = Vec::from_slice(alloc, &[2])?;
    let mut gateway = MemoryGateway::with_connections(alloc, two(alloc)?, failing)?;
    if gateway.listen(53).is_err() {
        return Err(Fail::from("it doesn't listen"));
    }
    let calls = [
        visits(&rt, &mut gateway, b"no"),
        visits(&rt, &mut gateway, b"out"),
        visits(&rt, &mut gateway, b"here"),
        visits(&rt, &mut gateway, b"no"),
    ];
    assert!(rt; calls == [false, true, true, false], "{calls:?}");
    assert!(rt; written(&gateway) == Some((b"out".as_slice(), b"here".as_slice())));
    Ok(())
}
