//! A gateway on loopback, with both ends in this process.
ghost use Rattle.std.specs.Prelude.{◌≡◌, IfOk, IsSome};
ghost use Rattle.gateway.specs.Tcp.{gateway_port};

use gateway::{Gateway, TcpGateway};
use outside_core::{Failed, Sink, Source};
use std::io;
use std::io::{Read, Write};
use std::net::{Ipv4Addr, Net, OpenListener, SocketAddr, SocketAddrV4};
use std::sync::Wait;
use std::test::Fail;
use std::time::Duration;

// A port of 127.0.0.1.
fn on_loopback(port: u16) -> SocketAddr {
    SocketAddr::V4(SocketAddrV4::new(Ipv4Addr::LOCALHOST, port))
}

// A port at which nobody listens.
fn free_port<N: Net>(net: &N) -> io::Result<u16> {
    let listener = net.bind(on_loopback(0))?;
    Ok(listener.local_addr()?.port())
}

// The network's gateway at a port, where each call waits a fifth of a second at most.
fn listening<N: Net + Drop>(net: N, port: u16) -> Result<TcpGateway<N>, Fail>
    ensures { IfOk result (λ gateway. IsSome (gateway_port gateway)) }
{
    let mut gateway = TcpGateway::with_patience(net, Duration::from_millis(200));
    if gateway.listen(port).is_err() {
        return Err(Fail::from("it doesn't listen"));
    }
    Ok(gateway)
}

// What the next connection's first read gives, what a write of six octets then gives, and what the second read gives once the client
// has done its last.
type Calls = [Result<usize, Failed>; 3];

// Whether the client reads its answer, if it reads, before it closes its connection.
fn has_answer<S: Read + Drop>(stream: S, reads: bool) -> bool {
    let mut stream = stream;
    let mut room = [0; 8];
    reads
        && stream
            .read(&mut room)
            .is_ok_and(|count| room.get(..count) == Some(b"answer".as_slice()))
}

// A client asks, and may read its answer; then it closes its connection. One that closes with octets to be read resets it.
fn met<R: Wait, N: Net, W: Gateway>(
    rt: &R,
    net: &N,
    gateway: &mut W,
    port: u16,
    reads: bool,
) -> Result<(Calls, bool), Fail>
    requires { IsSome (W.Gateway.listens gateway.old) }
    ensures { W.Gateway.listens gateway.new ≡ W.Gateway.listens gateway.old }
{
    let mut stream = net.connect(on_loopback(port))?;
    let _sent = stream.write(b"question")?;
    let Ok((source, sink)) = gateway.accept(rt) else {
        return Err(Fail::from("no connection"));
    };
    let (mut source, mut sink) = (source, sink);
    let mut room = [0; 8];
    let first = source.read(&mut room);
    let written = sink.write(b"answer");
    let answered = has_answer(stream, reads);
    let second = source.read(&mut room);
    gateway.part(source, sink);
    Ok(([first, written, second], answered))
}

#[test]
fn octets_go_both_ways(rt: HostRuntime) -> Result<(), Fail> {
    let port = free_port(&rt)?;
    let mut gateway = listening(&rt, port)?;
    let met = met(&rt, &rt, &mut gateway, port, true)?;
    assert!(rt; met == ([Ok(8), Ok(6), Ok(0)], true), "{met:?}");
    Ok(())
}

#[test]
fn a_reset_is_a_fault_of_its_connection_alone(rt: HostRuntime) -> Result<(), Fail> {
    let port = free_port(&rt)?;
    let mut gateway = listening(&rt, port)?;
    let reset = met(&rt, &rt, &mut gateway, port, false)?;
    let next = met(&rt, &rt, &mut gateway, port, true)?;
    assert!(rt; reset == ([Ok(8), Ok(6), Err(Failed)], false), "{reset:?}");
    assert!(rt; next == ([Ok(8), Ok(6), Ok(0)], true), "{next:?}");
    Ok(())
}

// What the read gives of a client that sends half a length and no more, and stays.
fn waited_for<R: Wait, N: Net, W: Gateway>(
    rt: &R,
    net: &N,
    gateway: &mut W,
    port: u16,
) -> Result<[Result<usize, Failed>; 2], Fail>
    requires { IsSome (W.Gateway.listens gateway.old) }
    ensures { W.Gateway.listens gateway.new ≡ W.Gateway.listens gateway.old }
{
    let mut stream = net.connect(on_loopback(port))?;
    let _sent = stream.write(b"\x00")?;
    let Ok((source, sink)) = gateway.accept(rt) else {
        return Err(Fail::from("no connection"));
    };
    let mut source = source;
    let mut room = [0; 8];
    let reads = [source.read(&mut room), source.read(&mut room)];
    gateway.part(source, sink);
    Ok(reads)
}

#[test]
fn a_silent_client_comes_to_its_end(rt: HostRuntime) -> Result<(), Fail> {
    let port = free_port(&rt)?;
    let mut gateway = listening(&rt, port)?;
    let reads = waited_for(&rt, &rt, &mut gateway, port)?;
    let next = met(&rt, &rt, &mut gateway, port, true)?;
    assert!(rt; reads == [Ok(1), Ok(0)], "{reads:?}");
    assert!(rt; next == ([Ok(8), Ok(6), Ok(0)], true), "{next:?}");
    Ok(())
}
