//! Connections over loopback, with both ends in this process. Each call of a client waits five seconds at most.
ghost use Rattle.std.specs.Prelude.{IfOk, IsSome};
ghost use Rattle.gateway.specs.Tcp.{gateway_port};
ghost use Rattle.resolver.specs.Caches.{IsSeatOf};

use super::messages::{ANSWER, DENIED, FAILED, LONG_QUERY, QUERY, THEN, UNKNOWN};
use super::row::store;
use super::texts::{answer_with, text_of};
use gateway::{Gateway, TcpGateway};
use outside_core::FixedClock;
use resolver::{CacheSeat, SharedCache};
use std::alloc::Global;
use std::io;
use std::io::{Read, Write};
use std::net::{Ipv4Addr, Net, OpenListener, OpenStream, Shutdown, SocketAddr, SocketAddrV4};
use std::sync::Wait;
use std::test::Fail;
use std::time::Duration;
use stream_server::{ConnectFault, serve_connections};

// A port of 127.0.0.1.
fn on_loopback(port: u16) -> SocketAddr {
    SocketAddr::V4(SocketAddrV4::new(Ipv4Addr::LOCALHOST, port))
}

// A port at which nobody listens.
fn free_port<N: Net>(net: &N) -> io::Result<u16> {
    let listener = net.bind(on_loopback(0))?;
    Ok(listener.local_addr()?.port())
}

// A client that has sent these octets.
fn client<N: Net>(net: &N, port: u16, octets: &[u8]) -> io::Result<N::Stream> {
    let mut stream = net.connect(on_loopback(port))?;
    stream.set_read_timeout(Some(Duration::from_secs(5)))?;
    stream.write_all(octets)?;
    Ok(stream)
}

// Serves so many connections from a cache with the answer.
fn served<R: Wait, N: Net + Drop>(
    rt: &R,
    alloc: Global,
    cache: &SharedCache,
    seat: CacheSeat,
    answer: &[u8],
    gateway: &mut TcpGateway<N>,
    connections: u32,
) -> Result<Result<(), ConnectFault>, Fail>
    requires seat { IsSeatOf cache.now seat }
    requires listens { IsSome (gateway_port gateway.old) }
{
    let mut seat = seat;
    store(rt, alloc, cache, &mut seat, answer)?;
    let clock = FixedClock { now: THEN + 10 };
    Ok(serve_connections(rt, alloc, cache, &mut seat, gateway, &clock, connections))
}

// A gateway that listens at the port, where each call waits a fifth of a second at most.
fn listening<N: Net + Drop>(net: N, port: u16) -> Result<TcpGateway<N>, Fail>
    ensures { IfOk result (λ gateway. IsSome (gateway_port gateway)) }
{
    let mut gateway = TcpGateway::with_patience(net, Duration::from_millis(200));
    if gateway.listen(port).is_err() {
        return Err(Fail::from("it doesn't listen"));
    }
    Ok(gateway)
}

// Whether these octets come next, and then the end.
fn reads<S: Read + Drop>(alloc: Global, stream: S, expected: &[u8]) -> Result<bool, Fail> {
    let mut stream = stream;
    let mut room = Vec::from_slice(alloc, expected)?;
    room.fill(0);
    stream.read_exact(&mut room)?;
    let last = stream.read(&mut [0; 1])?;
    Ok(room.as_slice() == expected && last == 0)
}

// Three clients: one sends half a length and stays silent, the next asks two questions at once, and the last asks one.
#[derive(Drop)]
struct Clients<S: Drop> {
    silent: S,
    second: S,
    third: S,
}

fn three_clients<N: Net>(net: &N, port: u16) -> io::Result<Clients<N::Stream>> {
    let silent = client(net, port, b"\x00")?;
    let mut second = client(net, port, UNKNOWN)?;
    second.write_all(QUERY)?;
    second.shutdown(Shutdown::Write)?;
    let third = client(net, port, QUERY)?;
    third.shutdown(Shutdown::Write)?;
    Ok(Clients {
        silent,
        second,
        third,
    })
}

// Whether each client has its answers, in order, and no more.
fn have_answers<S: Read + Drop>(alloc: Global, clients: Clients<S>) -> Result<bool, Fail> {
    let Clients {
        silent,
        second,
        third,
    } = clients;
    let mut both = Vec::from_slice(alloc, FAILED)?;
    both.extend_from_slice(DENIED)?;
    Ok(reads(alloc, silent, b"")? && reads(alloc, second, &both)? && reads(alloc, third, DENIED)?)
}

fn all_met<R: Wait, N: Net>(
    rt: &R,
    net: &N,
    alloc: Global,
    cache: &SharedCache,
    seat: CacheSeat,
) -> Result<bool, Fail>
    requires { IsSeatOf cache.now seat }
{
    let port = free_port(net)?;
    let mut gateway = listening(net, port)?;
    let clients = three_clients(net, port)?;
    let ended = served(rt, alloc, cache, seat, ANSWER, &mut gateway, 3)?;
    Ok(ended.is_ok() && have_answers(alloc, clients)?)
}

#[test]
fn clients_are_served_over_sockets(rt: HostRuntime) -> Result<(), Fail> {
    let alloc = rt.alloc();
    let (cache, mut seats) = SharedCache::with_seats(&rt, alloc, 1)?;
    let done = match seats.pop() {
        Some(seat) => all_met(&rt, &rt, alloc, &cache, seat),
        None => Err(Fail::from("no seat")),
    };
    cache.give_up(&rt);
    let right = done?;
    assert!(rt; right);
    Ok(())
}

// A client that asks 400 times for 60,000 octets and doesn't read.
fn glutton<N: Net>(net: &N, port: u16) -> io::Result<N::Stream> {
    let mut stream = client(net, port, LONG_QUERY)?;
    for _ in 0..399 {
        stream.write_all(LONG_QUERY)?;
    }
    Ok(stream)
}

// How serving ends where one client doesn't read, and whether the next one has its answer.
fn next_met<R: Wait, N: Net>(
    rt: &R,
    net: &N,
    alloc: Global,
    cache: &SharedCache,
    seat: CacheSeat,
) -> Result<(Result<(), ConnectFault>, bool), Fail>
    requires { IsSeatOf cache.now seat }
{
    let answer = answer_with(alloc, &text_of(alloc, 234, 95)?)?;
    let port = free_port(net)?;
    let mut gateway = listening(net, port)?;
    let first = glutton(net, port)?;
    let next = client(net, port, UNKNOWN)?;
    next.shutdown(Shutdown::Write)?;
    let ended = served(rt, alloc, cache, seat, &answer, &mut gateway, 2)?;
    drop(first);
    Ok((ended, reads(alloc, next, FAILED)?))
}

#[test]
fn a_client_that_does_not_read_ends_its_connection_alone(rt: HostRuntime) -> Result<(), Fail> {
    let alloc = rt.alloc();
    let (cache, mut seats) = SharedCache::with_seats(&rt, alloc, 1)?;
    let done = match seats.pop() {
        Some(seat) => next_met(&rt, &rt, alloc, &cache, seat),
        None => Err(Fail::from("no seat")),
    };
    cache.give_up(&rt);
    let met = done?;
    assert!(rt; met == (Err(ConnectFault::Gateway), true), "{met:?}");
    Ok(())
}
