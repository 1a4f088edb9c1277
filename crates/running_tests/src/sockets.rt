//! Connections over loopback by the program's wiring. What the clients send is there when the server begins, which has read an answer.

use super::connections::{ANSWER, DENIED, QUERY, THEN};
use super::machine::{Moved, Shared, on_loopback};
use super::replays::{Ended, source_of, words_of};
use dname::OutOfMemory;
use outside_core::MemorySink;
use running::{Status, run_here};
use std::alloc::Global;
use std::fs::Files;
use std::io;
use std::io::{Read, Write};
use std::net::{Net, OpenListener, OpenStream, Shutdown, SocketAddr};
use std::random::RandomSource;
use std::sync::Wait;
use std::sync::atomic::AtomicU32;
use std::test::Fail;
use std::thread::Threads;
use std::time::Duration;

// A network that has port 5300 of 127.0.0.1 alone. A listener of another port is in its place.
#[derive(Drop)]
struct Ready<N: Net> {
    listener: N::Listener,
}

impl<N: Net> Net for Ready<N> {
    type Stream = N::Stream;

    type Listener = N::Listener;

    fn bind(&self, addr: SocketAddr) -> io::Result<N::Listener> {
        if addr != on_loopback(5300) {
            return Err(io::Error::from(io::ErrorKind::AddrNotAvailable));
        }
        self.listener.try_clone()
    }

    fn connect(&self, _addr: SocketAddr) -> io::Result<N::Stream> {
        Err(io::Error::from(io::ErrorKind::Unsupported))
    }
}

// A client that sends these octets and then no more. Each of its waits ends after five seconds, if not sooner.
fn client<N: Net>(net: &N, there: SocketAddr, octets: &[u8]) -> io::Result<N::Stream> {
    let mut stream = net.connect(there)?;
    stream.set_read_timeout(Some(Duration::from_secs(5)))?;
    stream.write_all(octets)?;
    stream.shutdown(Shutdown::Write)?;
    Ok(stream)
}

// Whether the client gets just the reply.
fn gets_reply<S: Read + Drop>(client: S) -> io::Result<bool> {
    let mut client = client;
    let mut reply = [0; 70];
    client.read_exact(&mut reply)?;
    let more = client.read(&mut [0; 1])?;
    Ok(reply.as_slice() == DENIED && more == 0)
}

// How a server of two connections ends, and what it writes.
fn served<R: Threads + Wait + Sync, N: Net, M: Eprint + Files + RandomSource + Sync>(
    rt: &R,
    alloc: Global,
    net: &N,
    machine: &M,
) -> Result<Ended, OutOfMemory> {
    let words = words_of(alloc, "tcp --listen 5300 --connections 2")?;
    let mut source = source_of(alloc, ANSWER)?;
    let mut sink = MemorySink::with_room(alloc, 8, Vec::new(alloc))?;
    let shared = Shared {
        seconds: AtomicU32::new(THEN),
        port: AtomicU32::new(0),
    };
    let clock = Moved { shared: &shared };
    let status = run_here(
        rt,
        alloc,
        &words,
        &mut source,
        &mut sink,
        net,
        clock,
        machine,
    );
    Ok((status, Vec::from_slice(alloc, sink.written())?))
}

// A client that goes within a length, and one that asks: how the server ends, and whether the second is answered.
fn met<R: Threads + Wait + Sync, N: Net + Eprint + Files + RandomSource + Sync>(
    rt: &R,
    alloc: Global,
    net: &N,
) -> Result<(Ended, bool), Fail> {
    let listener = net.bind(on_loopback(0))?;
    let there = listener.local_addr()?;
    drop(client(net, there, b"\x00")?);
    let asking = client(net, there, QUERY)?;
    let ready = Ready::<N> { listener };
    let ended = served(rt, alloc, &ready, net)?;
    Ok((ended, gets_reply(asking)?))
}

#[test]
fn clients_are_answered_over_sockets(rt: HostRuntime) -> Result<(), Fail> {
    let ((status, written), answered) = met(&rt, rt.alloc(), &rt)?;
    let found = (status, written.len(), answered);
    assert!(rt; found == (Status::Good, 0, true), "{found:?}");
    Ok(())
}
