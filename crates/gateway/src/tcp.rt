//! Connections of the machine's own network, on 127.0.0.1.
ghost use Rattle.std.specs.Prelude.{◌≡◌, None};
ghost use Rattle.gateway.specs.Tcp.{gateway_port, gateway_failures, gateway_faults};

use crate::call_plan::count;
use crate::{Gateway, TimedSource, WatchedSink, WatchedSource};
use outside_core::{Failed, StreamSink};
use std::io;
use std::io::ErrorKind;
use std::net::{Ipv4Addr, Net, OpenListener, OpenStream, SocketAddr, SocketAddrV4};
use std::sync::Wait;
use std::time::Duration;

/// How long a connection's read waits for octets, and its write for room, in seconds.
const PATIENCE: u64 = 10;

/// The real network as a gateway. It tells nothing of what came back. Its counts stay at 2^64 - 1 once they are there.
///
/// A connection's calls wait for so long at most, ten seconds unless it is told otherwise: a read that waited is the end of its source,
/// and a write that waited fails. A connection that its peer gave up before it was accepted is passed over.
///
/// When a call fails is left open, since nothing in std says so: it is where the call of the system fails, also where a signal
/// interrupted that, and where a connection's times can't be set or its second handle can't be had.
#[derive(Debug, Drop)]
pub struct TcpGateway<N: Net> {
    net: N,
    patience: Duration,
    listener: Option<N::Listener>,
    port: Option<u16>,
    failures: u64,
    faults: u64,
}

impl<N: Net + Drop> TcpGateway<N> {
    /// The gateway of a network, such as the runtime that `main` is given.
    pub fn over(net: N) -> TcpGateway<N>
        ensures port { gateway_port result ≡ None }
        ensures failures { gateway_failures result ≡ 0 }
        ensures faults { gateway_faults result ≡ 0 }
    {
        TcpGateway::with_patience(net, Duration::from_secs(PATIENCE))
    }

    /// One whose connections' calls wait for so long at most. It is more than nothing, or no connection can be accepted.
    pub fn with_patience(net: N, patience: Duration) -> TcpGateway<N>
        ensures port { gateway_port result ≡ None }
        ensures failures { gateway_failures result ≡ 0 }
        ensures faults { gateway_faults result ≡ 0 }
    {
        TcpGateway {
            net,
            patience,
            listener: None,
            port: None,
            failures: 0,
            faults: 0,
        }
    }
}

impl<N: Net + Drop> Gateway for TcpGateway<N> {
    type Source = WatchedSource<TimedSource<N::Stream>>;

    type Sink = WatchedSink<StreamSink<N::Stream>>;

    ghost listens = { gateway_port };

    ghost came_back = { λ _. None };

    ghost failures = { gateway_failures };

    ghost faults = { gateway_faults };

    fn listen(&mut self, port: u16) -> Result<(), Failed> {
        match self.net.bind(on_loopback(port)) {
            Ok(listener) => {
                self.listener = Some(listener);
                self.port = Some(port);
                Ok(())
            }
            Err(_) => Err(self.fail()),
        }
    }

    fn accept<R: Wait>(
        &mut self,
        rt: &R,
    ) -> Result<
        (
            WatchedSource<TimedSource<N::Stream>>,
            WatchedSink<StreamSink<N::Stream>>,
        ),
        Failed,
    > {
        let accepted = match &self.listener {
            Some(listener) => both_ends(rt, listener, self.patience),
            None => Err(io::Error::from(ErrorKind::NotConnected)),
        };
        match accepted {
            Ok((first, second)) => Ok((
                WatchedSource::over(TimedSource::over(first)),
                WatchedSink::over(StreamSink::over(second)),
            )),
            Err(_) => Err(self.fail()),
        }
    }

    fn part(
        &mut self,
        source: WatchedSource<TimedSource<N::Stream>>,
        sink: WatchedSink<StreamSink<N::Stream>>,
    ) {
        if source.has_failed() || sink.has_failed() {
            count(&mut self.faults);
        }
    }
}

impl<N: Net + Drop> TcpGateway<N> {
    ghost use Rattle.outside_core.specs.Fault.{Rose};

    // Counts a call that failed.
    fn fail(&mut self) -> Failed
        ensures port { gateway_port self.new ≡ gateway_port self.old }
        ensures failures { Rose (gateway_failures self.old) (gateway_failures self.new) }
        ensures faults { Rose (gateway_faults self.old) (gateway_faults self.new) }
    {
        count(&mut self.failures);
        count(&mut self.faults);
        Failed
    }
}

// The next connection, by two handles, of which one reads and one writes.
fn both_ends<R: Wait, L: OpenListener>(
    rt: &R,
    listener: &L,
    patience: Duration,
) -> io::Result<(L::Stream, L::Stream)>
where
    L::Stream: OpenStream,
{
    let stream = next_stream(rt, listener)?;
    stream.set_read_timeout(Some(patience))?;
    stream.set_write_timeout(Some(patience))?;
    // A reply isn't held back until the one before it has arrived.
    stream.set_nodelay(true)?;
    let second = stream.try_clone()?;
    Ok((stream, second))
}

// The next connection that its peer hasn't given up.
fn next_stream<R: Wait, L: OpenListener>(rt: &R, listener: &L) -> io::Result<L::Stream> {
    for _ in rt.forever() {
        match listener.accept() {
            Ok((stream, _)) => return Ok(stream),
            Err(fault) => {
                if fault.kind() != ErrorKind::ConnectionAborted {
                    return Err(fault);
                }
            }
        }
    }
    unreachable!()
}

// A port of 127.0.0.1.
fn on_loopback(port: u16) -> SocketAddr {
    SocketAddr::V4(SocketAddrV4::new(Ipv4Addr::LOCALHOST, port))
}
