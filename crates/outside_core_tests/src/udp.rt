// A link over loopback, with both ends in this process. Each wait ends after five seconds, if not sooner.
ghost use Rattle.std.specs.Prelude.{◌≡◌, ◌≤◌, length, IfOk};
ghost use Rattle.outside_core.specs.Udp.{link_port};

use crate::links::drain;
use outside_core::{Datagram, Failed, Harbor, Link, Peer, UdpHarbor, UdpLink};
use std::fmt::Debug;
use std::net::{Ipv4Addr, Net, SocketAddr, SocketAddrV4, UdpSocket};
use std::sync::Wait;
use std::test::Fail;
use std::time::{Clock, Duration, Instant};
use std::{fmt, io};

// A network whose sockets wait for so long at most.
#[derive(Drop)]
struct Timed<'a, N> {
    net: &'a N,
    limit: Duration,
}

impl<'a, N: Net> Net for Timed<'a, N> {
    type Stream = N::Stream;

    type Listener = N::Listener;

    fn bind(&self, addr: SocketAddr) -> io::Result<N::Listener> {
        self.net.bind(addr)
    }

    fn connect(&self, addr: SocketAddr) -> io::Result<N::Stream> {
        self.net.connect(addr)
    }

    fn bind_udp(&self, addr: SocketAddr) -> io::Result<UdpSocket> {
        let socket = self.net.bind_udp(addr)?;
        socket.set_read_timeout(Some(self.limit))?;
        Ok(socket)
    }
}

impl<'a, N> Debug for Timed<'a, N> {
    fn fmt<W: fmt::Write>(&self, f: &mut fmt::Formatter<W>) -> fmt::Result {
        f.write_str("a network")
    }
}

// A port of 127.0.0.1.
fn on_loopback(port: u16) -> SocketAddr {
    SocketAddr::V4(SocketAddrV4::new(Ipv4Addr::LOCALHOST, port))
}

// A socket at a free port.
fn end<N: Net>(net: &N) -> io::Result<UdpSocket> {
    Timed {
        net,
        limit: Duration::from_secs(5),
    }
    .bind_udp(on_loopback(0))
}

// Whether the socket receives this next, from there.
fn gets(socket: &UdpSocket, from: SocketAddr, text: &[u8]) -> bool {
    let mut room = [0; 16];
    match socket.recv_from(&mut room) {
        Ok((count, sender)) => sender == from && room.get(..count) == Some(text),
        Err(_) => false,
    }
}

// The number of a client on 127.0.0.1: the address, and 16 bits of the port.
fn client_at(port: u16) -> Peer {
    Peer::Client(0x7f00_0001_0000 + u64::from(port))
}

// A harbor of sockets that wait for so long at most.
fn harbor<N: Net>(net: &N, milliseconds: u64) -> UdpHarbor<Timed<'_, N>> {
    UdpHarbor::over(Timed {
        net,
        limit: Duration::from_millis(milliseconds),
    })
}

fn link_to<N: Net + Drop>(harbor: &mut UdpHarbor<N>, upstream: &UdpSocket) -> Result<UdpLink, Fail>
    ensures { IfOk result (λ link. link_port link ≡ 0) }
{
    match harbor.bind(0, upstream.local_addr()?.port()) {
        Ok(link) => Ok(link),
        Err(_) => Err(Fail::from("no free port")),
    }
}

// Where the link's datagrams come from.
fn address_of(link: &mut UdpLink, upstream: &UdpSocket) -> Result<SocketAddr, Fail> {
    if link.send(Peer::Upstream, b"here").is_err() {
        return Err(Fail::from("a link sends nothing"));
    }
    let (_, here) = upstream.recv_from(&mut [0; 16])?;
    Ok(here)
}

// How often a call has failed, as the link or the harbor prints it last.
fn has_faults<T: Debug>(rt: &HostRuntime, counted: &T, count: u64) -> Result<bool, Fail> {
    let alloc = rt.alloc();
    let text = format!(in alloc; "{counted:?}")?;
    let wanted = format!(in alloc; "faults: {count}")?;
    Ok(text.as_str().contains(wanted.as_str()))
}

// A link with both sides, and what it received last.
#[derive(Drop)]
struct Scene {
    client: UdpSocket,
    upstream: UdpSocket,
    here: SocketAddr,
    asker: Peer,
    link: UdpLink,
    held: Datagram,
}

impl Scene {
    // Where each wait of the link ends after so long.
    fn over<N: Net>(net: &N, milliseconds: u64) -> Result<Scene, Fail> {
        let (client, upstream) = (end(net)?, end(net)?);
        let asker = client_at(client.local_addr()?.port());
        let mut link = link_to(&mut harbor(net, milliseconds), &upstream)?;
        let here = address_of(&mut link, &upstream)?;
        Ok(Scene {
            client,
            upstream,
            here,
            asker,
            link,
            held: Datagram::of(Peer::Upstream, b""),
        })
    }

    fn asks(&self, text: &[u8]) -> bool {
        match self.client.send_to(text, self.here) {
            Ok(count) => count == text.len(),
            Err(_) => false,
        }
    }

    fn answers(&self, text: &[u8]) -> bool {
        match self.upstream.send_to(text, self.here) {
            Ok(count) => count == text.len(),
            Err(_) => false,
        }
    }

    fn holds(&self, from: Peer, text: &[u8]) -> bool {
        self.held.peer == from && self.held.octets.as_slice() == text
    }

    // The next receipt, which may wait, gives this.
    fn waits_for<R: Wait>(&mut self, rt: &R, from: Peer, text: &[u8]) -> bool {
        self.link.receive(rt, &mut self.held).is_ok() && self.holds(from, text)
    }

    // It gives this of the client.
    fn waits_for_client<R: Wait>(&mut self, rt: &R, text: &[u8]) -> bool {
        let asker = self.asker;
        self.waits_for(rt, asker, text)
    }

    // This question is taken without waiting.
    fn takes(&mut self, text: &[u8]) -> bool {
        self.link.receive_waiting(&mut self.held) && self.holds(self.asker, text)
    }

    fn takes_none(&mut self) -> bool {
        !self.link.receive_waiting(&mut self.held)
    }

    // What the link sends to that side arrives there.
    fn asks_on(&mut self, text: &[u8]) -> bool
        requires { length text.now ≤ 4096 }
    {
        self.link.send(Peer::Upstream, text) == Ok(()) && gets(&self.upstream, self.here, text)
    }

    fn replies(&mut self, text: &[u8]) -> bool
        requires { length text.now ≤ 4096 }
    {
        self.link.send(self.asker, text) == Ok(()) && gets(&self.client, self.here, text)
    }

    // A receipt fails, and only once it has waited for so long.
    fn waits_in_vain<R: Wait + Clock>(&mut self, rt: &R, milliseconds: u64) -> io::Result<bool> {
        let start = Instant::now(rt)?;
        let failed = self.link.receive(rt, &mut self.held).is_err();
        Ok(failed && start.elapsed(rt)? >= Duration::from_millis(milliseconds))
    }
}

#[test]
fn a_link_exchanges_datagrams_with_both_sides(rt: HostRuntime) -> Result<(), Fail> {
    let mut scene = Scene::over(&rt, 5000)?;
    assert!(rt; scene.asks(b"question") && scene.waits_for_client(&rt, b"question"));
    assert!(rt; scene.asks_on(b"question"));
    assert!(rt; scene.answers(b"answer") && scene.waits_for(&rt, Peer::Upstream, b"answer"));
    assert!(rt; scene.replies(b"answer"));
    assert!(rt; has_faults(&rt, &scene.link, 0)?);
    Ok(())
}

#[test]
fn the_rest_of_a_long_datagram_is_lost(rt: HostRuntime) -> Result<(), Fail> {
    let mut scene = Scene::over(&rt, 5000)?;
    assert!(rt; scene.asks(&[7; 5000]) && scene.waits_for_client(&rt, &[7; 4096]));
    assert!(rt; has_faults(&rt, &scene.link, 0)?);
    Ok(())
}

// Whether the harbor fails to bind that socket's port, and prints so many faults then.
fn fails_to_bind<N: Net + Drop>(
    rt: &HostRuntime,
    harbor: &mut UdpHarbor<Timed<'_, N>>,
    taken: &UdpSocket,
    count: u64,
) -> Result<bool, Fail> {
    let failed = harbor.bind(taken.local_addr()?.port(), 53).is_err();
    Ok(failed && has_faults(rt, harbor, count)?)
}

// No datagram comes, and no client has 49 bits. The harbor counts both as one.
#[test]
fn what_fails_is_counted(rt: HostRuntime) -> Result<(), Fail> {
    let (taken, upstream) = (end(&rt)?, end(&rt)?);
    let mut harbor = harbor(&rt, 20);
    let mut link = link_to(&mut harbor, &upstream)?;
    assert!(rt; fails_to_bind(&rt, &mut harbor, &taken, 1)?);
    let received = link.receive(&rt, &mut Datagram::of(Peer::Upstream, b""));
    let sent = link.send(Peer::Client(1 << 48), b"to nobody");
    assert!(rt; (received, sent) == (Err(Failed), Err(Failed)) && has_faults(&rt, &link, 2)?);
    harbor.part(0, link);
    assert!(rt; has_faults(&rt, &harbor, 2)?);
    Ok(())
}

#[test]
fn questions_are_taken_in_order_up_to_an_answer(rt: HostRuntime) -> Result<(), Fail> {
    let mut scene = Scene::over(&rt, 5000)?;
    assert!(rt; scene.asks(b"the first") && scene.asks(b"second") && scene.asks(b"third"));
    assert!(rt; scene.answers(b"answer") && scene.asks(b"last"));
    assert!(rt; scene.waits_for_client(&rt, b"the first"));
    assert!(rt; scene.takes(b"second") && scene.takes(b"third"));

    // The answer is held back, and nothing goes before it.
    assert!(rt; scene.takes_none() && scene.takes_none());
    assert!(rt; scene.waits_for(&rt, Peer::Upstream, b"answer"));
    assert!(rt; scene.takes(b"last") && scene.takes_none());
    assert!(rt; has_faults(&rt, &scene.link, 0)?);
    Ok(())
}

#[test]
fn a_link_that_found_what_waited_sends_and_waits_as_before(rt: HostRuntime) -> Result<(), Fail> {
    let mut scene = Scene::over(&rt, 200)?;
    assert!(rt; scene.asks(b"one") && scene.takes(b"one") && scene.takes_none());

    // The socket's mode is still the one that doesn't wait.
    assert!(rt; scene.replies(b"reply"));
    assert!(rt; scene.asks(b"two") && scene.waits_for_client(&rt, b"two"));
    assert!(rt; has_faults(&rt, &scene.link, 0)?);
    assert!(rt; scene.waits_in_vain(&rt, 150)?);
    assert!(rt; has_faults(&rt, &scene.link, 1)?);
    Ok(())
}

// Whether each of so many calls that don't wait finds nothing.
fn find_none(scene: &mut Scene, calls: u32) -> bool {
    for _ in 0..calls {
        if !scene.takes_none() {
            return false;
        }
    }
    true
}

#[test]
fn after_one_in_vain_the_next_fifteen_ask_for_nothing(rt: HostRuntime) -> Result<(), Fail> {
    let mut scene = Scene::over(&rt, 5000)?;
    assert!(rt; scene.takes_none() && scene.asks(b"one"));
    assert!(rt; find_none(&mut scene, 15));
    assert!(rt; scene.waits_for_client(&rt, b"one"));
    assert!(rt; scene.asks(b"two") && scene.takes(b"two"));
    assert!(rt; scene.asks(b"three") && scene.asks(b"four"));
    assert!(rt; drain(&mut scene.link, &mut scene.held) == 2);
    assert!(rt; scene.holds(scene.asker, b"four"));
    assert!(rt; has_faults(&rt, &scene.link, 0)?);
    Ok(())
}
