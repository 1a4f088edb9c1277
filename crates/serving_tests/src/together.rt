//! A worker whose datagrams have come together: all of clients are received, then done, then answered, in their order.
ghost use Rattle.std.specs.Prelude.{◌≡◌, None};
ghost use Rattle.outside_core.specs.Fault.{Rose};

use super::messages::{ANSWER, ASKED, DENIED, NEXT_ASKED, NEXT_QUERY, QUERY, RELAYED, THEN};
use super::sent::sent_otherwise;
use outside_core::{Datagram, Failed, FixedClock, Link, OutOfMemory, Peer};
use resolver::SharedCache;
use serving::{ServeFault, serve_worker};
use std::alloc::Global;
use std::sync::Wait;
use std::test::Fail;

const CLIENT: Peer = Peer::Client(0x7f00_0001_0035);

const OTHER: Peer = Peer::Client(0x7f00_0001_0036);

/// A link whose datagrams have all come already. It tells nothing of them, and keeps what was sent and the order of its calls:
/// r for a receipt, w for one that doesn't wait, n where that took none, s for a sending.
#[derive(Drop)]
struct Crowded {
    incoming: Vec<Datagram>,
    position: usize,
    sent: Vec<Datagram>,
    calls: Vec<u8>,
    // The number of the sending that fails, counted from 1.
    failing: usize,
    faults: u64,
}

impl Crowded {
    fn of(alloc: Global, incoming: Vec<Datagram>, failing: usize) -> Crowded {
        Crowded {
            incoming,
            position: 0,
            sent: Vec::new(alloc),
            calls: Vec::new(alloc),
            failing,
            faults: 0,
        }
    }

    // Puts the next datagram into `into`, if there is one.
    fn take(&mut self, into: &mut Datagram) -> bool
        ensures { self.new.faults ≡ self.old.faults }
    {
        let Some(next) = self.incoming.get(self.position) else {
            return false;
        };
        *into = next.copy();
        self.position = self.position.saturating_add(1);
        true
    }

    fn fail(&mut self) -> Failed
        ensures { Rose self.old.faults self.new.faults }
    {
        self.faults = self.faults.saturating_add(1);
        Failed
    }
}

impl Link for Crowded {
    ghost events = { λ _. None };

    ghost port = { λ _. 0 };

    ghost upstream = { λ _. 0 };

    ghost faults = { λ l. l.faults };

    fn receive<R: Wait>(&mut self, _rt: &R, into: &mut Datagram) -> Result<(), Failed> {
        let _ = self.calls.push(b'r');
        if self.take(into) {
            Ok(())
        } else {
            Err(self.fail())
        }
    }

    fn receive_waiting(&mut self, into: &mut Datagram) -> bool {
        let is_client = match self.incoming.get(self.position) {
            Some(next) => next.peer != Peer::Upstream,
            None => false,
        };
        let taken = is_client && self.take(into) && into.peer != Peer::Upstream;
        let _ = self.calls.push(if taken { b'w' } else { b'n' });
        taken
    }

    fn send(&mut self, to: Peer, octets: &[u8]) -> Result<(), Failed> {
        let _ = self.calls.push(b's');
        if self.sent.len().saturating_add(1) == self.failing {
            return Err(self.fail());
        }
        let _ = self.sent.push(Datagram::of(to, octets));
        Ok(())
    }
}

// How the work over a new cache ends, and the link then.
fn served<R: Wait>(
    rt: &R,
    alloc: Global,
    incoming: Vec<Datagram>,
    failing: usize,
) -> Result<(Result<(), ServeFault>, Crowded), Fail> {
    let count = u32::try_from(incoming.len()).unwrap_or(0);
    let mut link = Crowded::of(alloc, incoming, failing);
    let (cache, mut seats) = SharedCache::with_seats(rt, alloc, 1)?;
    let ended = match seats.pop() {
        Some(mut seat) => {
            let clock = FixedClock { now: THEN };
            Ok(serve_worker(rt, alloc, &cache, &mut seat, &mut link, &clock, count))
        }
        None => Err(Fail::from("no seat")),
    };
    cache.give_up(rt);
    Ok((ended?, link))
}

// Two clients ask, the upstream answers the first of them, and two more ask what its answer proves.
fn incoming(alloc: Global) -> Result<Vec<Datagram>, OutOfMemory> {
    let mut incoming = Vec::new(alloc);
    incoming.push(Datagram::of(CLIENT, QUERY))?;
    incoming.push(Datagram::of(OTHER, NEXT_QUERY))?;
    incoming.push(Datagram::of(Peer::Upstream, ANSWER))?;
    incoming.push(Datagram::of(OTHER, NEXT_QUERY))?;
    incoming.push(Datagram::of(CLIENT, NEXT_QUERY))?;
    Ok(incoming)
}

// The calls as text.
fn text_of(calls: &[u8]) -> &str {
    str::from_utf8(calls).unwrap_or("")
}

#[test]
fn what_has_come_together_is_answered_together(rt: HostRuntime) -> Result<(), Fail> {
    let (ended, link) = served(&rt, rt.alloc(), incoming(rt.alloc())?, 0)?;
    let wanted = [
        (Peer::Upstream, ASKED),
        (Peer::Upstream, NEXT_ASKED),
        (CLIENT, RELAYED),
        (OTHER, DENIED),
        (CLIENT, DENIED),
    ];
    let wrong = sent_otherwise(&link.sent, &wanted);
    assert!(rt; wrong.is_none(), "{wrong:?}");
    // The upstream's answer is done alone, and the last receipt leaves room for one more only.
    let found = (ended, text_of(&link.calls));
    assert!(rt; found == (Ok(()), "rwnssrsrwss"), "{found:?}");
    Ok(())
}

// More than a worker takes at once.
fn seventeen(alloc: Global) -> Result<Vec<Datagram>, OutOfMemory> {
    let mut incoming = Vec::new(alloc);
    for _ in 0..17 {
        incoming.push(Datagram::of(CLIENT, QUERY))?;
    }
    Ok(incoming)
}

#[test]
fn as_many_as_have_room_are_done_at_once(rt: HostRuntime) -> Result<(), Fail> {
    let (ended, link) = served(&rt, rt.alloc(), seventeen(rt.alloc())?, 0)?;
    let found = (ended, link.sent.len(), text_of(&link.calls));
    assert!(rt;
        found == (Ok(()), 17, "rwwwwwwwwwwwwwwwssssssssssssssssrs"),
        "{found:?}"
    );
    Ok(())
}

// Of two that were done together the second isn't sent, and nothing more is received.
#[test]
fn a_sending_that_fails_stops_the_worker(rt: HostRuntime) -> Result<(), Fail> {
    let (ended, link) = served(&rt, rt.alloc(), incoming(rt.alloc())?, 2)?;
    let wrong = sent_otherwise(&link.sent, &[(Peer::Upstream, ASKED)]);
    assert!(rt; wrong.is_none(), "{wrong:?}");
    let found = (ended, text_of(&link.calls));
    assert!(rt; found == (Err(ServeFault::Link), "rwnss"), "{found:?}");
    Ok(())
}
