//! A clock that moves on with the datagrams of a link in memory.
ghost use Rattle.std.specs.Prelude.{◌≡◌, ◌≤◌, ◌++◌, [], ◌∷◌, IfOk, OnOk, OnErr, None, Some, length};
ghost use Rattle.outside_core.specs.Datagram.{datagram_of};
ghost use Rattle.outside_core.specs.Fault.{HasCause, Rose};
ghost use Rattle.outside_core.specs.MemoryHarbor.{shown, told_back};
ghost use Rattle.outside_core.specs.Returned.{TellsAtMost, then_returned};

use outside_core::{Clock, Datagram, Failed, Harbor, Link, MemoryHarbor, MemoryLink, Peer};
use std::sync::Wait;
use std::sync::atomic::{AtomicU32, Ordering};

/// A clock that tells what it was last set to.
#[derive(Drop)]
pub struct MovingClock {
    now: AtomicU32,
}

impl MovingClock {
    pub fn at(now: u32) -> MovingClock {
        MovingClock {
            now: AtomicU32::new(now),
        }
    }
}

impl Clock for MovingClock {
    ghost moment = { λ _. None };

    fn now(&self) -> u32 {
        self.now.load(Ordering::SeqCst)
    }
}

/// A link that sets the clock before each receipt.
#[derive(Drop)]
pub struct MovingLink<'a> {
    inner: MemoryLink,
    clock: &'a MovingClock,
    moments: &'a [u32],
    receipts: usize,
}

impl Link for MovingLink<'_> {
    ghost events = { λ l. Some l.inner.events };

    ghost port = { λ l. l.inner.port };

    ghost upstream = { λ l. l.inner.upstream };

    ghost faults = { λ l. l.inner.plan.faults };

    fn receive<R: Wait>(&mut self, rt: &R, into: &mut Datagram) -> Result<(), Failed> {
        if let Some(moment) = self.moments.get(self.receipts) {
            self.clock.now.store(*moment, Ordering::SeqCst);
        }
        self.receipts = self.receipts.saturating_add(1);
        self.inner.receive(rt, into)
    }

    fn send(&mut self, to: Peer, octets: &[u8]) -> Result<(), Failed> {
        self.inner.send(to, octets)
    }
}

/// A harbor whose links set the clock to these moments, one for each datagram.
#[derive(Drop)]
pub struct MovingHarbor<'a> {
    pub inner: MemoryHarbor,
    pub clock: &'a MovingClock,
    pub moments: &'a [u32],
}

impl<'a> Harbor for MovingHarbor<'a> {
    type Link = MovingLink<'a>;

    ghost came_back = { λ h. told_back h.inner };

    ghost faults = { λ h. h.inner.plan.faults };

    fn bind(&mut self, port: u16, upstream: u16) -> Result<MovingLink<'a>, Failed> {
        let inner = self.inner.bind(port, upstream)?;
        Ok(MovingLink {
            inner,
            clock: self.clock,
            moments: self.moments,
            receipts: 0,
        })
    }

    fn part(&mut self, port: u16, link: MovingLink<'a>) {
        self.inner.part(port, link.inner);
    }
}
