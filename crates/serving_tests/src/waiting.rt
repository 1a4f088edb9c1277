//! A harbor in memory whose links wait for one another before they first receive.
ghost use Rattle.std.specs.Prelude.{◌≡◌, ◌≤◌, ◌++◌, [], ◌∷◌, IfOk, OnOk, OnErr, Some, length};
ghost use Rattle.outside_core.specs.Datagram.{datagram_of};
ghost use Rattle.outside_core.specs.Fault.{HasCause, Rose};
ghost use Rattle.outside_core.specs.MemoryHarbor.{shown, told_back};
ghost use Rattle.outside_core.specs.Returned.{TellsAtMost, then_returned};

use outside_core::{Datagram, Failed, Harbor, Link, MemoryHarbor, MemoryLink, Peer};
use std::sync::Wait;
use std::sync::atomic::{AtomicBool, Ordering};
use std::thread::yield_now;

/// So many turns are waited for the other worker.
const TURNS: u32 = 10_000_000;

/// What links of two workers wait for.
#[derive(Clone, Copy)]
pub enum Waits {
    /// Each waits until the other has come to its first receipt.
    ForEachOther,
    /// The second waits until the first has sent twice.
    ForTheRelay,
}

/// A flag of each worker, and whether one has waited in vain.
#[derive(Drop)]
pub struct Flags {
    first: AtomicBool,
    second: AtomicBool,
    gave_up: AtomicBool,
}

impl Flags {
    pub fn down() -> Flags {
        Flags {
            first: AtomicBool::new(false),
            second: AtomicBool::new(false),
            gave_up: AtomicBool::new(false),
        }
    }

    pub fn gave_up(&self) -> bool {
        self.gave_up.load(Ordering::SeqCst)
    }

    fn wait(&self, flag: &AtomicBool) {
        for _ in 0..TURNS {
            if flag.load(Ordering::SeqCst) {
                return;
            }
            yield_now();
        }
        self.gave_up.store(true, Ordering::SeqCst);
    }

    // A worker comes to its first receipt.
    fn begin(&self, waits: Waits, is_first: bool) {
        match (waits, is_first) {
            (Waits::ForEachOther, true) => {
                self.first.store(true, Ordering::SeqCst);
                self.wait(&self.second);
            }
            (Waits::ForEachOther, false) => {
                self.second.store(true, Ordering::SeqCst);
                self.wait(&self.first);
            }
            (Waits::ForTheRelay, true) => {}
            (Waits::ForTheRelay, false) => self.wait(&self.first),
        }
    }
}

#[derive(Drop)]
pub struct WaitingLink<'a> {
    inner: MemoryLink,
    flags: &'a Flags,
    waits: Waits,
    is_first: bool,
    begun: bool,
    has_sent: bool,
}

impl Link for WaitingLink<'_> {
    ghost events = { λ l. Some l.inner.events };

    ghost port = { λ l. l.inner.port };

    ghost upstream = { λ l. l.inner.upstream };

    ghost faults = { λ l. l.inner.plan.faults };

    fn receive<R: Wait>(&mut self, rt: &R, into: &mut Datagram) -> Result<(), Failed> {
        if !self.begun {
            self.begun = true;
            self.flags.begin(self.waits, self.is_first);
        }
        self.inner.receive(rt, into)
    }

    // The first worker's second datagram is the relay.
    fn send(&mut self, to: Peer, octets: &[u8]) -> Result<(), Failed> {
        let sent = self.inner.send(to, octets);
        if self.has_sent && self.is_first {
            self.flags.first.store(true, Ordering::SeqCst);
        }
        self.has_sent = true;
        sent
    }
}

#[derive(Drop)]
pub struct WaitingHarbor<'a> {
    pub inner: MemoryHarbor,
    pub flags: &'a Flags,
    pub waits: Waits,
    pub bound: u32,
}

impl<'a> Harbor for WaitingHarbor<'a> {
    type Link = WaitingLink<'a>;

    ghost came_back = { λ h. told_back h.inner };

    ghost faults = { λ h. h.inner.plan.faults };

    fn bind(&mut self, port: u16, upstream: u16) -> Result<WaitingLink<'a>, Failed> {
        let inner = self.inner.bind(port, upstream)?;
        let is_first = self.bound == 0;
        self.bound = 1;
        Ok(WaitingLink {
            inner,
            flags: self.flags,
            waits: self.waits,
            is_first,
            begun: false,
            has_sent: false,
        })
    }

    fn part(&mut self, port: u16, link: WaitingLink<'a>) {
        self.inner.part(port, link.inner);
    }
}
