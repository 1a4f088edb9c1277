//! What comes before a tick that is overdue.
use crate::scene::{end, free_port, next_client, no_event, open, query, sender_of, sends, v4};
use arrivals::{Came, Carrier};
use forward_sockets::Sockets;
use std::cell::Cell;
use std::net::{SocketAddr, UdpSocket};
use std::test::Fail;
use std::time::{Clock, Duration, Instant};
use std::{io, thread};

// From where the slot asks the upstream its number.
fn asker(sockets: &mut Sockets, upstream: &UdpSocket, slot: u8) -> Option<SocketAddr> {
    sockets.ask(slot, Carrier::Datagram, &[slot]);
    sender_of(upstream, &[slot])
}

// How many answers come before the next tick, each of which is its slot's number.
fn answers_before_a_tick<C: Clock>(sockets: &mut Sockets, clock: &C) -> Option<u32> {
    let mut into = no_event();
    for count in 0..1000u32 {
        sockets.receive(clock, &mut into);
        match into.came {
            Came::Tick => return Some(count),
            Came::Answer { slot, carrier: _ } if into.octets.as_slice() == &[slot][..] => {}
            _ => return None,
        }
    }
    None
}

// The thread sleeps for longer than a tick takes, while the upstream answers and a client asks.
#[test]
fn answers_that_lie_there_come_first(rt: HostRuntime) -> Result<(), Fail> {
    let (upstream, client) = (end(&rt, v4(0))?, end(&rt, v4(0))?);
    let address = v4(free_port(&rt)?);
    let mut sockets = open(&rt, rt.alloc(), &[address], upstream.local_addr()?)?;
    sockets.receive(&rt, &mut no_event());
    for slot in 0..20u8 {
        let here = asker(&mut sockets, &upstream, slot);
        assert!(rt;
            here.is_some_and(|here| sends(&upstream, here, &[slot])),
            "{slot}"
        );
    }
    assert!(rt; sends(&client, address, &query(1)));
    thread::sleep(&rt, Duration::from_millis(300));
    let before = answers_before_a_tick(&mut sockets, &rt);
    assert!(rt; before == Some(20), "{before:?}");
    assert!(rt; next_client(&mut sockets, &rt, &query(1)).is_some());
    Ok(())
}

// A clock by which the thread is held up for some seconds at each reading from the second on. At the second the first slot has its
// answer meanwhile, and at the third the second.
#[derive(Drop)]
struct HeldUp<'a> {
    upstream: &'a UdpSocket,
    first: SocketAddr,
    second: SocketAddr,
    readings: Cell<u32>,
}

impl<'a> Clock for HeldUp<'a> {
    fn monotonic(&self) -> io::Result<Duration> {
        let readings = self.readings.get().saturating_add(1);
        self.readings.set(readings);
        let _sent = match readings {
            2 => sends(self.upstream, self.first, &[1]),
            3 => sends(self.upstream, self.second, &[2]),
            _ => true,
        };
        let seconds = if readings < 2 { 0 } else { readings };
        Ok(Duration::from_secs(u64::from(seconds)))
    }

    fn since_1970(&self) -> io::Result<Duration> {
        Ok(Duration::from_secs(0))
    }
}

// The clock is read for the first tick, and then after each wait.
#[test]
fn answers_that_come_while_the_thread_is_held_up_come_first(rt: HostRuntime) -> Result<(), Fail> {
    let upstream = end(&rt, v4(0))?;
    let mut sockets = open(&rt, rt.alloc(), &[], upstream.local_addr()?)?;
    let first = asker(&mut sockets, &upstream, 1);
    let second = asker(&mut sockets, &upstream, 2);
    let (Some(first), Some(second)) = (first, second) else {
        return Err(Fail::from("no questions"));
    };
    let clock = HeldUp {
        upstream: &upstream,
        first,
        second,
        readings: Cell::new(0),
    };
    for expected in [0, 1, 1, 0] {
        let found = answers_before_a_tick(&mut sockets, &clock);
        assert!(rt; found == Some(expected), "{found:?}");
    }
    Ok(())
}

// How many answers come before the next tick, where always some wait.
fn answers_of_a_flood<C: Clock>(
    sockets: &mut Sockets,
    clock: &C,
    upstream: &UdpSocket,
    here: SocketAddr,
) -> Option<u32> {
    let mut into = no_event();
    for count in 0..1_000_000u32 {
        if !sends(upstream, here, b"answer") {
            return None;
        }
        sockets.receive(clock, &mut into);
        match into.came {
            Came::Tick => return Some(count),
            Came::Answer {
                slot: _,
                carrier: _,
            } => {}
            Came::Query {
                client: _,
                carrier: _,
            } => return None,
        }
    }
    None
}

#[test]
fn a_tick_comes_while_answers_flood(rt: HostRuntime) -> Result<(), Fail> {
    let upstream = end(&rt, v4(0))?;
    let mut sockets = open(&rt, rt.alloc(), &[], upstream.local_addr()?)?;
    sockets.receive(&rt, &mut no_event());
    let Some(here) = asker(&mut sockets, &upstream, 3) else {
        return Err(Fail::from("no question"));
    };
    let start = Instant::now(&rt)?;
    let count = answers_of_a_flood(&mut sockets, &rt, &upstream, here);
    let took = start.elapsed(&rt)?;
    assert!(rt; count.is_some_and(|count| count > 10), "{count:?}");
    assert!(rt; took <= Duration::from_secs(1), "{took:?}");
    Ok(())
}

// Once it is due, 256 answers at most come before it.
#[test]
fn an_overdue_tick_comes_while_answers_flood(rt: HostRuntime) -> Result<(), Fail> {
    let upstream = end(&rt, v4(0))?;
    let mut sockets = open(&rt, rt.alloc(), &[], upstream.local_addr()?)?;
    sockets.receive(&rt, &mut no_event());
    let Some(here) = asker(&mut sockets, &upstream, 3) else {
        return Err(Fail::from("no question"));
    };
    thread::sleep(&rt, Duration::from_millis(300));
    let count = answers_of_a_flood(&mut sockets, &rt, &upstream, here);
    assert!(rt;
        count.is_some_and(|count| count > 0 && count <= 256),
        "{count:?}"
    );
    Ok(())
}
