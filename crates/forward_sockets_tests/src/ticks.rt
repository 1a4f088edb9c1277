//! Ticks and moments.
use crate::scene::{end, free_port, no_event, open, query, sends, v4};
use arrivals::Came;
use forward_sockets::Sockets;
use std::io;
use std::net::{SocketAddr, UdpSocket};
use std::test::Fail;
use std::time::{Clock, Duration, Instant, SystemTime};

// How long the next three ticks take, after a first one.
fn three_ticks<C: Clock>(sockets: &mut Sockets, clock: &C) -> io::Result<Option<Duration>> {
    let mut into = no_event();
    sockets.receive(clock, &mut into);
    let start = Instant::now(clock)?;
    for _ in 0..3 {
        sockets.receive(clock, &mut into);
        if into.came != Came::Tick {
            return Ok(None);
        }
    }
    Ok(Some(start.elapsed(clock)?))
}

#[test]
fn a_tick_comes_each_quarter_of_a_second(rt: HostRuntime) -> Result<(), Fail> {
    let address = v4(free_port(&rt)?);
    let mut sockets = open(&rt, rt.alloc(), &[address], v4(9))?;
    let Some(took) = three_ticks(&mut sockets, &rt)? else {
        return Err(Fail::from("something came"));
    };
    let in_time = took >= Duration::from_millis(740) && took <= Duration::from_millis(1100);
    assert!(rt; in_time, "{took:?}");
    Ok(())
}

// How many queries come before the next tick, where always some wait.
fn queries_before_a_tick<C: Clock>(
    sockets: &mut Sockets,
    clock: &C,
    client: &UdpSocket,
    address: SocketAddr,
) -> Option<u32> {
    let mut into = no_event();
    for id in 0..1_000_000u32 {
        if !sends(client, address, &query((id % 65_536) as u16)) {
            return None;
        }
        sockets.receive(clock, &mut into);
        match into.came {
            Came::Tick => return Some(id),
            Came::Query { client, carrier: _ } => sockets.reply(client, b""),
            Came::Answer {
                slot: _,
                carrier: _,
            } => return None,
        }
    }
    None
}

#[test]
fn a_tick_comes_while_queries_flood(rt: HostRuntime) -> Result<(), Fail> {
    let address = v4(free_port(&rt)?);
    let client = end(&rt, address)?;
    let mut sockets = open(&rt, rt.alloc(), &[address], v4(9))?;
    sockets.receive(&rt, &mut no_event());
    let start = Instant::now(&rt)?;
    let count = queries_before_a_tick(&mut sockets, &rt, &client, address);
    let took = start.elapsed(&rt)?;
    assert!(rt; count.is_some_and(|count| count > 10), "{count:?}");
    assert!(rt; took <= Duration::from_millis(300), "{took:?}");
    Ok(())
}

#[test]
fn a_moment_is_what_the_clocks_say(rt: HostRuntime) -> Result<(), Fail> {
    let mut sockets = open(&rt, rt.alloc(), &[], v4(9))?;
    let mut into = no_event();
    let before = SystemTime::now(&rt)?;
    sockets.receive(&rt, &mut into);
    let first = into.moment;
    sockets.receive(&rt, &mut into);
    let second = into.moment;
    let since = before.duration_since(SystemTime::UNIX_EPOCH);
    let Ok(since) = since else {
        return Err(Fail::from("a clock before 1970"));
    };
    let seconds = (since.as_secs() % 0x1_0000_0000) as u32;
    assert!(rt; first.seconds.wrapping_sub(seconds) <= 1);
    let between = second.millis.wrapping_sub(first.millis);
    assert!(rt; between >= 250 && between <= 400, "{between}");
    Ok(())
}
