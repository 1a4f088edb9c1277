//! Answers come before queries.
use crate::scene::{end, free_port, next, no_event, open, query, sender_of, sends, v4};
use arrivals::{Came, Carrier};
use forward_sockets::Sockets;
use std::net::{SocketAddr, UdpSocket};
use std::test::Fail;
use std::time::Clock;

// How many queries come before the next answer, of 100 events.
fn queries_before_an_answer<C: Clock>(sockets: &mut Sockets, clock: &C) -> Option<u32> {
    let mut into = no_event();
    for count in 0..100u32 {
        match next(sockets, clock, &mut into) {
            Some(
                Came::Answer {
                    slot: _,
                    carrier: _,
                },
            ) => return Some(count),
            Some(_) => {}
            None => return None,
        }
    }
    None
}

fn asks_often(client: &UdpSocket, address: SocketAddr, times: u16) -> bool {
    (0..times).all(|id| sends(client, address, &query(id)))
}

#[test]
fn answers_come_before_queries(rt: HostRuntime) -> Result<(), Fail> {
    let (upstream, client) = (end(&rt, v4(0))?, end(&rt, v4(0))?);
    let address = v4(free_port(&rt)?);
    let mut sockets = open(&rt, rt.alloc(), &[address], upstream.local_addr()?)?;
    sockets.receive(&rt, &mut no_event());
    sockets.ask(3, Carrier::Datagram, b"question");
    let Some(here) = sender_of(&upstream, b"question") else {
        return Err(Fail::from("no question"));
    };
    assert!(rt; asks_often(&client, address, 60) && sends(&upstream, here, b"answer"));
    let before = queries_before_an_answer(&mut sockets, &rt);
    assert!(rt; before == Some(0), "{before:?}");
    // One that comes between the queries waits for 16 of them at most.
    assert!(rt; next(&mut sockets, &rt, &mut no_event()).is_some());
    assert!(rt; sends(&upstream, here, b"answer"));
    let before = queries_before_an_answer(&mut sockets, &rt);
    assert!(rt; before.is_some_and(|count| count <= 16), "{before:?}");
    Ok(())
}

// How many queries come before the one with this ID, of 60 events.
fn queries_before<C: Clock>(sockets: &mut Sockets, clock: &C, id: u16) -> Option<u32> {
    let mut into = no_event();
    for count in 0..60u32 {
        let comes = next(sockets, clock, &mut into).is_some();
        if comes && into.octets.as_slice() == &query(id)[..] {
            return Some(count);
        }
    }
    None
}

// One address with many queries doesn't keep the other's waiting.
#[test]
fn listeners_have_their_turns(rt: HostRuntime) -> Result<(), Fail> {
    let (busy, quiet) = (end(&rt, v4(0))?, end(&rt, v4(0))?);
    let addresses = [v4(free_port(&rt)?), v4(free_port(&rt)?)];
    let mut sockets = open(&rt, rt.alloc(), &addresses, v4(9))?;
    assert!(rt; asks_often(&busy, addresses[0], 60) && sends(&quiet, addresses[1], &query(1000)));
    let before = queries_before(&mut sockets, &rt, 1000);
    assert!(rt; before.is_some_and(|count| count <= 2), "{before:?}");
    // One that comes between the queries waits for 16 of them at most.
    for _ in 0..3 {
        assert!(rt; next(&mut sockets, &rt, &mut no_event()).is_some());
    }
    assert!(rt; sends(&quiet, addresses[1], &query(1001)));
    let before = queries_before(&mut sockets, &rt, 1001);
    assert!(rt; before.is_some_and(|count| count <= 16), "{before:?}");
    Ok(())
}
