//! Slots, their sockets and the upstream.
use crate::scene::{
    end, free_port, is_silent, next_slot, no_event, open, sender_of, sends, v4, v6,
};
use crate::stream_scene::{ahead, is_quiet};
use arrivals::Carrier;
use std::net::SocketAddr;
use std::test::Fail;

#[test]
fn upstreams_of_both_families_are_asked(rt: HostRuntime) -> Result<(), Fail> {
    for like in [v4(0), v6(0)] {
        let upstream = end(&rt, like)?;
        let mut sockets = open(&rt, rt.alloc(), &[], upstream.local_addr()?)?;
        sockets.ask(255, Carrier::Datagram, b"question");
        let Some(here) = sender_of(&upstream, b"question") else {
            return Err(Fail::from("no question"));
        };
        assert!(rt; sends(&upstream, here, b"answer"));
        assert!(rt; next_slot(&mut sockets, &rt, b"answer") == Some(255));
    }
    Ok(())
}

// Epoll tells of what comes anew, so the second would never be seen if the first alone were read.
#[test]
fn a_wrong_datagram_does_not_hide_the_right_one(rt: HostRuntime) -> Result<(), Fail> {
    let upstream = end(&rt, v4(0))?;
    let mut sockets = open(&rt, rt.alloc(), &[], upstream.local_addr()?)?;
    sockets.ask(3, Carrier::Datagram, b"question");
    let Some(here) = sender_of(&upstream, b"question") else {
        return Err(Fail::from("no question"));
    };
    assert!(rt; sends(&upstream, here, b"wrong") && sends(&upstream, here, b"right"));
    assert!(rt; next_slot(&mut sockets, &rt, b"wrong") == Some(3));
    assert!(rt; next_slot(&mut sockets, &rt, b"right") == Some(3));
    Ok(())
}

#[test]
fn what_a_stranger_sends_is_not_heard(rt: HostRuntime) -> Result<(), Fail> {
    let (upstream, stranger) = (end(&rt, v4(0))?, end(&rt, v4(0))?);
    let mut sockets = open(&rt, rt.alloc(), &[], upstream.local_addr()?)?;
    sockets.receive(&rt, &mut no_event());
    sockets.ask(3, Carrier::Datagram, b"question");
    let Some(here) = sender_of(&upstream, b"question") else {
        return Err(Fail::from("no question"));
    };
    let here = v4(here.port());
    let _sent = stranger.send_to(b"answer", here);
    assert!(rt; is_silent(&mut sockets, &rt, &mut no_event()));
    assert!(rt; sends(&upstream, here, b"answer"));
    assert!(rt; next_slot(&mut sockets, &rt, b"answer") == Some(3));
    Ok(())
}

#[test]
fn a_late_answer_to_an_earlier_asking_is_not_heard(rt: HostRuntime) -> Result<(), Fail> {
    let upstream = end(&rt, v4(0))?;
    let mut sockets = open(&rt, rt.alloc(), &[], upstream.local_addr()?)?;
    sockets.receive(&rt, &mut no_event());
    sockets.ask(3, Carrier::Datagram, b"first");
    let first = sender_of(&upstream, b"first");
    sockets.ask(3, Carrier::Datagram, b"second");
    let second = sender_of(&upstream, b"second");
    let (Some(first), Some(second)) = (first, second) else {
        return Err(Fail::from("no questions"));
    };
    assert!(rt; first != second);
    let _refused = upstream.send_to(b"late", first);
    assert!(rt; is_silent(&mut sockets, &rt, &mut no_event()));
    assert!(rt; sends(&upstream, second, b"answer"));
    assert!(rt; next_slot(&mut sockets, &rt, b"answer") == Some(3));
    Ok(())
}

// No question waits for five seconds.
#[test]
fn a_socket_is_closed_after_five_seconds(rt: HostRuntime) -> Result<(), Fail> {
    let upstream = end(&rt, v4(0))?;
    let mut sockets = open(&rt, rt.alloc(), &[], upstream.local_addr()?)?;
    sockets.receive(&rt, &mut no_event());
    sockets.ask(3, Carrier::Datagram, b"question");
    let Some(here) = sender_of(&upstream, b"question") else {
        return Err(Fail::from("no question"));
    };
    let (soon, late) = (ahead(&rt, 4_400), ahead(&rt, 5_000));
    assert!(rt; is_quiet(&mut sockets, &soon, 1) && sends(&upstream, here, b"answer"));
    assert!(rt; next_slot(&mut sockets, &soon, b"answer") == Some(3));
    assert!(rt; is_quiet(&mut sockets, &late, 1));
    let _refused = upstream.send_to(b"late", here);
    assert!(rt; is_quiet(&mut sockets, &late, 2));
    Ok(())
}

// A connected socket is told by the system that nobody listens.
#[test]
fn an_upstream_that_is_not_there_is_a_fault(rt: HostRuntime) -> Result<(), Fail> {
    let upstream = v4(free_port(&rt)?);
    let mut sockets = open(&rt, rt.alloc(), &[], upstream)?;
    sockets.ask(3, Carrier::Datagram, b"question");
    assert!(rt; is_silent(&mut sockets, &rt, &mut no_event()));
    let answer = sockets.faults().answer;
    // Error 111 of Linux: the connection is refused.
    assert!(rt; answer.count == 1 && answer.last == Some(111), "{answer:?}");
    assert!(rt; sockets.faults().send.count == 0);
    Ok(())
}

// A datagram of IPv4 has at most 65,507 octets of its own (RFC 768; RFC 791, section 3.1).
#[test]
fn an_asking_that_cannot_be_sent_ends_nothing(rt: HostRuntime) -> Result<(), Fail> {
    let long = Vec::from_elem(rt.alloc(), 0u8, 65_508)?;
    let upstream = end(&rt, v4(0))?;
    let mut sockets = open(&rt, rt.alloc(), &[], upstream.local_addr()?)?;
    sockets.ask(3, Carrier::Datagram, &long);
    let send = sockets.faults().send;
    assert!(rt; send.count == 1, "{send:?}");
    sockets.ask(3, Carrier::Datagram, b"question");
    assert!(rt; sender_of(&upstream, b"question").is_some());
    Ok(())
}

// All slots at once, each by a port of its own.
#[test]
fn each_slot_has_a_port_of_its_own(rt: HostRuntime) -> Result<(), Fail> {
    let upstream = end(&rt, v4(0))?;
    let mut sockets = open(&rt, rt.alloc(), &[], upstream.local_addr()?)?;
    let mut ports: Vec<u16> = Vec::new(rt.alloc());
    for slot in 0..=255u8 {
        sockets.ask(slot, Carrier::Datagram, &[slot]);
        let here: Option<SocketAddr> = sender_of(&upstream, &[slot]);
        let Some(here) = here else {
            return Err(Fail::from("no question"));
        };
        assert!(rt; !ports.contains(&here.port()) && sends(&upstream, here, &[slot]));
        ports.push(here.port())?;
    }
    for slot in 0..=255u8 {
        assert!(rt;
            next_slot(&mut sockets, &rt, &[slot]) == Some(slot),
            "{slot}"
        );
    }
    Ok(())
}
