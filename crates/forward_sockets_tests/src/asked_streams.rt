//! An upstream that is asked by streams.
use crate::scene::{
    end, free_port, is_silent, next_slot, no_event, once, open, query, sender_of, sends, v4, v6,
};
use crate::stream_scene::{
    Stopped, accepted, ahead, all_take_turns, framed, is_closed, is_quiet, next_answered, reads,
    trickles, writes,
};
use arrivals::Carrier;
use forward_sockets::Sockets;
use std::alloc::Global;
use std::io::Read;
use std::net::{Net, OpenListener, OpenStream};
use std::test::Fail;
use std::time::{Clock, Duration};

// The upstream's end of the stream over which the slot asks.
fn asked<L: OpenListener, C: Clock>(
    upstream: &L,
    alloc: Global,
    slot: u8,
    sockets: &mut Sockets,
    clock: &C,
) -> Result<L::Stream, Fail>
where
    L::Stream: OpenStream + Read,
{
    sockets.receive(clock, &mut no_event());
    sockets.ask(slot, Carrier::Stream, &query(5));
    if !is_quiet(sockets, clock, 1) {
        return Err(Fail::from("something came"));
    }
    let mut stream = accepted(upstream)?;
    if reads(&mut stream, &framed(alloc, &query(5))?) {
        Ok(stream)
    } else {
        Err(Fail::from("no question"))
    }
}

// The octets before a place, and the others.
fn cut(octets: &[u8], at: usize) -> (&[u8], &[u8]) {
    octets.split_at(at.min(octets.len()))
}

#[test]
fn an_answer_comes_in_pieces(rt: HostRuntime) -> Result<(), Fail> {
    for like in [v4(0), v6(0)] {
        let upstream = rt.bind(like)?;
        let mut sockets = open(&rt, rt.alloc(), &[], upstream.local_addr()?)?;
        let mut stream = asked(&upstream, rt.alloc(), 255, &mut sockets, &rt)?;
        let answer = framed(rt.alloc(), &query(6))?;
        let (first, rest) = cut(&answer, 1);
        assert!(rt; writes(&mut stream, first) && is_quiet(&mut sockets, &rt, 2));
        let (second, third) = cut(rest, 5);
        assert!(rt; writes(&mut stream, second) && is_quiet(&mut sockets, &rt, 2));
        assert!(rt; writes(&mut stream, third));
        assert!(rt; next_answered(&mut sockets, &rt, &query(6)) == Some(255));
    }
    Ok(())
}

// Behind 17 small pieces an answer is read at ticks alone.
#[test]
fn an_answer_comes_octet_by_octet(rt: HostRuntime) -> Result<(), Fail> {
    let address = v4(free_port(&rt)?);
    let upstream = rt.bind(v4(0))?;
    let mut sockets = open(&rt, rt.alloc(), &[address], upstream.local_addr()?)?;
    let mut stream = asked(&upstream, rt.alloc(), 3, &mut sockets, &rt)?;
    let datagrams = end(&rt, address)?;
    let answer = [7; 60];
    let octets = framed(rt.alloc(), &answer)?;
    let (front, rest) = cut(&octets, 18);
    assert!(rt; trickles(&mut stream, front, &mut sockets));
    assert!(rt; all_take_turns(&datagrams, address, &mut sockets));
    assert!(rt; writes(&mut stream, rest) && is_quiet(&mut sockets, &Stopped, 1));
    assert!(rt; next_answered(&mut sockets, &Stopped, &answer) == Some(3));
    Ok(())
}

// A message with another ID than the question's doesn't hide the answer.
#[test]
fn a_stream_is_closed_behind_its_answer(rt: HostRuntime) -> Result<(), Fail> {
    let upstream = rt.bind(v4(0))?;
    let mut sockets = open(&rt, rt.alloc(), &[], upstream.local_addr()?)?;
    let mut stream = asked(&upstream, rt.alloc(), 3, &mut sockets, &rt)?;
    let mut octets = framed(rt.alloc(), &query(6))?;
    octets.extend_from_slice(&framed(rt.alloc(), &query(5))?)?;
    assert!(rt; writes(&mut stream, &octets));
    assert!(rt; next_answered(&mut sockets, &rt, &query(6)) == Some(3));
    assert!(rt; next_answered(&mut sockets, &rt, &query(5)) == Some(3));
    assert!(rt; is_quiet(&mut sockets, &rt, 1) && is_closed(&mut stream));
    assert!(rt; sockets.faults().stream_read.count == 0);
    Ok(())
}

// The longest message (RFC 1035, section 4.2.2).
#[test]
fn an_answer_of_65535_octets_comes(rt: HostRuntime) -> Result<(), Fail> {
    let upstream = rt.bind(v4(0))?;
    let mut sockets = open(&rt, rt.alloc(), &[], upstream.local_addr()?)?;
    let mut stream = asked(&upstream, rt.alloc(), 3, &mut sockets, &rt)?;
    let answer = Vec::from_elem(rt.alloc(), 0x61u8, 65_535)?;
    let octets = framed(rt.alloc(), &answer)?;
    for piece in octets.chunks(16_000) {
        assert!(rt; is_quiet(&mut sockets, &rt, 1) && writes(&mut stream, piece));
    }
    assert!(rt; next_answered(&mut sockets, &rt, &answer) == Some(3));
    Ok(())
}

// Error 111 of Linux: the connection is refused.
#[test]
fn an_upstream_that_takes_no_streams_is_a_fault(rt: HostRuntime) -> Result<(), Fail> {
    let upstream = v4(free_port(&rt)?);
    let mut sockets = open(&rt, rt.alloc(), &[], upstream)?;
    sockets.receive(&rt, &mut no_event());
    sockets.ask(3, Carrier::Stream, &query(5));
    assert!(rt; is_quiet(&mut sockets, &rt, 2));
    let faults = sockets.faults();
    assert!(rt; faults.stream_connect == once(Some(111)), "{faults:?}");
    assert!(rt; faults.stream_write.count == 0 && faults.stream_read.count == 0);
    Ok(())
}

// What the upstream does with a stream in place of an answer.
#[derive(Clone, Copy)]
enum Failing {
    // It closes it with something unread, so the system resets it. Error 104 of Linux.
    Reset,
    // It ends it.
    End,
    // It sends a length that no message has.
    Length,
}

// How the upstream fails, over a stream at which a question lies.
fn fails<S: Read + std::io::Write + OpenStream + Drop>(stream: S, failing: Failing) -> bool {
    let mut stream = stream;
    match failing {
        Failing::Reset => true,
        Failing::End => stream.read(&mut [0; 64]).is_ok(),
        Failing::Length => stream.read(&mut [0; 64]).is_ok() && writes(&mut stream, &[0, 11, 0]),
    }
}

#[test]
fn an_upstream_that_fails_is_a_fault(rt: HostRuntime) -> Result<(), Fail> {
    for (failing, last) in [
        (Failing::Reset, Some(104)),
        (Failing::End, None),
        (Failing::Length, None),
    ] {
        let upstream = rt.bind(v4(0))?;
        let mut sockets = open(&rt, rt.alloc(), &[], upstream.local_addr()?)?;
        sockets.receive(&rt, &mut no_event());
        sockets.ask(3, Carrier::Stream, &query(5));
        assert!(rt; is_quiet(&mut sockets, &rt, 1) && fails(accepted(&upstream)?, failing));
        assert!(rt; is_quiet(&mut sockets, &rt, 2));
        let faults = sockets.faults();
        assert!(rt; faults.stream_read == once(last), "{faults:?}");
    }
    Ok(())
}

// The slot's question is asked by a datagram next: the stream is closed, and what comes over it isn't heard.
#[test]
fn a_slot_has_one_socket(rt: HostRuntime) -> Result<(), Fail> {
    let upstream = rt.bind(v4(0))?;
    let address = upstream.local_addr()?;
    let datagrams = rt.bind_udp(address)?;
    datagrams.set_read_timeout(Some(Duration::from_secs(5)))?;
    let mut sockets = open(&rt, rt.alloc(), &[], address)?;
    let mut stream = asked(&upstream, rt.alloc(), 3, &mut sockets, &rt)?;
    sockets.ask(3, Carrier::Datagram, b"question");
    assert!(rt; is_closed(&mut stream));
    let _refused = writes(&mut stream, &framed(rt.alloc(), &query(6))?);
    let here = sender_of(&datagrams, b"question");
    assert!(rt; here.is_some_and(|here| sends(&datagrams, here, b"answer")));
    assert!(rt; next_slot(&mut sockets, &rt, b"answer") == Some(3));
    assert!(rt; is_quiet(&mut sockets, &rt, 2));
    Ok(())
}

// No question waits for five seconds.
#[test]
fn a_stream_is_closed_after_five_seconds(rt: HostRuntime) -> Result<(), Fail> {
    let upstream = rt.bind(v4(0))?;
    let mut sockets = open(&rt, rt.alloc(), &[], upstream.local_addr()?)?;
    let mut stream = asked(&upstream, rt.alloc(), 3, &mut sockets, &rt)?;
    let later = ahead(&rt, 4_400);
    assert!(rt; is_quiet(&mut sockets, &later, 1));
    assert!(rt; writes(&mut stream, &framed(rt.alloc(), &query(6))?));
    assert!(rt; next_answered(&mut sockets, &later, &query(6)) == Some(3));
    let later = ahead(&rt, 5_000);
    assert!(rt; is_quiet(&mut sockets, &later, 1) && is_closed(&mut stream));
    assert!(rt; sockets.faults().stream_read.count == 0);
    Ok(())
}
