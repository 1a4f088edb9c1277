//! Clients that ask by streams.
use crate::scene::{end, free_port, next, no_event, once, open, query, sends, v4, v6};
use crate::stream_scene::{
    Stopped, ahead, all_take_turns, connected, framed, is_closed, is_quiet, next_asker, reads,
    trickles, writes,
};
use arrivals::Came;
use forward_sockets::Sockets;
use std::alloc::Global;
use std::io::{Read, Write};
use std::net::{Net, OpenStream, Shutdown, SocketAddr};
use std::test::Fail;
use std::time::{Clock, Duration};

// Two queries, or two replies, each behind its length.
fn both(alloc: Global, first: &[u8; 12], second: &[u8; 12]) -> Result<Vec<u8>, Fail> {
    let mut octets = framed(alloc, first)?;
    octets.extend_from_slice(&framed(alloc, second)?)?;
    Ok(octets)
}

// The client of two queries that come one behind the other.
fn asker_of_two<C: Clock>(sockets: &mut Sockets, clock: &C) -> Option<u64> {
    let first = next_asker(sockets, clock, &query(1))?;
    let second = next_asker(sockets, clock, &query(2))?;
    if first == second { Some(first) } else { None }
}

// Replies come in whatever order (RFC 7766, section 7).
#[test]
fn two_queries_of_one_segment_have_their_replies(rt: HostRuntime) -> Result<(), Fail> {
    let port = free_port(&rt)?;
    let addresses = [v4(port), v6(port)];
    let mut sockets = open(&rt, rt.alloc(), &addresses, v4(9))?;
    for address in addresses {
        let mut client = connected(&rt, address)?;
        assert!(rt; writes(&mut client, &both(rt.alloc(), &query(1), &query(2))?));
        let Some(number) = asker_of_two(&mut sockets, &rt) else {
            return Err(Fail::from("no queries"));
        };
        sockets.reply(number, &query(2));
        sockets.reply(number, &query(1));
        assert!(rt; reads(&mut client, &both(rt.alloc(), &query(2), &query(1))?));
    }
    Ok(())
}

// Behind 17 small pieces a message is read at ticks alone, and the next one as it comes.
#[test]
fn a_query_comes_octet_by_octet(rt: HostRuntime) -> Result<(), Fail> {
    let address = v4(free_port(&rt)?);
    let mut sockets = open(&rt, rt.alloc(), &[address], v4(9))?;
    let (mut client, datagrams) = (connected(&rt, address)?, end(&rt, address)?);
    let message = [7; 60];
    let octets = framed(rt.alloc(), &message)?;
    let (front, rest) = octets.split_at(18.min(octets.len()));
    assert!(rt; trickles(&mut client, front, &mut sockets));
    assert!(rt; all_take_turns(&datagrams, address, &mut sockets));
    assert!(rt; writes(&mut client, rest) && is_quiet(&mut sockets, &Stopped, 1));
    assert!(rt; next_asker(&mut sockets, &Stopped, &message).is_some());
    // The next one is told of again.
    assert!(rt; all_take_turns(&datagrams, address, &mut sockets));
    assert!(rt; writes(&mut client, &framed(rt.alloc(), &query(3))?));
    let mut into = no_event();
    sockets.receive(&Stopped, &mut into);
    assert!(rt; into.came != Came::Tick && into.octets.as_slice() == &query(3)[..]);
    Ok(())
}

// A client that has sent all still gets its replies, and then the stream is closed.
#[test]
fn a_half_closed_stream_has_its_replies(rt: HostRuntime) -> Result<(), Fail> {
    let address = v4(free_port(&rt)?);
    let mut sockets = open(&rt, rt.alloc(), &[address], v4(9))?;
    let mut client = connected(&rt, address)?;
    assert!(rt; writes(&mut client, &both(rt.alloc(), &query(1), &query(2))?));
    client.shutdown(Shutdown::Write)?;
    let Some(number) = asker_of_two(&mut sockets, &rt) else {
        return Err(Fail::from("no queries"));
    };
    assert!(rt; is_quiet(&mut sockets, &rt, 2));
    sockets.reply(number, &query(1));
    assert!(rt; is_quiet(&mut sockets, &rt, 2));
    sockets.reply(number, &query(2));
    assert!(rt;
        reads(&mut client, &both(rt.alloc(), &query(1), &query(2))?) && is_closed(&mut client)
    );
    Ok(())
}

#[test]
fn a_stream_that_ends_without_a_query_is_closed(rt: HostRuntime) -> Result<(), Fail> {
    let address = v4(free_port(&rt)?);
    let mut sockets = open(&rt, rt.alloc(), &[address], v4(9))?;
    let mut client = connected(&rt, address)?;
    assert!(rt; writes(&mut client, b"\x00\x0c\x00"));
    client.shutdown(Shutdown::Write)?;
    assert!(rt; is_quiet(&mut sockets, &rt, 2) && is_closed(&mut client));
    assert!(rt; sockets.faults().stream_read.count == 0);
    Ok(())
}

// Whether a client of this stream has its reply.
fn is_served<S: Read + Write, C: Clock>(
    alloc: Global,
    client: &mut S,
    sockets: &mut Sockets,
    clock: &C,
) -> Result<bool, Fail> {
    let octets = framed(alloc, &query(3))?;
    if !writes(client, &octets) {
        return Ok(false);
    }
    let Some(number) = next_asker(sockets, clock, &query(3)) else {
        return Ok(false);
    };
    sockets.reply(number, &query(3));
    Ok(reads(client, &octets))
}

// So many streams, each of which has had a reply.
fn served<N: Net, C: Clock>(
    net: &N,
    clock: &C,
    alloc: Global,
    address: SocketAddr,
    sockets: &mut Sockets,
) -> Result<Vec<N::Stream>, Fail> {
    let mut clients = Vec::new(alloc);
    for _ in 0..32 {
        let mut client = connected(net, address)?;
        if is_served(alloc, &mut client, sockets, clock)? {
            clients.push(client)?;
        }
    }
    Ok(clients)
}

#[test]
fn thirty_two_streams_are_open_at_most(rt: HostRuntime) -> Result<(), Fail> {
    let address = v4(free_port(&rt)?);
    let mut sockets = open(&rt, rt.alloc(), &[address], v4(9))?;
    let mut clients = served(&rt, &rt, rt.alloc(), address, &mut sockets)?;
    assert!(rt; clients.len() == 32);
    let mut one_more = connected(&rt, address)?;
    assert!(rt; is_quiet(&mut sockets, &rt, 2) && is_closed(&mut one_more));
    assert!(rt; sockets.faults().accept == once(None));
    // One goes, and another has its place.
    drop(clients.pop());
    assert!(rt; is_quiet(&mut sockets, &rt, 2));
    let mut another = connected(&rt, address)?;
    assert!(rt; is_served(rt.alloc(), &mut another, &mut sockets, &rt)?);
    Ok(())
}

// The client of a query behind which a length stands that no message has: its stream is closed.
fn asker_who_is_sent_away<S: Read + Write, C: Clock>(
    alloc: Global,
    client: &mut S,
    sockets: &mut Sockets,
    clock: &C,
) -> Result<Option<u64>, Fail> {
    let mut octets = framed(alloc, &query(1))?;
    octets.extend_from_slice(&[0, 11])?;
    if !writes(client, &octets) {
        return Ok(None);
    }
    let number = next_asker(sockets, clock, &query(1));
    let away = is_quiet(sockets, clock, 2) && is_closed(client);
    Ok(if away { number } else { None })
}

// The next client has the same place, and none of the first one's reply.
#[test]
fn a_reply_to_a_closed_stream_goes_to_nobody(rt: HostRuntime) -> Result<(), Fail> {
    let address = v4(free_port(&rt)?);
    let mut sockets = open(&rt, rt.alloc(), &[address], v4(9))?;
    let mut first = connected(&rt, address)?;
    let gone = asker_who_is_sent_away(rt.alloc(), &mut first, &mut sockets, &rt)?;
    let mut second = connected(&rt, address)?;
    assert!(rt; writes(&mut second, &framed(rt.alloc(), &query(2))?));
    let here = next_asker(&mut sockets, &rt, &query(2));
    let (Some(gone), Some(here)) = (gone, here) else {
        return Err(Fail::from("no queries"));
    };
    sockets.reply(gone, &query(1));
    sockets.reply(here, &query(2));
    assert!(rt; gone != here && sockets.faults().reply == once(None));
    assert!(rt; reads(&mut second, &framed(rt.alloc(), &query(2))?));
    Ok(())
}

// How many queries come until two ticks do, none of which gets a reply.
fn queries_until_ticks<C: Clock>(sockets: &mut Sockets, clock: &C) -> u32 {
    for count in 0..1000u32 {
        if is_quiet(sockets, clock, 2) {
            return count;
        }
    }
    1000
}

// So many messages, each behind its length.
fn many(alloc: Global, message: &[u8; 12], times: u32) -> Result<Vec<u8>, Fail> {
    let one = framed(alloc, message)?;
    let mut octets = Vec::new(alloc);
    for _ in 0..times {
        octets.extend_from_slice(&one)?;
    }
    Ok(octets)
}

#[test]
fn the_thirty_third_query_without_a_reply_closes(rt: HostRuntime) -> Result<(), Fail> {
    let address = v4(free_port(&rt)?);
    let mut sockets = open(&rt, rt.alloc(), &[address], v4(9))?;
    let mut client = connected(&rt, address)?;
    assert!(rt; writes(&mut client, &many(rt.alloc(), &query(1), 33)?));
    let count = queries_until_ticks(&mut sockets, &rt);
    assert!(rt; count == 32 && is_closed(&mut client), "{count}");
    assert!(rt; sockets.faults().stream_read == once(None));
    Ok(())
}

// A response gets no reply (RFC 1035, section 4.1.1), so none is waited for.
#[test]
fn responses_are_not_counted(rt: HostRuntime) -> Result<(), Fail> {
    let address = v4(free_port(&rt)?);
    let mut sockets = open(&rt, rt.alloc(), &[address], v4(9))?;
    let mut client = connected(&rt, address)?;
    let mut response = query(1);
    response[2] = 0x81;
    assert!(rt; writes(&mut client, &many(rt.alloc(), &response, 40)?));
    for _ in 0..40 {
        let number = next_asker(&mut sockets, &rt, &response);
        assert!(rt; number == Some(0), "{number:?}");
    }
    assert!(rt; is_served(rt.alloc(), &mut client, &mut sockets, &rt)?);
    Ok(())
}

// A stream is idle for ten seconds behind its last reply, whatever part of a message has come.
#[test]
fn an_idle_stream_is_closed(rt: HostRuntime) -> Result<(), Fail> {
    let address = v4(free_port(&rt)?);
    let mut sockets = open(&rt, rt.alloc(), &[address], v4(9))?;
    let mut client = connected(&rt, address)?;
    assert!(rt; is_served(rt.alloc(), &mut client, &mut sockets, &rt)?);
    let later = ahead(&rt, 9_000);
    assert!(rt; writes(&mut client, b"\x00") && is_quiet(&mut sockets, &later, 1));
    let later = ahead(&rt, 10_000);
    assert!(rt; is_quiet(&mut sockets, &later, 1) && is_closed(&mut client));
    Ok(())
}

// A question that has no reply yet keeps its stream open.
#[test]
fn a_stream_that_waits_is_not_idle(rt: HostRuntime) -> Result<(), Fail> {
    let address = v4(free_port(&rt)?);
    let mut sockets = open(&rt, rt.alloc(), &[address], v4(9))?;
    let mut client = connected(&rt, address)?;
    assert!(rt; writes(&mut client, &framed(rt.alloc(), &query(1))?));
    let Some(number) = next_asker(&mut sockets, &rt, &query(1)) else {
        return Err(Fail::from("no query"));
    };
    let later = ahead(&rt, 60_000);
    assert!(rt; is_quiet(&mut sockets, &later, 1));
    sockets.reply(number, &query(1));
    assert!(rt; reads(&mut client, &framed(rt.alloc(), &query(1))?));
    Ok(())
}

// A client that sends all at once doesn't keep the others waiting, whatever they ask by.
#[test]
fn clients_have_their_turns(rt: HostRuntime) -> Result<(), Fail> {
    let address = v4(free_port(&rt)?);
    let mut sockets = open(&rt, rt.alloc(), &[address], v4(9))?;
    let (mut busy, mut quiet) = (connected(&rt, address)?, connected(&rt, address)?);
    let datagrams = end(&rt, address)?;
    assert!(rt; is_quiet(&mut sockets, &rt, 2));
    assert!(rt; writes(&mut busy, &many(rt.alloc(), &query(1), 30)?));
    assert!(rt; writes(&mut quiet, &framed(rt.alloc(), &query(2))?));
    assert!(rt; sends(&datagrams, address, &query(3)));
    let (mut stream, mut datagram) = (false, false);
    for _ in 0..6 {
        let mut into = no_event();
        let came = next(&mut sockets, &rt, &mut into).is_some();
        assert!(rt; came);
        stream = stream || into.octets.as_slice() == &query(2)[..];
        datagram = datagram || into.octets.as_slice() == &query(3)[..];
    }
    assert!(rt; stream && datagram);
    Ok(())
}

// How many replies of 65,535 octets a client has that asks so often and reads none, until its stream is closed.
fn replies_unread<S: Write, C: Clock>(
    alloc: Global,
    client: &mut S,
    sockets: &mut Sockets,
    clock: &C,
    times: u32,
) -> Result<u32, Fail> {
    let reply = Vec::from_elem(alloc, 0x61u8, 65_535)?;
    let question = framed(alloc, &query(1))?;
    for count in 0..times {
        if !writes(client, &question) {
            return Ok(count);
        }
        let Some(number) = next_asker(sockets, clock, &query(1)) else {
            return Ok(count);
        };
        sockets.reply(number, &reply);
    }
    Ok(times)
}

// Reads so many octets, while the other end writes on.
fn reads_so_many<S: Read, C: Clock>(
    client: &mut S,
    sockets: &mut Sockets,
    clock: &C,
    octets: usize,
) -> bool {
    let mut room = [0; 4096];
    let mut count = 0usize;
    for _ in 0..1_000_000u32 {
        if count >= octets {
            return count == octets;
        }
        match client.read(&mut room) {
            Ok(0) => return false,
            Ok(more) => count = count.saturating_add(more),
            Err(_) => sockets.receive(clock, &mut no_event()),
        }
    }
    false
}

// What the system doesn't take at once waits, up to 73,729 octets of it, and goes as the client reads.
#[test]
fn a_client_that_reads_late_has_its_replies(rt: HostRuntime) -> Result<(), Fail> {
    let address = v4(free_port(&rt)?);
    let mut sockets = open(&rt, rt.alloc(), &[address], v4(9))?;
    let mut first = connected(&rt, address)?;
    let most = replies_unread(rt.alloc(), &mut first, &mut sockets, &rt, 200)?;
    assert!(rt; most >= 2 && most < 200, "{most}");
    let mut second = connected(&rt, address)?;
    second.set_read_timeout(Some(Duration::from_millis(10)))?;
    let times = most - 1;
    let count = replies_unread(rt.alloc(), &mut second, &mut sockets, &rt, times)?;
    assert!(rt; count == times, "{count}");
    let octets = (count as usize).saturating_mul(65_537);
    assert!(rt;
        reads_so_many(&mut second, &mut sockets, &rt, octets),
        "{count}"
    );
    Ok(())
}
