//! Clients and their replies.
use crate::scene::{
    end, free_port, gets, is_silent, next, next_client, no_event, once, open, query, sends, v4, v6,
};
use arrivals::Came;
use forward_sockets::Sockets;
use std::net::{Net, SocketAddr};
use std::test::Fail;
use std::time::Clock;

// Whether a client of this address has its reply, and from there.
fn is_served<N: Net, C: Clock>(
    net: &N,
    clock: &C,
    sockets: &mut Sockets,
    address: SocketAddr,
) -> Result<bool, Fail> {
    let client = end(net, address)?;
    let asked = sends(&client, address, &query(7));
    let Some(number) = next_client(sockets, clock, &query(7)) else {
        return Ok(false);
    };
    sockets.reply(number, b"reply");
    Ok(asked && gets(&client, address, b"reply"))
}

#[test]
fn clients_of_both_families_have_their_replies(rt: HostRuntime) -> Result<(), Fail> {
    let port = free_port(&rt)?;
    let addresses = [v4(port), v6(port)];
    let mut sockets = open(&rt, rt.alloc(), &addresses, v4(9))?;
    for address in addresses {
        let served = is_served(&rt, &rt, &mut sockets, address)?;
        assert!(rt; served, "{address}");
    }
    Ok(())
}

#[test]
fn a_number_names_its_client_until_the_reply(rt: HostRuntime) -> Result<(), Fail> {
    let address = v4(free_port(&rt)?);
    let mut sockets = open(&rt, rt.alloc(), &[address], v4(9))?;
    let client = end(&rt, address)?;
    assert!(rt; sends(&client, address, &query(1)));
    let Some(number) = next_client(&mut sockets, &rt, &query(1)) else {
        return Err(Fail::from("no query"));
    };
    sockets.reply(number, b"first");
    sockets.reply(number, b"second");
    assert!(rt; gets(&client, address, b"first"));
    client.set_nonblocking(true)?;
    let second = client.recv(&mut [0; 16]);
    assert!(rt; second.is_err() && sockets.faults().reply == once(None));
    Ok(())
}

// A reply waits until what was received together with its query has been given, whether that has a reply or not.
#[test]
fn replies_go_out_together(rt: HostRuntime) -> Result<(), Fail> {
    let address = v4(free_port(&rt)?);
    let mut sockets = open(&rt, rt.alloc(), &[address], v4(9))?;
    let client = end(&rt, address)?;
    assert!(rt; sends(&client, address, &query(1)) && sends(&client, address, &query(2)));
    let Some(number) = next_client(&mut sockets, &rt, &query(1)) else {
        return Err(Fail::from("no query"));
    };
    sockets.reply(number, b"first");
    client.set_nonblocking(true)?;
    assert!(rt; client.recv(&mut [0; 16]).is_err());
    client.set_nonblocking(false)?;
    assert!(rt; next_client(&mut sockets, &rt, &query(2)).is_some());
    assert!(rt; is_silent(&mut sockets, &rt, &mut no_event()));
    assert!(rt; gets(&client, address, b"first"));
    Ok(())
}

// Each client has the reply to its own query, whatever the order.
#[test]
fn many_clients_wait_at_once(rt: HostRuntime) -> Result<(), Fail> {
    let address = v4(free_port(&rt)?);
    let mut sockets = open(&rt, rt.alloc(), &[address], v4(9))?;
    let mut clients = Vec::new(rt.alloc());
    for id in 0..100u16 {
        let client = end(&rt, address)?;
        let asked = sends(&client, address, &query(id));
        let number = next_client(&mut sockets, &rt, &query(id));
        assert!(rt; asked && number.is_some(), "{id}");
        clients.push((client, number.unwrap_or(0), id))?;
    }
    for (_, number, id) in clients.iter().rev() {
        sockets.reply(*number, &query(*id));
    }
    for (client, _, id) in &clients {
        assert!(rt; gets(client, address, &query(*id)), "{id}");
    }
    Ok(())
}

// A response (RFC 1035, section 4.1.1) and what has no header whole come, but nothing goes back.
#[test]
fn no_query_has_no_reply(rt: HostRuntime) -> Result<(), Fail> {
    let address = v4(free_port(&rt)?);
    let mut sockets = open(&rt, rt.alloc(), &[address], v4(9))?;
    let client = end(&rt, address)?;
    let mut response = query(1);
    response[2] = 0x81;
    for octets in [&response[..], &response[..11], &query(2)[..11], b""] {
        assert!(rt; sends(&client, address, octets));
        let Some(number) = next_client(&mut sockets, &rt, octets) else {
            return Err(Fail::from("nothing came"));
        };
        sockets.reply(number, b"reply");
    }
    client.set_nonblocking(true)?;
    assert!(rt; client.recv(&mut [0; 16]).is_err());
    assert!(rt; sockets.faults().reply.count == 4);
    Ok(())
}

// A datagram of IPv4 has at most 65,507 octets of its own (RFC 768; RFC 791, section 3.1).
#[test]
fn a_reply_that_cannot_be_sent_ends_nothing(rt: HostRuntime) -> Result<(), Fail> {
    let address = v4(free_port(&rt)?);
    let mut sockets = open(&rt, rt.alloc(), &[address], v4(9))?;
    let client = end(&rt, address)?;
    assert!(rt; sends(&client, address, &query(1)));
    let Some(number) = next_client(&mut sockets, &rt, &query(1)) else {
        return Err(Fail::from("no query"));
    };
    let long = Vec::from_elem(rt.alloc(), 0u8, 65_508)?;
    sockets.reply(number, &long);
    let reply = sockets.faults().reply;
    // Error 90 of Linux: a message that is too long.
    assert!(rt; reply.count == 1 && reply.last == Some(90), "{reply:?}");
    let served = is_served(&rt, &rt, &mut sockets, address)?;
    assert!(rt; served);
    Ok(())
}

#[test]
fn what_is_too_long_is_cut(rt: HostRuntime) -> Result<(), Fail> {
    let address = v4(free_port(&rt)?);
    let mut sockets = open(&rt, rt.alloc(), &[address], v4(9))?;
    let client = end(&rt, address)?;
    let long = Vec::from_elem(rt.alloc(), 0u8, 4097)?;
    assert!(rt; sends(&client, address, &long));
    let mut into = no_event();
    let came = next(&mut sockets, &rt, &mut into);
    assert!(rt;
        matches!(
            &came,
            Some(Came::Query {
                client: _,
                carrier: _
            })
        ) && into.octets.as_slice().len() == 4096
    );
    assert!(rt; is_silent(&mut sockets, &rt, &mut into));
    Ok(())
}
