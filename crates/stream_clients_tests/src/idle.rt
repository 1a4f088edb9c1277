//! Connections that wait too long.
use crate::messages::asks;
use crate::numbers::client;
use std::test::Fail;
use stream_clients::{ClientNumber, StreamClients};

// Whether the client is the one that has waited too long at the second moment, and none has at the first.
fn waits_until(clients: &StreamClients, client: ClientNumber, before: u64, moment: u64) -> bool {
    clients.next_idle(0, before).is_none() && clients.next_idle(0, moment) == Some(client)
}

#[test]
fn ten_seconds_without_a_question(rt: HostRuntime) -> Result<(), Fail> {
    let mut clients = StreamClients::new(rt.alloc())?;
    let client = client(&mut clients, 5000)?;
    assert!(rt; waits_until(&clients, client, 14_999, 15_000));
    assert!(rt; clients.next_idle(1, 15_000).is_none());
    Ok(())
}

// Part of a message doesn't keep the connection (RFC 7766, section 6.2.3).
#[test]
fn part_of_a_message_keeps_nothing(rt: HostRuntime) -> Result<(), Fail> {
    let mut clients = StreamClients::new(rt.alloc())?;
    let client = client(&mut clients, 0)?;
    let count = clients.take(client, b"\x00\x0c\x12")?;
    assert!(rt; count == 3 && waits_until(&clients, client, 9999, 10_000));
    Ok(())
}

// A question without a reply does (RFC 7766, section 3); once its reply is written ten seconds begin.
#[test]
fn a_question_keeps_the_connection(rt: HostRuntime) -> Result<(), Fail> {
    let mut clients = StreamClients::new(rt.alloc())?;
    let client = client(&mut clients, 0)?;
    let asked = asks(&mut clients, client)?;
    assert!(rt; asked && clients.next_idle(0, 99_999).is_none());
    let replied = clients.reply(
        client,
        b"\x126\x81\x00\x00\x00\x00\x00\x00\x00\x00\x00",
        3000,
    );
    clients.written(client, 14, 4000);
    assert!(rt; replied.is_ok() && waits_until(&clients, client, 13_999, 14_000));
    Ok(())
}

// A reply that isn't read waits ten seconds, from when it was there or from what was read last.
#[test]
fn who_never_reads_is_found(rt: HostRuntime) -> Result<(), Fail> {
    let mut clients = StreamClients::new(rt.alloc())?;
    let client = client(&mut clients, 0)?;
    let asked = asks(&mut clients, client)? && asks(&mut clients, client)?;
    let replied = clients.reply(
        client,
        b"\x126\x81\x00\x00\x00\x00\x00\x00\x00\x00\x00",
        3000,
    );
    assert!(rt; asked && replied.is_ok() && waits_until(&clients, client, 12_999, 13_000));
    clients.written(client, 0, 5000);
    assert!(rt; waits_until(&clients, client, 12_999, 13_000));
    clients.written(client, 1, 5000);
    assert!(rt; waits_until(&clients, client, 14_999, 15_000));
    Ok(())
}
