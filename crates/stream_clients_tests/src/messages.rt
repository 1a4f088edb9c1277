//! What comes over a connection, and the messages in it.
ghost use Rattle.std.specs.Prelude.{◌≤◌};

use crate::numbers::client;
use std::alloc::Global;
use std::test::Fail;
use stream_clients::{ClientNumber, Next, StreamClients};

// A query for A.Example TXT, and one for b.example A.
const TWO: [&[u8]; 2] = [
    b"\x124\x01\x00\x00\x01\x00\x00\x00\x00\x00\x00\x01A\x07Example\x00\x00\x10\x00\x01",
    b"\x125\x01\x00\x00\x01\x00\x00\x00\x00\x00\x00\x01b\x07example\x00\x00\x01\x00\x01",
];

// Both, each after its length.
const STREAM: &[u8] = b"\
    \x00\x1b\x124\x01\x00\x00\x01\x00\x00\x00\x00\x00\x00\x01A\x07Example\x00\x00\x10\x00\x01\
    \x00\x1b\x125\x01\x00\x00\x01\x00\x00\x00\x00\x00\x00\x01b\x07example\x00\x00\x01\x00\x01";

// A header alone, which is a message, and it after its length.
const HEADER: &[u8] = b"\x126\x01\x00\x00\x00\x00\x00\x00\x00\x00\x00";

const FRAMED_HEADER: &[u8] = b"\x00\x0c\x126\x01\x00\x00\x00\x00\x00\x00\x00\x00\x00";

/// Whether this message stands next. It is taken.
pub(crate) fn takes_message(
    clients: &mut StreamClients,
    client: ClientNumber,
    message: &[u8],
) -> bool {
    match clients.next(client) {
        Next::Message => {
            let same = clients.message(client) == message;
            clients.pass(client);
            same
        }
        _ => false,
    }
}

/// Whether the header comes and is taken.
pub(crate) fn asks(clients: &mut StreamClients, client: ClientNumber) -> Result<bool, Fail> {
    let count = clients.take(client, FRAMED_HEADER)?;
    Ok(count == 14 && takes_message(clients, client, HEADER))
}

// Takes the two messages from that one on, as far as they stand next, and gives which doesn't; 2 where all do.
fn first_missing(clients: &mut StreamClients, client: ClientNumber, from: usize) -> usize
    requires { from ≤ 2 }
    ensures { result ≤ 2 }
{
    for i in from..2 {
        if !takes_message(clients, client, TWO[i]) {
            return i;
        }
    }
    2
}

// Whether both messages are taken of the stream, cut before that octet, each as soon as it is whole.
fn is_split_at(alloc: Global, cut: usize) -> Result<bool, Fail>
    requires { cut ≤ 58 }
{
    let mut clients = StreamClients::new(alloc)?;
    let client = client(&mut clients, 0)?;
    let (front, rest) = STREAM.split_at(cut);
    let took_front = clients.take(client, front)? == cut;
    let missing = first_missing(&mut clients, client, 0);
    let took_rest = clients.take(client, rest)? == rest.len();
    let none_missing = first_missing(&mut clients, client, missing) == 2;
    Ok(took_front && took_rest && missing == cut / 29 && none_missing)
}

#[test]
fn any_cut_gives_the_messages(rt: HostRuntime) -> Result<(), Fail> {
    let mut wrong = None;
    for cut in 0..=58 {
        if !is_split_at(rt.alloc(), cut)? {
            wrong = Some(cut);
        }
    }
    assert!(rt; wrong.is_none(), "{wrong:?}");
    Ok(())
}

// Whether this length closes the connection.
fn is_closed_by(alloc: Global, size: u16) -> Result<bool, Fail> {
    let mut clients = StreamClients::new(alloc)?;
    let client = client(&mut clients, 0)?;
    let asked = asks(&mut clients, client)?;
    clients.take(client, &size.to_be_bytes())?;
    let next = clients.next(client);
    let later = clients.next(client);
    Ok(asked && next == Next::TooSmall && later == Next::Nothing && !clients.is_open(client))
}

#[test]
fn a_length_below_a_headers_closes(rt: HostRuntime) -> Result<(), Fail> {
    let mut wrong = None;
    for size in 0..12 {
        if !is_closed_by(rt.alloc(), size)? {
            wrong = Some(size);
        }
    }
    assert!(rt; wrong.is_none(), "{wrong:?}");
    Ok(())
}

// How many of so many messages are taken before one has a reply.
fn taken_unanswered(
    clients: &mut StreamClients,
    client: ClientNumber,
    many: usize,
) -> Result<usize, Fail> {
    for taken in 0..many {
        if !asks(clients, client)? {
            return Ok(taken);
        }
    }
    Ok(many)
}

#[test]
fn the_thirty_third_question_closes(rt: HostRuntime) -> Result<(), Fail> {
    let mut clients = StreamClients::new(rt.alloc())?;
    let client = client(&mut clients, 0)?;
    let taken = taken_unanswered(&mut clients, client, 40)?;
    assert!(rt; taken == 32 && !clients.is_open(client), "{taken}");
    Ok(())
}

#[test]
fn a_reply_makes_room_for_a_question(rt: HostRuntime) -> Result<(), Fail> {
    let mut clients = StreamClients::new(rt.alloc())?;
    let client = client(&mut clients, 0)?;
    let taken = taken_unanswered(&mut clients, client, 32)?;
    let replied = clients.reply(client, HEADER, 0).is_ok();
    let more = taken_unanswered(&mut clients, client, 2)?;
    assert!(rt; (taken, replied, more) == (32, true, 1));
    Ok(())
}

// Whether the octets come one by one, and no message is whole before the last.
fn comes_octet_by_octet(
    clients: &mut StreamClients,
    client: ClientNumber,
    octets: &[u8],
) -> Result<bool, Fail> {
    for octet in octets {
        if clients.next(client) != Next::Nothing || clients.take(client, &[*octet])? != 1 {
            return Ok(false);
        }
    }
    Ok(clients.next(client) == Next::Message)
}

#[test]
fn the_longest_message_comes_octet_by_octet(rt: HostRuntime) -> Result<(), Fail> {
    let mut clients = StreamClients::new(rt.alloc())?;
    let client = client(&mut clients, 0)?;
    let mut stream = Vec::from_slice(rt.alloc(), b"\xff\xff")?;
    stream.resize(65_537, 7)?;
    let came = comes_octet_by_octet(&mut clients, client, &stream)?;
    assert!(rt; came);
    assert!(rt; clients.take(client, HEADER)? == 0);
    assert!(rt; takes_message(&mut clients, client, &stream[2..]));
    Ok(())
}
