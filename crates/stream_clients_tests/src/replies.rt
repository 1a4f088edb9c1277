//! What is written to clients.
ghost use Rattle.std.specs.Prelude.{◌<◌, ◌^◌, length};

use crate::messages::asks;
use crate::numbers::client;
use std::test::Fail;
use stream_clients::{ClientNumber, ReplyFault, StreamClients};

// Replies, and both behind their lengths.
const ONE: &[u8] = b"\x126\x81\x00\x00\x00\x00\x00\x00\x00\x00\x00";

const OTHER: &[u8] = b"\x127\x81\x00\x00\x00\x00\x00\x00\x00\x00\x00\x05";

const BOTH: &[u8] = b"\
    \x00\x0c\x126\x81\x00\x00\x00\x00\x00\x00\x00\x00\x00\
    \x00\x0d\x127\x81\x00\x00\x00\x00\x00\x00\x00\x00\x00\x05";

#[test]
fn replies_wait_in_order(rt: HostRuntime) -> Result<(), Fail> {
    let mut clients = StreamClients::new(rt.alloc())?;
    let client = client(&mut clients, 0)?;
    let put = clients.reply(client, ONE, 0).is_ok() && clients.reply(client, OTHER, 0).is_ok();
    assert!(rt; put && clients.to_write(client) == BOTH);
    clients.written(client, 20, 0);
    assert!(rt; clients.to_write(client) == &BOTH[20..]);
    clients.written(client, 9, 0);
    assert!(rt; clients.to_write(client).is_empty());
    Ok(())
}

#[test]
fn a_reply_for_one_that_has_gone_is_for_nobody(rt: HostRuntime) -> Result<(), Fail> {
    let mut clients = StreamClients::new(rt.alloc())?;
    let gone = client(&mut clients, 0)?;
    let asked = asks(&mut clients, gone)?;
    clients.close(gone);
    let next = client(&mut clients, 0)?;
    let replied = clients.reply(gone, ONE, 0).is_ok();
    assert!(rt; asked && replied && clients.is_open(next));
    assert!(rt; clients.to_write(next).is_empty() && clients.to_write(gone).is_empty());
    Ok(())
}

// The longest reply, one that fills the output, and one more.
fn fill(clients: &mut StreamClients, client: ClientNumber, longest: &[u8], rest: &[u8]) -> [bool; 3]
    requires longest { length longest.now < 2 ^ 16 }
    requires rest { length rest.now < 2 ^ 16 }
{
    [
        clients.reply(client, longest, 0).is_ok(),
        clients.reply(client, rest, 0).is_ok(),
        clients.reply(client, b"", 0) == Err(ReplyFault::Full),
    ]
}

#[test]
fn a_full_output_closes(rt: HostRuntime) -> Result<(), Fail> {
    let mut longest = Vec::new(rt.alloc());
    longest.resize(65_535, 7u8)?;
    let mut rest = Vec::new(rt.alloc());
    rest.resize(8190, 7u8)?;
    let mut clients = StreamClients::new(rt.alloc())?;
    let client = client(&mut clients, 0)?;
    let filled = fill(&mut clients, client, &longest, &rest);
    assert!(rt; filled == [true; 3], "{filled:?}");
    assert!(rt; !clients.is_open(client));
    Ok(())
}
