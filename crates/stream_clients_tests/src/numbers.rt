//! Numbers of connections.
use std::test::Fail;
use stream_clients::{ClientNumber, StreamClients};

/// The next client to connect.
pub(crate) fn client(clients: &mut StreamClients, now: u64) -> Result<ClientNumber, Fail> {
    match clients.open(now) {
        Some(client) => Ok(client),
        None => Err("no place")?,
    }
}

// Connects 32 clients, and gives the first that has another number than the first of its place.
fn first_misnumbered(clients: &mut StreamClients) -> Result<Option<u64>, Fail> {
    for place in 0..32 {
        let number = client(clients, 0)?.as_u64();
        if number != 32 + place {
            return Ok(Some(number));
        }
    }
    Ok(None)
}

#[test]
fn thirty_two_connect(rt: HostRuntime) -> Result<(), Fail> {
    let mut clients = StreamClients::new(rt.alloc())?;
    let wrong = first_misnumbered(&mut clients)?;
    assert!(rt; wrong.is_none(), "{wrong:?}");
    assert!(rt; clients.open(0).is_none());
    Ok(())
}

#[test]
fn a_place_gives_another_number_each_time(rt: HostRuntime) -> Result<(), Fail> {
    let mut clients = StreamClients::new(rt.alloc())?;
    let first = client(&mut clients, 0)?;
    clients.close(first);
    let second = client(&mut clients, 0)?;
    assert!(rt; (first.as_u64(), second.as_u64()) == (32, 64));
    assert!(rt; !clients.is_open(first) && clients.is_open(second));
    Ok(())
}

// A number, and whether a connection can have it.
const NUMBERS: [(u64, bool); 5] = [
    (0, true),
    (32, true),
    (0x7fff_ffff_ffff_ffff, true),
    (0x8000_0000_0000_0000, false),
    (0xffff_ffff_ffff_ffff, false),
];

fn first_lost() -> Option<u64> {
    for (number, wanted) in NUMBERS {
        let back = match ClientNumber::of_u64(number) {
            Some(client) => client.as_u64() == number,
            None => false,
        };
        if back != wanted {
            return Some(number);
        }
    }
    None
}

#[test]
fn the_highest_bit_is_no_clients(rt: HostRuntime) {
    let wrong = first_lost();
    assert!(rt; wrong.is_none(), "{wrong:?}");
}
