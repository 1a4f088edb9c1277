//! What no client on loopback can do: ask from port 0.
use super::Listeners;
use crate::client_ring::ClientAddress;
use crate::faults::{Fault, Faults};
use crate::watch::Watch;
use mio::Poll;
use std::net::{Ipv4Addr, Net, SocketAddr, SocketAddrV4};
use std::test::Fail;
use std::time::Duration;

fn on_loopback(port: u16) -> SocketAddr {
    SocketAddr::V4(SocketAddrV4::new(Ipv4Addr::LOCALHOST, port))
}

#[test]
fn a_reply_to_port_0_ends_nothing(rt: HostRuntime) -> Result<(), Fail> {
    let mut watch = Watch::over(rt.alloc(), Poll::new(&rt)?, 1)?;
    let Ok(mut listeners) = Listeners::bind(rt.alloc(), &mut watch, &[on_loopback(0)]) else {
        return Err(Fail::from("no listener"));
    };
    let client = rt.bind_udp(on_loopback(0))?;
    client.set_read_timeout(Some(Duration::from_secs(5)))?;
    let mut faults = Faults::NONE;
    for address in [on_loopback(0), client.local_addr()?] {
        let number = listeners.clients.enter(ClientAddress {
            listener: 0,
            address,
        });
        listeners.reply(number, b"reply", &mut faults);
    }
    let mut room = [0; 16];
    let count = client.recv(&mut room)?;
    assert!(rt; room.get(..count) == Some(b"reply".as_slice()));
    // Error 22 of Linux: an argument that can't be.
    let once = Fault {
        count: 1,
        last: Some(22),
    };
    assert!(rt; faults.reply == once, "{faults:?}");
    Ok(())
}
