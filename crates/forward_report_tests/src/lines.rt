//! The lines as they are written.
use forward_report::{Call, Notice, What, notice_text, start_text};
use std::alloc::{AllocError, Global};
use std::net::{Ipv4Addr, Ipv6Addr, SocketAddr, SocketAddrV4, SocketAddrV6};
use std::test::Fail;

const LINES: [(What, u64, &str); 15] = [
    (
        What::Failed(Call::Wait),
        1,
        "dnsreplay: waits for sockets that failed in the last minute: 1, the last for: CAUSE\n",
    ),
    (
        What::Failed(Call::ReceiveQuery),
        2,
        "dnsreplay: queries that could not be received in the last minute: 2, the last for: CAUSE\n",
    ),
    (
        What::Failed(Call::ReceiveAnswer),
        3,
        "dnsreplay: answers that could not be received in the last minute: 3, the last for: CAUSE\n",
    ),
    (
        What::Failed(Call::Reply),
        4,
        "dnsreplay: replies that could not be sent in the last minute: 4, the last for: CAUSE\n",
    ),
    (
        What::Failed(Call::Socket),
        5,
        "dnsreplay: sockets that could not be made in the last minute: 5, the last for: CAUSE\n",
    ),
    (
        What::Failed(Call::Bind),
        6,
        "dnsreplay: sockets that could not be bound in the last minute: 6, the last for: CAUSE\n",
    ),
    (
        What::Failed(Call::Connect),
        7,
        "dnsreplay: sockets that could not be connected in the last minute: 7, the last for: CAUSE\n",
    ),
    (
        What::Failed(Call::Watch),
        8,
        "dnsreplay: sockets that could not be watched in the last minute: 8, the last for: CAUSE\n",
    ),
    (
        What::Failed(Call::Send),
        18_446_744_073_709_551_615,
        "dnsreplay: questions that could not be sent in the last minute: 18446744073709551615, the last for: CAUSE\n",
    ),
    (
        What::Failed(Call::Accept),
        20,
        "dnsreplay: connections of clients that could not be accepted in the last minute: 20, the last for: CAUSE\n",
    ),
    (
        What::Failed(Call::ConnectStream),
        21,
        "dnsreplay: streams that could not be connected in the last minute: 21, the last for: CAUSE\n",
    ),
    (
        What::Failed(Call::ReadStream),
        22,
        "dnsreplay: streams that could not be read in the last minute: 22, the last for: CAUSE\n",
    ),
    (
        What::Failed(Call::WriteStream),
        23,
        "dnsreplay: streams that could not be written in the last minute: 23, the last for: CAUSE\n",
    ),
    (
        What::Silent,
        12,
        "dnsreplay: the upstream is silent; clients that got SERVFAIL since its last answer: 12\n",
    ),
    (
        What::Back,
        340,
        "dnsreplay: the upstream answers again; clients that got SERVFAIL meanwhile: 340\n",
    ),
];

fn wrong_line(alloc: Global) -> Result<Option<usize>, AllocError> {
    for place in 0..LINES.len() {
        let (what, count, line) = LINES[place];
        let text = notice_text(alloc, Notice { what, count }, "CAUSE")?;
        if text.as_str() != line {
            return Ok(Some(place));
        }
    }
    Ok(None)
}

#[test]
fn lines_are_as_the_rows_have_them(rt: HostRuntime) -> Result<(), Fail> {
    let wrong = wrong_line(rt.alloc())?;
    assert!(rt; wrong.is_none(), "{wrong:?}");
    Ok(())
}

fn v4(a: u8, b: u8, c: u8, d: u8, port: u16) -> SocketAddr {
    SocketAddr::V4(SocketAddrV4::new(Ipv4Addr::new(a, b, c, d), port))
}

fn v6(first: u16, last: u16, port: u16) -> SocketAddr {
    let address = Ipv6Addr::new(first, 0, 0, 0, 0, 0, 0, last);
    SocketAddr::V6(SocketAddrV6::new(address, port, 0, 0))
}

#[test]
fn an_upstream_on_this_machine(rt: HostRuntime) -> Result<(), Fail> {
    let listening = [v4(127, 0, 0, 1, 53), v6(0, 1, 53)];
    let text = start_text(rt.alloc(), "0.5.0", &listening, v4(127, 9, 0, 1, 5353), 2)?;
    let line =
        "dnsreplay 0.5.0 listens at 127.0.0.1:53 [::1]:53, asks 127.9.0.1:5353, workers: 2\n";
    assert!(rt; text.as_str() == line, "{text}");
    Ok(())
}

#[test]
fn an_upstream_at_the_loopback_address_of_the_other_family(rt: HostRuntime) -> Result<(), Fail> {
    let text = start_text(rt.alloc(), "1", &[v4(192, 0, 2, 1, 53)], v6(0, 1, 53), 32)?;
    let line = "dnsreplay 1 listens at 192.0.2.1:53, asks [::1]:53, workers: 32\n";
    assert!(rt; text.as_str() == line, "{text}");
    Ok(())
}

#[test]
fn an_upstream_on_another_machine(rt: HostRuntime) -> Result<(), Fail> {
    let text = start_text(rt.alloc(), "1", &[v6(0, 1, 53)], v6(0x2001, 0xd, 853), 1)?;
    let lines = "dnsreplay 1 listens at [::1]:53, asks [2001::d]:853, workers: 1\n\
        dnsreplay: warning: [2001::d]:853 is not a loopback address, and nobody signs for AD on the way\n";
    assert!(rt; text.as_str() == lines, "{text}");
    Ok(())
}
