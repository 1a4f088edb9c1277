//! A server over the ports of this machine.

use super::replays::{source_of, words_of};
use super::shut_outlets::{Hindrance, ShutOutlets};
use dname::OutOfMemory;
use gateway::MemoryGateway;
use outside_core::{FixedClock, MemorySink, OpenGate, UdpHarbor};
use running::{Status, run};
use std::alloc::Global;
use std::net::{Ipv4Addr, Net, SocketAddr, SocketAddrV4};
use std::process::ExitCode;
use std::sync::Wait;
use std::test::Fail;
use std::thread::Threads;

// How a server ends whose only link listens at the port, and what it writes.
fn served_at<R: Threads + Wait + Sync, N: Net + Drop>(
    rt: &R,
    net: N,
    alloc: Global,
    port: u16,
) -> Result<(Status, usize), OutOfMemory> {
    let text = format!(in alloc; "serve --listen {port} --upstream 1 --workers 1 --datagrams 1")?;
    let words = words_of(alloc, &text)?;
    let mut source = source_of(alloc, b"")?;
    let mut sink = MemorySink::with_room(alloc, 8, Vec::new(alloc))?;
    let mut harbor = UdpHarbor::over(net);
    let mut gateway = MemoryGateway::with_connections(alloc, Vec::new(alloc), Vec::new(alloc))?;
    let clock = FixedClock { now: 0 };
    let mut outlets = ShutOutlets::by(Hindrance::Address);
    let status = run(
        rt,
        alloc,
        &words,
        &mut source,
        &mut sink,
        &OpenGate,
        &mut harbor,
        &clock,
        &mut gateway,
        &mut outlets,
    );
    Ok((status, sink.written().len()))
}

#[test]
fn a_port_that_is_taken_gives_status_8(rt: HostRuntime) -> Result<(), Fail> {
    let here = SocketAddr::V4(SocketAddrV4::new(Ipv4Addr::LOCALHOST, 0));
    let taken = rt.bind_udp(here)?;
    let port = taken.local_addr()?.port();
    let (status, written) = served_at(&rt, &rt, rt.alloc(), port)?;
    let found = (status, status.exit_code(), written);
    assert!(rt;
        found == (Status::HarborFault, ExitCode::from(8), 0),
        "{found:?}"
    );
    Ok(())
}
