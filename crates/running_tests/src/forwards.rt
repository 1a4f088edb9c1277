//! How `forward` ends where it can't begin, and what is told by `--help` and `--version`.

use super::replays::{source_of, words_of};
use super::shut_outlets::{Hindrance, ShutOutlets};
use arrivals::Carrier;
use dname::OutOfMemory;
use gateway::MemoryGateway;
use outside_core::{FixedClock, MemoryHarbor, MemorySink, OpenGate};
use running::{OutletFault, Status, run, run_here};
use std::alloc::Global;
use std::fs::Files;
use std::net::{Ipv4Addr, Net, SocketAddr, SocketAddrV4};
use std::process::ExitCode;
use std::random::RandomSource;
use std::sync::Wait;
use std::test::Fail;
use std::thread::Threads;
use std::{io, str, time};

const FORWARD: &str = "forward --listen 127.0.0.1:53 --upstream 127.0.0.1:5353 --workers 32";

// How the words end over outlets that are for them, what they write, where those writes fail, and how often outlets couldn't be
// opened.
fn told<R: Threads + Wait + Sync>(
    rt: &R,
    alloc: Global,
    words: &str,
    hindrance: Hindrance,
    failing: &[u32],
) -> Result<(Status, Vec<u8>, u64), OutOfMemory> {
    let words = words_of(alloc, words)?;
    let words = words.as_slice();
    let mut outlets = ShutOutlets::for_words(alloc, hindrance, words)?;
    let mut source = source_of(alloc, b"")?;
    let mut sink = MemorySink::with_room(alloc, 4096, Vec::from_slice(alloc, failing)?)?;
    let mut harbor = MemoryHarbor::with_links(alloc, Vec::new(alloc), Vec::new(alloc))?;
    let mut gateway = MemoryGateway::with_connections(alloc, Vec::new(alloc), Vec::new(alloc))?;
    let clock = FixedClock { now: 0 };
    let status = run(
        rt,
        alloc,
        words,
        &mut source,
        &mut sink,
        &OpenGate,
        &mut harbor,
        &clock,
        &mut gateway,
        &mut outlets,
    );
    Ok((
        status,
        Vec::from_slice(alloc, sink.written())?,
        outlets.faults(),
    ))
}

// A hindrance, the status with which the program ends, and how often outlets couldn't be opened.
const HINDRANCES: [(Hindrance, Status, u8, u64); 2] = [
    (Hindrance::Address, Status::ListenFault, 8, 1),
    (Hindrance::Memory, Status::OutOfMemory, 6, 0),
];

// The first row that ends otherwise, and how.
fn hindered_otherwise<R: Threads + Wait + Sync>(
    rt: &R,
    alloc: Global,
) -> Result<Option<(Hindrance, Status, u64, usize)>, OutOfMemory> {
    for (hindrance, expected, code, faults) in HINDRANCES {
        let (status, written, found) = told(rt, alloc, FORWARD, hindrance, &[])?;
        let right = status == expected && status.exit_code() == ExitCode::from(code);
        if !right || found != faults || !written.is_empty() {
            return Ok(Some((hindrance, status, found, written.len())));
        }
    }
    Ok(None)
}

#[test]
fn outlets_that_cant_be_opened_end_it(rt: HostRuntime) -> Result<(), Fail> {
    let wrong = hindered_otherwise(&rt, rt.alloc())?;
    assert!(rt; wrong.is_none(), "{wrong:?}");
    Ok(())
}

// What is said of a fault.
fn line(alloc: Global, fault: OutletFault) -> Result<String, OutOfMemory> {
    format!(in alloc; "{fault}")
}

// What is said where a socket is denied at 127.0.0.1:53.
fn line_on_denial(alloc: Global, carrier: Carrier) -> Result<String, OutOfMemory> {
    let fault = OutletFault::Address {
        address: SocketAddr::V4(SocketAddrV4::new(Ipv4Addr::LOCALHOST, 53)),
        carrier,
        cause: io::Error::from_raw_os_error(13),
    };
    line(alloc, fault)
}

#[test]
fn a_fault_names_its_address_and_its_cause(rt: HostRuntime) -> Result<(), Fail> {
    let found = line_on_denial(rt.alloc(), Carrier::Datagram)?;
    let expected = "no UDP socket at 127.0.0.1:53: Permission denied (os error 13)";
    assert!(rt; found.as_str() == expected, "{found}");
    let found = line_on_denial(rt.alloc(), Carrier::Stream)?;
    let expected = "no TCP socket at 127.0.0.1:53: Permission denied (os error 13)";
    assert!(rt; found.as_str() == expected, "{found}");
    Ok(())
}

#[test]
fn a_fault_before_any_address_names_its_cause(rt: HostRuntime) -> Result<(), Fail> {
    let found = line(
        rt.alloc(),
        OutletFault::Poll(io::Error::from_raw_os_error(24)),
    )?;
    let expected = "no way to wait for sockets: Too many open files (os error 24)";
    assert!(rt; found.as_str() == expected, "{found}");
    Ok(())
}

// How `forward` ends at a port of 127.0.0.1, and how many octets it writes.
fn forwarded_at<
    R: Threads + Wait + Sync,
    M: Net + time::Clock + Eprint + Files + RandomSource + Sync,
>(rt: &R, alloc: Global, machine: &M, port: u16) -> Result<(Status, usize), OutOfMemory> {
    let text = format!(in alloc;
        "forward --listen 127.0.0.1:{port} --upstream 127.0.0.1:1 --workers 2"
    )?;
    let words = words_of(alloc, &text)?;
    let mut source = source_of(alloc, b"")?;
    let mut sink = MemorySink::with_room(alloc, 8, Vec::new(alloc))?;
    let status = run_here(
        rt,
        alloc,
        &words,
        &mut source,
        &mut sink,
        machine,
        machine,
        machine,
    );
    Ok((status, sink.written().len()))
}

#[test]
fn a_port_that_another_has_gives_status_8(rt: HostRuntime) -> Result<(), Fail> {
    let here = SocketAddr::V4(SocketAddrV4::new(Ipv4Addr::LOCALHOST, 0));
    let taken = rt.bind_udp(here)?;
    let port = taken.local_addr()?.port();
    let (status, written) = forwarded_at(&rt, rt.alloc(), &rt, port)?;
    let found = (status, status.exit_code(), status.line(), written);
    assert!(rt;
        found == (Status::ListenFault, ExitCode::from(8), None, 0),
        "{found:?}"
    );
    Ok(())
}

// Words that ask for a text, and a part of it.
const TEXTS: [(&str, &str); 5] = [
    ("--version", "dnsreplay 1."),
    ("forward --version", "dnsreplay 1."),
    ("--help", "  audit "),
    ("forward --help", "  --upstream ADDRESS:PORT "),
    ("replay --help", "Usage: dnsreplay replay --workers N\n"),
];

fn has(text: &[u8], part: &str) -> bool {
    match str::from_utf8(text) {
        Ok(text) => text.contains(part),
        Err(_) => false,
    }
}

// The first words whose text lacks the part, or where the first write's failure has another status than 5 or writes something.
fn told_otherwise<R: Threads + Wait + Sync>(
    rt: &R,
    alloc: Global,
) -> Result<Option<(&'static str, Status, Status)>, OutOfMemory> {
    for (words, part) in TEXTS {
        let (status, written, _) = told(rt, alloc, words, Hindrance::Address, &[])?;
        let (cut, nothing, _) = told(rt, alloc, words, Hindrance::Address, &[1])?;
        let right = status == Status::Good && has(&written, part);
        if !right || cut != Status::WriteFault || !nothing.is_empty() {
            return Ok(Some((words, status, cut)));
        }
    }
    Ok(None)
}

#[test]
fn texts_that_are_asked_for_are_told(rt: HostRuntime) -> Result<(), Fail> {
    let wrong = told_otherwise(&rt, rt.alloc())?;
    assert!(rt; wrong.is_none(), "{wrong:?}");
    Ok(())
}
