//! Connections in memory that are answered from what frames have placed: what each brings, and what is written to it (RFC 7766).
ghost use Rattle.std.specs.Prelude.{◌≡◌, IfOk, None};
ghost use Rattle.std.specs.List.{All};
ghost use Rattle.gateway.specs.MemoryGateway.{IsFresh};

use super::replays::{joined, source_of, words_of};
use super::shut_outlets::{Hindrance, ShutOutlets};
use gateway::{Gateway, MemoryGateway};
use outside_core::{FixedClock, MemoryHarbor, MemorySink, MemorySource, OpenGate, OutOfMemory};
use running::{Status, run};
use std::alloc::Global;
use std::process::ExitCode;
use std::sync::Wait;
use std::test::Fail;
use std::thread::Threads;

/// The moment at which the connections are served, in seconds: ten after that of the frames.
pub const THEN: u32 = 1_000_000_010;

/// A frame with the SOA and the NSEC of a.example, which has A alone, and their signatures.
pub const ANSWER: &[u8] = b"\
    \x02\x00;\x9a\xca\x00\x00\xd2\
    \x00\x01\x81\xa0\x00\x01\x00\x00\x00\x04\x00\x00\
    \x01a\x07example\x00\x00\x10\x00\x01\
    \x07example\x00\x00\x06\x00\x01\x00\x00\x0e\x10\x00\x16\x00\x00\x00\x00\x00\x01\x00\x00\x0e\x10\x00\x00\x02X\x00\x01Q\x80\x00\x00\x01,\
    \x07example\x00\x00.\x00\x01\x00\x00\x0e\x10\x00\x1f\x00\x06\x0d\x01\x00\x00\x0e\x10w5\x94\x005\xa4\xe9\x00\x00\x01\x07example\x00ZZZZ\
    \x01a\x07example\x00\x00/\x00\x01\x00\x00\x0e\x10\x00\x13\x01b\x07example\x00\x00\x06@\x00\x00\x00\x00\x03\
    \x01a\x07example\x00\x00.\x00\x01\x00\x00\x0e\x10\x00\x1f\x00/\x0d\x02\x00\x00\x0e\x10w5\x94\x005\xa4\xe9\x00\x00\x01\x07example\x00ZZZZ";

/// A query for A.Example TXT, after its length.
pub const QUERY: &[u8] = b"\x00\x1b\
    \x124\x01\x00\x00\x01\x00\x00\x00\x00\x00\x00\
    \x01A\x07Example\x00\x00\x10\x00\x01";

/// There is no data, after the reply's length: the SOA, with its MINIMUM as TTL (RFC 2308, section 5).
pub const DENIED: &[u8] = b"\x00D\
    \x124\x81\x80\x00\x01\x00\x00\x00\x01\x00\x00\
    \x01A\x07Example\x00\x00\x10\x00\x01\
    \x07example\x00\x00\x06\x00\x01\x00\x00\x01,\
    \x00\x16\x00\x00\x00\x00\x00\x01\x00\x00\x0e\x10\x00\x00\x02X\x00\x01Q\x80\x00\x00\x01,";

// A query for b.example A, of which nothing is known, after its length; and that the server has failed (RFC 1035, section 4.1.1).
const UNKNOWN: &[u8] = b"\x00\x1b\
    \x124\x01\x00\x00\x01\x00\x00\x00\x00\x00\x00\
    \x01b\x07example\x00\x00\x01\x00\x01";

const FAILED: &[u8] = b"\x00\x1b\
    \x124\x81\x82\x00\x01\x00\x00\x00\x00\x00\x00\
    \x01b\x07example\x00\x00\x01\x00\x01";

// A connection that brings these octets, of which these reads fail.
fn one(
    alloc: Global,
    stream: &[u8],
    failing: &[u32],
) -> Result<(MemorySource, MemorySink), OutOfMemory>
    ensures { IfOk result IsFresh }
{
    let contents = Vec::from_slice(alloc, stream)?;
    let source = MemorySource::of(contents, Vec::from_slice(alloc, failing)?);
    let sink = MemorySink::with_room(alloc, 4096, Vec::new(alloc))?;
    Ok((source, sink))
}

// One for each stream. These reads of the first fail.
fn connections_of(
    alloc: Global,
    streams: &[&[u8]],
    failing: &[u32],
) -> Result<Vec<(MemorySource, MemorySink)>, OutOfMemory>
    ensures { IfOk result (λ all. All IsFresh all.items) }
{
    let mut all = Vec::new(alloc);
    for stream in streams.iter() {
        let reads: &[u32] = if all.is_empty() { failing } else { &[] };
        let connection = one(alloc, stream, reads)?;
        all.push(connection)?;
    }
    Ok(all)
}

// A run of `tcp`.
#[derive(Clone, Copy)]
struct Row<'a> {
    input: &'a [&'a [u8]],
    // What each connection brings.
    streams: &'a [&'a [u8]],
    // The numbers of the calls of `listen` and `accept` that fail; and of the first connection's reads.
    failing: [&'a [u32]; 2],
    status: Status,
    code: u8,
    // What is written to each that comes back.
    written: &'a [&'a [u8]],
}

/// How a run of `tcp` over the input ends that serves so many connections of the gateway.
pub fn run_over<R: Threads + Wait + Sync, W: Gateway>(
    rt: &R,
    alloc: Global,
    input: &[u8],
    connections: usize,
    gateway: &mut W,
) -> Result<Status, OutOfMemory>
    requires { W.Gateway.listens gateway.old ≡ None }
{
    let text = format!(in alloc; "tcp --listen 53 --connections {connections}")?;
    let words = words_of(alloc, &text)?;
    let mut source = source_of(alloc, input)?;
    let mut sink = MemorySink::with_room(alloc, 0, Vec::new(alloc))?;
    let mut harbor = MemoryHarbor::with_links(alloc, Vec::new(alloc), Vec::new(alloc))?;
    let clock = FixedClock { now: THEN };
    let mut outlets = ShutOutlets::by(Hindrance::Address);
    Ok(run(
        rt,
        alloc,
        &words,
        &mut source,
        &mut sink,
        &OpenGate,
        &mut harbor,
        &clock,
        gateway,
        &mut outlets,
    ))
}

// How a run over these frames ends that serves connections with these streams, and its gateway then. Those calls of `listen` and
// `accept` fail, and those reads of the first connection.
fn served<R: Threads + Wait + Sync>(
    rt: &R,
    alloc: Global,
    frames: &[&[u8]],
    streams: &[&[u8]],
    failing: [&[u32]; 2],
) -> Result<(Status, MemoryGateway), OutOfMemory> {
    let [calls, reads] = failing;
    let connections = connections_of(alloc, streams, reads)?;
    let calls = Vec::from_slice(alloc, calls)?;
    let mut gateway = MemoryGateway::with_connections(alloc, connections, calls)?;
    let input = joined(alloc, frames)?;
    let status = run_over(rt, alloc, &input, streams.len(), &mut gateway)?;
    Ok((status, gateway))
}

// Whether these were written to the connections that came back, and there are no more of these.
fn have_written(gateway: &MemoryGateway, written: &[&[u8]]) -> bool {
    let came = gateway.came_back();
    if came.len() != written.len() {
        return false;
    }
    for ((_, sink), octets) in came.iter().zip(written.iter()) {
        if sink.written() != *octets {
            return false;
        }
    }
    true
}

fn is_right<R: Threads + Wait + Sync>(
    rt: &R,
    alloc: Global,
    row: &Row<'_>,
) -> Result<bool, OutOfMemory> {
    let (status, gateway) = served(rt, alloc, row.input, row.streams, row.failing)?;
    let ended = status == row.status && status.exit_code() == ExitCode::from(row.code);
    Ok(ended && have_written(&gateway, row.written))
}

const ROWS: [Row<'static>; 9] = [
    Row {
        input: &[ANSWER],
        streams: &[QUERY],
        failing: [&[], &[]],
        status: Status::Good,
        code: 0,
        written: &[DENIED],
    },
    // No message has eleven octets.
    Row {
        input: &[ANSWER],
        streams: &[b"\x00\x0b"],
        failing: [&[], &[]],
        status: Status::Good,
        code: 0,
        written: &[b""],
    },
    Row {
        input: &[ANSWER],
        streams: &[UNKNOWN],
        failing: [&[], &[]],
        status: Status::Good,
        code: 0,
        written: &[FAILED],
    },
    // One that ends within a length, and the next.
    Row {
        input: &[ANSWER],
        streams: &[b"\x00", QUERY],
        failing: [&[], &[]],
        status: Status::Good,
        code: 0,
        written: &[b"", DENIED],
    },
    // A fault of one ends that one alone.
    Row {
        input: &[ANSWER],
        streams: &[QUERY, QUERY],
        failing: [&[], &[1]],
        status: Status::GatewayFault,
        code: 8,
        written: &[b"", DENIED],
    },
    // The port can't be listened to; the second connection can't be accepted.
    Row {
        input: &[ANSWER],
        streams: &[QUERY],
        failing: [&[1], &[]],
        status: Status::GatewayFault,
        code: 8,
        written: &[],
    },
    Row {
        input: &[ANSWER],
        streams: &[QUERY, QUERY],
        failing: [&[3], &[]],
        status: Status::GatewayFault,
        code: 8,
        written: &[DENIED],
    },
    // A frame for another worker: nothing is accepted.
    Row {
        input: &[ANSWER, b"\x01\x01\x00\x00\x00\x00\x00\x00"],
        streams: &[QUERY],
        failing: [&[], &[]],
        status: Status::BadFrame,
        code: 4,
        written: &[],
    },
    // Nothing is known.
    Row {
        input: &[],
        streams: &[UNKNOWN],
        failing: [&[], &[]],
        status: Status::Good,
        code: 0,
        written: &[FAILED],
    },
];

// The first row that goes otherwise.
fn otherwise<R: Threads + Wait + Sync>(
    rt: &R,
    alloc: Global,
    rows: &[Row<'static>],
) -> Result<Option<usize>, OutOfMemory> {
    for (i, row) in rows.iter().enumerate() {
        if !is_right(rt, alloc, row)? {
            return Ok(Some(i));
        }
    }
    Ok(None)
}

#[test]
fn connections_are_served_from_what_frames_placed(rt: HostRuntime) -> Result<(), Fail> {
    let wrong = otherwise(&rt, rt.alloc(), &ROWS)?;
    assert!(rt; wrong.is_none(), "{wrong:?}");
    Ok(())
}

// The data of a TXT record, of 1,178 octets: four character strings of 255 octets, and one of 153.
fn text_of(alloc: Global) -> Result<Vec<u8>, OutOfMemory> {
    let mut text = Vec::new(alloc);
    for size in [255, 255, 255, 255, 153] {
        text.push(size)?;
        for _ in 0..size {
            text.push(b't')?;
        }
    }
    Ok(text)
}

// The record with this TTL.
fn record_of(alloc: Global, ttl: u32) -> Result<Vec<u8>, OutOfMemory> {
    let text = text_of(alloc)?;
    joined(
        alloc,
        &[
            b"\x07example\x00\x00\x10\x00\x01",
            &ttl.to_be_bytes(),
            b"\x04\x9a",
            &text,
        ],
    )
}

// The record with this TTL between these octets.
fn around(alloc: Global, ends: [&[u8]; 2], ttl: u32) -> Result<Vec<u8>, OutOfMemory> {
    let [front, back] = ends;
    let record = record_of(alloc, ttl)?;
    joined(alloc, &[front, &record, back])
}

// A query for example TXT, with an OPT record of size 4096, after its length.
const LONG_QUERY: &[u8] = b"\x00$\
    \x124\x01\x00\x00\x01\x00\x00\x00\x00\x00\x01\
    \x07example\x00\x00\x10\x00\x01\
    \x00\x00)\x10\x00\x00\x00\x00\x00\x00\x00";

// What goes around the record in its answer, of 1,274 octets, and in the reply, of 1,233, after its length.
const AROUND_ANSWER: [&[u8]; 2] = [
    b"\x02\x00;\x9a\xca\x00\x04\xfa\
    \x00\x01\x81\xa0\x00\x01\x00\x02\x00\x00\x00\x00\
    \x01a\x07example\x00\x00\x10\x00\x01",
    b"\x07example\x00\x00.\x00\x01\x00\x00\x0e\x10\x00\x1f\x00\x10\x0d\x01\x00\x00\x0e\x10w5\x94\x005\xa4\xe9\x00\x00\x01\x07example\x00ZZZZ",
];

const AROUND_REPLY: [&[u8]; 2] = [
    b"\x04\xd1\
    \x124\x81\x80\x00\x01\x00\x01\x00\x00\x00\x01\
    \x07example\x00\x00\x10\x00\x01",
    b"\x00\x00)\x04\xd0\x00\x00\x00\x00\x00\x00",
];

// Whether the reply to the query is this, where the frame brings the record.
fn is_replied<R: Threads + Wait + Sync>(
    rt: &R,
    alloc: Global,
    frame: &[u8],
    reply: &[u8],
) -> Result<bool, OutOfMemory> {
    let (status, gateway) = served(rt, alloc, &[frame], &[LONG_QUERY], [&[], &[]])?;
    Ok(status == Status::Good && have_written(&gateway, &[reply]))
}

// Whether the record's reply comes whole: it has more octets than any datagram's.
fn comes_whole<R: Threads + Wait + Sync>(rt: &R, alloc: Global) -> Result<bool, OutOfMemory> {
    let frame = around(alloc, AROUND_ANSWER, 3600)?;
    let reply = around(alloc, AROUND_REPLY, 3590)?;
    is_replied(rt, alloc, &frame, &reply)
}

#[test]
fn a_long_reply_is_written_whole(rt: HostRuntime) -> Result<(), Fail> {
    let right = comes_whole(&rt, rt.alloc())?;
    assert!(rt; right);
    Ok(())
}
