//! How a run ends: its status, and what is written.
ghost use Rattle.std.specs.Prelude.{Some, None};

use super::replays::{Ended, joined, otherwise, replayed, run_words, source_of, words_of};
use dname::OutOfMemory;
use outside_core::{Failed, MemorySink, MemorySource, OpenGate, Source};
use running::Status;
use std::alloc::Global;
use std::process::ExitCode;
use std::sync::Wait;
use std::test::Fail;
use std::thread::Threads;

// A query for a.example A, at 1,000,000,010 seconds.
const QUERY: &[u8] = b"\
    \x01\x00;\x9a\xca\x0a\x00\x1b\
    \x124\x01\x00\x00\x01\x00\x00\x00\x00\x00\x00\
    \x01a\x07example\x00\x00\x01\x00\x01";

const FORWARD: &[u8] = b"\x02\x00\x00\x00\x00\x00\x00\x00";

// The octets after a query, which calls of the source and of the sink fail, the status, and what is written.
type Run = (
    &'static str,
    &'static [u8],
    &'static [u32],
    &'static [u32],
    Status,
    &'static [u8],
);

const RUNS: [Run; 9] = [
    ("a query alone", b"", &[], &[], Status::Good, FORWARD),
    (
        "a query that is dropped after it",
        b"\x01\x00\x00\x00\x00\x00\x00\x00",
        &[],
        &[],
        Status::Good,
        b"\x02\x00\x00\x00\x00\x00\x00\x00\x05\x00\x00\x00\x00\x00\x00\x00",
    ),
    (
        "a source that fails at once",
        b"",
        &[1],
        &[],
        Status::ReadFault,
        b"",
    ),
    (
        "a source that fails at its end",
        b"",
        &[2],
        &[],
        Status::ReadFault,
        b"",
    ),
    (
        "a sink that fails at once",
        b"",
        &[],
        &[1],
        Status::WriteFault,
        b"",
    ),
    (
        "an octet after it",
        b"\x01",
        &[],
        &[],
        Status::BadFrame,
        b"",
    ),
    (
        "a frame that is an octet short",
        b"\x01\x00\x00\x00\x00\x00\x00\x02\x00",
        &[],
        &[],
        Status::BadFrame,
        b"",
    ),
    (
        "a frame of another kind",
        b"\x03\x00\x00\x00\x00\x00\x00\x00",
        &[],
        &[],
        Status::BadFrame,
        b"",
    ),
    (
        "a frame of another worker",
        b"\x01\x01\x00\x00\x00\x00\x00\x00",
        &[],
        &[],
        Status::BadFrame,
        b"",
    ),
];

// The number and the line of a status.
type Line = (Status, u8, Option<&'static str>);

const LINES: [Line; 10] = [
    (Status::Good, 0, None),
    (
        Status::Usage,
        2,
        Some(
            "usage: replay --workers N; selfrun --seed S --names M --queries Q; serve --listen P --upstream U --workers N --datagrams D; chase; redirect; follow; tcp --listen P --connections C; audit",
        ),
    ),
    (Status::ReadFault, 3, Some("read fault")),
    (Status::BadFrame, 4, Some("bad frame")),
    (Status::WriteFault, 5, Some("write fault")),
    (Status::OutOfMemory, 6, Some("out of memory")),
    (Status::InputTooLong, 7, Some("input too long")),
    (Status::HarborFault, 8, Some("link fault")),
    // The forwarder has said these.
    (Status::ListenFault, 8, None),
    (Status::ThreadFault, 6, None),
];

// The first row whose run ends or writes otherwise, and how.
fn ended_otherwise<R: Threads + Wait + Sync>(
    rt: &R,
    alloc: Global,
    rows: &[Run],
) -> Result<Option<(&'static str, Ended)>, OutOfMemory> {
    for (name, after, failing_reads, failing_writes, status, expected) in rows.iter() {
        let input = joined(alloc, &[QUERY, after])?;
        let found = replayed(rt, alloc, &input, failing_reads, failing_writes)?;
        if let Some(found) = otherwise(found, *status, expected) {
            return Ok(Some((name, found)));
        }
    }
    Ok(None)
}

#[test]
fn a_run_ends_with_its_status(rt: HostRuntime) -> Result<(), Fail> {
    let wrong = ended_otherwise(&rt, rt.alloc(), &RUNS)?;
    assert!(rt; wrong.is_none(), "{wrong:?}");
    Ok(())
}

// The first status with another number or line, and what it has.
fn told_otherwise(rows: &[Line]) -> Option<(Status, ExitCode, Option<&'static str>)> {
    for (status, number, line) in rows.iter() {
        let found = (status.exit_code(), status.line());
        if found != (ExitCode::from(*number), *line) {
            return Some((*status, found.0, found.1));
        }
    }
    None
}

#[test]
fn a_status_has_its_number_and_line(rt: HostRuntime) {
    let wrong = told_otherwise(&LINES);
    assert!(rt; wrong.is_none(), "{wrong:?}");
}

// How the words end over this source, and what is written.
fn ended<R: Threads + Wait + Sync, S: Source>(
    rt: &R,
    alloc: Global,
    text: &str,
    source: &mut S,
) -> Result<Ended, OutOfMemory> {
    let words = words_of(alloc, text)?;
    let mut sink = MemorySink::with_room(alloc, 8, Vec::new(alloc))?;
    let status = run_words(rt, alloc, &words, source, &mut sink, &OpenGate)?;
    Ok((status, Vec::from_slice(alloc, sink.written())?))
}

const REFUSED: [&str; 8] = [
    "replay",
    "replay --workers 0",
    "replay --workers=33",
    "replay --workers 1 --",
    "selfrun --seed 1 --names 0 --queries 1",
    "serve --listen 5300 --upstream 5301 --workers 2 --datagrams 1",
    "forward --listen 127.0.0.1:53",
    "help",
];

// The first words that aren't refused with nothing written, and how they end.
fn refused_otherwise<R: Threads + Wait + Sync>(
    rt: &R,
    alloc: Global,
    rows: &[&'static str],
) -> Result<Option<(&'static str, Ended)>, OutOfMemory> {
    for text in rows.iter() {
        let mut source = source_of(alloc, QUERY)?;
        let found = ended(rt, alloc, text, &mut source)?;
        if let Some(found) = otherwise(found, Status::Usage, b"") {
            return Ok(Some((text, found)));
        }
    }
    Ok(None)
}

#[test]
fn other_words_are_refused(rt: HostRuntime) -> Result<(), Fail> {
    let wrong = refused_otherwise(&rt, rt.alloc(), &REFUSED)?;
    assert!(rt; wrong.is_none(), "{wrong:?}");
    Ok(())
}

// Gives so many zeros, and tells nothing.
#[derive(Debug, Drop)]
struct Zeros {
    left: usize,
}

impl Source for Zeros {
    ghost taken = { λ _. None };

    ghost left = { λ _. None };

    ghost faults = { λ _. 0 };

    fn read(&mut self, into: &mut [u8]) -> Result<usize, Failed> {
        let count = self.left.min(into.len());
        self.left -= count;
        Ok(count)
    }
}

const LENGTHS: [(usize, Status); 3] = [
    (67_108_864, Status::BadFrame),
    (67_108_865, Status::InputTooLong),
    (67_108_866, Status::InputTooLong),
];

// The first number of zeros that ends otherwise, or writes something, and how.
fn zeros_otherwise<R: Threads + Wait + Sync>(
    rt: &R,
    alloc: Global,
    rows: &[(usize, Status)],
) -> Result<Option<(usize, Ended)>, OutOfMemory> {
    for (left, status) in rows.iter() {
        let mut source = Zeros { left: *left };
        let found = ended(rt, alloc, "replay --workers 1", &mut source)?;
        if let Some(found) = otherwise(found, *status, b"") {
            return Ok(Some((*left, found)));
        }
    }
    Ok(None)
}

#[test]
fn an_input_may_be_too_long(rt: HostRuntime) -> Result<(), Fail> {
    let wrong = zeros_otherwise(&rt, rt.alloc(), &LENGTHS)?;
    assert!(rt; wrong.is_none(), "{wrong:?}");
    Ok(())
}

// Gives one octet a call.
#[derive(Debug, Drop)]
struct Dripping {
    source: MemorySource,
}

impl Source for Dripping {
    ghost taken = { λ d. Some d.source.supply.taken };

    ghost left = { λ d. Some d.source.supply.left };

    ghost faults = { λ d. d.source.plan.faults };

    fn read(&mut self, into: &mut [u8]) -> Result<usize, Failed> {
        if into.is_empty() {
            return self.source.read(into);
        }
        self.source.read(&mut into[..1])
    }
}

#[test]
fn pieces_of_one_octet_are_one_input(rt: HostRuntime) -> Result<(), Fail> {
    let source = source_of(rt.alloc(), QUERY)?;
    let found = ended(
        &rt,
        rt.alloc(),
        "replay --workers 1",
        &mut Dripping { source },
    )?;
    let wrong = otherwise(found, Status::Good, FORWARD);
    assert!(rt; wrong.is_none(), "{wrong:?}");
    Ok(())
}
