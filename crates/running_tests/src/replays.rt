//! Runs of words over sources and sinks in memory.

use super::shut_outlets::{Hindrance, ShutOutlets};
use dname::OutOfMemory;
use gateway::MemoryGateway;
use outside_core::{
    FixedClock, Gate, MemoryHarbor, MemorySink, MemorySource, OpenGate, Sink, Source,
};
use running::{Status, run};
use std::alloc::Global;
use std::sync::Wait;
use std::thread::Threads;

/// How a run ended, and what it wrote.
pub type Ended = (Status, Vec<u8>);

pub fn words_of(alloc: Global, text: &str) -> Result<Vec<String>, OutOfMemory> {
    let mut words = Vec::new(alloc);
    for word in text.split_whitespace() {
        words.push(String::from_str(alloc, word)?)?;
    }
    Ok(words)
}

/// Runs the words over a harbor that has no links, and a gateway without connections.
pub fn run_words<R: Threads + Wait + Sync, S: Source, K: Sink, G: Gate>(
    rt: &R,
    alloc: Global,
    words: &[String],
    source: &mut S,
    sink: &mut K,
    gate: &G,
) -> Result<Status, OutOfMemory> {
    let mut harbor = MemoryHarbor::with_links(alloc, Vec::new(alloc), Vec::new(alloc))?;
    let mut gateway = MemoryGateway::with_connections(alloc, Vec::new(alloc), Vec::new(alloc))?;
    let clock = FixedClock { now: 0 };
    let mut outlets = ShutOutlets::by(Hindrance::Address);
    Ok(run(
        rt,
        alloc,
        words,
        source,
        sink,
        gate,
        &mut harbor,
        &clock,
        &mut gateway,
        &mut outlets,
    ))
}

pub fn source_of(alloc: Global, input: &[u8]) -> Result<MemorySource, OutOfMemory> {
    Ok(MemorySource::of(Vec::from_slice(alloc, input)?, Vec::new(alloc)))
}

/// How a run of the words over the input ends, and what it writes, where the calls with these numbers fail.
pub fn ended<R: Threads + Wait + Sync>(
    rt: &R,
    alloc: Global,
    words: &str,
    input: &[u8],
    failing_reads: &[u32],
    failing_writes: &[u32],
) -> Result<Ended, OutOfMemory> {
    let words = words_of(alloc, words)?;
    let mut source = MemorySource::of(
        Vec::from_slice(alloc, input)?,
        Vec::from_slice(alloc, failing_reads)?,
    );
    let mut sink = MemorySink::with_room(alloc, 4096, Vec::from_slice(alloc, failing_writes)?)?;
    let status = run_words(rt, alloc, &words, &mut source, &mut sink, &OpenGate)?;
    Ok((status, Vec::from_slice(alloc, sink.written())?))
}

/// How a replay of the input ends, and what it writes, where the calls with these numbers fail.
pub fn replayed<R: Threads + Wait + Sync>(
    rt: &R,
    alloc: Global,
    input: &[u8],
    failing_reads: &[u32],
    failing_writes: &[u32],
) -> Result<Ended, OutOfMemory> {
    ended(
        rt,
        alloc,
        "replay --workers 1",
        input,
        failing_reads,
        failing_writes,
    )
}

pub fn joined(alloc: Global, parts: &[&[u8]]) -> Result<Vec<u8>, OutOfMemory> {
    let mut octets = Vec::new(alloc);
    for part in parts {
        octets.extend_from_slice(part)?;
    }
    Ok(octets)
}

/// What was found, unless it is this status and these octets.
pub fn otherwise(found: Ended, status: Status, written: &[u8]) -> Option<Ended> {
    if found.0 == status && found.1.as_slice() == written {
        None
    } else {
        Some(found)
    }
}

/// How a replay of these parts ends and what it writes, unless it ends well and writes those.
pub fn replayed_otherwise<R: Threads + Wait + Sync>(
    rt: &R,
    alloc: Global,
    input: &[&[u8]],
    expected: &[&[u8]],
) -> Result<Option<Ended>, OutOfMemory> {
    ended_otherwise(rt, alloc, "replay --workers 1", input, expected)
}

/// How a run of the words over these parts ends and what it writes, unless it ends well and writes those.
pub fn ended_otherwise<R: Threads + Wait + Sync>(
    rt: &R,
    alloc: Global,
    words: &str,
    input: &[&[u8]],
    expected: &[&[u8]],
) -> Result<Option<Ended>, OutOfMemory> {
    let input = joined(alloc, input)?;
    let expected = joined(alloc, expected)?;
    let found = ended(rt, alloc, words, &input, &[], &[])?;
    Ok(otherwise(found, Status::Good, &expected))
}
