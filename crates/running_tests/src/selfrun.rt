//! The summary of a made zone's run.
ghost use Rattle.std.specs.Prelude.{Some};

use super::replays::{Ended, otherwise, run_words, words_of};
use dname::OutOfMemory;
use outside_core::{Failed, MemorySink, MemorySource, OpenGate, Sink};
use running::Status;
use std::alloc::Global;
use std::sync::Wait;
use std::test::Fail;
use std::thread::Threads;

// Words, and the lines that they give by the turns of the made zone's names. Eight queries in a row meet each case once
// where the number of names is a multiple of 4.
type Summary = (&'static str, &'static [u8]);

const SUMMARIES: [Summary; 4] = [
    (
        "selfrun --seed 1 --names 1000 --queries 5000",
        b"names 1000\nbatches 1001\nqueries 5000\nanswers 625\nno-data 2500\nname-errors 1250\nforwards 625\n",
    ),
    (
        "selfrun --seed 0 --names 1 --queries 0",
        b"names 1\nbatches 2\nqueries 0\nanswers 0\nno-data 0\nname-errors 0\nforwards 0\n",
    ),
    (
        "selfrun --seed 77 --names 37 --queries 500",
        b"names 37\nbatches 38\nqueries 500\nanswers 60\nno-data 253\nname-errors 128\nforwards 59\n",
    ),
    ("selfrun --queries=8 --seed 4294967295 --names=4", EIGHT),
];

const EIGHT: &[u8] =
    b"names 4\nbatches 5\nqueries 8\nanswers 1\nno-data 4\nname-errors 2\nforwards 1\n";

// Takes 16 octets a call at most.
#[derive(Debug, Drop)]
struct Narrow {
    sink: MemorySink,
}

impl Sink for Narrow {
    ghost written = { λ n. Some n.sink.written };

    ghost faults = { λ n. n.sink.plan.faults };

    fn write(&mut self, piece: &[u8]) -> Result<usize, Failed> {
        let most = piece.len().min(16);
        self.sink.write(&piece[..most])
    }
}

// How the words end, and what is written, where the calls of the sink with these numbers fail.
fn summed<R: Threads + Wait + Sync>(
    rt: &R,
    alloc: Global,
    text: &str,
    failing_writes: &[u32],
) -> Result<Ended, OutOfMemory> {
    let words = words_of(alloc, text)?;
    let mut source = MemorySource::of(Vec::new(alloc), Vec::new(alloc));
    let mut sink = Narrow {
        sink: MemorySink::with_room(alloc, 4096, Vec::from_slice(alloc, failing_writes)?)?,
    };
    let status = run_words(rt, alloc, &words, &mut source, &mut sink, &OpenGate)?;
    Ok((status, Vec::from_slice(alloc, sink.sink.written())?))
}

// The first words that have another summary, how they end, and what is written.
fn summed_otherwise<R: Threads + Wait + Sync>(
    rt: &R,
    alloc: Global,
    rows: &[Summary],
) -> Result<Option<(&'static str, Ended)>, OutOfMemory> {
    for (text, lines) in rows.iter() {
        let found = summed(rt, alloc, text, &[])?;
        if let Some(found) = otherwise(found, Status::Good, lines) {
            return Ok(Some((text, found)));
        }
    }
    Ok(None)
}

#[test]
fn a_made_zone_has_its_summary(rt: HostRuntime) -> Result<(), Fail> {
    let wrong = summed_otherwise(&rt, rt.alloc(), &SUMMARIES)?;
    assert!(rt; wrong.is_none(), "{wrong:?}");
    Ok(())
}

// Whether a sink that failed in this call holds the front of the lines, up to the octets of the calls before it.
fn is_cut(found: &Ended, call: u32, lines: &[u8]) -> bool {
    let (status, written) = found;
    *status == Status::WriteFault
        && written.len() == (call as usize).saturating_sub(1).saturating_mul(16)
        && lines.starts_with(written)
}

// The first call whose failure is told otherwise, and how. Each call of the run is of 16 octets, and the last of what is left.
fn cut_otherwise<R: Threads + Wait + Sync>(
    rt: &R,
    alloc: Global,
    text: &str,
    lines: &[u8],
) -> Result<Option<(u32, Ended)>, OutOfMemory> {
    for call in 1..=(lines.len().div_ceil(16) % 100) as u32 {
        let found = summed(rt, alloc, text, &[call])?;
        if !is_cut(&found, call, lines) {
            return Ok(Some((call, found)));
        }
    }
    Ok(None)
}

// The first words of which a call fails otherwise, and how.
fn any_cut_otherwise<R: Threads + Wait + Sync>(
    rt: &R,
    alloc: Global,
    rows: &[Summary],
) -> Result<Option<(&'static str, (u32, Ended))>, OutOfMemory> {
    for (text, lines) in rows.iter() {
        if let Some(found) = cut_otherwise(rt, alloc, text, lines)? {
            return Ok(Some((text, found)));
        }
    }
    Ok(None)
}

#[test]
fn a_sink_that_fails_holds_the_front_of_the_summary(rt: HostRuntime) -> Result<(), Fail> {
    let wrong = any_cut_otherwise(&rt, rt.alloc(), &SUMMARIES)?;
    assert!(rt; wrong.is_none(), "{wrong:?}");
    Ok(())
}
