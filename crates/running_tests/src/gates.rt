//! Gates that hold a worker until another has come somewhere, and what two workers then write.

use super::replays::{joined, run_words, source_of, words_of};
use dname::OutOfMemory;
use outside_core::{Gate, MemorySink, Side};
use std::alloc::Global;
use std::sync::Wait;
use std::sync::atomic::AtomicBool;
use std::sync::atomic::Ordering::SeqCst;
use std::test::Fail;
use std::thread::{Threads, yield_now};

const TURNS: u32 = 10_000_000;

// Waits for the flag. Whether it was raised in time.
fn is_raised(flag: &AtomicBool) -> bool {
    for _ in 0..TURNS {
        if flag.load(SeqCst) {
            return true;
        }
        yield_now();
    }
    false
}

// Each of two workers raises its flag at its first pass, and waits for the other's.
#[derive(Drop)]
struct Meeting {
    first: AtomicBool,
    second: AtomicBool,
    gave_up: AtomicBool,
}

impl Gate for Meeting {
    fn pass<R: Wait>(&self, _rt: &R, worker: u8, call: u32, side: Side) {
        if call > 0 || side == Side::After {
            return;
        }
        let met = if worker == 0 {
            self.first.store(true, SeqCst);
            is_raised(&self.second)
        } else {
            self.second.store(true, SeqCst);
            is_raised(&self.first)
        };
        if !met {
            self.gave_up.store(true, SeqCst);
        }
    }
}

// Holds worker 1 before its first call until worker 0's first is done.
#[derive(Drop)]
struct Turnstile {
    done: AtomicBool,
    gave_up: AtomicBool,
}

impl Gate for Turnstile {
    fn pass<R: Wait>(&self, _rt: &R, worker: u8, call: u32, side: Side) {
        if call > 0 {
            return;
        }
        if worker == 0 && side == Side::After {
            self.done.store(true, SeqCst);
        }
        if worker == 1 && side == Side::Before && !is_raised(&self.done) {
            self.gave_up.store(true, SeqCst);
        }
    }
}

// A query for a.example A, for the worker whose number stands between the two.
const QUERY_KIND: &[u8] = b"\x01";

const QUERY_REST: &[u8] = b"\
    ;\x9a\xca\x0a\x00\x1b\
    \x124\x01\x00\x00\x01\x00\x00\x00\x00\x00\x00\
    \x01a\x07example\x00\x00\x01\x00\x01";

const TWO_FORWARDS: &[u8] = b"\
    \x02\x00\x00\x00\x00\x00\x00\x00\
    \x02\x01\x00\x00\x00\x00\x00\x00";

// What two workers write of these parts, unless it is that.
fn written_otherwise<R: Threads + Wait + Sync, G: Gate>(
    rt: &R,
    alloc: Global,
    input: &[&[u8]],
    gate: &G,
    expected: &[&[u8]],
) -> Result<Option<Vec<u8>>, OutOfMemory> {
    let words = words_of(alloc, "replay --workers 2")?;
    let input = joined(alloc, input)?;
    let mut source = source_of(alloc, &input)?;
    let mut sink = MemorySink::with_room(alloc, 4096, Vec::new(alloc))?;
    let _ = run_words(rt, alloc, &words, &mut source, &mut sink, gate)?;
    let expected = joined(alloc, expected)?;
    if sink.written() == expected.as_slice() {
        Ok(None)
    } else {
        Ok(Some(Vec::from_slice(alloc, sink.written())?))
    }
}

#[test]
fn two_workers_run_at_once(rt: HostRuntime) -> Result<(), Fail> {
    let gate = Meeting {
        first: AtomicBool::new(false),
        second: AtomicBool::new(false),
        gave_up: AtomicBool::new(false),
    };
    let input = [
        QUERY_KIND, b"\x00", QUERY_REST, QUERY_KIND, b"\x01", QUERY_REST,
    ];
    let wrong = written_otherwise(&rt, rt.alloc(), &input, &gate, &[TWO_FORWARDS])?;
    assert!(rt; wrong.is_none(), "{wrong:?}");
    assert!(rt; !gate.gave_up.load(SeqCst));
    Ok(())
}

#[test]
fn a_query_is_answered_from_what_another_worker_has_stored(rt: HostRuntime) -> Result<(), Fail> {
    let gate = Turnstile {
        done: AtomicBool::new(false),
        gave_up: AtomicBool::new(false),
    };
    let input = [UPSTREAM, OTHERS_QUERY];
    let wrong = written_otherwise(&rt, rt.alloc(), &input, &gate, &[STORED, OTHERS_REPLY])?;
    assert!(rt; wrong.is_none(), "{wrong:?}");
    assert!(rt; !gate.gave_up.load(SeqCst));
    Ok(())
}

// An upstream answer for worker 0: the SOA and the NSEC of a.example, which has A alone, with their signatures.
const UPSTREAM: &[u8] = b"\
    \x02\x00;\x9a\xca\x00\x00\xd2\
    \x00\x01\x81\xa0\x00\x01\x00\x00\x00\x04\x00\x00\
    \x01a\x07example\x00\x00\x10\x00\x01\
    \x07example\x00\x00\x06\x00\x01\x00\x00\x0e\x10\x00\x16\x00\x00\x00\x00\x00\x01\x00\x00\x0e\x10\x00\x00\x02X\x00\x01Q\x80\x00\x00\x01,\
    \x07example\x00\x00.\x00\x01\x00\x00\x0e\x10\x00\x1f\x00\x06\x0d\x01\x00\x00\x0e\x10w5\x94\x005\xa4\xe9\x00\x00\x01\x07example\x00ZZZZ\
    \x01a\x07example\x00\x00/\x00\x01\x00\x00\x0e\x10\
    \x00\x13\x01b\x07example\x00\x00\x06@\x00\x00\x00\x00\x03\x01a\
    \x07example\x00\x00.\x00\x01\x00\x00\x0e\x10\x00\x1f\x00/\x0d\x02\x00\x00\x0e\x10w5\x94\x005\xa4\xe9\x00\x00\x01\x07example\x00ZZZZ";

const STORED: &[u8] = b"\x03\x00\x00\x00\x00\x01\x00\x04\x00\x02\x00\x00";

// Worker 1's query for A.Example TXT, ten seconds later.
const OTHERS_QUERY: &[u8] = b"\
    \x01\x01;\x9a\xca\x0a\x00\x1b\
    \x124\x01\x00\x00\x01\x00\x00\x00\x00\x00\x00\
    \x01A\x07Example\x00\x00\x10\x00\x01";

// It is denied at version 1, for the SOA's MINIMUM of 300 seconds.
const OTHERS_REPLY: &[u8] = b"\
    \x01\x01\x00\x00\x00\x01\x00D\
    \x124\x81\x80\x00\x01\x00\x00\x00\x01\x00\x00\
    \x01A\x07Example\x00\x00\x10\x00\x01\
    \x07example\x00\x00\x06\x00\x01\x00\x00\x01,\
    \x00\x16\x00\x00\x00\x00\x00\x01\x00\x00\x0e\x10\x00\x00\x02X\x00\x01Q\x80\x00\x00\x01,";
