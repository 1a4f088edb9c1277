//! Gates that hold a worker until another has come somewhere, and what two workers then write.

use super::messages::{ANSWER, DENIED, FORWARDED, QUERY, STORED, THEN};
use super::running::{otherwise, written};
use dname::OutOfMemory;
use outside_core::{Gate, Side};
use replay_meaning::{Frame, FrameKind};
use std::alloc::Global;
use std::sync::Wait;
use std::sync::atomic::{AtomicBool, Ordering};
use std::test::Fail;
use std::thread::yield_now;

/// So many turns are waited for the other worker.
const TURNS: u32 = 10_000_000;

// Waits until the flag is up, and says whether it came up.
fn wait(flag: &AtomicBool) -> bool {
    for _ in 0..TURNS {
        if flag.load(Ordering::SeqCst) {
            return true;
        }
        yield_now();
    }
    false
}

// Each of two workers raises its flag at its first call, and waits for the other's.
#[derive(Drop)]
struct Meeting {
    zero: AtomicBool,
    one: AtomicBool,
    gave_up: AtomicBool,
}

impl Gate for Meeting {
    fn pass<R: Wait>(&self, _rt: &R, worker: u8, call: u32, side: Side) {
        if call > 0 || side == Side::After {
            return;
        }
        let (own, other) = if worker == 0 {
            (&self.zero, &self.one)
        } else {
            (&self.one, &self.zero)
        };
        own.store(true, Ordering::SeqCst);
        if !wait(other) {
            self.gave_up.store(true, Ordering::SeqCst);
        }
    }
}

// Worker 1 waits before its first call until worker 0 has done its own.
#[derive(Drop)]
struct Queue {
    done: AtomicBool,
    gave_up: AtomicBool,
}

impl Gate for Queue {
    fn pass<R: Wait>(&self, _rt: &R, worker: u8, _call: u32, side: Side) {
        if worker == 0 && side == Side::After {
            self.done.store(true, Ordering::SeqCst);
        }
        if worker == 1 && side == Side::Before && !wait(&self.done) {
            self.gave_up.store(true, Ordering::SeqCst);
        }
    }
}

fn query(worker: u8) -> Frame<'static> {
    Frame {
        kind: FrameKind::Query,
        worker,
        now: THEN + 10,
        message: QUERY,
    }
}

#[test]
fn two_workers_run_at_one_time(rt: HostRuntime) -> Result<(), Fail> {
    let gate = Meeting {
        zero: AtomicBool::new(false),
        one: AtomicBool::new(false),
        gave_up: AtomicBool::new(false),
    };
    let frames = [query(0), query(1)];
    let found = written(&rt, rt.alloc(), 2, &frames, &gate)?;
    let wrong = otherwise(found, FORWARDED, 0);
    assert!(rt; !gate.gave_up.load(Ordering::SeqCst));
    assert!(rt; wrong.is_none(), "{wrong:?}");
    Ok(())
}

fn stored_and_denied(alloc: Global) -> Result<Vec<u8>, OutOfMemory> {
    let mut octets = Vec::from_slice(alloc, STORED)?;
    octets.extend_from_slice(DENIED)?;
    Ok(octets)
}

// The query asks the version that the other worker's insert has made before it.
#[test]
fn a_worker_reads_what_another_has_placed(rt: HostRuntime) -> Result<(), Fail> {
    let gate = Queue {
        done: AtomicBool::new(false),
        gave_up: AtomicBool::new(false),
    };
    let answer = Frame {
        kind: FrameKind::Upstream,
        worker: 0,
        now: THEN,
        message: ANSWER,
    };
    let frames = [answer, query(1)];
    let found = written(&rt, rt.alloc(), 2, &frames, &gate)?;
    let wrong = otherwise(found, &stored_and_denied(rt.alloc())?, 1);
    assert!(rt; !gate.gave_up.load(Ordering::SeqCst));
    assert!(rt; wrong.is_none(), "{wrong:?}");
    Ok(())
}
