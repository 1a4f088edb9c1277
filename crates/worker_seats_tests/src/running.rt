//! A run of workers over a new cache.
ghost use Rattle.std.specs.Prelude.{◌≡◌, ◌≤◌};

use dname::OutOfMemory;
use outside_core::{Gate, StreamSink};
use replay_meaning::{Frame, FrameKind};
use resolver::SharedCache;
use std::alloc::Global;
use std::sync::Wait;
use std::test::Fail;
use std::thread::Threads;
use worker_seats::{Answering, Frames, run_workers, write_outputs};

// The octets of the frames.
fn spelled(alloc: Global, frames: &[Frame<'_>]) -> Result<Vec<u8>, OutOfMemory> {
    let mut octets = Vec::new(alloc);
    for frame in frames {
        octets.push(match frame.kind {
            FrameKind::Query => 1,
            FrameKind::Upstream => 2,
        })?;
        octets.push(frame.worker)?;
        octets.extend_from_slice(&frame.now.to_be_bytes())?;
        let size = (frame.message.len() % 0x1_0000) as u16;
        octets.extend_from_slice(&size.to_be_bytes())?;
        octets.extend_from_slice(frame.message)?;
    }
    Ok(octets)
}

/// What workers write, and how many batches they place.
pub type Written = (Vec<u8>, u64);

/// What the workers write of the frames, and how many batches they place.
pub fn written<R: Threads + Wait + Sync, G: Gate>(
    rt: &R,
    alloc: Global,
    workers: u8,
    frames: &[Frame<'_>],
    gate: &G,
) -> Result<Written, Fail>
    requires { (1 ≤ workers) × (workers ≤ 32) }
{
    let input = spelled(alloc, frames)?;
    if input.len() >= 1_000_000 {
        return Err("too many frames")?;
    }
    let Some(frames) = Frames::of(&input, workers) else {
        return Err("a frame of another worker")?;
    };
    let (cache, seats) = SharedCache::with_seats(rt, alloc, workers)?;
    let answering = Answering::ByProof;
    match run_workers(rt, alloc, &cache, seats, answering, &frames, gate) {
        Ok((seats, outputs)) => {
            let closed = cache.close(rt, seats);
            let mut octets = Vec::new(alloc);
            if write_outputs(
                rt,
                alloc,
                &mut StreamSink::over(&mut octets),
                &frames,
                &outputs,
            )
            .is_err()
            {
                return Err("a failed write")?;
            }
            Ok((octets, closed.number()))
        }
        Err(fault) => {
            cache.give_up(rt);
            Err(fault)?
        }
    }
}

/// What was written, unless it is these octets and so many batches are placed.
pub fn otherwise(found: Written, octets: &[u8], placed: u64) -> Option<Written> {
    if found.0.as_slice() == octets && found.1 == placed {
        None
    } else {
        Some(found)
    }
}
