ghost use Rattle.std.specs.Prelude.{ℕ, List, ◌<◌, ◌≤◌, ◌≡◌, ◌^◌, length, All, IfOk};
ghost use Rattle.replay_meaning.specs.Replay.{SpellsFrames};
ghost use Rattle.worker_seats.specs.Cuts.{AreCut, parts_of};
ghost use Rattle.worker_seats.specs.Merge.{AreMerged, CanBeMerged};
ghost use Rattle.worker_seats.specs.WalkReplay.{IsReplayBy};

use dname::OutOfMemory;
use outside_core::Gate;
use resolver::SharedCache;
use std::alloc::Global;
use std::mem::forget;
use std::sync::Wait;
use std::thread::Threads;
use worker_seats::{Answering, Frames, Outputs, run_workers};

/// What so many workers write of the frames, each on a thread of its own, over a cache that holds nothing at first. The cache is
/// closed, and the memory of its records is left to the system: the program ends next, and record by record it takes longer.
pub fn replay<R: Threads + Wait + Sync, G: Gate>(
    rt: &R,
    alloc: Global,
    answering: Answering,
    workers: u8,
    frames: &Frames<'_>,
    gate: &G,
) -> Result<Outputs, OutOfMemory>
    requires workers { (1 ≤ workers) × (workers ≤ 32) }
    requires below { All (λ frame. frame.worker < workers) frames.now }
    requires few { length frames.now < 2 ^ 32 }
    ensures all { IfOk result (λ done. length done ≡ workers) }
    ensures merge { IfOk result (λ done. CanBeMerged (parts_of done) frames.now) }
    ensures cuts { IfOk result (λ done. AreCut done frames.now) }
    ensures replay { IfOk result (λ done. (octets output : List ℕ)
        → SpellsFrames workers octets frames.now
        → AreMerged (parts_of done) frames.now output
        → IsReplayBy answering workers octets output) }
{
    let (cache, seats) = SharedCache::with_seats(rt, alloc, workers)?;
    match run_workers(rt, alloc, &cache, seats, answering, frames, gate) {
        Ok((seats, outputs)) => {
            let closed = cache.close(rt, seats);
            forget(closed);
            Ok(outputs)
        }
        Err(error) => {
            cache.give_up(rt);
            Err(error)
        }
    }
}
