ghost use Rattle.std.specs.Prelude.{◌<◌, ◌^◌, IfOk, length};
ghost use Rattle.resolver.specs.Caches.{HasGoneOn, IsSeatOf};
ghost use Rattle.worker_seats.specs.Answering.{rule_of};
ghost use Rattle.worker_seats.specs.Cuts.{AreCuts};
ghost use Rattle.worker_seats.specs.Work.{HasPassed, IsWork};

use crate::cut::{Cut, RANGE};
use crate::frames::{Frames, frame_for};
use crate::{Answering, one_frame};
use dname::OutOfMemory;
use outside_core::{Gate, Side};
use reply_core::ReplyBuffer;
use resolver::{CacheSeat, SharedCache};
use std::alloc::Global;
use std::sync::Wait;

/// A worker's number, and the seat that it works over.
#[derive(Drop)]
pub(crate) struct Job {
    pub(crate) worker: usize,
    pub(crate) seat: CacheSeat,
}

/// What a worker leaves: its seat, the octets of its output frames, and where it stood at each cut.
#[derive(Drop)]
pub(crate) struct Shift {
    pub(crate) seat: CacheSeat,
    pub(crate) octets: Vec<u8>,
    pub(crate) cuts: Vec<Cut>,
}

/// Does the worker's own frames, in their order, each between two passes of the gate.
pub(crate) fn work_shift<R: Wait, G: Gate>(
    rt: &R,
    alloc: Global,
    cache: &SharedCache,
    answering: Answering,
    job: Job,
    frames: &Frames<'_>,
    gate: &G,
) -> Result<Shift, OutOfMemory>
    requires object { IsSeatOf cache.now job.seat }
    requires few { length frames.now < 2 ^ 32 }
    ensures on { IfOk result (λ shift. HasGoneOn cache.now job.seat shift.seat) }
    ensures cuts { IfOk result (λ shift.
        AreCuts job.worker frames.now shift.octets.items shift.cuts.items) }
    ensures work { IfOk result (λ shift.
        IsWork (rule_of answering) job.worker job.seat shift.seat frames.now shift.octets.items) }
{
    let Job { worker, seat } = job;
    let mut seat = seat;
    let whole = frames.octets().len();
    let mut octets = Vec::new(alloc);
    // So that it is seldom moved; without that room it grows.
    let _ = octets.reserve_exact(whole);
    let mut cuts = Vec::new(alloc);
    let mut reply = ReplyBuffer::new();
    let mut call: u32 = 0;
    // how many frames of the range have been passed
    let mut passed: usize = 0;
    let mut rest = frames.octets();
    while let Some((own, after)) = frame_for(rest, worker) {
        let here = Cut {
            from: whole - rest.len(),
            place: octets.len(),
        };
        passed = count_frame(&mut cuts, passed, here)?;
        if let Some(frame) = own {
            gate.pass(rt, frame.worker, call, Side::Before);
            one_frame(
                rt,
                alloc,
                cache,
                &mut seat,
                answering,
                &frame,
                &mut reply,
                &mut octets,
            )?;
            gate.pass(rt, frame.worker, call, Side::After);
            call += 1;
        }
        rest = after;
    }
    Ok(Shift { seat, octets, cuts })
}

// One more frame of the range is passed, or, behind a full range and a cut, the first one of the
// next.
fn count_frame(cuts: &mut Vec<Cut>, passed: usize, here: Cut) -> Result<usize, OutOfMemory>
    ensures { IfOk result (HasPassed passed here cuts.old.items cuts.new.items) }
{
    if passed < RANGE {
        return Ok(passed + 1);
    }
    cuts.push(here)?;
    Ok(1)
}
