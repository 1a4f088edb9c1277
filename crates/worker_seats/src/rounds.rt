//! Rounds of ranges: threads merge as many as there are workers, and the caller writes them.
ghost use Rattle.std.specs.Prelude.{◌≡◌, ℕ, ◌+◌, ◌<◌, ◌≤◌, All, IfOk, OnOk, OnErr, length};
ghost use Rattle.outside_core.specs.Fault.{Rose};
ghost use Rattle.worker_seats.specs.Cuts.{AreCut, cuts_in, parts_of};
ghost use Rattle.worker_seats.specs.Merge.{CanBeMerged};
ghost use Rattle.worker_seats.specs.Ranges.{WritesInPart, WritesRanges, WritesRest};

use crate::frames::Frames;
use crate::merge::write_from;
use crate::outputs::Outputs;
use crate::ranges::{jobs_from, merge_ranges};
use outside_core::{Failed, Sink, write_whole};
use std::alloc::Global;
use std::thread::Threads;

// Writes all ranges. Where memory for a round is wanting, the caller alone goes on.
pub(crate) fn write_rounds<R: Threads + Sync, K: Sink>(
    rt: &R,
    alloc: Global,
    sink: &mut K,
    frames: &Frames<'_>,
    outputs: &Outputs,
    ranges: usize,
) -> Result<(), Failed>
    requires workers { All (λ frame. frame.worker < length outputs.now) frames.now }
    requires merge { CanBeMerged (parts_of outputs.now) frames.now }
    requires cuts { AreCut outputs.now frames.now }
    requires ranges { ranges ≡ cuts_in (length frames.now) + 1 }
    requires some { 0 < length outputs.now }
    ensures written { OnOk result (WritesRest (parts_of outputs.now) frames.now 0
        (K.written sink.old) (K.written sink.new)) }
    ensures faults { OnOk result (K.faults sink.new ≡ K.faults sink.old) }
    ensures part { OnErr result (WritesInPart (parts_of outputs.now) frames.now 0
        (K.written sink.old) (K.written sink.new)) }
    ensures failed { OnErr result (Rose (K.faults sink.old) (K.faults sink.new)) }
{
    let mut buffers = Vec::new(alloc);
    let mut next: usize = 0;
    while next < ranges {
        let until = ranges.min(next.saturating_add(outputs.workers()));
        match write_round(rt, alloc, sink, frames, outputs, &mut buffers, next, until) {
            Ok(reached) => {
                if reached < until {
                    return write_from(alloc, sink, frames, outputs, reached);
                }
                next = reached;
            }
            Err(failed) => return Err(failed),
        }
    }
    Ok(())
}

// Merges the ranges from one on and before another, writes them in order, and gives the first that
// isn't written.
fn write_round<R: Threads + Sync, K: Sink>(
    rt: &R,
    alloc: Global,
    sink: &mut K,
    frames: &Frames<'_>,
    outputs: &Outputs,
    buffers: &mut Vec<Vec<u8>>,
    first: usize,
    until: usize,
) -> Result<usize, Failed>
    requires workers { All (λ frame. frame.worker < length outputs.now) frames.now }
    requires merge { CanBeMerged (parts_of outputs.now) frames.now }
    requires cuts { AreCut outputs.now frames.now }
    requires order { first ≤ until }
    requires within { until ≤ cuts_in (length frames.now) + 1 }
    ensures reached { IfOk result (λ reached. (first ≤ reached) × (reached ≤ until)) }
    ensures written { IfOk result (λ reached. WritesRanges (parts_of outputs.now) frames.now
        first reached (K.written sink.old) (K.written sink.new)) }
    ensures faults { OnOk result (K.faults sink.new ≡ K.faults sink.old) }
    ensures part { OnErr result (WritesInPart (parts_of outputs.now) frames.now first
        (K.written sink.old) (K.written sink.new)) }
    ensures failed { OnErr result (Rose (K.faults sink.old) (K.faults sink.new)) }
{
    let Ok(jobs) = jobs_from(alloc, first, until, buffers) else {
        return Ok(first);
    };
    let Ok(results) = merge_ranges(rt, frames, outputs, jobs) else {
        return Ok(first);
    };
    let mut next = first;
    for result in results {
        let Ok(buffer) = result else {
            return Ok(next);
        };
        match write_whole(sink, buffer.as_slice()) {
            Ok(()) => next += 1,
            Err(failed) => return Err(failed),
        }
        keep(buffers, buffer);
    }
    Ok(next)
}

// Keeps a buffer for the next round. Without memory for that it is given up.
fn keep(buffers: &mut Vec<Vec<u8>>, buffer: Vec<u8>) {
    let _ = buffers.push(buffer);
}
