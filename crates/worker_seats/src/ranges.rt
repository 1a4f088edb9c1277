//! Ranges of the frames, whose outputs are merged into a buffer each, by threads.
ghost use Rattle.std.specs.Prelude.{◌≡◌, ℕ, ◌+◌, ◌<◌, ◌≤◌, List, [], ◌++◌, All, IfOk, length, drop, slice_index_or};
ghost use Rattle.replay_meaning.specs.OutFrame.{Output, IsOutput, output_spelling};
ghost use Rattle.worker_seats.specs.Cuts.{AreCut, cuts_in, parts_of};
ghost use Rattle.worker_seats.specs.Merge.{BeginsWithFrame, CanBeMerged};
ghost use Rattle.worker_seats.specs.Ranges.{AreOfRange};
ghost use Rattle.worker_seats.specs.declared.ranges.RangeJob.{RangeJob};

use crate::cut::RANGE;
use crate::frames::{Frames, skip_frame};
use crate::merge::front_frame;
use crate::outputs::Outputs;
use crate::starts::{places_at, rest_at};
use dname::{OutOfMemory, octets_from};
use std::alloc::Global;
use std::thread;
use std::thread::Threads;

/// A range to merge, and the buffer for its outputs.
#[derive(Drop)]
pub(crate) struct RangeJob {
    pub(crate) range: usize,
    pub(crate) buffer: Vec<u8>,
}

// Merges each range, on a thread of its own where one can be started.
pub(crate) fn merge_ranges<R: Threads + Sync>(
    rt: &R,
    frames: &Frames<'_>,
    outputs: &Outputs,
    jobs: Vec<RangeJob>,
) -> Result<Vec<Result<Vec<u8>, OutOfMemory>>, OutOfMemory>
    requires workers { All (λ frame. frame.worker < length outputs.now) frames.now }
    requires merge { CanBeMerged (parts_of outputs.now) frames.now }
    requires cuts { AreCut outputs.now frames.now }
    requires ranges { All (λ job. job.range ≤ cuts_in (length frames.now)) jobs.items }
    ensures all { IfOk result (λ results. length results.items ≡ length jobs.items) }
    ensures each { IfOk result (λ results. (place : ℕ) (d : _) (e : RangeJob)
        → place < length jobs.items
        → IfOk (slice_index_or results.items place d) (λ buffer.
        AreOfRange (parts_of outputs.now) frames.now
        (slice_index_or jobs.items place e).range buffer.items)) }
{
    let work = |job: RangeJob| -> Result<Vec<u8>, OutOfMemory>
        requires workers { All (λ frame. frame.worker < length outputs.now) frames.now }
        requires merge { CanBeMerged (parts_of outputs.now) frames.now }
        requires cuts { AreCut outputs.now frames.now }
        requires range { job.range ≤ cuts_in (length frames.now) }
        ensures { IfOk result (λ buffer. AreOfRange
            (parts_of outputs.entry.now) frames.entry.now job.range buffer.items) }
    { merge_range(frames, outputs, job) };
    thread::map_vec(rt, jobs, &work)
}

// Merges the outputs of a range into its buffer.
fn merge_range(
    frames: &Frames<'_>,
    outputs: &Outputs,
    job: RangeJob,
) -> Result<Vec<u8>, OutOfMemory>
    requires workers { All (λ frame. frame.worker < length outputs.now) frames.now }
    requires merge { CanBeMerged (parts_of outputs.now) frames.now }
    requires cuts { AreCut outputs.now frames.now }
    requires range { job.range ≤ cuts_in (length frames.now) }
    ensures { IfOk result (λ buffer. AreOfRange (parts_of outputs.now) frames.now
        job.range buffer.items) }
{
    let RangeJob { range, buffer } = job;
    let mut buffer = emptied(buffer, outputs.room_of_range());
    let mut places = places_at(frames, outputs, range);
    let mut rest = rest_at(frames, outputs, range);
    let mut passed: usize = 0;
    while passed < RANGE {
        let Some((owner, after)) = skip_frame(rest) else {
            return Ok(buffer);
        };
        let worker = usize::from(owner);
        let octets = outputs.of_worker(worker);
        places[worker] = push_frame(&mut buffer, octets, places[worker])?;
        rest = after;
        passed += 1;
    }
    Ok(buffer)
}

// The buffer with nothing in it, and with so much room that it is seldom moved; without that room it grows.
fn emptied(buffer: Vec<u8>, room: usize) -> Vec<u8>
    ensures { result.items ≡ [] }
{
    let mut buffer = buffer;
    buffer.clear();
    let _ = buffer.reserve_exact(room);
    buffer
}

// Pushes the output frame at this place, and gives the place after it.
fn push_frame(buffer: &mut Vec<u8>, octets: &[u8], at: usize) -> Result<usize, OutOfMemory>
    requires within { at ≤ length octets.now }
    requires frame { BeginsWithFrame (drop at octets.now) }
    ensures { IfOk result (λ next. (output : Output) (rest : List ℕ) → IsOutput output
        → drop at octets.now ≡ output_spelling output ++ rest
        → (next ≡ at + length (output_spelling output))
        × (buffer.new.items ≡ buffer.old.items ++ output_spelling output)) }
{
    let frame = front_frame(octets_from(octets, at));
    buffer.extend_from_slice(frame)?;
    Ok(at + frame.len())
}

// The ranges from one on and before another, each with a buffer that was done with, or a new one.
pub(crate) fn jobs_from(
    alloc: Global,
    first: usize,
    until: usize,
    buffers: &mut Vec<Vec<u8>>,
) -> Result<Vec<RangeJob>, OutOfMemory>
    requires { first ≤ until }
    ensures all { IfOk result (λ jobs. first + length jobs.items ≡ until) }
    ensures each { IfOk result (λ jobs. (place : ℕ) (d : RangeJob)
        → place < length jobs.items
        → (slice_index_or jobs.items place d).range ≡ first + place) }
{
    let mut jobs = Vec::new(alloc);
    let mut range = first;
    while range < until {
        let buffer = match buffers.pop() {
            Some(buffer) => buffer,
            None => Vec::new(alloc),
        };
        jobs.push(RangeJob { range, buffer })?;
        range += 1;
    }
    Ok(jobs)
}
