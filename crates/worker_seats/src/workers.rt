ghost use Rattle.std.specs.Prelude.{◌≡◌, ℕ, List, ◌<◌, ◌^◌, All, IfOk, Ok, length, map, slice_index_or};
ghost use Rattle.cache_versions.specs.Rows.{AreNumbered};
ghost use Rattle.resolver.specs.Caches.{IsSeatOf};
ghost use Rattle.worker_seats.specs.declared.shift.Job.{Job};
ghost use Rattle.worker_seats.specs.Answering.{rule_of};
ghost use Rattle.worker_seats.specs.Cuts.{AreCut, parts_of};
ghost use Rattle.worker_seats.specs.Merge.{AreMerged, CanBeMerged};
ghost use Rattle.worker_seats.specs.Work.{ArePlaced, IsShiftOf, part_of};
ghost use Rattle.worker_seats.specs.Workers.{HaveWorked};

use crate::Answering;
use crate::frames::Frames;
use crate::outputs::{OnePart, Outputs};
use crate::shift::{Job, Shift, work_shift};
use dname::OutOfMemory;
use outside_core::Gate;
use resolver::{CacheSeat, SharedCache};
use std::alloc::Global;
use std::sync::Wait;
use std::thread;
use std::thread::Threads;

/// Each worker does its frames in their order, over the seat at its number, on a thread of its own. It passes the gate before
/// and after each. Where a thread can't be started, its work is done by the caller. What each has written stays where it is,
/// to be written in the order of the frames. After want of memory the seats are given up.
pub fn run_workers<R: Threads + Wait + Sync, G: Gate>(
    rt: &R,
    alloc: Global,
    cache: &SharedCache,
    seats: Vec<CacheSeat>,
    answering: Answering,
    frames: &Frames<'_>,
    gate: &G,
) -> Result<(Vec<CacheSeat>, Outputs), OutOfMemory>
    requires object { All (IsSeatOf cache.now) seats.items }
    requires numbers { AreNumbered seats.items }
    requires workers { All (λ frame. frame.worker < length seats.items) frames.now }
    requires few { length frames.now < 2 ^ 32 }
    ensures all { IfOk result (λ done. length done.0.items ≡ length seats.items) }
    ensures object { IfOk result (λ done. All (IsSeatOf cache.now) done.0.items) }
    ensures numbers { IfOk result (λ done. AreNumbered done.0.items) }
    ensures each { IfOk result (λ done. length done.1 ≡ length seats.items) }
    ensures merge { IfOk result (λ done. CanBeMerged (parts_of done.1) frames.now) }
    ensures cuts { IfOk result (λ done. AreCut done.1 frames.now) }
    ensures worked { IfOk result (λ done. (octets : List ℕ)
        → AreMerged (parts_of done.1) frames.now octets
        → HaveWorked (rule_of answering) seats.items done.0.items frames.now octets) }
{
    let results = work_all(rt, alloc, cache, seats, answering, frames, gate)?;
    let shifts = all_shifts(alloc, results)?;
    split(alloc, shifts)
}

// The work of all workers, each on a thread of its own where one can be started.
fn work_all<R: Threads + Wait + Sync, G: Gate>(
    rt: &R,
    alloc: Global,
    cache: &SharedCache,
    seats: Vec<CacheSeat>,
    answering: Answering,
    frames: &Frames<'_>,
    gate: &G,
) -> Result<Vec<Result<Shift, OutOfMemory>>, OutOfMemory>
    requires object { All (IsSeatOf cache.now) seats.items }
    requires few { length frames.now < 2 ^ 32 }
    ensures all { IfOk result (λ results. length results.items ≡ length seats.items) }
    ensures each { IfOk result (λ results. (worker : ℕ) (d : _) (e : _)
        → worker < length seats.items
        → IfOk (slice_index_or results.items worker d) (IsShiftOf (rule_of answering) cache.now
        (record { worker = worker; seat = slice_index_or seats.items worker e })
        frames.now)) }
{
    let jobs = jobs_of(alloc, seats)?;
    do_jobs(rt, alloc, cache, answering, jobs, frames, gate)
}

fn do_jobs<R: Threads + Wait + Sync, G: Gate>(
    rt: &R,
    alloc: Global,
    cache: &SharedCache,
    answering: Answering,
    jobs: Vec<Job>,
    frames: &Frames<'_>,
    gate: &G,
) -> Result<Vec<Result<Shift, OutOfMemory>>, OutOfMemory>
    requires object { All (λ job. IsSeatOf cache.now job.seat) jobs.items }
    requires few { length frames.now < 2 ^ 32 }
    ensures all { IfOk result (λ results. length results.items ≡ length jobs.items) }
    ensures each { IfOk result (λ results. (place : ℕ) (d : _) (e : Job)
        → place < length jobs.items
        → IfOk (slice_index_or results.items place d) (IsShiftOf (rule_of answering) cache.now
        (slice_index_or jobs.items place e) frames.now)) }
{
    let work = |job: Job| -> Result<Shift, OutOfMemory>
        requires { IsSeatOf cache.now job.seat × (length frames.now < 2 ^ 32) }
        ensures { IfOk result
            (IsShiftOf (rule_of answering) cache.entry.now job frames.entry.now) }
    { work_shift(rt, alloc, cache, answering, job, frames, gate) };
    thread::map_vec(rt, jobs, &work)
}

// Each seat with its place, since a seat doesn't tell its number.
fn jobs_of(alloc: Global, seats: Vec<CacheSeat>) -> Result<Vec<Job>, OutOfMemory>
    ensures seats { IfOk result (λ jobs. map (λ job. job.seat) jobs.items ≡ seats.items) }
    ensures places { IfOk result (λ jobs. ArePlaced jobs.items) }
{
    let mut jobs = Vec::new(alloc);
    for seat in seats {
        let worker = jobs.len();
        jobs.push(Job { worker, seat })?;
    }
    Ok(jobs)
}

// What the workers left, where all had memory.
fn all_shifts(
    alloc: Global,
    results: Vec<Result<Shift, OutOfMemory>>,
) -> Result<Vec<Shift>, OutOfMemory>
    ensures { IfOk result (λ shifts. results.items ≡ map (λ shift. Ok shift) shifts.items) }
{
    let mut shifts = Vec::new(alloc);
    for result in results {
        let shift = result?;
        shifts.push(shift)?;
    }
    Ok(shifts)
}

// The seats, and what was written over each.
fn split(alloc: Global, shifts: Vec<Shift>) -> Result<(Vec<CacheSeat>, Outputs), OutOfMemory>
    ensures seats { IfOk result
        (λ done. done.0.items ≡ map (λ shift. shift.seat) shifts.items) }
    ensures parts { IfOk result
        (λ done. done.1 ≡ map part_of shifts.items) }
{
    let mut seats = Vec::new(alloc);
    let mut parts = Vec::new(alloc);
    for shift in shifts {
        let Shift { seat, octets, cuts } = shift;
        seats.push(seat)?;
        parts.push(OnePart { octets, cuts })?;
    }
    Ok((seats, Outputs::of(parts)))
}
