//! The command `forward`.
ghost use Rattle.std.specs.Prelude.{◌≡◌, ◌≤◌, ◌++◌, false, true, All, length, map, IfOk, IfSome, OnOk};
ghost use Rattle.command_line.specs.declared.command.Command.TheVariants.{Forward};
ghost use Rattle.outside_core.specs.Fault.{Rose};
ghost use Rattle.resolver.specs.Caches.{IsSeatOf};
ghost use Rattle.forwarding.specs.Lawful.{IsNew};
ghost use Rattle.running.specs.Forward.{ArePassedFor, IsOfForward, IsWant, is_want};

mod board;
mod operator;
mod outlet_fault;
mod outlets;
mod reporter;
mod row;
mod shown;
mod socket_outlet;
mod socket_outlets;
mod start;
mod status_file;
mod system_ids;
mod worker;

use crate::forward::reporter::Reporter;
use crate::forward::start::Start;
use crate::forward::worker::ForwardWorker;
use crate::status::Status;
pub(crate) use board::Board;
use command_line::ForwardSettings;
use dname::{Name, OutOfMemory};
use forwarding::{Outlet, PassedNames};
pub use operator::Operator;
pub use outlet_fault::OutletFault;
pub use outlets::Outlets;
use resolver::{CacheSeat, SharedCache};
pub use shown::Shown;
pub(crate) use socket_outlets::SocketOutlets;
use std::alloc::Global;
use std::sync::Wait;
use std::thread;
use std::thread::Threads;

/// Opens the outlets, and serves over them without end, each worker on a thread of its own and all over one new cache. It returns
/// only where that can't begin. What stood in the way is told to the operator, unless it was want of memory.
pub(crate) fn run_forward<R: Threads + Wait + Sync, O: Outlets>(
    rt: &R,
    alloc: Global,
    settings: &ForwardSettings,
    outlets: &mut O,
) -> Status
    requires asked { IfSome (O.Outlets.asked outlets.old) (λ command.
        command ≡ Forward settings.now) }
    requires few { length settings.now.listens ≤ 8 }
    requires workers { (1 ≤ settings.now.workers) × (settings.now.workers ≤ 32) }
    ensures ends { IsOfForward result }
    ensures unopened { result ≡ Status.ListenFault
        → O.Outlets.is_open outlets.new ≡ O.Outlets.is_open outlets.old }
    ensures fault { result ≡ Status.ListenFault
        → Rose (O.Outlets.faults outlets.old) (O.Outlets.faults outlets.new) }
    ensures no_fault { IsWant result
        → O.Outlets.faults outlets.new ≡ O.Outlets.faults outlets.old }
{
    let Ok(passed) = passed_names(alloc, settings) else {
        return Status::OutOfMemory;
    };
    match outlets.open(alloc, settings, &passed) {
        Ok(opened) => serve_over(rt, alloc, settings, &passed, opened, outlets),
        Err(fault) => unopened(outlets, fault),
    }
}

// Tells the operator why outlets can't be opened, unless it is want of memory.
fn unopened<O: Operator>(operator: &O, fault: OutletFault) -> Status
    ensures ends { IsOfForward result }
    ensures refused { result ≡ Status.ListenFault → is_want fault ≡ false }
    ensures want { IsWant result → is_want fault ≡ true }
{
    if fault.is_want() {
        return Status::OutOfMemory;
    }
    operator.tell(format_args!("dnsreplay: {fault}\n"));
    Status::ListenFault
}

// Serves over the outlets and a new cache.
fn serve_over<R: Threads + Wait + Sync, U: Outlet + Send + Drop, O: Outlets>(
    rt: &R,
    alloc: Global,
    settings: &ForwardSettings,
    passed: &PassedNames,
    opened: Vec<U>,
    outlets: &O,
) -> Status
    requires workers { (1 ≤ settings.now.workers) × (settings.now.workers ≤ 32) }
    requires all { length opened.items ≡ settings.now.workers }
    requires new { All (λ outlet. IsNew passed.now (U.Outlet.told outlet)) opened.items }
    ensures { IsWant result }
{
    let Ok(reporter) = Reporter::of(alloc, settings, outlets) else {
        return Status::OutOfMemory;
    };
    let Ok((cache, seats)) = SharedCache::with_seats(rt, alloc, settings.workers) else {
        return Status::OutOfMemory;
    };
    let ended = match workers_of(alloc, seats, opened) {
        Ok(workers) => serve_all(rt, alloc, &cache, passed, workers, outlets, reporter),
        Err(_) => Status::OutOfMemory,
    };
    cache.give_up(rt);
    ended
}

// The resolver's own names, and then those of the settings.
fn passed_names(alloc: Global, settings: &ForwardSettings) -> Result<PassedNames, OutOfMemory>
    ensures { IfOk result (ArePassedFor settings.now.passes) }
{
    let mut passed = PassedNames::own(alloc)?;
    pass_all(&mut passed, settings.passes.as_slice())?;
    Ok(passed)
}

fn pass_all(passed: &mut PassedNames, names: &[Name]) -> Result<(), OutOfMemory>
    ensures { OnOk result (passed.new ≡ passed.old ++ names.now) }
{
    for name in names {
        passed.pass(name.copy())?;
    }
    Ok(())
}

// A worker for each seat, with the outlet at its place.
fn workers_of<U: Outlet + Drop>(
    alloc: Global,
    seats: Vec<CacheSeat>,
    opened: Vec<U>,
) -> Result<Vec<ForwardWorker<U>>, OutOfMemory>
    requires all { length opened.items ≡ length seats.items }
    ensures seats { IfOk result (λ workers.
        map (λ worker. worker.seat) workers.items ≡ seats.items) }
    ensures outlets { IfOk result (λ workers.
        map (λ worker. worker.outlet) workers.items ≡ opened.items) }
{
    let mut workers = Vec::with_capacity(alloc, seats.len())?;
    let mut opened = opened.into_iter();
    for seat in seats {
        match opened.next() {
            Some(outlet) => workers.push(ForwardWorker::new(alloc, seat, outlet)?)?,
            None => unreachable!(),
        }
    }
    Ok(workers)
}

// Starts a thread for each worker. Once all are there they begin, and this one reports.
fn serve_all<R: Threads + Wait + Sync, U: Outlet + Send + Drop, O: Outlets>(
    rt: &R,
    alloc: Global,
    cache: &SharedCache,
    passed: &PassedNames,
    workers: Vec<ForwardWorker<U>>,
    outlets: &O,
    reporter: Reporter<'_>,
) -> Status
    requires object { All (λ worker. IsSeatOf cache.now worker.seat) workers.items }
    requires new { All (λ worker. IsNew passed.now (U.Outlet.told worker.outlet))
        workers.items }
    ensures { result ≡ Status.ThreadFault }
{
    let start = &Start::new();
    let ids = outlets.ids();
    thread::scope(
        thread::scope_env(),
        rt,
        move |scope| -> Status
            requires { All (λ worker. IsSeatOf cache.now worker.seat) workers.items
                × All (λ worker. IsNew passed.now (U.Outlet.told worker.outlet)) workers.items }
            ensures { result ≡ Status.ThreadFault }
        {
            for worker in workers {
                let work = move ||
                    requires { IsSeatOf cache.now worker.seat
                        × IsNew passed.now (U.Outlet.told worker.outlet) }
                { worker.serve_from(rt, alloc, cache, passed, ids, start) };
                if scope.spawn(work).is_err() {
                    start.leave(rt);
                    return no_thread(outlets);
                }
            }
            start.begin(rt);
            reporter.report(rt, alloc, outlets);
            unreachable!()
        },
    )
}

// Tells the operator that a thread can't be started.
fn no_thread<O: Operator>(operator: &O) -> Status
    ensures { result ≡ Status.ThreadFault }
{
    operator.tell("dnsreplay: a thread can't be started\n");
    Status::ThreadFault
}
