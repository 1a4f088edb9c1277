//! All workers, each on a thread of its own.
ghost use Rattle.std.specs.Prelude.{◌≡◌, ℕ, ◌<◌, ◌≤◌, [], All, IfOk, length, map, slice_index_or, vec_capacity};
ghost use Rattle.resolver.specs.Caches.{IsSeatOf};
ghost use Rattle.serving.specs.Workers.{HasWorkedOver, HaveEnded, IsWorst, worse};

use crate::ServeFault;
use crate::bound_link::BoundLink;
use crate::worker::Worker;
use dname::OutOfMemory;
use outside_core::{Clock, Link};
use resolver::{CacheSeat, SharedCache};
use std::alloc::Global;
use std::sync::Wait;
use std::thread;
use std::thread::Threads;

/// Room for the workers, and for the seats and links that they leave.
#[derive(Drop)]
pub(crate) struct Room<L: Link> {
    workers: Vec<Worker<L>>,
    seats: Vec<CacheSeat>,
    links: Vec<BoundLink<L>>,
}

/// Room for so many workers.
pub(crate) fn room_for<L: Link + Drop>(alloc: Global, count: usize) -> Result<Room<L>, OutOfMemory>
    ensures workers { IfOk result (λ room.
        (room.workers.items ≡ []) × (count ≤ vec_capacity room.workers)) }
    ensures seats { IfOk result (λ room.
        (room.seats.items ≡ []) × (count ≤ vec_capacity room.seats)) }
    ensures links { IfOk result (λ room.
        (room.links.items ≡ []) × (count ≤ vec_capacity room.links)) }
{
    Ok(Room {
        workers: Vec::with_capacity(alloc, count)?,
        seats: Vec::with_capacity(alloc, count)?,
        links: Vec::with_capacity(alloc, count)?,
    })
}

/// What all workers leave, and how the worst of their work has ended.
#[derive(Drop)]
pub(crate) struct AllEnded<L: Link> {
    pub(crate) seats: Vec<CacheSeat>,
    pub(crate) links: Vec<BoundLink<L>>,
    pub(crate) ended: Result<(), ServeFault>,
}

/// Each worker serves over the seat and the link at its place, on a thread of its own. Where a thread can't be started, its work
/// is done by the caller. After a fault of one the others go on to their own end. All memory but that of the workers was taken before.
pub(crate) fn serve_all<R: Threads + Wait + Sync, L: Link + Send + Drop, C: Clock>(
    rt: &R,
    alloc: Global,
    cache: &SharedCache,
    seats: Vec<CacheSeat>,
    links: Vec<BoundLink<L>>,
    room: Room<L>,
    clock: &C,
    datagrams: u32,
) -> AllEnded<L>
    requires object { All (IsSeatOf cache.now) seats.items }
    requires all { length links.items ≡ length seats.items }
    requires workers { (room.workers.items ≡ [])
        × (length links.items ≤ vec_capacity room.workers) }
    requires seats { (room.seats.items ≡ [])
        × (length links.items ≤ vec_capacity room.seats) }
    requires links { (room.links.items ≡ [])
        × (length links.items ≤ vec_capacity room.links) }
    ensures { HaveEnded cache.now datagrams (C.Clock.moment clock.now)
        seats.items result.seats.items links.items result.links.items result.ended }
{
    let Room {
        workers,
        seats: seats_left,
        links: links_left,
    } = room;
    let mut workers = workers_of(workers, seats, links);
    serve_each(rt, alloc, cache, &mut workers, clock, datagrams);
    all_ended(workers, seats_left, links_left)
}

// Each seat with its link.
fn workers_of<L: Link + Drop>(
    room: Vec<Worker<L>>,
    seats: Vec<CacheSeat>,
    links: Vec<BoundLink<L>>,
) -> Vec<Worker<L>>
    requires all { length links.items ≡ length seats.items }
    requires empty { room.items ≡ [] }
    requires room { length links.items ≤ vec_capacity room }
    ensures seats { map (λ worker. worker.seat) result.items ≡ seats.items }
    ensures links { map (λ worker. worker.link) result.items ≡ links.items }
{
    let mut workers = room;
    let mut links = links.into_iter();
    for seat in seats {
        match links.next() {
            Some(link) => {
                let ended = Ok(());
                workers.push_reserved(Worker { seat, link, ended });
            }
            None => unreachable!(),
        }
    }
    workers
}

fn serve_each<R: Threads + Wait + Sync, L: Link + Send + Drop, C: Clock>(
    rt: &R,
    alloc: Global,
    cache: &SharedCache,
    workers: &mut [Worker<L>],
    clock: &C,
    datagrams: u32,
)
    requires { All (λ worker. IsSeatOf cache.now worker.seat) workers.old }
    ensures all { length workers.new ≡ length workers.old }
    ensures each { (place : ℕ) (d : _) → place < length workers.old
        → HasWorkedOver cache.now datagrams (C.Clock.moment clock.now)
        (slice_index_or workers.old place d).seat (slice_index_or workers.new place d).seat
        (slice_index_or workers.old place d).link (slice_index_or workers.new place d).link
        (slice_index_or workers.new place d).ended }
{
    let work = |_place: usize, worker: &mut Worker<L>|
        requires { IsSeatOf cache.now worker.old.seat }
        ensures { HasWorkedOver cache.entry.now datagrams (C.Clock.moment clock.entry.now)
            worker.entry.now.seat worker.exit.now.seat worker.entry.now.link worker.exit.now.link
            worker.exit.now.ended }
    { worker.serve(rt, alloc, cache, clock, datagrams) };
    let threads = workers.len().max(1);
    thread::for_each_mut(rt, workers, threads, &work);
}

// The seats and links that the workers leave.
fn all_ended<L: Link + Drop>(
    workers: Vec<Worker<L>>,
    seats: Vec<CacheSeat>,
    links: Vec<BoundLink<L>>,
) -> AllEnded<L>
    requires seats { (seats.items ≡ []) × (length workers.items ≤ vec_capacity seats) }
    requires links { (links.items ≡ []) × (length workers.items ≤ vec_capacity links) }
    ensures seats { result.seats.items ≡ map (λ worker. worker.seat) workers.items }
    ensures links { result.links.items ≡ map (λ worker. worker.link) workers.items }
    ensures ended { IsWorst result.ended (map (λ worker. worker.ended) workers.items) }
{
    let mut seats = seats;
    let mut links = links;
    let mut ended = Ok(());
    for worker in workers {
        let Worker {
            seat,
            link,
            ended: one,
        } = worker;
        seats.push_reserved(seat);
        links.push_reserved(link);
        ended = worse_of(ended, one);
    }
    AllEnded {
        seats,
        links,
        ended,
    }
}

// Want of memory is worse than a link that failed.
fn worse_of(one: Result<(), ServeFault>, other: Result<(), ServeFault>) -> Result<(), ServeFault>
    ensures { result ≡ worse one other }
{
    match (one, other) {
        (Err(ServeFault::OutOfMemory), _) | (_, Err(ServeFault::OutOfMemory)) => {
            Err(ServeFault::OutOfMemory)
        }
        (Err(ServeFault::Link), _) | (_, Err(ServeFault::Link)) => Err(ServeFault::Link),
        (Ok(()), Ok(())) => Ok(()),
    }
}
