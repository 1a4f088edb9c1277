//! Seats of one cache. What they read is what RFC 8198 makes of the batches that were placed.
ghost use Rattle.std.specs.Prelude.{All, IfOk};
ghost use Rattle.resolver.specs.Caches.{IsFreshSeat, IsSeatOf};

use crate::records::{ZONE, nsec, set};
use denial_records::{Batch, RecordList};
use dnswire::{QueryRead, Question, read_query};
use reply_core::ReplyBuffer;
use resolver::{CacheFault, CacheSeat, Outcome, SharedCache};
use std::alloc::Global;
use std::sync::Wait;
use std::test::Fail;

const THEN: u32 = 1_000_000_000;

const HOUR: u64 = 1_000_003_600;

const A: &[u8] = b"\x01a\x07example\x00";

const B: &[u8] = b"\x01b\x07example\x00";

const C: &[u8] = b"\x01c\x07example\x00";

const D: &[u8] = b"\x01d\x07example\x00";

const E: &[u8] = b"\x01e\x07example\x00";

// A, RRSIG and NSEC.
const HOST: &[u8] = b"\x00\x06\x40\x00\x00\x00\x00\x03";

// A.Example TXT, in a query without OPT, and the reply that there is no data: the SOA, with its MINIMUM as TTL.
const QUERY: &[u8] =
    b"\x12\x34\x01\x00\x00\x01\x00\x00\x00\x00\x00\x00\x01A\x07Example\x00\x00\x10\x00\x01";

const NO_DATA: &[u8] =
    b"\x12\x34\x81\x80\x00\x01\x00\x00\x00\x01\x00\x00\x01A\x07Example\x00\x00\x10\x00\x01\x07example\x00\x00\x06\x00\x01\x00\x00\x01\x2c\x00\x16\x00\x00\x00\x00\x00\x01\x00\x00\x0e\x10\x00\x00\x02\x58\x00\x01\x51\x80\x00\x00\x01\x2c";

// The number of a version, and how many records it holds.
type Sight = (u64, usize);

// The zone's SOA, and an NSEC record for each owner and next.
fn batch(alloc: Global, arcs: &[(&[u8], &[u8])]) -> Result<Batch, Fail> {
    let mut records = RecordList::empty(alloc);
    records.push(set(alloc, ZONE, 6, 3600, HOUR)?)?;
    for (owner, next) in arcs {
        records.push(nsec(alloc, owner, next, HOST, 3600, HOUR)?)?;
    }
    Ok(Batch { now: THEN, records })
}

fn look(cache: &SharedCache, seat: &mut CacheSeat) -> Sight
    requires { IsSeatOf cache.now seat.old }
    ensures { IsSeatOf cache.now seat.new }
{
    let version = cache.read(seat);
    (version.number(), version.state().len())
}

fn own_batches<R: Wait>(
    rt: &R,
    alloc: Global,
    cache: &SharedCache,
    seat: CacheSeat,
    older: Batch,
    newer: Batch,
) -> Result<Sight, CacheFault>
    requires { IsSeatOf cache.now seat }
{
    let mut seat = seat;
    cache.insert(rt, alloc, &mut seat, &older)?;
    cache.insert(rt, alloc, &mut seat, &newer)?;
    Ok(look(cache, &mut seat))
}

// One of the seats that no call was made with.
fn unused(cache: &SharedCache, seats: &mut Vec<CacheSeat>) -> Result<CacheSeat, CacheFault>
    requires { All (IsFreshSeat cache.now) seats.old.items }
    ensures seat { IfOk result (IsSeatOf cache.now) }
    ensures rest { All (IsFreshSeat cache.now) seats.new.items }
{
    match seats.pop() {
        Some(seat) => Ok(seat),
        None => Err(CacheFault::OutOfMemory),
    }
}

fn place<R: Wait>(
    rt: &R,
    alloc: Global,
    cache: &SharedCache,
    seat: CacheSeat,
    batch: Batch,
) -> Result<(), CacheFault>
    requires { IsSeatOf cache.now seat }
{
    let mut seat = seat;
    cache.insert(rt, alloc, &mut seat, &batch)?;
    Ok(())
}

// What two seats find after a third placed the batch: the one looks and the other asks.
fn found<R: Wait>(
    rt: &R,
    alloc: Global,
    cache: &SharedCache,
    seats: Vec<CacheSeat>,
    batch: Batch,
    question: &Question,
    reply: &mut ReplyBuffer,
) -> Result<(Sight, Outcome), CacheFault>
    requires { All (IsFreshSeat cache.now) seats.items }
{
    let mut seats = seats;
    let zero = unused(cache, &mut seats)?;
    let mut one = unused(cache, &mut seats)?;
    let mut two = unused(cache, &mut seats)?;
    place(rt, alloc, cache, zero, batch)?;
    let sight = look(cache, &mut one);
    Ok((sight, cache.query(&mut two, question, THEN + 10, reply)))
}

// The newer record takes the place of both that it meets.
#[test]
fn a_seat_reads_what_it_inserted(rt: HostRuntime) -> Result<(), Fail> {
    let alloc = rt.alloc();
    let older = batch(alloc, &[(A, C), (C, E)])?;
    let newer = batch(alloc, &[(B, D)])?;
    let (cache, mut seats) = SharedCache::with_seats(&rt, alloc, 1)?;
    let seen = match seats.pop() {
        Some(seat) => own_batches(&rt, alloc, &cache, seat, older, newer),
        None => Err(CacheFault::OutOfMemory),
    };
    cache.give_up(&rt);
    assert!(rt; seen == Ok((2, 2)), "{seen:?}");
    Ok(())
}

#[test]
fn each_seat_reads_what_one_inserted(rt: HostRuntime) -> Result<(), Fail> {
    let alloc = rt.alloc();
    let QueryRead::Query(question) = read_query(QUERY) else {
        return Err("not a query")?;
    };
    let batch = batch(alloc, &[(A, B)])?;
    let mut reply = ReplyBuffer::new();
    let (cache, seats) = SharedCache::with_seats(&rt, alloc, 3)?;
    let seen = found(&rt, alloc, &cache, seats, batch, &question, &mut reply);
    cache.give_up(&rt);
    assert!(rt;
        seen == Ok(((1, 2), Outcome::Answered { version: 1 })),
        "{seen:?}"
    );
    assert!(rt; reply.as_slice() == NO_DATA, "{:?}", reply.as_slice());
    Ok(())
}
