//! Two threads that insert and read, and what one thread would have seen.
ghost use Rattle.cache_versions.specs.Shares.{IsOf};

use super::digest::{Many, next};
use crate::{Closed, Placed, Seat, Shared};
use std::alloc::{AllocError, Global};
use std::sync::Wait;
use std::thread::{Threads, join};

// What a thread saw of a version.
#[derive(Clone, Copy)]
struct Sight {
    number: u64,
    value: u64,
}

// The versions that a thread's batches made, and what it saw.
#[derive(Drop)]
struct Done {
    made: Vec<u64>,
    sights: Vec<Sight>,
}

// Inserts a batch and reads, in turn, for as long as there is memory.
fn work<R: Wait>(
    rt: &R,
    alloc: Global,
    shared: &Shared<Many>,
    seat: Seat<Many>,
    batch: u64,
    turns: u32,
) -> (Seat<Many>, Done)
    requires { IsOf shared.now seat }
    ensures { IsOf shared.now result.0 }
{
    let mut seat = seat;
    let mut made = Vec::new(alloc);
    let mut sights = Vec::new(alloc);
    for _ in 0..turns {
        let Ok(Placed { version, note: _ }) = shared.insert(rt, alloc, &mut seat, &batch) else {
            return (seat, Done { made, sights });
        };
        let sight = look(shared, &mut seat);
        if made.push(version).is_err() || sights.push(sight).is_err() {
            return (seat, Done { made, sights });
        }
    }
    (seat, Done { made, sights })
}

fn look(shared: &Shared<Many>, seat: &mut Seat<Many>) -> Sight
    requires { IsOf shared.now seat.old }
    ensures { IsOf shared.now seat.new }
{
    let version = shared.read(seat);
    Sight {
        number: version.number(),
        value: version.state().value,
    }
}

fn both<R: Threads + Wait + Sync>(
    rt: &R,
    alloc: Global,
    shared: &Shared<Many>,
    zero: Seat<Many>,
    one: Seat<Many>,
    turns: u32,
) -> ((Seat<Many>, Done), (Seat<Many>, Done))
    requires { IsOf shared.now zero × IsOf shared.now one }
    ensures { IsOf shared.now result.0.0 × IsOf shared.now result.1.0 }
{
    join(
        rt,
        move || work(rt, alloc, shared, zero, 1, turns),
        move || work(rt, alloc, shared, one, 2, turns),
    )
}

// The states of one thread that takes the batches by the versions that they made: 1 for each of the first list, and 2 for each of
// the second. They end before a version that none made.
fn replayed(
    alloc: Global,
    closed: &Closed<Many>,
    first: &[u64],
    second: &[u64],
) -> Result<Vec<u64>, AllocError> {
    let mut values = Vec::new(alloc);
    let mut value = 0;
    let mut i = 0;
    let mut k = 0;
    values.push(0)?;
    for version in 1..=closed.number() {
        if i < first.len() && first[i] == version {
            value = next(value, 1);
            i += 1;
        } else if k < second.len() && second[k] == version {
            value = next(value, 2);
            k += 1;
        } else {
            return Ok(values);
        }
        values.push(value)?;
    }
    Ok(values)
}

// Whether each version that was seen is that of one thread, and none is lower than the one before.
fn agree(sights: &[Sight], values: &[u64]) -> bool {
    let mut last = 0;
    for sight in sights {
        if sight.number < last || values.get(sight.number as usize) != Some(&sight.value) {
            return false;
        }
        last = sight.number;
    }
    true
}

/// How many batches were placed, of how many versions the threads' batches tell the state, and whether all that the threads saw,
/// and the last state, are what one thread would have seen.
pub fn race<R: Threads + Wait + Sync>(
    rt: &R,
    alloc: Global,
    turns: u32,
) -> Result<(u64, usize, bool), AllocError> {
    let (shared, mut seats) = Shared::with_seats(rt, alloc, Many { value: 0 }, 2)?;
    let (Some(one), Some(zero)) = (seats.pop(), seats.pop()) else {
        shared.give_up(rt);
        return Err(AllocError);
    };
    let ((zero, first), (one, second)) = both(rt, alloc, &shared, zero, one, turns);
    if seats.push(zero).is_err() {
        shared.give_up(rt);
        return Err(AllocError);
    }
    if seats.push(one).is_err() {
        shared.give_up(rt);
        return Err(AllocError);
    }
    let closed = shared.close(rt, seats);
    let values = replayed(
        alloc,
        &closed,
        first.made.as_slice(),
        second.made.as_slice(),
    )?;
    let agreed = agree(first.sights.as_slice(), values.as_slice())
        && agree(second.sights.as_slice(), values.as_slice())
        && values.last() == Some(&closed.state().value);
    Ok((closed.number(), values.len(), agreed))
}
