//! Upstream answers that are damaged or at their largest, and memory that is refused.
ghost use Rattle.std.specs.Prelude.{All};
ghost use Rattle.resolver.specs.Caches.{IsFreshSeat, IsSeatOf};

use super::replays::{Ended, joined, otherwise, replayed};
use dname::OutOfMemory;
use intake::batch_of;
use resolver::{CacheSeat, SharedCache};
use running::Status;
use std::alloc::Global;
use std::sync::Wait;
use std::test::Fail;
use std::thread::Threads;

// A response without errors and with AD, of one question and four records; the question is a.example TXT.
const FRONT: &[u8] = b"\
    \x00\x01\x81\xa0\x00\x01\x00\x00\x00\x04\x00\x00\
    \x01a\x07example\x00\x00\x10\x00\x01";

// The zone's SOA with its RRSIG.
const SOA: &[u8] = b"\
    \x07example\x00\x00\x06\x00\x01\x00\x00\x0e\x10\x00\x16\x00\x00\x00\x00\x00\x01\x00\x00\x0e\x10\x00\x00\x02X\x00\x01Q\x80\x00\x00\x01,\
    \x07example\x00\x00.\x00\x01\x00\x00\x0e\x10\x00\x1f\x00\x06\x0d\x01\x00\x00\x0e\x10w5\x94\x005\xa4\xe9\x00\x00\x01\x07example\x00ZZZZ";

// The NSEC record of a.example up to the length of its data, and its RRSIG.
const NSEC: &[u8] = b"\x01a\x07example\x00\x00/\x00\x01\x00\x00\x0e\x10";

const NSEC_SIGNATURE: &[u8] = b"\
    \x01a\x07example\x00\x00.\x00\x01\x00\x00\x0e\x10\x00\x1f\x00/\x0d\x02\x00\x00\x0e\x10w5\x94\x005\xa4\xe9\x00\x00\x01\x07example\x00ZZZZ";

// It goes to b.example and has A, RRSIG and NSEC.
const NSEC_DATA: &[u8] = b"\x00\x13\x01b\x07example\x00\x00\x06@\x00\x00\x00\x00\x03";

const MALFORMED: &[u8] = b"\x04\x00\x00\x00\x00\x00\x00\x01\x01";

// Both records are stored, which makes version 1.
const STORED: &[u8] = b"\x03\x00\x00\x00\x00\x01\x00\x04\x00\x02\x00\x00";

// Puts a frame of an upstream answer at 1,000,000,000 seconds at the end.
fn put_answer(input: &mut Vec<u8>, message: &[u8]) -> Result<(), OutOfMemory> {
    input.extend_from_slice(b"\x02\x00;\x9a\xca\x00")?;
    input.extend_from_slice(&((message.len() % 0x1_0000) as u16).to_be_bytes())?;
    input.extend_from_slice(message)
}

fn stored_message(alloc: Global) -> Result<Vec<u8>, OutOfMemory> {
    joined(alloc, &[FRONT, SOA, NSEC, NSEC_DATA, NSEC_SIGNATURE])
}

// How a replay ends of each front of the message and then of the whole, and what it writes, unless each front is malformed and
// the whole is stored.
fn truncated_otherwise<R: Threads + Wait + Sync>(
    rt: &R,
    alloc: Global,
    message: &[u8],
) -> Result<Option<Ended>, OutOfMemory> {
    let mut input = Vec::new(alloc);
    let mut expected = Vec::new(alloc);
    for size in 0..message.len() {
        put_answer(&mut input, &message[..size])?;
        expected.extend_from_slice(MALFORMED)?;
    }
    put_answer(&mut input, message)?;
    expected.extend_from_slice(STORED)?;
    let found = replayed(rt, alloc, &input, &[], &[])?;
    Ok(otherwise(found, Status::Good, &expected))
}

#[test]
fn each_truncated_answer_is_malformed(rt: HostRuntime) -> Result<(), Fail> {
    let message = stored_message(rt.alloc())?;
    assert!(rt; message.len() == 210, "{message:?}");
    let wrong = truncated_otherwise(&rt, rt.alloc(), &message)?;
    assert!(rt; wrong.is_none(), "{wrong:?}");
    Ok(())
}

// The stored answer with every type of every window in its map, but for the map's last octet (RFC 4034, section 4.1.2).
fn with_longest_map(alloc: Global, last: u8) -> Result<Vec<u8>, OutOfMemory> {
    let mut message = joined(alloc, &[FRONT, SOA, NSEC, b"\x22\x0b\x01b\x07example\x00"])?;
    for window in 0..=255 {
        message.push(window)?;
        message.push(32)?;
        for _ in 0..31 {
            message.push(0xff)?;
        }
        message.push(if window < 255 { 0xff } else { last })?;
    }
    message.extend_from_slice(NSEC_SIGNATURE)?;
    Ok(message)
}

// An answer of one NSEC3 record of the zone, signed, with a salt of 255 octets and so many iterations.
fn with_longest_salt(alloc: Global, iterations: u8) -> Result<Vec<u8>, OutOfMemory> {
    let mut message = joined(
        alloc,
        &[
            b"\x00\x01\x81\xa0\x00\x01\x00\x00\x00\x02\x00\x00\x01a\x07example\x00\x00\x10\x00\x01",
            b"\x200p9mhaveqvm6t7vbl5lop2u3t2rp3tom\x07example\x00\x002\x00\x01\x00\x00\x0e\x10\x01\x22\x01\x00\x00",
        ],
    )?;
    message.push(iterations)?;
    message.push(255)?;
    for octet in 0..255 {
        message.push(octet)?;
    }
    message.extend_from_slice(
        b"\x14\x17\x4e\xb2\x40\x9f\xe2\x8b\xcb\x48\x87\xa1\x83\x6f\x95\x7f\x0a\x84\x25\xe2\x7b\x00\x07\x22\x01\x00\x00\x00\x02\x90",
    )?;
    message.extend_from_slice(
        b"\x200p9mhaveqvm6t7vbl5lop2u3t2rp3tom\x07example\x00\x00.\x00\x01\x00\x00\x0e\x10\x00\x1f\x002\x0d\x02\x00\x00\x0e\x10w5\x94\x005\xa4\xe9\x00\x00\x01\x07example\x00ZZZZ",
    )?;
    Ok(message)
}

// An answer of one A record without a signature, whose owner is one label of this size before the question's name, which has
// 250 octets.
fn with_long_owner(alloc: Global, size: u8) -> Result<Vec<u8>, OutOfMemory> {
    let mut message = Vec::from_slice(alloc, b"\x00\x01\x81\xa0\x00\x01\x00\x01\x00\x00\x00\x00")?;
    for label in [63, 63, 63, 56] {
        message.push(label)?;
        for _ in 0..label {
            message.push(b'x')?;
        }
    }
    message.extend_from_slice(b"\x00\x00\x01\x00\x01")?;
    message.push(size)?;
    for _ in 0..size {
        message.push(b'y')?;
    }
    message.extend_from_slice(b"\xc0\x0c\x00\x01\x00\x01\x00\x00\x0e\x10\x00\x04\xc0\x00\x02\x01")?;
    Ok(message)
}

// What an answer has at its largest, or is one too large.
#[derive(Clone, Copy, Debug)]
enum Large {
    // The map's last octet.
    Map(u8),
    // The iterations.
    Salt(u8),
    // The size of the owner's first label.
    Owner(u8),
}

fn large_answer(alloc: Global, large: Large) -> Result<Vec<u8>, OutOfMemory> {
    match large {
        Large::Map(last) => with_longest_map(alloc, last),
        Large::Salt(iterations) => with_longest_salt(alloc, iterations),
        Large::Owner(size) => with_long_owner(alloc, size),
    }
}

const LARGEST: [(Large, &[u8]); 6] = [
    (Large::Map(0xff), STORED),
    // The map ends in an octet of zeros: the NSEC is skipped.
    (
        Large::Map(0),
        b"\x03\x00\x00\x00\x00\x01\x00\x04\x00\x01\x00\x01",
    ),
    (
        Large::Salt(50),
        b"\x03\x00\x00\x00\x00\x01\x00\x04\x00\x01\x00\x00",
    ),
    // More iterations than are taken: there is nothing to store.
    (Large::Salt(51), b"\x04\x00\x00\x00\x00\x00\x00\x01\x05"),
    // A name of 255 octets is read, and the record has no signature; one of 256 isn't.
    (Large::Owner(4), b"\x04\x00\x00\x00\x00\x00\x00\x01\x05"),
    (Large::Owner(5), MALFORMED),
];

// The first row whose answer is told otherwise, and how.
fn large_otherwise<R: Threads + Wait + Sync>(
    rt: &R,
    alloc: Global,
    rows: &[(Large, &[u8])],
) -> Result<Option<(Large, Ended)>, OutOfMemory> {
    for (large, expected) in rows.iter() {
        let message = large_answer(alloc, *large)?;
        let mut input = Vec::new(alloc);
        put_answer(&mut input, &message)?;
        let found = replayed(rt, alloc, &input, &[], &[])?;
        if let Some(found) = otherwise(found, Status::Good, expected) {
            return Ok(Some((*large, found)));
        }
    }
    Ok(None)
}

#[test]
fn the_largest_parts_are_read_and_no_larger(rt: HostRuntime) -> Result<(), Fail> {
    let wrong = large_otherwise(&rt, rt.alloc(), &LARGEST)?;
    assert!(rt; wrong.is_none(), "{wrong:?}");
    Ok(())
}

// The number of a version, and how many records it holds.
type Sight = (u64, usize);

fn look(cache: &SharedCache, seat: &mut CacheSeat) -> Sight
    requires { IsSeatOf cache.now seat.old }
    ensures { IsSeatOf cache.now seat.new }
{
    let version = cache.read(seat);
    (version.number(), version.state().len())
}

// What a look shows after the stored answer was inserted, or refused for want of memory: then what it showed before.
fn look_after<R: Wait>(
    rt: &R,
    alloc: Global,
    cache: &SharedCache,
    seat: &mut CacheSeat,
    message: &[u8],
    before: Sight,
) -> Result<Sight, Fail>
    requires { IsSeatOf cache.now seat.old }
    ensures { IsSeatOf cache.now seat.new }
{
    let Ok(taken) = batch_of(alloc, message, 1_000_000_000) else {
        return Ok(before);
    };
    let placed = cache.insert(rt, alloc, seat, &taken.batch).is_ok();
    let sight = look(cache, seat);
    let wanted = if placed {
        (before.0.wrapping_add(1), 2)
    } else {
        before
    };
    if sight != wanted {
        return Err("a look shows another version")?;
    }
    Ok(sight)
}

fn look_after_three<R: Wait>(
    rt: &R,
    alloc: Global,
    cache: &SharedCache,
    seats: Vec<CacheSeat>,
    message: &[u8],
) -> Result<Sight, Fail>
    requires { All (IsFreshSeat cache.now) seats.items }
{
    let mut seats = seats;
    let Some(mut seat) = seats.pop() else {
        return Err("no seat")?;
    };
    let first = look_after(rt, alloc, cache, &mut seat, message, (0, 0))?;
    let second = look_after(rt, alloc, cache, &mut seat, message, first)?;
    look_after(rt, alloc, cache, &mut seat, message, second)
}

// With memory all three are placed. `tools/dnsreplay-tools hostile runs` runs it with each growth refused in turn, and then two are.
#[test]
fn a_refused_insert_shows_the_version_from_before(rt: HostRuntime) -> Result<(), Fail> {
    let alloc = rt.alloc();
    let message = stored_message(alloc)?;
    let (cache, seats) = SharedCache::with_seats(&rt, alloc, 1)?;
    let seen = look_after_three(&rt, alloc, &cache, seats, &message);
    cache.give_up(&rt);
    let (number, held) = seen?;
    assert!(rt;
        (number == 2 || number == 3) && held == 2,
        "{number} {held}"
    );
    Ok(())
}
