//! How long what is stored is told.

use super::replays::{Ended, replayed_otherwise};
use dname::OutOfMemory;
use std::alloc::Global;
use std::sync::Wait;
use std::test::Fail;
use std::thread::Threads;

// An upstream answer at 1,000,000,000 seconds, up to its NSEC record's TTL. The NSEC shows that a.example has A alone; the
// SOA lives for an hour, and its MINIMUM is 300 seconds.
const UPSTREAM: &[u8] = b"\
    \x02\x00;\x9a\xca\x00\x00\xd2\
    \x00\x01\x81\xa0\x00\x01\x00\x00\x00\x04\x00\x00\
    \x01a\x07example\x00\x00\x10\x00\x01\
    \x07example\x00\x00\x06\x00\x01\x00\x00\x0e\x10\x00\x16\x00\x00\x00\x00\x00\x01\x00\x00\x0e\x10\x00\x00\x02X\x00\x01Q\x80\x00\x00\x01,\
    \x07example\x00\x00.\x00\x01\x00\x00\x0e\x10\x00\x1f\x00\x06\x0d\x01\x00\x00\x0e\x10w5\x94\x005\xa4\xe9\x00\x00\x01\x07example\x00ZZZZ\
    \x01a\x07example\x00\x00/\x00\x01";

// What follows the TTL.
const AFTER_TTL: &[u8] = b"\
    \x00\x13\x01b\x07example\x00\x00\x06@\x00\x00\x00\x00\x03\x01a\
    \x07example\x00\x00.\x00\x01\x00\x00\x0e\x10\x00\x1f\x00/\x0d\x02\x00\x00\x0e\x10w5\x94\x005\xa4\xe9\x00\x00\x01\x07example\x00ZZZZ";

// A query for A.Example TXT, after its moment.
const MIXED_QUERY: &[u8] = b"\
    \x00\x1b\
    \x124\x01\x00\x00\x01\x00\x00\x00\x00\x00\x00\
    \x01A\x07Example\x00\x00\x10\x00\x01";

// The batch is version 1.
const STORED: &[u8] = b"\
    \x03\x00\x00\x00\x00\x01\x00\x04\x00\x02\x00\x00";

// Nothing is proved at version 1.
const FORWARD: &[u8] = b"\x02\x00\x00\x00\x00\x01\x00\x00";

// The reply, up to its TTL.
const DENIED: &[u8] = b"\
    \x01\x00\x00\x00\x00\x01\x00D\
    \x124\x81\x80\x00\x01\x00\x00\x00\x01\x00\x00\
    \x01A\x07Example\x00\x00\x10\x00\x01\
    \x07example\x00\x00\x06\x00\x01";

const AFTER_REPLY_TTL: &[u8] = b"\
    \x00\x16\x00\x00\x00\x00\x00\x01\x00\x00\x0e\x10\x00\x00\x02X\x00\x01Q\x80\x00\x00\x01,";

// How a replay ends of that answer with this TTL of the NSEC and of the query so many seconds after, and what it writes, unless
// it ends well and writes this.
fn asked_otherwise<R: Threads + Wait + Sync>(
    rt: &R,
    alloc: Global,
    nsec_ttl: u32,
    seconds: u32,
    expected: &[&[u8]],
) -> Result<Option<Ended>, OutOfMemory> {
    let ttl = nsec_ttl.to_be_bytes();
    let now = 1_000_000_000_u32.wrapping_add(seconds).to_be_bytes();
    let input: [&[u8]; 6] = [UPSTREAM, &ttl, AFTER_TTL, b"\x01\x00", &now, MIXED_QUERY];
    replayed_otherwise(rt, alloc, &input, expected)
}

// The TTL of the NSEC, how many seconds after it the query comes, and the reply's TTL, or none where the query is forwarded.
const LIVES: [(u32, u32, Option<u32>); 7] = [
    (3600, 10, Some(300)),
    (3600, 3300, Some(300)),
    (3600, 3301, Some(299)),
    (3600, 3599, Some(1)),
    (3600, 3600, None),
    // The SOA outlives the NSEC.
    (1800, 1799, Some(1)),
    (1800, 1800, None),
];

// How a row's replay ends and what it writes, unless it is what the row says.
fn life_otherwise<R: Threads + Wait + Sync>(
    rt: &R,
    alloc: Global,
    row: &(u32, u32, Option<u32>),
) -> Result<Option<Ended>, OutOfMemory> {
    match row.2 {
        Some(ttl) => {
            let octets = ttl.to_be_bytes();
            let expected: [&[u8]; 4] = [STORED, DENIED, &octets, AFTER_REPLY_TTL];
            asked_otherwise(rt, alloc, row.0, row.1, &expected)
        }
        None => asked_otherwise(rt, alloc, row.0, row.1, &[STORED, FORWARD]),
    }
}

// The first row that is told otherwise, and how.
fn told_otherwise<R: Threads + Wait + Sync>(
    rt: &R,
    alloc: Global,
    rows: &[(u32, u32, Option<u32>)],
) -> Result<Option<(usize, Ended)>, OutOfMemory> {
    for (i, row) in rows.iter().enumerate() {
        if let Some(found) = life_otherwise(rt, alloc, row)? {
            return Ok(Some((i, found)));
        }
    }
    Ok(None)
}

#[test]
fn a_type_is_denied_as_long_as_its_records_live(rt: HostRuntime) -> Result<(), Fail> {
    let wrong = told_otherwise(&rt, rt.alloc(), &LIVES)?;
    assert!(rt; wrong.is_none(), "{wrong:?}");
    Ok(())
}

// One record is stored and one is skipped.
const SOA_STORED: &[u8] = b"\x03\x00\x00\x00\x00\x01\x00\x04\x00\x01\x00\x01";

// An NSEC that isn't stored, since it lives for no second, is skipped; the SOA is stored.
#[test]
fn what_lives_for_no_second_is_skipped(rt: HostRuntime) -> Result<(), Fail> {
    let expected = [SOA_STORED, FORWARD];
    let wrong = asked_otherwise(&rt, rt.alloc(), 0, 10, &expected)?;
    assert!(rt; wrong.is_none(), "{wrong:?}");
    let wrong = asked_otherwise(&rt, rt.alloc(), 0x8000_0000, 10, &expected)?;
    assert!(rt; wrong.is_none(), "{wrong:?}");
    Ok(())
}
