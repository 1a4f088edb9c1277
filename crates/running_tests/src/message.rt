//! What is written of a frame, as its octets and those before it say.

use super::replays::{Ended, joined, otherwise, replayed, replayed_otherwise};
use dname::OutOfMemory;
use running::Status;
use std::alloc::Global;
use std::sync::Wait;
use std::test::Fail;
use std::thread::Threads;

// A query for a.example TXT with DO, at 1,000,000,010 seconds.
const DNSSEC_QUERY: &[u8] = b"\
    \x01\x00;\x9a\xca\x0a\x00\x26\
    \x124\x01\x00\x00\x01\x00\x00\x00\x00\x00\x01\
    \x01a\x07example\x00\x00\x10\x00\x01\
    \x00\x00)\x04\xd0\x00\x00\x80\x00\x00\x00";

// The SOA and the NSEC of the stored answer, each with its RRSIG, up to and from their TTLs.
const RECORDS: [(&[u8], &[u8]); 4] = [
    (
        b"\x07example\x00\x00\x06\x00\x01",
        b"\x00\x16\x00\x00\x00\x00\x00\x01\x00\x00\x0e\x10\x00\x00\x02X\x00\x01Q\x80\x00\x00\x01,",
    ),
    (
        b"\x07example\x00\x00.\x00\x01",
        b"\x00\x1f\x00\x06\x0d\x01\x00\x00\x0e\x10w5\x94\x005\xa4\xe9\x00\x00\x01\x07example\x00ZZZZ",
    ),
    (
        b"\x01a\x07example\x00\x00/\x00\x01",
        b"\x00\x13\x01b\x07example\x00\x00\x06@\x00\x00\x00\x00\x03",
    ),
    (
        b"\x01a\x07example\x00\x00.\x00\x01",
        b"\x00\x1f\x00/\x0d\x02\x00\x00\x0e\x10w5\x94\x005\xa4\xe9\x00\x00\x01\x07example\x00ZZZZ",
    ),
];

// The records with this TTL.
fn records(alloc: Global, ttl: u32) -> Result<Vec<u8>, OutOfMemory> {
    let mut octets = Vec::new(alloc);
    for (front, back) in RECORDS.iter() {
        octets.extend_from_slice(front)?;
        octets.extend_from_slice(&ttl.to_be_bytes())?;
        octets.extend_from_slice(back)?;
    }
    Ok(octets)
}

// That answer as it is sent without compression, at 1,000,000,000 seconds.
fn stored_answer(alloc: Global) -> Result<Vec<u8>, OutOfMemory> {
    let records = records(alloc, 3600)?;
    joined(
        alloc,
        &[
            b"\x02\x00;\x9a\xca\x00\x00\xd2",
            b"\x00\x01\x81\xa0\x00\x01\x00\x00\x00\x04\x00\x00",
            b"\x01a\x07example\x00\x00\x10\x00\x01",
            &records,
        ],
    )
}

// The reply to the query with DO, of 221 octets, for version 1.
fn dnssec_reply(alloc: Global) -> Result<Vec<u8>, OutOfMemory> {
    let records = records(alloc, 300)?;
    joined(
        alloc,
        &[
            b"\x01\x00\x00\x00\x00\x01\x00\xdd",
            b"\x124\x81\xa0\x00\x01\x00\x00\x00\x04\x00\x01",
            b"\x01a\x07example\x00\x00\x10\x00\x01",
            &records,
            b"\x00\x00)\x04\xd0\x00\x00\x80\x00\x00\x00",
        ],
    )
}

const STORED: &[u8] = b"\x03\x00\x00\x00\x00\x01\x00\x04\x00\x02\x00\x00";

#[test]
fn a_client_with_do_gets_the_proof(rt: HostRuntime) -> Result<(), Fail> {
    let alloc = rt.alloc();
    let answer = stored_answer(alloc)?;
    let reply = dnssec_reply(alloc)?;
    let wrong = replayed_otherwise(&rt, alloc, &[&answer, DNSSEC_QUERY], &[STORED, &reply])?;
    assert!(rt; wrong.is_none(), "{wrong:?}");
    Ok(())
}

// The stored answer with its owner names and the RRSIGs' signers as pointers, and an octet after it.
const COMPRESSED_ANSWER: &[u8] = b"\
    \x02\x00;\x9a\xca\x00\x00\x9e\
    \x00\x01\x81\xa0\x00\x01\x00\x00\x00\x04\x00\x00\
    \x01a\x07example\x00\x00\x10\x00\x01\
    \xc0\x0e\x00\x06\x00\x01\x00\x00\x0e\x10\x00\x16\x00\x00\x00\x00\x00\x01\x00\x00\x0e\x10\x00\x00\x02X\x00\x01Q\x80\x00\x00\x01,\
    \xc0\x0e\x00.\x00\x01\x00\x00\x0e\x10\x00\x18\x00\x06\x0d\x01\x00\x00\x0e\x10w5\x94\x005\xa4\xe9\x00\x00\x01\xc0\x0eZZZZ\
    \xc0\x0c\x00/\x00\x01\x00\x00\x0e\x10\x00\x0c\x01b\xc0\x0e\x00\x06@\x00\x00\x00\x00\x03\
    \xc0\x0c\x00.\x00\x01\x00\x00\x0e\x10\x00\x18\x00/\x0d\x02\x00\x00\x0e\x10w5\x94\x005\xa4\xe9\x00\x00\x01\xc0\x0eZZZZ\
    \xff";

#[test]
fn a_compressed_answer_is_stored_written_out(rt: HostRuntime) -> Result<(), Fail> {
    let alloc = rt.alloc();
    let reply = dnssec_reply(alloc)?;
    let input = [COMPRESSED_ANSWER, DNSSEC_QUERY];
    let wrong = replayed_otherwise(&rt, alloc, &input, &[STORED, &reply])?;
    assert!(rt; wrong.is_none(), "{wrong:?}");
    Ok(())
}

// A frame, and the frame that its own octets give: refused upstream answers, faulty queries, and such as get no reply.
const TOLD: [(&[u8], &[u8]); 16] = [
    // An upstream answer of no octets; a pointer to itself in the question's name; the end within the question.
    (
        b"\x02\x00;\x9a\xca\x00\x00\x00",
        b"\x04\x00\x00\x00\x00\x00\x00\x01\x01",
    ),
    (
        b"\x02\x00;\x9a\xca\x00\x00\x14\x00\x01\x81\xa0\x00\x01\x00\x00\x00\x00\x00\x00\x01a\xc0\x0c\x00\x10\x00\x01",
        b"\x04\x00\x00\x00\x00\x00\x00\x01\x01",
    ),
    (
        b"\x02\x00;\x9a\xca\x00\x00\x0f\x00\x01\x81\xa0\x00\x01\x00\x00\x00\x00\x00\x00\x00\x00\x10",
        b"\x04\x00\x00\x00\x00\x00\x00\x01\x01",
    ),
    // QR is clear; TC is set; AD is clear; there is no record; RCODE 2, with AD and without.
    (
        b"\x02\x00;\x9a\xca\x00\x00\x11\x00\x01\x01\xa0\x00\x01\x00\x00\x00\x00\x00\x00\x00\x00\x10\x00\x01",
        b"\x04\x00\x00\x00\x00\x00\x00\x01\x02",
    ),
    (
        b"\x02\x00;\x9a\xca\x00\x00\x11\x00\x01\x83\xa0\x00\x01\x00\x00\x00\x00\x00\x00\x00\x00\x10\x00\x01",
        b"\x04\x00\x00\x00\x00\x00\x00\x01\x03",
    ),
    (
        b"\x02\x00;\x9a\xca\x00\x00\x11\x00\x01\x81\x80\x00\x01\x00\x00\x00\x00\x00\x00\x00\x00\x10\x00\x01",
        b"\x04\x00\x00\x00\x00\x00\x00\x01\x04",
    ),
    (
        b"\x02\x00;\x9a\xca\x00\x00\x11\x00\x01\x81\xa0\x00\x01\x00\x00\x00\x00\x00\x00\x00\x00\x10\x00\x01",
        b"\x04\x00\x00\x00\x00\x00\x00\x01\x05",
    ),
    (
        b"\x02\x00;\x9a\xca\x00\x00\x11\x00\x01\x81\xa2\x00\x01\x00\x00\x00\x00\x00\x00\x00\x00\x10\x00\x01",
        b"\x04\x00\x00\x00\x00\x00\x00\x01\x07",
    ),
    (
        b"\x02\x00;\x9a\xca\x00\x00\x11\x00\x01\x81\x82\x00\x01\x00\x00\x00\x00\x00\x00\x00\x00\x10\x00\x01",
        b"\x04\x00\x00\x00\x00\x00\x00\x01\x07",
    ),
    // No question; another opcode; a response; eleven octets.
    (
        b"\x01\x00\x00\x00\x00\x00\x00\x0c\xab\xcd\x01\x00\x00\x00\x00\x00\x00\x00\x00\x00",
        b"\x06\x00\x00\x00\x00\x00\x00\x0c\xab\xcd\x81\x81\x00\x00\x00\x00\x00\x00\x00\x00",
    ),
    (
        b"\x01\x00\x00\x00\x00\x00\x00\x0c\xab\xcd\x21\x00\x00\x00\x00\x00\x00\x00\x00\x00",
        b"\x06\x00\x00\x00\x00\x00\x00\x0c\xab\xcd\xa1\x84\x00\x00\x00\x00\x00\x00\x00\x00",
    ),
    (
        b"\x01\x00\x00\x00\x00\x00\x00\x0c\xab\xcd\x81\x00\x00\x00\x00\x00\x00\x00\x00\x00",
        b"\x05\x00\x00\x00\x00\x00\x00\x00",
    ),
    (
        b"\x01\x00\x00\x00\x00\x00\x00\x0b\xab\xcd\x01\x00\x00\x00\x00\x00\x00\x00\x00",
        b"\x05\x00\x00\x00\x00\x00\x00\x00",
    ),
    // An OPT record of version 1.
    (
        b"\x01\x00\x00\x00\x00\x00\x00\x24\x124\x01\x00\x00\x01\x00\x00\x00\x00\x00\x01\x07example\x00\x00\x01\x00\x01\x00\x00)\x04\xd0\x00\x01\x00\x00\x00\x00",
        b"\x06\x00\x00\x00\x00\x00\x00\x24\x124\x81\x80\x00\x01\x00\x00\x00\x00\x00\x01\x07example\x00\x00\x01\x00\x01\x00\x00)\x04\xd0\x01\x00\x00\x00\x00\x00",
    ),
    // A question with an OPT record of version 0 is forwarded.
    (
        b"\x01\x00\x00\x00\x00\x00\x00\x24\x124\x01\x00\x00\x01\x00\x00\x00\x00\x00\x01\x07example\x00\x00\x01\x00\x01\x00\x00)\x04\xd0\x00\x00\x00\x00\x00\x00",
        b"\x02\x00\x00\x00\x00\x00\x00\x00",
    ),
    // So is what glibc 2.36 writes by `res_mkquery` for WWW.Example.com AAAA.
    (
        b"\x01\x00\x00\x00\x00\x00\x00\x21\x5f\xf0\x01\x00\x00\x01\x00\x00\x00\x00\x00\x00\x03WWW\x07Example\x03com\x00\x00\x1c\x00\x01",
        b"\x02\x00\x00\x00\x00\x00\x00\x00",
    ),
];

// The first frame that is told otherwise, and how.
fn told_otherwise<R: Threads + Wait + Sync>(
    rt: &R,
    alloc: Global,
    rows: &[(&[u8], &[u8])],
) -> Result<Option<(usize, Ended)>, OutOfMemory> {
    for (i, (frame, told)) in rows.iter().enumerate() {
        let found = replayed(rt, alloc, frame, &[], &[])?;
        if let Some(found) = otherwise(found, Status::Good, told) {
            return Ok(Some((i, found)));
        }
    }
    Ok(None)
}

// How a replay of all frames ends and what it writes, unless it ends well and tells all of them, one after the other.
fn all_told_otherwise<R: Threads + Wait + Sync>(
    rt: &R,
    alloc: Global,
    rows: &[(&[u8], &[u8])],
) -> Result<Option<Ended>, OutOfMemory> {
    let mut input = Vec::new(alloc);
    let mut expected = Vec::new(alloc);
    for (frame, told) in rows.iter() {
        input.extend_from_slice(frame)?;
        expected.extend_from_slice(told)?;
    }
    let found = replayed(rt, alloc, &input, &[], &[])?;
    Ok(otherwise(found, Status::Good, &expected))
}

#[test]
fn a_frame_without_a_call_is_told_by_its_octets(rt: HostRuntime) -> Result<(), Fail> {
    let wrong = told_otherwise(&rt, rt.alloc(), &TOLD)?;
    assert!(rt; wrong.is_none(), "{wrong:?}");
    let wrong = all_told_otherwise(&rt, rt.alloc(), &TOLD)?;
    assert!(rt; wrong.is_none(), "{wrong:?}");
    Ok(())
}

// A query for A whose name has three labels of 63 octets and one of this size, in a frame whose length ends in this octet.
fn long_query(alloc: Global, size: u8, length: u8) -> Result<Vec<u8>, OutOfMemory> {
    let mut octets = Vec::from_slice(alloc, b"\x01\x00\x00\x00\x00\x00\x01")?;
    octets.push(length)?;
    octets.extend_from_slice(b"\x124\x01\x00\x00\x01\x00\x00\x00\x00\x00\x00")?;
    for size in [63, 63, 63, size] {
        octets.push(size)?;
        for _ in 0..size {
            octets.push(b'a')?;
        }
    }
    octets.extend_from_slice(b"\x00\x00\x01\x00\x01")?;
    Ok(octets)
}

const LONG: [(u8, u8, &[u8]); 2] = [
    (61, 15, b"\x02\x00\x00\x00\x00\x00\x00\x00"),
    (
        62,
        16,
        b"\x06\x00\x00\x00\x00\x00\x00\x0c\x124\x81\x81\x00\x00\x00\x00\x00\x00\x00\x00",
    ),
];

// The first label's size with which the query is told otherwise, and how.
fn long_otherwise<R: Threads + Wait + Sync>(
    rt: &R,
    alloc: Global,
    rows: &[(u8, u8, &[u8])],
) -> Result<Option<(u8, Ended)>, OutOfMemory> {
    for (size, length, expected) in rows.iter() {
        let query = long_query(alloc, *size, *length)?;
        let found = replayed(rt, alloc, &query, &[], &[])?;
        if let Some(found) = otherwise(found, Status::Good, expected) {
            return Ok(Some((*size, found)));
        }
    }
    Ok(None)
}

#[test]
fn a_questions_name_has_at_most_255_octets(rt: HostRuntime) -> Result<(), Fail> {
    let wrong = long_otherwise(&rt, rt.alloc(), &LONG)?;
    assert!(rt; wrong.is_none(), "{wrong:?}");
    Ok(())
}
