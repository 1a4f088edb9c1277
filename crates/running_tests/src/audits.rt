//! Audits of a short run, recorded with its zone: the line and the status.
ghost use Rattle.std.specs.Prelude.{None};

use super::replays::{Ended, ended, joined, otherwise, run_words, words_of};
use dname::OutOfMemory;
use outside_core::{Failed, MemorySink, OpenGate, Source};
use running::Status;
use std::alloc::Global;
use std::sync::Wait;
use std::test::Fail;
use std::thread::Threads;

// The apex, and numbers of records.
const APEX: &[u8] = b"\x00\x09\x07example\x00";

const NONE: &[u8] = b"\x00\x00\x00\x00";

const ONE: &[u8] = b"\x00\x00\x00\x01";

const THREE: &[u8] = b"\x00\x00\x00\x03";

const FOUR: &[u8] = b"\x00\x00\x00\x04";

// The apex has an SOA of serial 1, or of serial 2. The names a and b have an address, and so may aa, which stands between them.
const SOA: &[u8] =
    b"\x00\x09\x07example\x00\x00\x06\x00\x16\x00\x00\x00\x00\x00\x01\x00\x00\x0e\x10\x00\x00\x02X\x00\x01Q\x80\x00\x00\x01,";

const LATER_SOA: &[u8] =
    b"\x00\x09\x07example\x00\x00\x06\x00\x16\x00\x00\x00\x00\x00\x02\x00\x00\x0e\x10\x00\x00\x02X\x00\x01Q\x80\x00\x00\x01,";

const A: &[u8] = b"\x00\x0b\x01a\x07example\x00\x00\x01\x00\x04\xc0\x00\x02\x01";

const AA: &[u8] = b"\x00\x0c\x02aa\x07example\x00\x00\x01\x00\x04\xc0\x00\x02\x01";

const B: &[u8] = b"\x00\x0b\x01b\x07example\x00\x00\x01\x00\x04\xc0\x00\x02\x01";

// No records of the zone: an address of b, which isn't below it, and an NSEC without data.
const OTHER: &[u8] = b"\x00\x03\x01b\x00\x00\x01\x00\x04\xc0\x00\x02\x01";

const NSEC: &[u8] = b"\x00\x0b\x01a\x07example\x00\x00/\x00\x00";

// After its length an answer for worker 0 with the SOA and the NSEC from a.example to b.example, which has A alone, and their
// signatures; ten seconds later a query of worker 0 for A.Example TXT.
const INPUT: &[u8] = b"\
    \x00\x00\x00\xfd\
    \x02\x00;\x9a\xca\x00\x00\xd2\
    \x00\x01\x81\xa0\x00\x01\x00\x00\x00\x04\x00\x00\
    \x01a\x07example\x00\x00\x10\x00\x01\
    \x07example\x00\x00\x06\x00\x01\x00\x00\x0e\x10\x00\x16\x00\x00\x00\x00\x00\x01\x00\x00\x0e\x10\x00\x00\x02X\x00\x01Q\x80\x00\x00\x01,\
    \x07example\x00\x00.\x00\x01\x00\x00\x0e\x10\x00\x1f\x00\x06\x0d\x01\x00\x00\x0e\x10w5\x94\x005\xa4\xe9\x00\x00\x01\x07example\x00ZZZZ\
    \x01a\x07example\x00\x00/\x00\x01\x00\x00\x0e\x10\x00\x13\x01b\x07example\x00\x00\x06@\x00\x00\x00\x00\x03\
    \x01a\x07example\x00\x00.\x00\x01\x00\x00\x0e\x10\x00\x1f\x00/\x0d\x02\x00\x00\x0e\x10w5\x94\x005\xa4\xe9\x00\x00\x01\x07example\x00ZZZZ\
    \x01\x00;\x9a\xca\x0a\x00\x1b\
    \x124\x01\x00\x00\x01\x00\x00\x00\x00\x00\x00\
    \x01A\x07Example\x00\x00\x10\x00\x01";

// Version 1 is made, of two records; and the same, told as version 2.
const STORED: &[u8] = b"\x03\x00\x00\x00\x00\x01\x00\x04\x00\x02\x00\x00";

const STORED_AS_2: &[u8] = b"\x03\x00\x00\x00\x00\x02\x00\x04\x00\x02\x00\x00";

// There is no data, by version 1 or 2: the SOA, with its MINIMUM as TTL (RFC 2308, section 5).
const BY_1: &[u8] = b"\x01\x00\x00\x00\x00\x01\x00D";

const BY_2: &[u8] = b"\x01\x00\x00\x00\x00\x02\x00D";

const DENIED: &[u8] = b"\
    \x124\x81\x80\x00\x01\x00\x00\x00\x01\x00\x00\
    \x01A\x07Example\x00\x00\x10\x00\x01\
    \x07example\x00\x00\x06\x00\x01\x00\x00\x01,\
    \x00\x16\x00\x00\x00\x00\x00\x01\x00\x00\x0e\x10\x00\x00\x02X\x00\x01Q\x80\x00\x00\x01,";

// The query goes on, by version 0.
const FORWARDED: &[u8] = b"\x02\x00\x00\x00\x00\x00\x00\x00";

// Lengths of outputs.
const TWELVE: &[u8] = b"\x00\x00\x00\x0c";

const TWENTY: &[u8] = b"\x00\x00\x00\x14";

const ALL: &[u8] = b"\x00\x00\x00X";

// What is read, and the line.
const FOUND: [(&[&[u8]], &[u8]); 7] = [
    (
        &[APEX, THREE, SOA, A, B, INPUT, ALL, STORED, BY_1, DENIED],
        b"yes 1\n",
    ),
    // The NSEC is the second record of the reply, which is of the second frame.
    (
        &[APEX, FOUR, SOA, A, AA, B, INPUT, ALL, STORED, BY_1, DENIED],
        b"no record 1 1\n",
    ),
    (
        &[
            APEX, THREE, LATER_SOA, A, B, INPUT, ALL, STORED, BY_1, DENIED,
        ],
        b"no record 1 0\n",
    ),
    (
        &[APEX, THREE, SOA, A, B, INPUT, TWELVE, STORED],
        b"no unfit 1\n",
    ),
    (
        &[
            APEX,
            THREE,
            SOA,
            A,
            B,
            INPUT,
            ALL,
            STORED_AS_2,
            BY_2,
            DENIED,
        ],
        b"no unfit 2\n",
    ),
    (
        &[APEX, THREE, SOA, A, B, INPUT, ALL, STORED, BY_2, DENIED],
        b"no unfit 3\n",
    ),
    // Right at version 0, which the worker has left behind.
    (
        &[APEX, THREE, SOA, A, B, INPUT, TWENTY, STORED, FORWARDED],
        b"no unfit 4\n",
    ),
];

// What is no source of an audit, or one whose input or output isn't frames.
const REFUSED: [&[&[u8]]; 8] = [
    &[],
    // It ends within the apex, within the records and within the output.
    &[b"\x00\x09\x07exam"],
    &[APEX, THREE, SOA, A],
    &[APEX, THREE, SOA, A, B, INPUT, ALL, STORED],
    &[APEX, ONE, OTHER, INPUT, TWELVE, STORED],
    &[APEX, ONE, NSEC, INPUT, TWELVE, STORED],
    // Something follows the output.
    &[APEX, THREE, SOA, A, B, INPUT, TWELVE, STORED, b"\x00"],
    &[APEX, NONE, ONE, b"\x01", NONE],
];

// The first of the sources whose line is another, and how it ends.
fn found_otherwise<R: Threads + Wait + Sync>(
    rt: &R,
    alloc: Global,
    rows: &[(&[&[u8]], &[u8])],
) -> Result<Option<(usize, Ended)>, OutOfMemory> {
    for (at, (pieces, line)) in rows.iter().enumerate() {
        let octets = joined(alloc, pieces)?;
        let found = ended(rt, alloc, "audit", &octets, &[], &[])?;
        if let Some(found) = otherwise(found, Status::Good, line) {
            return Ok(Some((at, found)));
        }
    }
    Ok(None)
}

#[test]
fn each_finding_has_its_line(rt: HostRuntime) -> Result<(), Fail> {
    let wrong = found_otherwise(&rt, rt.alloc(), &FOUND)?;
    assert!(rt; wrong.is_none(), "{wrong:?}");
    Ok(())
}

// The first of these octets that aren't refused with nothing written, and how they end.
fn refused_otherwise<R: Threads + Wait + Sync>(
    rt: &R,
    alloc: Global,
    rows: &[&[&[u8]]],
) -> Result<Option<(usize, Ended)>, OutOfMemory> {
    for (at, pieces) in rows.iter().enumerate() {
        let octets = joined(alloc, pieces)?;
        let found = ended(rt, alloc, "audit", &octets, &[], &[])?;
        if let Some(found) = otherwise(found, Status::BadFrame, b"") {
            return Ok(Some((at, found)));
        }
    }
    Ok(None)
}

#[test]
fn what_is_no_source_is_refused(rt: HostRuntime) -> Result<(), Fail> {
    let wrong = refused_otherwise(&rt, rt.alloc(), &REFUSED)?;
    assert!(rt; wrong.is_none(), "{wrong:?}");
    Ok(())
}

// Which calls of the source and of the sink fail, and the status.
const FAULTS: [(&[u32], &[u32], Status); 3] = [
    (&[1], &[], Status::ReadFault),
    (&[2], &[], Status::ReadFault),
    (&[], &[1], Status::WriteFault),
];

// The first fault with which the audit ends otherwise, or writes something, and how.
fn failed_otherwise<R: Threads + Wait + Sync>(
    rt: &R,
    alloc: Global,
    rows: &[(&[u32], &[u32], Status)],
) -> Result<Option<Ended>, OutOfMemory> {
    let octets = joined(alloc, &[APEX, THREE, SOA, A, B, INPUT, TWELVE, STORED])?;
    for (reads, writes, status) in rows.iter() {
        let found = ended(rt, alloc, "audit", &octets, reads, writes)?;
        if let Some(found) = otherwise(found, *status, b"") {
            return Ok(Some(found));
        }
    }
    Ok(None)
}

#[test]
fn faults_end_an_audit(rt: HostRuntime) -> Result<(), Fail> {
    let wrong = failed_otherwise(&rt, rt.alloc(), &FAULTS)?;
    assert!(rt; wrong.is_none(), "{wrong:?}");
    Ok(())
}

// Gives so many octets, each piece with these at its front, and tells nothing.
#[derive(Debug, Drop)]
struct Long {
    front: &'static [u8],
    left: usize,
}

impl Source for Long {
    ghost taken = { λ _. None };

    ghost left = { λ _. None };

    ghost faults = { λ _. 0 };

    fn read(&mut self, into: &mut [u8]) -> Result<usize, Failed> {
        let count = self.left.min(into.len());
        self.left -= count;
        for (octet, front) in into.iter_mut().zip(self.front) {
            *octet = *front;
        }
        Ok(count)
    }
}

// A zone without records, and the length of an input that is one octet too long. The length of the output, which has none,
// stands behind it, in the last piece.
const LONG_INPUT: &[u8] = b"\x00\x09\x07example\x00\x00\x00\x00\x00\x04\x00\x00\x01";

const LONG: [(&'static [u8], usize); 2] = [(b"", 268_435_457), (LONG_INPUT, 67_108_888)];

// The first length that isn't told to be too long with nothing written, and how it ends.
fn long_otherwise<R: Threads + Wait + Sync>(
    rt: &R,
    alloc: Global,
    rows: &[(&'static [u8], usize)],
) -> Result<Option<(usize, Ended)>, OutOfMemory> {
    let words = words_of(alloc, "audit")?;
    for (front, left) in rows.iter() {
        let mut source = Long { front, left: *left };
        let mut sink = MemorySink::with_room(alloc, 16, Vec::new(alloc))?;
        let status = run_words(rt, alloc, &words, &mut source, &mut sink, &OpenGate)?;
        let written = Vec::from_slice(alloc, sink.written())?;
        if let Some(found) = otherwise((status, written), Status::InputTooLong, b"") {
            return Ok(Some((*left, found)));
        }
    }
    Ok(None)
}

#[test]
fn a_source_and_its_input_may_be_too_long(rt: HostRuntime) -> Result<(), Fail> {
    let wrong = long_otherwise(&rt, rt.alloc(), &LONG)?;
    assert!(rt; wrong.is_none(), "{wrong:?}");
    Ok(())
}
