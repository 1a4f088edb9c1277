//! What becomes of a query's octets.

use crate::inserts::message;
use crate::messages::{HEADER, NO_DATA, QUERY, RECORDS, THEN};
use intake::IntakeFault;
use record_store::Store;
use reply_core::ReplyBuffer;
use resolver::{Answering, QueryOutcome, Rule, insert_octets, query_octets};
use std::alloc::Global;
use std::test::Fail;

/// A query, its outcome and its reply.
type Row = (&'static [u8], QueryOutcome, &'static [u8]);

const ROWS: [Row; 8] = [
    (QUERY, QueryOutcome::Answered, NO_DATA),
    // b.example TXT, of which nothing is held; a.example TXT of class CH
    (
        b"\x124\x01\x00\x00\x01\x00\x00\x00\x00\x00\x00\x01b\x07example\x00\x00\x10\x00\x01",
        QueryOutcome::Forward,
        b"",
    ),
    (
        b"\x124\x01\x00\x00\x01\x00\x00\x00\x00\x00\x00\x01a\x07example\x00\x00\x10\x00\x03",
        QueryOutcome::Forward,
        b"",
    ),
    // opcode 4; no question; an OPT record of version 1
    (
        b"\xab\xcd\x21\x00\x00\x01\x00\x00\x00\x00\x00\x00\x01b\x07example\x00\x00\x10\x00\x01",
        QueryOutcome::Error,
        b"\xab\xcd\xa1\x84\x00\x00\x00\x00\x00\x00\x00\x00",
    ),
    (
        b"\xab\xcd\x01\x00\x00\x00\x00\x00\x00\x00\x00\x00",
        QueryOutcome::Error,
        b"\xab\xcd\x81\x81\x00\x00\x00\x00\x00\x00\x00\x00",
    ),
    (
        b"\x12\x34\x01\x00\x00\x01\x00\x00\x00\x00\x00\x01\x07example\x00\x00\x01\x00\x01\x00\x00\x29\x04\xd0\x00\x01\x00\x00\x00\x00",
        QueryOutcome::Error,
        b"\x12\x34\x81\x80\x00\x01\x00\x00\x00\x00\x00\x01\x07example\x00\x00\x01\x00\x01\x00\x00\x29\x04\xd0\x01\x00\x00\x00\x00\x00",
    ),
    // 11 octets; a response
    (
        b"\x124\x01\x00\x00\x01\x00\x00\x00\x00\x00",
        QueryOutcome::Dropped,
        b"",
    ),
    (
        b"\x124\x81\x00\x00\x01\x00\x00\x00\x00\x00\x00\x01a\x07example\x00\x00\x10\x00\x01",
        QueryOutcome::Dropped,
        b"",
    ),
];

fn is_as_wanted(store: &Store, answering: Answering, row: &Row, out: &mut ReplyBuffer) -> bool {
    let (octets, outcome, reply) = *row;
    query_octets(store, answering, octets, THEN + 10, out) == outcome && out.as_slice() == reply
}

// The first of the rows that isn't as wanted. Each finds the reply before in the buffer.
fn first_wrong(store: &Store, answering: Answering) -> Option<usize> {
    let mut out = ReplyBuffer::new();
    for (i, row) in ROWS.iter().enumerate() {
        if !is_as_wanted(store, answering, row, &mut out) {
            return Some(i);
        }
    }
    None
}

// By each way of answering, with the answer stored.
fn each_way(alloc: Global) -> Result<[Option<usize>; 2], IntakeFault> {
    let octets = message(alloc, HEADER, RECORDS)?;
    let (store, _) = insert_octets(alloc, &Store::empty(alloc)?, &octets, THEN)?;
    let by_walk = Answering::ByWalk { rule: Rule::Both };
    Ok([
        first_wrong(&store, Answering::ByProof),
        first_wrong(&store, by_walk),
    ])
}

#[test]
fn each_outcome(rt: HostRuntime) -> Result<(), Fail> {
    let wrong = each_way(rt.alloc())?;
    assert!(rt; wrong == [None, None], "{wrong:?}");
    Ok(())
}
