//! The calls over two handles, with an answer that proves a query.

use super::{
    dnsreplay_close, dnsreplay_copy, dnsreplay_insert, dnsreplay_open, dnsreplay_query,
    dnsreplay_records, dnsreplay_version,
};
use crate::code::{DONE, DROPPED, ERROR, FORWARD, NO_ROOM, NOT_A_MESSAGE, WRONG_STATE};
use crate::kept::Kept;
use crate::snapshot::Snapshot;
use resolver::Counts;
use std::alloc::Global;

/// The moment of the answer, in seconds.
const THEN: u32 = 1_000_000_000;

/// The SOA and the NSEC of a.example, which has A alone, each with its signature.
const ANSWER: &[u8] = b"\
    \x00\x01\x81\xa0\x00\x01\x00\x00\x00\x04\x00\x00\
    \x01a\x07example\x00\x00\x10\x00\x01\
    \x07example\x00\x00\x06\x00\x01\x00\x00\x0e\x10\x00\x16\x00\x00\x00\x00\x00\x01\x00\x00\x0e\x10\x00\x00\x02X\x00\x01Q\x80\x00\x00\x01,\
    \x07example\x00\x00.\x00\x01\x00\x00\x0e\x10\x00\x1f\x00\x06\x0d\x01\x00\x00\x0e\x10w5\x94\x005\xa4\xe9\x00\x00\x01\x07example\x00ZZZZ\
    \x01a\x07example\x00\x00/\x00\x01\x00\x00\x0e\x10\x00\x13\x01b\x07example\x00\x00\x06@\x00\x00\x00\x00\x03\
    \x01a\x07example\x00\x00.\x00\x01\x00\x00\x0e\x10\x00\x1f\x00/\x0d\x02\x00\x00\x0e\x10w5\x94\x005\xa4\xe9\x00\x00\x01\x07example\x00ZZZZ";

/// A query for A.Example TXT.
const QUERY: &[u8] = b"\
    \x124\x01\x00\x00\x01\x00\x00\x00\x00\x00\x00\
    \x01A\x07Example\x00\x00\x10\x00\x01";

/// A query for b. TXT, of which nothing is held.
const OTHER_QUERY: &[u8] = b"\
    \x124\x01\x00\x00\x01\x00\x00\x00\x00\x00\x00\
    \x01b\x00\x00\x10\x00\x01";

/// How many octets the reply to the first has.
const REPLY_SIZE: usize = 68;

/// There is no data: the SOA, with its MINIMUM as TTL (RFC 2308, section 5).
const NO_DATA: &[u8] = b"\
    \x124\x81\x80\x00\x01\x00\x00\x00\x01\x00\x00\
    \x01A\x07Example\x00\x00\x10\x00\x01\
    \x07example\x00\x00\x06\x00\x01\x00\x00\x01,\
    \x00\x16\x00\x00\x00\x00\x00\x01\x00\x00\x0e\x10\x00\x00\x02X\x00\x01Q\x80\x00\x00\x01,";

// What the calls that only need a handle return of one that is closed, opened and closed again.
fn states(alloc: Global) -> [i32; 7] {
    let (mut cache, mut other) = (Snapshot::none(alloc), Snapshot::none(alloc));
    let mut codes = [0; 7];
    codes[0] = dnsreplay_close(alloc, &mut cache);
    codes[1] = dnsreplay_copy(alloc, &mut cache, &mut other);
    codes[2] = dnsreplay_open(alloc, &mut cache);
    codes[3] = dnsreplay_open(alloc, &mut cache);
    codes[4] = dnsreplay_copy(alloc, &mut other, &mut cache);
    codes[5] = dnsreplay_close(alloc, &mut cache);
    codes[6] = dnsreplay_close(alloc, &mut cache);
    codes
}

#[test]
fn a_handle_is_opened_and_closed_once(rt: HostRuntime) {
    let codes = states(rt.alloc());
    let wanted = [
        WRONG_STATE,
        WRONG_STATE,
        DONE,
        WRONG_STATE,
        WRONG_STATE,
        DONE,
        WRONG_STATE,
    ];
    assert!(rt; codes == wanted, "{codes:?}");
}

// An insert into one of two handles of a state: the codes, its counts, and how many records each then holds.
fn inserted(alloc: Global) -> ([i32; 5], (u64, u32), (usize, usize)) {
    let (mut cache, mut other) = (Snapshot::none(alloc), Snapshot::none(alloc));
    let mut counts = Counts {
        stored: 0,
        skipped: 0,
    };
    let mut codes = [0; 5];
    codes[0] = dnsreplay_open(alloc, &mut cache);
    codes[1] = dnsreplay_copy(alloc, &mut cache, &mut other);
    codes[2] = dnsreplay_insert(alloc, &mut cache, ANSWER, THEN, &mut counts);
    let held = dnsreplay_records(alloc, &mut cache);
    let copied = dnsreplay_records(alloc, &mut other);
    codes[3] = dnsreplay_close(alloc, &mut cache);
    codes[4] = dnsreplay_close(alloc, &mut other);
    (codes, (counts.stored, counts.skipped), (held, copied))
}

#[test]
fn an_insert_changes_one_handle(rt: HostRuntime) {
    let told = inserted(rt.alloc());
    assert!(rt; told == ([DONE; 5], (2, 0), (2, 0)), "{told:?}");
}

// The codes of a query over the answer, from opening to closing, and how many octets were told.
fn asked(alloc: Global, query: &[u8], room: &mut [u8]) -> ([i32; 4], usize) {
    let mut cache = Snapshot::none(alloc);
    let mut counts = Counts {
        stored: 0,
        skipped: 0,
    };
    let mut written = 77;
    let mut codes = [0; 4];
    codes[0] = dnsreplay_open(alloc, &mut cache);
    codes[1] = dnsreplay_insert(alloc, &mut cache, ANSWER, THEN, &mut counts);
    codes[2] = dnsreplay_query(alloc, &mut cache, query, THEN + 10, room, &mut written);
    codes[3] = dnsreplay_close(alloc, &mut cache);
    (codes, written)
}

#[test]
fn a_reply_has_just_enough_room(rt: HostRuntime) {
    let mut octets = [0xaa; 100];
    let (room, behind) = octets.split_at_mut(REPLY_SIZE);
    let told = asked(rt.alloc(), QUERY, room);
    assert!(rt; told == ([DONE; 4], REPLY_SIZE), "{told:?}");
    assert!(rt; *room == *NO_DATA && behind[0] == 0xaa);
}

#[test]
fn without_room_nothing_is_written(rt: HostRuntime) {
    let mut room = [0xaa; REPLY_SIZE - 1];
    let told = asked(rt.alloc(), QUERY, &mut room);
    assert!(rt; told == ([DONE, DONE, NO_ROOM, DONE], 77), "{told:?}");
    assert!(rt; room == [0xaa; REPLY_SIZE - 1]);
}

#[test]
fn a_query_that_isnt_answered_has_its_code(rt: HostRuntime) {
    let mut room = [0; 100];
    let dropped = asked(rt.alloc(), &QUERY[..11], &mut room);
    assert!(rt; dropped == ([DONE, DONE, DROPPED, DONE], 0), "{dropped:?}");
    let error = asked(rt.alloc(), &QUERY[..12], &mut room);
    assert!(rt; error == ([DONE, DONE, ERROR, DONE], 12), "{error:?}");
    let forward = asked(rt.alloc(), OTHER_QUERY, &mut room);
    assert!(rt; forward == ([DONE, DONE, FORWARD, DONE], 0), "{forward:?}");
}

#[test]
fn an_answer_that_is_refused_has_its_code(rt: HostRuntime) {
    let mut cache = Snapshot::none(rt.alloc());
    let mut counts = Counts {
        stored: 7,
        skipped: 7,
    };
    let opened = dnsreplay_open(rt.alloc(), &mut cache);
    let refused = dnsreplay_insert(rt.alloc(), &mut cache, &ANSWER[..11], THEN, &mut counts);
    let closed = dnsreplay_close(rt.alloc(), &mut cache);
    let codes = [opened, refused, closed];
    assert!(rt; codes == [DONE, NOT_A_MESSAGE, DONE], "{codes:?}");
    assert!(rt; counts.stored == 7 && counts.skipped == 7);
}

#[test]
fn the_version_is_the_headers(rt: HostRuntime) {
    assert!(rt; dnsreplay_version() == 1);
}

// Takes what may go to another thread.
fn take<T: Send>(_value: &T) {}

#[test]
fn a_handle_may_go_to_another_thread(rt: HostRuntime) {
    take(&Snapshot::none(rt.alloc()));
    take(&Kept::empty(rt.alloc()));
}
