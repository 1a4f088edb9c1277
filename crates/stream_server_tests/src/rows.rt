//! Streams, how each ends, and what is written. What goes back is what the RFCs say.
use super::messages::{ANSWER, DENIED, FAILED, HEADER, LONG_QUERY, QUERY, REFUSED, UNKNOWN};
use super::row::streamed;
use super::texts::{answer_with, joined, reply_with, text_of};
use std::alloc::Global;
use std::sync::Wait;
use std::test::Fail;
use stream_server::StreamFault;

#[derive(Clone, Copy)]
struct Row<'a> {
    stream: &'a [&'a [u8]],
    // The numbers of the reads and writes that fail.
    failing: [&'a [u32]; 2],
    ended: Result<u32, StreamFault>,
    written: &'a [&'a [u8]],
}

const ROWS: [Row<'static>; 9] = [
    Row {
        stream: &[QUERY],
        failing: [&[], &[]],
        ended: Ok(0),
        written: &[DENIED],
    },
    // Two questions at once, of which nothing is known of the first, and half a length.
    Row {
        stream: &[UNKNOWN, QUERY, b"\x00"],
        failing: [&[], &[]],
        ended: Ok(1),
        written: &[FAILED, DENIED],
    },
    // Twelve octets are a message, which asks nothing (RFC 1035, section 4.1.1).
    Row {
        stream: &[HEADER, QUERY],
        failing: [&[], &[]],
        ended: Ok(0),
        written: &[REFUSED, DENIED],
    },
    Row {
        stream: &[b"\x00\x0b"],
        failing: [&[], &[]],
        ended: Err(StreamFault::TooSmall { length: 11 }),
        written: &[],
    },
    // What follows such a length isn't answered.
    Row {
        stream: &[QUERY, b"\x00\x0b", UNKNOWN],
        failing: [&[], &[]],
        ended: Err(StreamFault::TooSmall { length: 11 }),
        written: &[DENIED],
    },
    // A message that isn't whole.
    Row {
        stream: &[b"\x00\x1b\x124\x01\x00"],
        failing: [&[], &[]],
        ended: Ok(6),
        written: &[],
    },
    Row {
        stream: &[QUERY],
        failing: [&[2], &[]],
        ended: Err(StreamFault::Source),
        written: &[DENIED],
    },
    Row {
        stream: &[QUERY],
        failing: [&[], &[1]],
        ended: Err(StreamFault::Sink),
        written: &[],
    },
    Row {
        stream: &[UNKNOWN, QUERY],
        failing: [&[], &[2]],
        ended: Err(StreamFault::Sink),
        written: &[FAILED],
    },
];

fn is_right<R: Wait>(rt: &R, alloc: Global, row: &Row<'_>) -> Result<bool, Fail> {
    let stream = joined(alloc, row.stream)?;
    let expected = joined(alloc, row.written)?;
    let (ended, sink) = streamed(rt, alloc, ANSWER, &stream, row.failing)?;
    Ok(ended == row.ended && sink.written() == expected.as_slice())
}

#[test]
fn each_stream_is_answered_to_its_end(rt: HostRuntime) -> Result<(), Fail> {
    let alloc = rt.alloc();
    let mut wrong = None;
    for (i, row) in ROWS.iter().enumerate() {
        if !is_right(&rt, alloc, row)? {
            wrong = Some(i);
        }
    }
    assert!(rt; wrong.is_none(), "{wrong:?}");
    Ok(())
}

// Whether the reply has this text whole.
fn has_text<R: Wait>(rt: &R, alloc: Global, strings: usize, last: u8) -> Result<bool, Fail> {
    let text = text_of(alloc, strings, last)?;
    let answer = answer_with(alloc, &text)?;
    let expected = reply_with(alloc, &text)?;
    let (ended, sink) = streamed(rt, alloc, &answer, LONG_QUERY, [&[], &[]])?;
    Ok(ended == Ok(0) && sink.written() == expected.as_slice())
}

#[test]
fn a_reply_is_longer_than_a_datagrams(rt: HostRuntime) -> Result<(), Fail> {
    let alloc = rt.alloc();
    let mut wrong = None;
    // The reply's length is 55 octets more: 1,233; the last that goes at once, and the first that doesn't; and 60,055.
    for (strings, last) in [(4, 153), (15, 198), (15, 199), (234, 95)] {
        if !has_text(&rt, alloc, strings, last)? {
            wrong = Some((strings, last));
        }
    }
    assert!(rt; wrong.is_none(), "{wrong:?}");
    Ok(())
}
