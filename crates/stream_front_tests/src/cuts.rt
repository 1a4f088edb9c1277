//! A stream in pieces.
ghost use Rattle.std.specs.Prelude.{◌≤◌};

use super::messages::{STREAM, TWO, given_in, gives, whole_after};
use std::alloc::Global;
use std::test::Fail;
use stream_front::Front;

// Whether both messages are given of the stream, cut at a place, each with the piece that makes it whole.
fn is_given_of(alloc: Global, at: usize) -> bool {
    let (first, second) = STREAM.split_at(at.min(STREAM.len()));
    let (before, after) = TWO.split_at(whole_after(at));
    let mut front = Front::fresh(alloc);
    gives(alloc, &mut front, first, before) && gives(alloc, &mut front, second, after)
}

#[test]
fn a_stream_may_be_cut_anywhere(rt: HostRuntime) {
    let alloc = rt.alloc();
    let mut wrong = None;
    for at in 0..59 {
        if !is_given_of(alloc, at) {
            wrong = Some(at);
        }
    }
    assert!(rt; wrong.is_none(), "{wrong:?}");
}

// The messages that one octet gives behind so many.
fn given_at(at: usize) -> &'static [&'static [u8]] {
    match at {
        28 => &TWO[..1],
        57 => &TWO[1..],
        _ => &[],
    }
}

#[test]
fn a_stream_may_come_octet_by_octet(rt: HostRuntime) {
    let alloc = rt.alloc();
    let mut front = Front::fresh(alloc);
    let mut wrong = None;
    for at in 0..STREAM.len() {
        if !gives(alloc, &mut front, &STREAM[at..at + 1], given_at(at)) {
            wrong = Some(at);
        }
    }
    assert!(rt; wrong.is_none(), "{wrong:?}");
}

// How many messages a hundred times the stream gives, in pieces of so many octets.
fn given_by(alloc: Global, size: usize) -> Result<usize, Fail>
    requires { 1 ≤ size }
{
    let mut stream = Vec::new(alloc);
    for _ in 0..100 {
        stream.extend_from_slice(STREAM)?;
    }
    let mut front = Front::fresh(alloc);
    let mut count = 0_usize;
    for piece in stream.chunks(size) {
        count = count.saturating_add(given_in(alloc, &mut front, piece));
    }
    Ok(count)
}

#[test]
fn no_message_is_lost_between_pieces(rt: HostRuntime) -> Result<(), Fail> {
    let alloc = rt.alloc();
    let mut wrong = None;
    for size in [1, 2, 3, 28, 29, 30, 57, 59, 4096, 5800] {
        let count = given_by(alloc, size)?;
        if count != 200 {
            wrong = Some((size, count));
        }
    }
    assert!(rt; wrong.is_none(), "{wrong:?}");
    Ok(())
}
