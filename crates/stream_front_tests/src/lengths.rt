//! Lengths that a message has, and such as none has.
use super::messages::{TWO, ends, gives};
use std::alloc::Global;
use std::test::Fail;
use stream_front::Front;

// A message of twelve octets, a header alone, and after its length.
const HEADER: &[u8] = b"\x126\x01\x00\x00\x00\x00\x00\x00\x00\x00\x00";

const FRAMED_HEADER: &[u8] = b"\x00\x0c\x126\x01\x00\x00\x00\x00\x00\x00\x00\x00\x00";

#[test]
fn a_header_alone_is_a_message(rt: HostRuntime) {
    let alloc = rt.alloc();
    let mut front = Front::fresh(alloc);
    let given = gives(alloc, &mut front, FRAMED_HEADER, &[HEADER]);
    assert!(rt; given && front.too_small().is_none());
}

// Whether this length ends the stream behind a message, what follows it is left alone, and so is all that comes later.
fn is_the_end(alloc: Global, size: u16) -> Result<bool, Fail> {
    let mut stream = Vec::from_slice(alloc, FRAMED_HEADER)?;
    stream.extend_from_slice(&size.to_be_bytes())?;
    stream.extend_from_slice(FRAMED_HEADER)?;
    let mut front = Front::fresh(alloc);
    let first = ends(alloc, &mut front, &stream, &[HEADER], size);
    let later = ends(alloc, &mut front, FRAMED_HEADER, &[], size);
    Ok(first && later && front.too_small() == Some(size))
}

#[test]
fn a_length_below_a_headers_ends_the_stream(rt: HostRuntime) -> Result<(), Fail> {
    let alloc = rt.alloc();
    let mut wrong = None;
    for size in 0..12 {
        if !is_the_end(alloc, size)? {
            wrong = Some(size);
        }
    }
    assert!(rt; wrong.is_none(), "{wrong:?}");
    Ok(())
}

#[test]
fn a_length_in_two_pieces_ends_the_stream(rt: HostRuntime) {
    let alloc = rt.alloc();
    let mut front = Front::fresh(alloc);
    let waits = gives(alloc, &mut front, b"\x00", &[]);
    assert!(rt; waits && ends(alloc, &mut front, b"\x0b", &[], 11));
}

// The longest message.
fn longest(alloc: Global) -> Result<Vec<u8>, Fail> {
    let mut message = Vec::from_slice(alloc, TWO[0])?;
    message.resize(65_535, 7)?;
    Ok(message)
}

// It after its length, and a header alone.
fn stream_of(alloc: Global, message: &[u8]) -> Result<Vec<u8>, Fail> {
    let mut stream = Vec::from_slice(alloc, b"\xff\xff")?;
    stream.extend_from_slice(message)?;
    stream.extend_from_slice(FRAMED_HEADER)?;
    Ok(stream)
}

// Whether none of the pieces gives a message.
fn give_none(alloc: Global, front: &mut Front, octets: &[u8]) -> bool {
    let mut none = true;
    for piece in octets.chunks(4096) {
        if !gives(alloc, front, piece, &[]) {
            none = false;
        }
    }
    none
}

// Whether the longest message, and one more behind it, are given once the piece comes that makes them whole.
fn is_given_whole(alloc: Global) -> Result<bool, Fail> {
    let message = longest(alloc)?;
    let stream = stream_of(alloc, &message)?;
    let (before, last) = stream.split_at(stream.len().min(65_536));
    let mut front = Front::fresh(alloc);
    let none = give_none(alloc, &mut front, before);
    let both = [message.as_slice(), HEADER];
    Ok(none && gives(alloc, &mut front, last, &both))
}

#[test]
fn the_longest_message_is_given(rt: HostRuntime) -> Result<(), Fail> {
    let given = is_given_whole(rt.alloc())?;
    assert!(rt; given);
    Ok(())
}
