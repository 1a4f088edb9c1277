//! Two messages, and what a front gives of a piece.
ghost use Rattle.std.specs.Prelude.{◌≤◌};

use dname::OctetsList;
use std::alloc::Global;
use stream_front::{FeedFault, Front, feed};

/// A query for A.Example TXT, and one for b.example A.
pub const TWO: [&[u8]; 2] = [
    b"\x124\x01\x00\x00\x01\x00\x00\x00\x00\x00\x00\x01A\x07Example\x00\x00\x10\x00\x01",
    b"\x125\x01\x00\x00\x01\x00\x00\x00\x00\x00\x00\x01b\x07example\x00\x00\x01\x00\x01",
];

/// Both, each after its length.
pub const STREAM: &[u8] = b"\
    \x00\x1b\x124\x01\x00\x00\x01\x00\x00\x00\x00\x00\x00\x01A\x07Example\x00\x00\x10\x00\x01\
    \x00\x1b\x125\x01\x00\x00\x01\x00\x00\x00\x00\x00\x00\x01b\x07example\x00\x00\x01\x00\x01";

/// How many of the two are whole, after so many octets.
pub fn whole_after(octets: usize) -> usize
    ensures { result ≤ 2 }
{
    if octets < 29 {
        0
    } else if octets < 58 {
        1
    } else {
        2
    }
}

/// Whether the list has these messages.
pub fn are(list: &OctetsList, messages: &[&[u8]]) -> bool {
    let items = list.as_slice();
    if items.len() != messages.len() {
        return false;
    }
    for i in 0..items.len() {
        if items[i].as_slice() != messages[i] {
            return false;
        }
    }
    true
}

/// Whether the piece gives these messages.
pub fn gives(alloc: Global, front: &mut Front, piece: &[u8], messages: &[&[u8]]) -> bool {
    match feed(alloc, front, piece) {
        Ok(given) => are(&given, messages),
        Err(_) => false,
    }
}

/// Whether the piece gives these messages and then shows this length, which no message has.
pub fn ends(alloc: Global, front: &mut Front, piece: &[u8], messages: &[&[u8]], size: u16) -> bool {
    match feed(alloc, front, piece) {
        Err(FeedFault::TooSmall { length, before }) => length == size && are(&before, messages),
        _ => false,
    }
}

/// How many messages the piece gives.
pub fn given_in(alloc: Global, front: &mut Front, piece: &[u8]) -> usize {
    match feed(alloc, front, piece) {
        Ok(given) => given.len(),
        Err(_) => 0,
    }
}
