//! The octets of messages.
use forwarding::MessageOctets;

/// The most octets of a message of the tests.
const MOST: usize = 1024;

/// Octets that stand in the place of others, from those positions on.
pub(crate) type Changes = &'static [(usize, &'static [u8])];

/// The octets with those changes.
pub(crate) fn written(like: &[u8], changes: Changes) -> MessageOctets {
    let mut octets = [0; MOST];
    put(&mut octets, 0, like);
    for (at, piece) in changes {
        put(&mut octets, *at, piece);
    }
    message_of(octets.get(..like.len()).unwrap_or(&[]))
}

// Puts the piece there, as far as there is room.
fn put(octets: &mut [u8; MOST], at: usize, piece: &[u8]) {
    for (octet, other) in octets.iter_mut().skip(at).zip(piece.iter()) {
        *octet = *other;
    }
}

/// The octets, unless they are too many.
pub(crate) fn message_of(octets: &[u8]) -> MessageOctets {
    let mut message = MessageOctets::new();
    append(&mut message, octets);
    message
}

/// Appends the octets, unless there is no room for all.
pub(crate) fn append(message: &mut MessageOctets, octets: &[u8]) {
    let _fitted = message.try_extend_from_slice(octets);
}
