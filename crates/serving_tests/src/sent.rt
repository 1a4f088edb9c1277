//! What a link has sent, beside what is wanted.

use outside_core::{Datagram, Event, OutOfMemory, Peer};
use std::alloc::Global;

/// The place of the first datagram that isn't as wanted, and the one that was sent there, if any was.
pub type Wrong = (usize, Option<Datagram>);

/// The datagrams that were sent, of all that went over a link.
pub fn sent_among(alloc: Global, events: &[Event]) -> Result<Vec<Datagram>, OutOfMemory> {
    let mut sent = Vec::new(alloc);
    for event in events {
        if let Event::Sent(datagram) = event {
            sent.push(datagram.copy())?;
        }
    }
    Ok(sent)
}

pub fn sent_otherwise(sent: &[Datagram], wanted: &[(Peer, &[u8])]) -> Option<Wrong> {
    for (i, (peer, octets)) in wanted.iter().enumerate() {
        if !is_sent(sent.get(i), *peer, octets) {
            return Some((i, copy_of(sent.get(i))));
        }
    }
    match sent.get(wanted.len()) {
        Some(more) => Some((wanted.len(), Some(more.copy()))),
        None => None,
    }
}

fn is_sent(found: Option<&Datagram>, peer: Peer, octets: &[u8]) -> bool {
    match found {
        Some(found) => found.peer == peer && found.octets.as_slice() == octets,
        None => false,
    }
}

fn copy_of(found: Option<&Datagram>) -> Option<Datagram> {
    match found {
        Some(found) => Some(found.copy()),
        None => None,
    }
}
