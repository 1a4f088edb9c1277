//! What went over a link, beside what is wanted.

use outside_core::{Datagram, Event, Peer};

/// One thing that is to go over a link.
#[derive(Clone, Copy)]
pub enum Went {
    /// A datagram of this peer is waited for.
    From(Peer, &'static [u8]),
    /// A datagram is sent to this peer.
    To(Peer, &'static [u8]),
}

/// The place of the first event that isn't as wanted, and the datagram that went there, if any did.
pub type Wrong = (usize, Option<Datagram>);

/// The first event that isn't as wanted.
pub fn went_otherwise(events: &[Event], wanted: &[Went]) -> Option<Wrong> {
    for (i, went) in wanted.iter().enumerate() {
        if !is_as(events.get(i), *went) {
            return Some((i, datagram_of(events.get(i))));
        }
    }
    match events.get(wanted.len()) {
        Some(more) => Some((wanted.len(), datagram_of(Some(more)))),
        None => None,
    }
}

/// How many datagrams were sent.
pub fn count_sent(events: &[Event]) -> usize {
    let mut count: usize = 0;
    for event in events {
        if matches!(event, Event::Sent(_)) {
            count = count.saturating_add(1);
        }
    }
    count
}

fn is_as(event: Option<&Event>, wanted: Went) -> bool {
    match (event, wanted) {
        (Some(Event::Awaited(found)), Went::From(peer, octets)) => is_of(found, peer, octets),
        (Some(Event::Sent(found)), Went::To(peer, octets)) => is_of(found, peer, octets),
        _ => false,
    }
}

fn is_of(found: &Datagram, peer: Peer, octets: &[u8]) -> bool {
    found.peer == peer && found.octets.as_slice() == octets
}

fn datagram_of(event: Option<&Event>) -> Option<Datagram> {
    match event {
        Some(Event::Awaited(datagram) | Event::Found(datagram) | Event::Sent(datagram)) => {
            Some(datagram.copy())
        }
        None => None,
    }
}
