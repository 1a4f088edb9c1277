//! Where replies go.
ghost use Rattle.std.specs.Prelude.{◌≡◌, ◌≢◌, ℕ, ◌%◌, ◌^◌, ◌<◌, ◌≤◌, None, Some, IsSome, IfOk};
ghost use Rattle.forward_sockets.specs.ClientRing.{IsFreeAt, client_at};

use outside_core::OutOfMemory;
use std::alloc::Global;
use std::marker::Model;
use std::net::SocketAddr;

/// As many clients as can wait at once, 16 for each of 256 slots, and 1,024 more.
const PLACES: usize = 5120;

// From this number on the numbers of a place begin anew.
const LAST: u64 = (1 << 63) - PLACES as u64;

/// Where a client's reply goes.
#[derive(Clone, Copy, Debug, PartialEq, Eq)]
pub(crate) struct ClientAddress {
    /// At which address it asked.
    pub(crate) listener: u8,
    pub(crate) address: SocketAddr,
}

/// The number of the client that has the place or had it last, and the client, if it has it.
#[derive(Clone, Copy)]
pub(crate) struct ClientPlace {
    number: u64,
    client: Option<ClientAddress>,
}

/// Clients that have no reply yet, by their numbers, seen as the list of their places. Only `new` takes memory.
#[derive(Drop)]
pub(crate) struct ClientRing {
    places: Vec<ClientPlace>,
    next: usize,
}

impl Model for ClientRing {
    ghost use Rattle.std.specs.Prelude.{◌<◌, List};
    ghost use Rattle.forward_sockets.specs.ClientRing.{IsRing};
    ghost use Rattle.forward_sockets.specs.declared.client_ring.ClientPlace.{ClientPlace};
    ghost use Rattle.forward_sockets.specs.declared.client_ring.TheConstants.{PLACES};

    ghost Value = { List ClientPlace };

    ghost view = { λ r. r.places.items };

    ghost invariant = { λ r. IsRing r.places.items × (r.next < PLACES) };
}

impl ClientRing {
    pub(crate) fn new(alloc: Global) -> Result<ClientRing, OutOfMemory>
        ensures { IfOk result (λ ring. (number : ℕ) → client_at ring number ≡ None) }
    {
        let mut places = Vec::with_capacity(alloc, PLACES)?;
        for place in 0..PLACES {
            places.push(ClientPlace {
                number: place as u64,
                client: None,
            })?;
        }
        Ok(ClientRing { places, next: 0 })
    }

    /// Gives a client its number. Where no place is free, another client loses its own; it is the one that came first, unless others
    /// had their replies in between.
    pub(crate) fn enter(&mut self, client: ClientAddress) -> u64
        ensures named { client_at self.new result ≡ Some client }
        ensures somebody { 1 ≤ result }

        // The highest bit tells the numbers of clients with streams.
        ensures low { result < 2 ^ 63 }
        ensures none_else { (other : ℕ) → other ≢ result → IsSome (client_at self.new other)
            → client_at self.new other ≡ client_at self.old other }
        ensures kept { (other at : ℕ) → other ≢ result
            → at < PLACES → IsFreeAt self.old at
            → client_at self.new other ≡ client_at self.old other }
    {
        let at = self.free_place();
        let number = number_after(self.places[at].number);
        self.places[at] = ClientPlace {
            number,
            client: Some(client),
        };
        self.next = (at + 1) % PLACES;
        number
    }

    // The next free place, or the next one where none is.
    fn free_place(&self) -> usize
        ensures within { result < PLACES }
        ensures free { (at : ℕ) → at < PLACES
            → IsFreeAt self.now at → IsFreeAt self.now result }
    {
        for step in 0..PLACES {
            let at = (self.next + step) % PLACES;
            if self.places[at].client.is_none() {
                return at;
            }
        }
        self.next
    }

    /// The client that the number names, which it names no more.
    pub(crate) fn leave(&mut self, number: u64) -> Option<ClientAddress>
        ensures client { result ≡ client_at self.old number }
        ensures gone { client_at self.new number ≡ None }
        ensures kept { (other : ℕ) → other ≢ number
            → client_at self.new other ≡ client_at self.old other }
    {
        let at = (number % PLACES as u64) as usize;
        if self.places[at].number != number {
            return None;
        }
        let client = self.places[at].client;
        self.places[at].client = None;
        // It is in the processor's cache now.
        self.next = at;
        client
    }
}

// The next number of a place. Those of 63 bits last longer than any machine.
fn number_after(number: u64) -> u64
    ensures place { result % PLACES ≡ number % PLACES }
    ensures somebody { 1 ≤ result }
    ensures low { result < 2 ^ 63 }
{
    let place = number % PLACES as u64;
    if number < LAST {
        number + PLACES as u64
    } else {
        place + PLACES as u64
    }
}
