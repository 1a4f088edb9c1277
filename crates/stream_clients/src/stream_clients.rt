//! The connections.
ghost use Rattle.std.specs.Prelude.{◌≡◌, ◌<◌, ◌^◌, ◌≤◌, length, is_some, take, OnOk, OnErr, IfOk, IfSome};
ghost use Rattle.std.specs.List.{position};
ghost use Rattle.stream_clients.specs.declared.next.Next.TheVariants as next;
ghost use Rattle.stream_clients.specs.Connection.{closed, passed, replied, unreplied, with_octets, written};
ghost use Rattle.stream_clients.specs.Idle.{IsNextIdle};
ghost use Rattle.stream_clients.specs.Places.{IsNextOf, changed, connection_of, count_taken, is_free, message_of, new_client, no_connections, opened, output_of, settled};
ghost use Rattle.stream_clients.specs.Replies.{IsReplied};

use crate::place::Place;
use crate::{ClientNumber, Next, PLACES, ReplyFault};
use dname::OutOfMemory;
use std::alloc::Global;
use std::marker::Model;

/// The connections of a worker's clients, seen as the list of 32 places. A piece is taken; then, while a message stands next, it is
/// looked at and passed; each one that was passed has a reply, or none.
#[derive(Drop)]
pub struct StreamClients {
    places: Vec<Place>,
    alloc: Global,
}

impl Model for StreamClients {
    ghost use Rattle.std.specs.Prelude.{◌≡◌, List, length};
    ghost use Rattle.stream_clients.specs.Places as spec;
    ghost use Rattle.stream_clients.specs.declared.client_number.TheConstants.{PLACES};

    ghost Value = { List spec.Place };

    ghost view = { λ s. s.places.items };

    ghost invariant = { λ s. length s.places.items ≡ PLACES };
}

impl StreamClients {
    /// No client has connected yet.
    pub fn new(alloc: Global) -> Result<StreamClients, OutOfMemory>
        ensures { IfOk result (λ clients. clients ≡ no_connections) }
    {
        let mut places = Vec::with_capacity(alloc, PLACES)?;
        for _ in 0..PLACES {
            places.push(Place::unused())?;
        }
        Ok(StreamClients { places, alloc })
    }

    /// A client has connected, at a moment in milliseconds. Its connection has a place and a number, unless all 32 places have one. It
    /// takes no memory.
    pub fn open(&mut self, now: u64) -> Option<ClientNumber>
        ensures client { result ≡ new_client self.old }
        ensures opened { self.new ≡ opened now self.old }
    {
        let place = self.first_free()?;
        let alloc = self.alloc;
        let free = &mut self.places[place];
        free.begin(alloc, now);
        Some(ClientNumber::new(place, free.generation()))
    }

    fn first_free(&self) -> Option<usize>
        ensures place { result ≡ position is_free self.now }
        ensures within { IfSome result (λ place. place < PLACES) }
    {
        for place in 0..PLACES {
            if self.places[place].is_free() {
                return Some(place);
            }
        }
        None
    }

    pub fn is_open(&self, client: ClientNumber) -> bool
        ensures { result ≡ is_some (connection_of client self.now) }
    {
        self.places[client.place()].is_open(client.generation())
    }

    /// The client has gone, or is sent away: its connection is closed, if it is open.
    pub fn close(&mut self, client: ClientNumber)
        ensures { self.new ≡ changed client closed self.old }
    {
        let place = &mut self.places[client.place()];
        place.close(client.generation());
    }

    /// A piece of what comes over the connection. Its first octets are taken, as many as there is room for, and told how many; all of
    /// them go nowhere where the connection isn't open. Want of memory closes this connection.
    pub fn take(&mut self, client: ClientNumber, piece: &[u8]) -> Result<usize, OutOfMemory>
        ensures ok { IfOk result (λ count. self.new
            ≡ changed client (with_octets (take count piece.now)) self.old) }
        ensures count { IfOk result (λ count.
            count ≡ count_taken piece.now (connection_of client self.old)) }
        ensures some { IfOk result (λ count. IsNextOf (connection_of client self.old) next.Nothing
            → 1 ≤ length piece.now → 1 ≤ count) }
        ensures closed { OnErr result (self.new ≡ changed client closed self.old) }
    {
        let place = &mut self.places[client.place()];
        place.take(client.generation(), piece)
    }

    /// What stands next in what came over the connection. It closes the connection where that may not be.
    pub fn next(&mut self, client: ClientNumber) -> Next
        ensures next { IsNextOf (connection_of client self.old) result }
        ensures settled { self.new ≡ settled client result self.old }
    {
        let place = &mut self.places[client.place()];
        place.next(client.generation())
    }

    /// The message that stands next.
    pub fn message(&self, client: ClientNumber) -> &[u8]
        requires { IsNextOf (connection_of client self.now) next.Message }
        ensures { result.now ≡ message_of (connection_of client self.now) }
    {
        self.places[client.place()].message(client.generation())
    }

    /// The message that stands next is taken: it has no reply yet.
    pub fn pass(&mut self, client: ClientNumber)
        requires { IsNextOf (connection_of client self.old) next.Message }
        ensures { self.new ≡ changed client passed self.old }
    {
        let place = &mut self.places[client.place()];
        place.pass(client.generation());
    }

    /// A message that was taken has no reply, as a response has none.
    pub fn no_reply(&mut self, client: ClientNumber, now: u64)
        ensures { self.new ≡ changed client (unreplied now) self.old }
    {
        let place = &mut self.places[client.place()];
        place.no_reply(client.generation(), now);
    }

    /// A reply goes to the client, behind those that wait to be written, if its connection is open. It is closed where more would wait
    /// than may, or memory is wanting.
    pub fn reply(&mut self, client: ClientNumber, octets: &[u8], now: u64) -> Result<(), ReplyFault>
        requires { length octets.now < 2 ^ 16 }
        ensures ok { OnOk result (self.new ≡ changed client (replied octets.now now) self.old) }
        ensures fits { IsReplied octets.now (connection_of client self.old) result }
        ensures closed { OnErr result (self.new ≡ changed client closed self.old) }
    {
        let place = &mut self.places[client.place()];
        place.reply(client.generation(), octets, now)
    }

    /// What is to be written to the client.
    pub fn to_write(&self, client: ClientNumber) -> &[u8]
        ensures { result.now ≡ output_of (connection_of client self.now) }
    {
        self.places[client.place()].to_write(client.generation())
    }

    /// So many octets of what is to be written were written.
    pub fn written(&mut self, client: ClientNumber, count: usize, now: u64)
        ensures { self.new ≡ changed client (written count now) self.old }
    {
        let alloc = self.alloc;
        let place = &mut self.places[client.place()];
        place.written(client.generation(), alloc, count, now);
    }

    /// The first client from that place on whose connection has waited too long.
    pub fn next_idle(&self, from: usize, now: u64) -> Option<ClientNumber>
        ensures { IsNextIdle from now self.now result }
    {
        for place in from..PLACES {
            if self.places[place].has_waited(now) {
                let generation = self.places[place].generation();
                return Some(ClientNumber::new(place, generation));
            }
        }
        None
    }
}
