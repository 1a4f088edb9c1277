ghost use Rattle.std.specs.Prelude.{◌≡◌, ◌<◌, ◌^◌, Some};
ghost use Rattle.stream_clients.specs.Number.{client_of, number_of};

use std::marker::Model;

/// How many connections can be open at once.
pub const PLACES: usize = 32;

/// The number of a client's connection, which names its place and how many connections that place has had with it.
#[derive(Clone, Copy, Debug, PartialEq, Eq)]
pub struct ClientNumber {
    place: usize,
    generation: u64,
}

impl Model for ClientNumber {
    ghost use Rattle.std.specs.Prelude.{◌<◌, ◌^◌};
    ghost use Rattle.stream_clients.specs.Number.{Client};
    ghost use Rattle.stream_clients.specs.declared.client_number.TheConstants.{PLACES};

    ghost Value = { Client };

    ghost view = { λ n. record { place = n.place; generation = n.generation } };

    ghost invariant = { λ n. (n.place < PLACES) × (n.generation < 2 ^ 58) };

    ghost inverse = { λ c. record { place = c.place; generation = c.generation } };
}

impl ClientNumber {
    pub(crate) fn new(place: usize, generation: u64) -> ClientNumber
        requires place { place < PLACES }
        requires generation { generation < 2 ^ 58 }
        ensures { result ≡ record { place = place; generation = generation } }
    {
        ClientNumber { place, generation }
    }

    /// The client as one number.
    pub fn as_u64(self) -> u64
        ensures value { result ≡ number_of self }
        ensures back { client_of result ≡ Some self }

        // The highest bit tells these numbers from those of other clients.
        ensures low { result < 2 ^ 63 }
    {
        self.generation * PLACES as u64 + self.place as u64
    }

    /// The client that has the number.
    pub fn of_u64(number: u64) -> Option<ClientNumber>
        ensures { result ≡ client_of number }
    {
        if number >= 1 << 63 {
            return None;
        }
        let place = (number % PLACES as u64) as usize;
        Some(ClientNumber::new(place, number / PLACES as u64))
    }

    pub(crate) fn place(self) -> usize
        ensures value { result ≡ self.place }
        ensures within { result < PLACES }
    {
        self.place
    }

    pub(crate) fn generation(self) -> u64
        ensures { result ≡ self.generation }
    {
        self.generation
    }
}
