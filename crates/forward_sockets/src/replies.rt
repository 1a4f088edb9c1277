//! Replies that go out together.
use crate::client_ring::ClientAddress;
use crate::datagrams::{TOGETHER, nobody};
use arrayvec::ArrayVec;
use outside_core::OutOfMemory;
use std::alloc::Global;

// The octets of the longest reply that waits.
const MOST: usize = 1232;

/// A reply that waits to be sent.
#[derive(Drop)]
pub(crate) struct Reply {
    pub(crate) client: ClientAddress,
    pub(crate) octets: ArrayVec<u8, MOST>,
}

impl Reply {
    // Whether there is room for it.
    fn put(&mut self, client: ClientAddress, octets: &[u8]) -> bool {
        self.client = client;
        self.octets.clear();
        self.octets.try_extend_from_slice(octets).is_ok()
    }
}

/// Replies that wait for each other.
#[derive(Drop)]
pub(crate) struct Replies {
    places: Vec<Reply>,
    count: usize,
}

impl Replies {
    pub(crate) fn none(alloc: Global) -> Result<Replies, OutOfMemory> {
        let mut places = Vec::with_capacity(alloc, TOGETHER)?;
        for _ in 0..TOGETHER {
            places.push(Reply {
                client: nobody(),
                octets: ArrayVec::new(),
            })?;
        }
        Ok(Replies { places, count: 0 })
    }

    /// Puts a reply behind the others. Whether there is room for it.
    pub(crate) fn put(&mut self, client: ClientAddress, octets: &[u8]) -> bool {
        let Some(place) = self.places.get_mut(self.count) else {
            return false;
        };
        let fits = place.put(client, octets);
        if fits {
            self.count = self.count.saturating_add(1);
        }
        fits
    }

    /// Those that wait, in order.
    pub(crate) fn waiting(&self) -> &[Reply] {
        &self.places[..self.count.min(self.places.len())]
    }

    /// All were sent.
    pub(crate) fn clear(&mut self) {
        self.count = 0;
    }
}
