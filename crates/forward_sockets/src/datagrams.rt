//! Datagrams of clients that are received together.
ghost use Rattle.std.specs.Prelude.{◌≤◌, length};
ghost use Rattle.outside_core.specs.declared.datagram.TheConstants.{MAX_DATAGRAM};

use crate::client_ring::ClientAddress;
use mio::net::UdpSocket;
use outside_core::{MAX_DATAGRAM, OutOfMemory};
use std::alloc::Global;
use std::io;
use std::net::{Ipv4Addr, SocketAddr, SocketAddrV4};

/// So many are received together at most.
pub(crate) const TOGETHER: usize = 16;

/// The client of a place that has had none.
pub(crate) fn nobody() -> ClientAddress {
    ClientAddress {
        listener: 0,
        address: SocketAddr::V4(SocketAddrV4::new(Ipv4Addr::UNSPECIFIED, 0)),
    }
}

/// A datagram, and where its reply goes.
#[derive(Drop)]
pub(crate) struct Datagram {
    pub(crate) client: ClientAddress,
    octets: [u8; MAX_DATAGRAM],
    count: usize,
    ghost within: { count ≤ MAX_DATAGRAM },
}

impl Datagram {
    fn unused() -> Datagram {
        Datagram {
            client: nobody(),
            octets: [0; MAX_DATAGRAM],
            count: 0,
        }
    }

    pub(crate) fn octets(&self) -> &[u8]
        ensures { length result.now ≤ MAX_DATAGRAM }
    {
        &self.octets[..self.count]
    }

    // Receives the listener's next one.
    fn receive(&mut self, socket: &UdpSocket, listener: u8) -> io::Result<()> {
        let (count, address) = socket.recv_from(&mut self.octets)?;
        self.count = count;
        self.client = ClientAddress { listener, address };
        Ok(())
    }
}

/// Datagrams that were received together, of which the first were handed out.
#[derive(Drop)]
pub(crate) struct Datagrams {
    places: Vec<Datagram>,
    received: usize,
    handed_out: usize,
}

impl Datagrams {
    pub(crate) fn none(alloc: Global) -> Result<Datagrams, OutOfMemory> {
        let mut places = Vec::with_capacity(alloc, TOGETHER)?;
        for _ in 0..TOGETHER {
            places.push(Datagram::unused())?;
        }
        Ok(Datagrams {
            places,
            received: 0,
            handed_out: 0,
        })
    }

    /// Whether all were handed out.
    pub(crate) fn is_empty(&self) -> bool {
        self.handed_out >= self.received
    }

    /// Others are received from now on.
    pub(crate) fn begin(&mut self) {
        self.received = 0;
        self.handed_out = 0;
    }

    /// Whether no more are received together.
    pub(crate) fn is_full(&self) -> bool {
        self.received >= self.places.len()
    }

    /// Receives the listener's next one behind the others, unless there are as many as go together.
    pub(crate) fn receive(&mut self, socket: &UdpSocket, listener: u8) -> io::Result<()> {
        if let Some(place) = self.places.get_mut(self.received) {
            place.receive(socket, listener)?;
            self.received = self.received.saturating_add(1);
        }
        Ok(())
    }

    /// The next one.
    pub(crate) fn hand_out(&mut self) -> Option<&Datagram> {
        if self.is_empty() {
            return None;
        }
        let next = self.handed_out;
        self.handed_out = next.saturating_add(1);
        self.places.get(next)
    }
}
