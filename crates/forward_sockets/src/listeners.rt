//! The sockets at which clients ask.
ghost use Rattle.std.specs.Prelude.{◌≤◌, length, IfErr};
ghost use Rattle.forward_sockets.specs.OpenFault.{IsFaultOf};

use crate::client_ring::{ClientAddress, ClientRing};
use crate::datagrams::{Datagrams, TOGETHER};
use crate::heard::put;
use crate::opening::open_shared;
use crate::queries::{NOBODY, has_reply};
use crate::ready::Ready;
use crate::replies::Replies;
use crate::sending::sent;
use crate::watch::Watch;
use crate::{Faults, OpenFault};
use arrivals::{Carrier, MessageOctets};
use mio::net::UdpSocket;
use std::alloc::Global;
use std::net::SocketAddr;
use std::os::fd::AsRawFd;

#[cfg(test)]
mod tests;

/// At how many addresses a worker can listen.
pub const MAX_LISTENERS: usize = 8;

/// The listeners, with the clients that have no reply yet. Datagrams that lie there together are received together, and their replies go out
/// together.
#[derive(Drop)]
pub(crate) struct Listeners {
    sockets: Vec<UdpSocket>,
    pub(crate) ready: Ready,
    datagrams: Datagrams,
    replies: Replies,
    clients: ClientRing,
}

impl Listeners {
    /// One at each address, which the watch asks by its number.
    pub(crate) fn bind(
        alloc: Global,
        watch: &mut Watch,
        addresses: &[SocketAddr],
    ) -> Result<Listeners, OpenFault>
        requires { length addresses.now ≤ MAX_LISTENERS }
        ensures { IfErr result (IsFaultOf addresses.now) }
    {
        let mut sockets = Vec::with_capacity(alloc, addresses.len())?;
        for number in 0..addresses.len() {
            let address = addresses[number];
            match open_shared(address) {
                Ok(socket) => {
                    watch.add_listener(socket.as_raw_fd())?;
                    sockets.push(socket)?;
                }
                Err(cause) => {
                    let carrier = Carrier::Datagram;
                    return Err(OpenFault::Address {
                        address,
                        carrier,
                        cause,
                    });
                }
            }
        }
        Ok(Listeners {
            sockets,
            ready: Ready::none(),
            datagrams: Datagrams::none(alloc)?,
            replies: Replies::none(alloc)?,
            clients: ClientRing::new(alloc)?,
        })
    }

    /// Each listener has a turn.
    pub(crate) fn add_turns(&mut self) {
        for listener in 0..MAX_LISTENERS as u8 {
            if usize::from(listener) < self.sockets.len() {
                self.ready.add(listener);
            }
        }
    }

    /// Whether some may have come.
    pub(crate) fn may_have_some(&self) -> bool {
        !self.datagrams.is_empty() || !self.ready.is_empty()
    }

    /// The next datagram, where one has come: the number of its client. Its octets are put into `into`.
    pub(crate) fn receive(&mut self, into: &mut MessageOctets, faults: &mut Faults) -> Option<u64> {
        if self.datagrams.is_empty() {
            self.receive_all(faults);
        }
        let datagram = self.datagrams.hand_out()?;
        let client = datagram.client;
        put(into, datagram.octets());
        Some(self.number_of(client, into))
    }

    // Receives what the listeners have in turn, as many as go together. One that may have more has a further turn.
    fn receive_all(&mut self, faults: &mut Faults) {
        self.datagrams.begin();
        for _ in 0..TOGETHER + MAX_LISTENERS {
            if self.datagrams.is_full() {
                return;
            }
            let Some(listener) = self.ready.take() else {
                return;
            };
            if let Some(socket) = self.sockets.get(usize::from(listener)) {
                let may_have_more = match self.datagrams.receive(socket, listener) {
                    Ok(()) => true,
                    Err(cause) => faults.query.note_receipt(cause),
                };
                if may_have_more {
                    self.ready.add(listener);
                }
            }
        }
    }

    // The number of a client that sent this. What gets no reply takes no client's place.
    fn number_of(&mut self, client: ClientAddress, octets: &[u8]) -> u64 {
        if has_reply(octets) {
            self.clients.enter(client)
        } else {
            NOBODY
        }
    }

    /// Sends the client its reply, from the socket at which it asked, once all that came with its query were handed out. It has no other
    /// from then on.
    pub(crate) fn reply(&mut self, client: u64, octets: &[u8], faults: &mut Faults) {
        let Some(client) = self.clients.leave(client) else {
            faults.reply.add_own();
            return;
        };
        if self.datagrams.is_empty() || !self.replies.put(client, octets) {
            self.send_all(faults);
            send(&self.sockets, client, octets, faults);
        }
    }

    /// Sends the replies that wait.
    pub(crate) fn send_all(&mut self, faults: &mut Faults) {
        for reply in self.replies.waiting() {
            send(&self.sockets, reply.client, &reply.octets, faults);
        }
        self.replies.clear();
    }
}

fn send(sockets: &[UdpSocket], client: ClientAddress, octets: &[u8], faults: &mut Faults) {
    if let Some(socket) = sockets.get(usize::from(client.listener)) {
        let _sent = faults
            .reply
            .note(sent(|| socket.send_to(octets, client.address)));
    }
}
