//! A socket that is asked for datagrams with and without waiting.
use crate::DatagramOctets;
use std::io;
use std::io::ErrorKind;
use std::net::{SocketAddr, SocketAddrV4, UdpSocket};

// How many calls that don't wait are passed over after one that found nothing. At little load the
// system is then asked in vain once in 16 datagrams.
const PASSED_OVER: u8 = 15;

/// A socket whose mode is changed only where a call needs the other one, since that takes a call of
/// the system.
#[derive(Debug, Drop)]
pub(super) struct Tap {
    pub(super) socket: UdpSocket,
    // The mode: whether a call waits.
    waits: bool,
    // Whether one has come without waiting since the last that was waited for.
    has_found: bool,
    // How many calls are still passed over.
    rest: u8,
}

impl Tap {
    /// The tap of a socket that waits, as a new one does.
    pub(super) fn over(socket: UdpSocket) -> Tap {
        Tap {
            socket,
            waits: true,
            has_found: false,
            rest: 0,
        }
    }

    /// Waits for the next datagram, puts its octets into `into`, and gives its sender's address.
    /// What `into` holds after a failed call is left open.
    pub(super) fn receive(&mut self, into: &mut DatagramOctets) -> io::Result<SocketAddr> {
        self.has_found = false;
        let received = into.receive(&self.socket);
        if self.waits || !would_wait(&received) {
            return received;
        }
        self.set_waits(true)?;
        into.receive(&self.socket)
    }

    /// The same without waiting, where one has come. It may also pass one over, which is then left
    /// to a later call.
    pub(super) fn receive_waiting(&mut self, into: &mut DatagramOctets) -> Option<SocketAddr> {
        if self.rest > 0 {
            self.rest -= 1;
            return None;
        }
        if self.waits && self.set_waits(false).is_err() {
            return None;
        }
        match into.receive(&self.socket) {
            Ok(sender) => {
                self.has_found = true;
                Some(sender)
            }
            Err(_) => {
                self.end_in_vain();
                None
            }
        }
    }

    // After a call that found nothing. Where others before it did, more are likely to come soon, and
    // the mode stays.
    fn end_in_vain(&mut self) {
        if !self.has_found {
            self.rest = PASSED_OVER;
            // Where this fails, the next that waits tries again.
            let _changed = self.set_waits(true);
        }
    }

    /// Sends a datagram, and tells whether all of it was taken.
    pub(super) fn send_to(&mut self, octets: &[u8], address: SocketAddrV4) -> bool {
        let mut sent = self.socket.send_to(octets, address);
        if !self.waits && would_wait(&sent) && self.set_waits(true).is_ok() {
            sent = self.socket.send_to(octets, address);
        }
        match sent {
            Ok(count) => count == octets.len(),
            Err(_) => false,
        }
    }

    fn set_waits(&mut self, waits: bool) -> io::Result<()> {
        self.socket.set_nonblocking(!waits)?;
        self.waits = waits;
        Ok(())
    }
}

// Whether the call failed since it would have had to wait.
fn would_wait<T>(outcome: &io::Result<T>) -> bool {
    match outcome {
        Ok(_) => false,
        Err(error) => error.kind() == ErrorKind::WouldBlock,
    }
}
