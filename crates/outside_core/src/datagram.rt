//! What links carry.
ghost use Rattle.std.specs.Prelude.{◌≡◌, ◌≤◌, length};
ghost use Rattle.outside_core.specs.Datagram.{datagram_of};

use crate::DatagramOctets;

/// The most octets of a datagram. What a network gives beyond them is lost.
pub const MAX_DATAGRAM: usize = 4096;

/// With whom a link exchanges datagrams.
#[derive(Clone, Copy, Debug, PartialEq, Eq)]
pub enum Peer {
    /// A client, by a number under which its link finds it again.
    Client(u64),
    /// The resolver that is asked where the cache can't answer.
    Upstream,
}

/// A datagram, and the peer that it came from or goes to.
#[derive(Debug, PartialEq, Eq, Drop)]
pub struct Datagram {
    pub peer: Peer,
    pub octets: DatagramOctets,
}

impl Datagram {
    /// The datagram of these octets.
    pub fn of(peer: Peer, octets: &[u8]) -> Datagram
        requires { length octets.now ≤ 4096 }
        ensures { result ≡ datagram_of peer octets.now }
    {
        Datagram {
            peer,
            octets: DatagramOctets::of(octets),
        }
    }

    /// The same datagram once more. It takes no memory.
    pub fn copy(&self) -> Datagram
        ensures { result ≡ self.now }
    {
        Datagram {
            peer: self.peer,
            octets: self.octets.copy(),
        }
    }
}
