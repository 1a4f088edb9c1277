//! What a datagram carries.
ghost use Rattle.std.specs.Prelude.{◌≡◌, ◌≤◌, length};

use crate::MAX_DATAGRAM;
use std::marker::Model;
use std::net::{SocketAddr, UdpSocket};
use std::{fmt, io};

/// The octets of a datagram, seen as their list. They lie in the value itself.
#[derive(Drop)]
pub struct DatagramOctets {
    len: usize,
    // What lies beyond the length may be of an earlier datagram, and is lent to nobody.
    store: [u8; MAX_DATAGRAM],
}

impl Model for DatagramOctets {
    ghost use Rattle.std.specs.Prelude.{List, ℕ, ◌≤◌, take};

    ghost Value = { List ℕ };

    ghost view = { λ o. take o.len o.store };

    ghost invariant = { λ o. o.len ≤ 4096 };
}

impl DatagramOctets {
    pub fn of(octets: &[u8]) -> DatagramOctets
        requires { length octets.now ≤ 4096 }
        ensures { result ≡ octets.now }
    {
        let mut store = [0; MAX_DATAGRAM];
        store[..octets.len()].copy_from_slice(octets);
        DatagramOctets {
            len: octets.len(),
            store,
        }
    }

    /// The same octets once more. It takes no memory.
    pub fn copy(&self) -> DatagramOctets
        ensures { result ≡ self.now }
    {
        DatagramOctets {
            len: self.len,
            store: self.store,
        }
    }

    pub fn as_slice(&self) -> &[u8]
        ensures octets { result.now ≡ self.now }
        ensures fits { length self.now ≤ 4096 }
    {
        &self.store[..self.len]
    }

    /// Puts other octets in the place of these.
    pub(crate) fn set(&mut self, octets: &[u8])
        requires { length octets.now ≤ 4096 }
        ensures { self.new ≡ octets.now }
    {
        self.store[..octets.len()].copy_from_slice(octets);
        self.len = octets.len();
    }

    /// Takes a socket's next datagram, puts its octets in the place of these, and gives its
    /// sender's address. The socket's mode says whether it waits for one. What they are after a
    /// failed call is left open.
    pub(crate) fn receive(&mut self, socket: &UdpSocket) -> io::Result<SocketAddr> {
        let (len, sender) = socket.recv_from(&mut self.store)?;
        self.len = len;
        Ok(sender)
    }
}

impl PartialEq for DatagramOctets {
    ghost use Rattle.std.specs.Prelude.{nat_eq};
    ghost use Rattle.std.specs.Cmp.{partial_equiv_from_equiv};
    ghost use Rattle.std.specs.Cmp.Lexicographic.{pointwise, nat_list_eq_equiv};

    ghost eq = { pointwise nat_eq };

    ghost laws = { partial_equiv_from_equiv nat_list_eq_equiv };

    fn eq(&self, other: &DatagramOctets) -> bool {
        self.as_slice() == other.as_slice()
    }
}

impl Eq for DatagramOctets {
    ghost use Rattle.std.specs.Cmp.Lexicographic.{nat_list_eq_equiv};

    ghost laws = { nat_list_eq_equiv };
}

impl fmt::Debug for DatagramOctets {
    fn fmt<W: fmt::Write>(&self, f: &mut fmt::Formatter<W>) -> fmt::Result {
        fmt::Debug::fmt(&self.as_slice(), f)
    }
}
