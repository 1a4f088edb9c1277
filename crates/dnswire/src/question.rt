use crate::Edns;
use arrayvec::ArrayVec;
use dname::Name;

/// The octets of the longest question: a name of 255, a type and a class (RFC 1035, section 4.1.2).
pub const MAX_ASKED: usize = 259;

/// What a query asks, with the bits of its header that a reply takes over.
#[derive(Debug, Drop)]
pub struct Question {
    pub id: u16,
    /// Recursion is desired (RFC 1035, section 4.1.1).
    pub rd: bool,
    /// The client takes the AD bit of a reply (RFC 6840, section 5.7).
    pub ad: bool,
    /// Checking is disabled (RFC 4035, section 3.2.2).
    pub cd: bool,
    pub name: Name,
    /// The question's own octets, in the case that the client wrote.
    pub asked: ArrayVec<u8, MAX_ASKED>,
    pub qtype: u16,
    pub qclass: u16,
    /// None where the query has no OPT record.
    pub edns: Option<Edns>,
}
