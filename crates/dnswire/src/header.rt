ghost use Rattle.std.specs.Prelude.{◌≡◌, ◌≤◌, ◌<◌, length, IfSome, IsNone, Some};
ghost use Rattle.dnswire.specs.Header.{IsHeader, head_of};
ghost use Rattle.dnswire.specs.declared.header.Header.{Header};

use crate::{Head, HeaderFlags};
use dname::u16_at;

/// The octets of a message's header (RFC 1035, section 4.1.1).
pub(crate) const HEADER_OCTETS: usize = 12;

/// A message's header (RFC 1035, section 4.1.1).
#[derive(Clone, Copy, Debug, PartialEq, Eq)]
pub(crate) struct Header {
    pub(crate) id: u16,
    pub(crate) flags: u16,
    pub(crate) questions: u16,
    pub(crate) answers: u16,
    pub(crate) authorities: u16,
    pub(crate) additionals: u16,
}

impl Header {
    /// The header at the front; none where there are fewer than 12 octets.
    pub(crate) fn read(octets: &[u8]) -> Option<Header>
        ensures read { IfSome result (IsHeader octets.now) }
        ensures none { IsNone result → length octets.now < 12 }
        ensures every { (header : Header) → IsHeader octets.now header → result
            ≡ Some header }
    {
        if octets.len() < HEADER_OCTETS {
            return None;
        }
        Some(Header {
            id: u16_at(octets, 0),
            flags: u16_at(octets, 2),
            questions: u16_at(octets, 4),
            answers: u16_at(octets, 6),
            authorities: u16_at(octets, 8),
            additionals: u16_at(octets, 10),
        })
    }

    pub(crate) fn flags(self) -> HeaderFlags
        ensures { result ≡ self.flags }
    {
        HeaderFlags::of(self.flags)
    }

    /// What a reply that tells a fault takes over.
    pub(crate) fn head(self) -> Head
        ensures { result ≡ head_of self }
    {
        let flags = self.flags();
        Head {
            id: self.id,
            opcode: flags.opcode(),
            rd: flags.has_rd(),
            cd: flags.has_cd(),
        }
    }
}
