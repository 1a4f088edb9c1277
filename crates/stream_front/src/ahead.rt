//! The message at the front of octets.
ghost use Rattle.stream_front.specs.Ahead.{IsAhead};

use dname::{octets_from, u16_at};

/// The octets of a header, which each message has (RFC 1035, section 4.1.1).
pub const LEAST_MESSAGE: usize = 12;

/// The octets of a length.
pub(crate) const LENGTH: usize = 2;

/// What stands at the front of octets.
#[derive(Clone, Copy, Debug)]
pub enum Ahead<'a> {
    /// A whole message, and the octets after it.
    Message { message: &'a [u8], after: &'a [u8] },
    /// Less than a whole message.
    Part,
    /// A length that no message has.
    TooSmall { length: u16 },
}

/// What stands at the front of octets. It looks at the two octets of a length alone, and lends the message.
pub fn first(octets: &[u8]) -> Ahead<'_>
    ensures { IsAhead octets.now result }
{
    if octets.len() < LENGTH {
        return Ahead::Part;
    }
    let length = u16_at(octets, 0);
    let size = usize::from(length);
    if size < LEAST_MESSAGE {
        return Ahead::TooSmall { length };
    }
    let behind = octets_from(octets, LENGTH);
    if behind.len() < size {
        return Ahead::Part;
    }
    let (message, after) = behind.split_at(size);
    Ahead::Message { message, after }
}
