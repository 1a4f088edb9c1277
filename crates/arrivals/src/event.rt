use crate::{Came, Moment};
use arrayvec::ArrayVec;

/// The octets of the longest message, whose length two octets hold (RFC 1035, section 4.2.2).
pub const MAX_MESSAGE: usize = 65_535;

/// A message's octets.
pub type MessageOctets = ArrayVec<u8, MAX_MESSAGE>;

/// What came to a worker, and when. It has a place of 64 KiB for the octets, so one is made for many.
#[derive(Debug, Drop)]
pub struct Event {
    pub moment: Moment,
    pub came: Came,
    pub octets: MessageOctets,
}
