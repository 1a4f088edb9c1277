//! What a worker sends.
use arrivals::{Carrier, MessageOctets};

/// To whom.
#[derive(Clone, Copy, Debug, PartialEq, Eq)]
pub enum Receiver {
    ToClient(u64),
    /// The upstream, over a new socket of this carrier, which is the slot's from then on.
    ToUpstream { slot: usize, carrier: Carrier },
}

/// A message that is given to be sent.
#[derive(Debug, Drop)]
pub struct Sent {
    pub receiver: Receiver,
    pub octets: MessageOctets,
}
