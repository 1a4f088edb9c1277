use crate::Carrier;

/// From where it came.
#[derive(Clone, Copy, Debug, PartialEq, Eq)]
pub enum Came {
    /// A client, by a number under which it is found again until it has its reply.
    Query { client: u64, carrier: Carrier },
    /// The upstream, over the socket on which the question of this slot was asked last.
    Answer { slot: u8, carrier: Carrier },
    /// Nobody: a quarter of a second is over. It has no octets that mean anything.
    Tick,
}
