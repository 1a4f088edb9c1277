use crate::Why;

/// What a worker does of a datagram.
#[derive(Clone, Copy, Debug, PartialEq, Eq)]
pub enum Deed {
    /// Nothing is sent: a client's datagram is a response, or has no header.
    Quiet,
    /// Nothing is sent, and nothing is stored: the upstream's datagram is no answer that a query waits for.
    Ignored,
    /// The client's question is asked of the upstream.
    ToUpstream,
    /// A reply is sent to the client with this number.
    ToClient { client: u64, why: Why },
}
