/// What a forwarder listens to, whom it asks, and how much it does.
#[derive(Clone, Copy, Debug, PartialEq, Eq)]
pub struct Service {
    /// The port of the first worker. Each further worker has the next port.
    pub listen: u16,
    /// The port of the upstream resolver.
    pub upstream: u16,
    /// How many workers serve, each over a link and on a thread of its own.
    pub workers: u8,
    /// How many datagrams each worker receives before it ends.
    pub datagrams: u16,
}
