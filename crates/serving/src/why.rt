/// Why a reply is sent to a client.
#[derive(Clone, Copy, Debug, PartialEq, Eq)]
pub enum Why {
    /// The records of this version prove it.
    Answered { version: u64 },
    /// The query can't be read, or isn't one that is answered.
    Error,
    /// As many queries wait for the upstream as can.
    ServFail,
    /// The upstream has answered.
    Relayed,
}
