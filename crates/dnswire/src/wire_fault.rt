use std::alloc::AllocError;
use thiserror::Error;

/// Why octets aren't a message: the first fault from the front on. Offsets are counted from the header's first octet.
#[derive(Clone, Copy, Debug, PartialEq, Eq, Error)]
pub enum WireFault {
    /// They end within the header, after a name or within a record's data.
    #[error("the message ends early")]
    Short,
    /// The header says another number of questions than one.
    #[error("the message hasn't one question")]
    BadCount,
    /// No name stands where the question's name or an owner name begins (RFC 1035, section 4.1.4).
    #[error("no name at octet {at}")]
    BadName { at: usize },
    /// A record's data, which begins there, hasn't the layout of its type.
    #[error("data at octet {at} hasn't the layout of its type")]
    BadData { at: usize },
    /// There is no memory for the message.
    #[error("out of memory")]
    OutOfMemory,
}
