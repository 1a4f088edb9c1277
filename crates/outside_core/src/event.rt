use crate::Datagram;

/// What went over a link at one time.
#[derive(Debug, PartialEq, Eq, Drop)]
pub enum Event {
    /// A datagram that the link was waited for.
    Awaited(Datagram),
    /// A datagram that had come already, and was taken without waiting.
    Found(Datagram),
    /// A datagram that was sent.
    Sent(Datagram),
}
