/// By what a message goes.
#[derive(Clone, Copy, Debug, PartialEq, Eq)]
pub enum Carrier {
    /// UDP: one message a datagram (RFC 1035, section 4.2.1).
    Datagram,
    /// TCP: messages one behind the other, each after its length (RFC 1035, section 4.2.2; RFC 7766).
    Stream,
}
