/// Why octets don't begin with the wire form of a name: what stands at the first label, or end, that can't be read.
#[derive(Clone, Copy, Debug, PartialEq, Eq)]
pub enum NameFault {
    /// A length octet of 192 or more, the mark of a compressed name (RFC 1035, section 4.1.4).
    Pointer,
    /// A length octet of 64 to 191 (RFC 1035, section 2.3.4).
    LabelTooLong,
    /// With this label and the root's octet the name would have more than 255 octets (RFC 1035, section 2.3.4).
    NameTooLong,
    /// The octets end before the name does.
    Short,
}
