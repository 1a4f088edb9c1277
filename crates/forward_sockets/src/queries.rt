//! What clients send.

/// The number of what gets no reply.
pub(crate) const NOBODY: u64 = 0;

// The octets of a header.
const HEADER: usize = 12;

// The bit of a header's third octet that tells a response.
const RESPONSE: u8 = 0x80;

/// Whether this gets a reply. What is shorter than a header, or a response, gets none (RFC 1035, section 4.1.1).
pub(crate) fn has_reply(octets: &[u8]) -> bool {
    octets.len() >= HEADER && octets[2] < RESPONSE
}
