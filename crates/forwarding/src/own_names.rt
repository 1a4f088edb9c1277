//! The names that resolvers answer themselves, before any cache.

/// Their wire forms.
pub const OWN_NAMES: [&[u8]; 36] = [
    // `localhost` (RFC 6761, section 6.3) and `local` (RFC 6762, section 22.1).
    b"\x09localhost\x00",
    b"\x05local\x00",
    // `home.arpa` (RFC 8375, section 4).
    b"\x04home\x04arpa\x00",
    // Private addresses (RFC 6303, section 4.1).
    b"\x0210\x07in-addr\x04arpa\x00",
    b"\x0216\x03172\x07in-addr\x04arpa\x00",
    b"\x0217\x03172\x07in-addr\x04arpa\x00",
    b"\x0218\x03172\x07in-addr\x04arpa\x00",
    b"\x0219\x03172\x07in-addr\x04arpa\x00",
    b"\x0220\x03172\x07in-addr\x04arpa\x00",
    b"\x0221\x03172\x07in-addr\x04arpa\x00",
    b"\x0222\x03172\x07in-addr\x04arpa\x00",
    b"\x0223\x03172\x07in-addr\x04arpa\x00",
    b"\x0224\x03172\x07in-addr\x04arpa\x00",
    b"\x0225\x03172\x07in-addr\x04arpa\x00",
    b"\x0226\x03172\x07in-addr\x04arpa\x00",
    b"\x0227\x03172\x07in-addr\x04arpa\x00",
    b"\x0228\x03172\x07in-addr\x04arpa\x00",
    b"\x0229\x03172\x07in-addr\x04arpa\x00",
    b"\x0230\x03172\x07in-addr\x04arpa\x00",
    b"\x0231\x03172\x07in-addr\x04arpa\x00",
    b"\x03168\x03192\x07in-addr\x04arpa\x00",
    // This network, loopback, link-local addresses, those for documents, and broadcast (RFC 6303, section 4.2).
    b"\x010\x07in-addr\x04arpa\x00",
    b"\x03127\x07in-addr\x04arpa\x00",
    b"\x03254\x03169\x07in-addr\x04arpa\x00",
    b"\x012\x010\x03192\x07in-addr\x04arpa\x00",
    b"\x03100\x0251\x03198\x07in-addr\x04arpa\x00",
    b"\x03113\x010\x03203\x07in-addr\x04arpa\x00",
    b"\x03255\x03255\x03255\x03255\x07in-addr\x04arpa\x00",
    // The unspecified address and loopback (RFC 6303, section 4.3).
    b"\
        \x010\x010\x010\x010\x010\x010\x010\x010\x010\x010\x010\x010\x010\x010\x010\x010\
        \x010\x010\x010\x010\x010\x010\x010\x010\x010\x010\x010\x010\x010\x010\x010\x010\
        \x03ip6\x04arpa\x00",
    b"\
        \x011\x010\x010\x010\x010\x010\x010\x010\x010\x010\x010\x010\x010\x010\x010\x010\
        \x010\x010\x010\x010\x010\x010\x010\x010\x010\x010\x010\x010\x010\x010\x010\x010\
        \x03ip6\x04arpa\x00",
    // Local addresses, link-local ones and those for documents (RFC 6303, sections 4.4 to 4.6).
    b"\x01d\x01f\x03ip6\x04arpa\x00",
    b"\x018\x01e\x01f\x03ip6\x04arpa\x00",
    b"\x019\x01e\x01f\x03ip6\x04arpa\x00",
    b"\x01a\x01e\x01f\x03ip6\x04arpa\x00",
    b"\x01b\x01e\x01f\x03ip6\x04arpa\x00",
    b"\x018\x01b\x01d\x010\x011\x010\x010\x012\x03ip6\x04arpa\x00",
];
