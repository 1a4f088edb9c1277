//! The bits of a header's flags (RFC 1035, section 4.1.1; AD and CD: RFC 4035, section 3).

/// The message is a response.
pub const QR: u16 = 0x8000;

/// The message is truncated.
pub const TC: u16 = 0x200;

/// Recursion is desired.
pub const RD: u16 = 0x100;

/// Recursion is available.
pub const RA: u16 = 0x80;

/// The data is authentic.
pub const AD: u16 = 0x20;

/// Checking is disabled.
pub const CD: u16 = 0x10;
