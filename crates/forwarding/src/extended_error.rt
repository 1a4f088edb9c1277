//! The numbers of extended errors.

/// The code of the option that holds an extended error (RFC 8914, section 2).
pub const EXTENDED_ERROR: u16 = 15;

/// The INFO-CODE of an answer that was made from denials or a wildcard that are held (RFC 8914, section 5.2, and its registry;
/// RFC 8198).
pub const SYNTHESIZED: u16 = 29;
