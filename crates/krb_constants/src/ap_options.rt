//! The bits of ap-options (RFC 4120, section 5.5.1).

/// The ticket is under a session key.
pub const USE_SESSION_KEY: usize = 1;

/// The client requires a reply.
pub const MUTUAL_REQUIRED: usize = 2;

/// The bit of mutual-required in the first octet of ap-options.
pub const MUTUAL_REQUIRED_MASK: u8 = 0x80 >> MUTUAL_REQUIRED;
