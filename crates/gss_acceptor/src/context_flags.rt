//! The flags of a context (RFC 4121, section 4.1.1.1).

/// The initiator delegates its credentials.
pub const DELEGATION: u32 = 1;

/// The initiator asks for an AP-REP.
pub const MUTUAL: u32 = 2;

/// The acceptor is to detect replayed tokens.
pub const REPLAY: u32 = 4;

/// The acceptor is to detect tokens out of sequence.
pub const SEQUENCE: u32 = 8;

/// Messages may be encrypted.
pub const CONFIDENTIALITY: u32 = 16;

/// Messages may be protected by checksums.
pub const INTEGRITY: u32 = 32;
