//! Numbers of the exchange that changes a password.

/// The version 1: a reply's, and that of requests in the protocol before RFC 3244, whose own requests have 0xFF80 (RFC 3244,
/// section 2).
pub const PROTOCOL_VERSION: u16 = 1;

/// The octets of `PROTOCOL_VERSION`, the highest first.
pub const KRB_PRIV_VERSION: [u8; 2] = [0x00, PROTOCOL_VERSION as u8];
