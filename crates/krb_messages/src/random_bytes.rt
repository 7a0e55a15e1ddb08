//! Where each thing begins in the random bytes of a call. A confounder has a place of 16 bytes and a seed one of 32, of which
//! a suite takes as many from the front as it wants (RFC 3961, section 3). No two things of one message share a byte.

/// The confounder of an AS request's encrypted timestamp.
pub const TIMESTAMP_CONFOUNDER: usize = 0;

/// The nonce of an AS or a TGS request, of four bytes.
pub const NONCE: usize = 16;

/// The confounder of the authenticator of an AP or a TGS request.
pub const AUTHENTICATOR_CONFOUNDER: usize = 0;

/// The seed of an AP request's subkey.
pub const SUBKEY_SEED: usize = 32;

/// The seed of the session's key in a realm's reply.
pub const SESSION_SEED: usize = 0;

/// The confounder of the ticket in a realm's reply.
pub const TICKET_CONFOUNDER: usize = 32;

/// The confounder of the part of a realm's reply.
pub const REPLY_CONFOUNDER: usize = 48;

/// The confounder of the part of a service's reply.
pub const AP_REPLY_CONFOUNDER: usize = 0;

/// The client's part of an agreement in an AS request (RFC 4556, section 3.2.1).
pub const CLIENT_AGREEMENT: usize = 32;

/// The realm's part of an agreement in its reply (RFC 4556, section 3.2.3.1).
pub const REALM_AGREEMENT: usize = 64;

/// How many bytes a part of an agreement has.
pub const AGREEMENT_SIZE: usize = 64;
