//! The bits of kdc-options that a realm looks at (RFC 4120, section 5.4.1).

/// A ticket with another address, by a forwardable one.
pub const FORWARDED: usize = 2;

/// A ticket with another address, by a proxiable one.
pub const PROXY: usize = 4;

/// A ticket that starts later.
pub const POSTDATED: usize = 6;

/// A ticket under the session key of another one.
pub const ENC_TKT_IN_SKEY: usize = 28;

/// The presented ticket, to last longer.
pub const RENEW: usize = 30;

/// The presented ticket, which is to become valid.
pub const VALIDATE: usize = 31;
