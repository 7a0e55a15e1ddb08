//! The bits of a ticket's flags that a service or a realm looks at, or sets (RFC 4120, section 5.3).

/// The ticket isn't valid yet.
pub const INVALID: usize = 7;

/// The ticket was issued by an AS exchange.
pub const INITIAL: usize = 9;

/// The client was authenticated before the ticket was issued.
pub const PRE_AUTHENT: usize = 10;

/// The bit of initial in the second octet of a ticket's flags.
pub const INITIAL_MASK: u8 = 0x80 >> (INITIAL - 8);

/// The bit of pre-authent in the second octet of a ticket's flags.
pub const PRE_AUTHENT_MASK: u8 = 0x80 >> (PRE_AUTHENT - 8);
