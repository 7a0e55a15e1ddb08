//! The bits of kdc-options of which a realm's policy decides (RFC 4120, section 5.4.1). The option for a flag has the flag's bit.

use krb_tickets::flag_bits;

/// A forwardable ticket.
pub const FORWARDABLE: usize = flag_bits::FORWARDABLE;

/// A proxiable ticket.
pub const PROXIABLE: usize = flag_bits::PROXIABLE;

/// A renewable ticket.
pub const RENEWABLE: usize = flag_bits::RENEWABLE;

/// A renewable ticket, where the requested lifetime isn't granted otherwise.
pub const RENEWABLE_OK: usize = 27;
