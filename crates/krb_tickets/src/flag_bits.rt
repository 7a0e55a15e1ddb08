//! The bits of a ticket's flags of which a realm's policy decides (RFC 4120, section 5.3). The option for a flag has the flag's bit (section
//! 5.4.1).

use krb_constants::kdc_options;

/// The ticket-granting service may grant a ticket-granting ticket with another address by this one.
pub const FORWARDABLE: usize = 1;

/// The ticket was forwarded, or granted by one that was.
pub const FORWARDED: usize = kdc_options::FORWARDED;

/// The ticket-granting service may grant a service ticket with another address by this one.
pub const PROXIABLE: usize = 3;

/// The ticket is a proxy.
pub const PROXY: usize = kdc_options::PROXY;

/// The ticket may be renewed up to its renew-till.
pub const RENEWABLE: usize = 8;

/// The bit of forwardable in the first octet of a ticket's flags.
pub const FORWARDABLE_MASK: u8 = 0x80 >> FORWARDABLE;

/// The bit of forwarded in the first octet of a ticket's flags.
pub const FORWARDED_MASK: u8 = 0x80 >> FORWARDED;

/// The bit of proxiable in the first octet of a ticket's flags.
pub const PROXIABLE_MASK: u8 = 0x80 >> PROXIABLE;

/// The bit of proxy in the first octet of a ticket's flags.
pub const PROXY_MASK: u8 = 0x80 >> PROXY;

/// The bit of renewable in the second octet of a ticket's flags.
pub const RENEWABLE_MASK: u8 = 0x80 >> (RENEWABLE - 8);
