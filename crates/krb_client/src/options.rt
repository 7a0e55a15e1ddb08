//! What requests ask of a ticket besides its end.
ghost use Rattle.std.specs.Prelude.{◌≡◌, ◌≤◌, IfOk};
ghost use Rattle.krb_tickets.specs.Parts.{masked};
ghost use Rattle.krb_client.specs.Options.{forwarding_options, front_octet, last_octet, options_of, plain_options, renewal_options, rtime_of, second_octet};

use krb_constants::kdc_options;
use krb_messages::data_types::{KerberosFlags, KerberosTime};
use krb_tickets::flag_bits::{
    FORWARDABLE, FORWARDABLE_MASK, FORWARDED_MASK, PROXIABLE, PROXIABLE_MASK, RENEWABLE_MASK,
};
use picky_asn1::date::GeneralizedTime;
use picky_asn1::wrapper::{BitStringAsn1, GeneralizedTimeAsn1};
use picky_asn1_der::{ExplicitContextTag, ExplicitContextTag6};
use std::alloc::{AllocError, Global};

/// The bit of renew in the last octet of kdc-options.
pub const RENEW_MASK: u8 = 0x80 >> (kdc_options::RENEW - 24);

/// What a request asks of a ticket besides its end: five of kdc-options, and rtime (RFC 4120, section 5.4.1). The KDC's policy decides what
/// of it is granted. The flags and the renew-till of the credential say what was.
#[derive(Clone, Copy)]
pub struct TicketOptions {
    /// The ticket is to be forwardable.
    pub forwardable: bool,
    /// A ticket to be forwarded is asked for, by a forwardable one: an option of TGS requests alone.
    pub forwards: bool,
    /// The ticket is to be proxiable.
    pub proxiable: bool,
    /// The ticket is to be renewable.
    pub renewable: bool,
    /// The presented ticket is to be renewed: an option of TGS requests alone.
    pub renews: bool,
    /// Until when a renewable ticket is to be renewable. Without it the KDC decides.
    pub rtime: Option<GeneralizedTime>,
}

impl TicketOptions {
    /// None of the options: what a plain ticket is asked for by.
    pub fn plain() -> TicketOptions
        ensures { result ≡ plain_options }
    {
        TicketOptions {
            forwardable: false,
            forwards: false,
            proxiable: false,
            renewable: false,
            renews: false,
            rtime: None,
        }
    }

    /// What the renewal of a ticket with these flags is asked for by: renew, and the flags that the ticket has.
    pub fn renewal(flags: &KerberosFlags) -> TicketOptions
        ensures { result ≡ renewal_options flags.now }
    {
        TicketOptions {
            forwardable: flags.bit(FORWARDABLE),
            forwards: false,
            proxiable: flags.bit(PROXIABLE),
            renewable: true,
            renews: true,
            rtime: None,
        }
    }

    /// What a ticket to be forwarded is asked for by: forwarded, and forwardable, so that it may be forwarded again (RFC 4120, section 2.6).
    pub fn forwarding() -> TicketOptions
        ensures { result ≡ forwarding_options }
    {
        TicketOptions {
            forwardable: true,
            forwards: true,
            proxiable: false,
            renewable: false,
            renews: false,
            rtime: None,
        }
    }
}

/// The options as 32 bits.
pub(crate) fn options_of(alloc: Global, options: TicketOptions) -> Result<KerberosFlags, AllocError>
    ensures { IfOk result (λ bits. bits ≡ options_of options) }
{
    let octets = [
        front_octet(options),
        second_octet(options),
        0x00,
        last_octet(options),
    ];
    let Ok(bits) = BitStringAsn1::new(alloc, &octets, 0) else {
        return Err(AllocError);
    };
    Ok(bits)
}

/// The field rtime.
pub(crate) fn rtime_of(options: TicketOptions) -> Option<ExplicitContextTag6<KerberosTime>>
    ensures { result ≡ rtime_of options }
{
    match options.rtime {
        Some(time) => Some(ExplicitContextTag(GeneralizedTimeAsn1(time))),
        None => None,
    }
}

fn front_octet(options: TicketOptions) -> u8
    ensures { result ≡ front_octet options }
{
    masked(options.forwardable, FORWARDABLE_MASK)
        + masked(options.forwards, FORWARDED_MASK)
        + masked(options.proxiable, PROXIABLE_MASK)
}

fn second_octet(options: TicketOptions) -> u8
    ensures { result ≡ second_octet options }
{
    masked(options.renewable, RENEWABLE_MASK)
}

fn last_octet(options: TicketOptions) -> u8
    ensures { result ≡ last_octet options }
{
    masked(options.renews, RENEW_MASK)
}

// The bit where the option is set.
fn masked(set: bool, mask: u8) -> u8
    ensures value { result ≡ masked set mask }
    ensures at_most { result ≤ mask }
{
    if set { mask } else { 0x00 }
}
