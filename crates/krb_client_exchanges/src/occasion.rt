//! The occasions of requests.

use krb_client::TicketOptions;
use krb_time::Moment;
use picky_asn1::date::GeneralizedTime;

/// How many random octets a request takes.
pub const OCCASION_WORDS: usize = 96;

/// When a request is made, what it asks of its ticket, and its random octets.
#[derive(Clone, Copy)]
pub struct Occasion {
    /// The moment of the request.
    pub moment: Moment,
    /// The end of the lifetime that is asked for.
    pub till: GeneralizedTime,
    /// What an AS request asks of its ticket besides its end. Other requests don't have these options.
    pub options: TicketOptions,
    /// Random octets, which no other request has.
    pub words: [u8; OCCASION_WORDS],
}
