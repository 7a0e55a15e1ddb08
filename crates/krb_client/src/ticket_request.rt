//! What requests for tickets are made of.

use krb_time::Moment;
use picky_asn1::date::GeneralizedTime;

/// What a request for a ticket is made of: what the client asks its realm for, when it asks, and random octets (RFC 4120, sections
/// 3.1.1 and 3.3.1).
#[derive(Clone, Copy)]
pub struct TicketRequest<'a> {
    /// The components of the name of the service that the ticket is for. It is a service of the client's realm.
    pub service: &'a [Vec<u8>],
    /// The end of the ticket's lifetime that is asked for.
    pub till: GeneralizedTime,
    /// The moment of the request, by the client's clock.
    pub moment: Moment,
    /// Random octets, 96 or more, which no other request has.
    pub words: &'a [u8],
}
