//! What a login is for, and what it is done with.

use krb_time::Moment;
use picky_asn1::date::GeneralizedTime;

/// The moments of a login, in the order of its steps, each by the clock of who acts.
#[derive(Clone, Copy)]
pub struct LoginMoments {
    /// The client asks for a first ticket.
    pub client_as: Moment,
    /// The realm answers.
    pub realm_as: Moment,
    /// The client asks for a ticket for the service.
    pub client_tgs: Moment,
    /// The realm answers.
    pub realm_tgs: Moment,
    /// The client asks the service.
    pub client_ap: Moment,
    /// The service admits the client.
    pub service_ap: Moment,
}

/// The service that a login is for, the end that is asked for its tickets, its moments, and random bytes: 96 for each of the
/// client's three requests, 128 for each of the realm's two replies, and 16 for the service's reply.
#[derive(Clone, Copy)]
pub struct LoginInput<'a> {
    /// The components of the service's name.
    pub service: &'a [Vec<u8>],
    /// The end that is asked for.
    pub till: GeneralizedTime,
    /// The moments.
    pub moments: LoginMoments,
    /// The client's random bytes in the AS exchange.
    pub words_as: &'a [u8],
    /// The client's random bytes in the TGS exchange.
    pub words_tgs: &'a [u8],
    /// The client's random bytes in the AP exchange.
    pub words_ap: &'a [u8],
    /// The realm's random bytes in the AS exchange.
    pub realm_words_as: &'a [u8],
    /// The realm's random bytes in the TGS exchange.
    pub realm_words_tgs: &'a [u8],
    /// The service's random bytes.
    pub service_words: &'a [u8],
}
