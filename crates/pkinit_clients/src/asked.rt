//! What a client remembers of a request by certificate.
use krb_time::Moment;
use picky_asn1::wrapper::GeneralStringAsn1;
use pkinit_validation::Anchor;

/// A request by certificate, as far as its reply is judged by it.
#[derive(Clone, Copy)]
pub struct PkinitAsked<'a> {
    /// The client's realm.
    pub realm: &'a GeneralStringAsn1,
    /// The authority that the client trusts to issue the realm's certificate.
    pub anchor: &'a Anchor,
    /// The moment of the request.
    pub moment: Moment,
    /// The nonce of its body.
    pub nonce: u32,
    /// The 64 random bytes of its agreement.
    pub words: &'a [u8],
}
