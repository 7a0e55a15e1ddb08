//! The call by which a request by certificate is judged, and what client and realm agree on.
use krb_messages::messages::KdcReqBody;
use krb_time::Moment;
use picky_asn1::wrapper::GeneralStringAsn1;
use pkinit_messages::agility::Kdf;

/// A call with a request by certificate to a realm, without its padata.
#[derive(Clone, Copy)]
pub struct PkinitCall<'a> {
    /// The realm's name.
    pub realm: &'a GeneralStringAsn1,
    /// The realm's clock skew in microseconds, a day at most.
    pub skew: u64,
    /// The components of the request's `cname`.
    pub client: &'a [GeneralStringAsn1],
    /// The request's body.
    pub body: &'a KdcReqBody,
    /// The moment at which the realm is called.
    pub moment: Moment,
    /// The random bytes. Those from 64 to 127 are the realm's part of the agreement.
    pub words: &'a [u8],
}

/// What client and realm agree on.
#[derive(Drop)]
pub struct Agreed {
    /// The shared secret.
    pub secret: Vec<u8>,
    /// The key derivation function of RFC 8636, if both agreed on one.
    pub kdf: Option<Kdf>,
    /// The data of the padata PA-PK-AS-REP.
    pub reply: Vec<u8>,
}
