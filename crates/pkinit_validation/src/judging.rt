//! What a request by certificate is judged by, at a realm with an anchor and a certificate.
use crate::ExpectedSigner;
use krb_messages::messages::KdcReqBody;

/// The client that has to have signed, with the realm's settings and the request's parts by which its AuthPack is judged.
#[derive(Clone, Copy)]
pub(crate) struct Judging<'a> {
    /// The client, and what its certificate is judged by.
    pub(crate) expected: ExpectedSigner<'a>,
    /// The realm's own certificate.
    pub(crate) certificate: &'a [u8],
    /// The clock skew in microseconds.
    pub(crate) skew: u64,
    /// The request's body.
    pub(crate) body: &'a KdcReqBody,
    /// The random bytes.
    pub(crate) words: &'a [u8],
}
