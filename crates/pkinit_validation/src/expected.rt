//! The principal that is expected to have signed some content.
use crate::anchor::Anchor;
use krb_time::Moment;
use picky_asn1::wrapper::GeneralStringAsn1;

/// The principal that is expected to have signed some content, and what its certificate is judged by.
#[derive(Clone, Copy)]
pub struct ExpectedSigner<'a> {
    /// The principal's realm.
    pub realm: &'a GeneralStringAsn1,
    /// The components of the principal's name.
    pub name: &'a [GeneralStringAsn1],
    /// The authority that has to have issued the principal's certificate.
    pub anchor: &'a Anchor,
    /// The moment at which the certificate has to be valid.
    pub moment: Moment,
}
