//! What a key is derived for.
use krb_messages::data_types::PrincipalName;
use picky_asn1::wrapper::GeneralStringAsn1;

/// What a key is derived for: client and service with their realm, and the messages that both parties have seen (RFC 8636, section 6).
#[derive(Clone, Copy)]
pub struct KdfContext<'a> {
    /// The realm of client and service.
    pub realm: &'a GeneralStringAsn1,
    /// The `cname` of the AS-REQ.
    pub client: Option<&'a PrincipalName>,
    /// The `sname` of the AS-REQ.
    pub service: Option<&'a PrincipalName>,
    /// The encoding of the AS-REQ.
    pub as_req: &'a [u8],
    /// The encoding of the PA-PK-AS-REP.
    pub pk_as_rep: &'a [u8],
}
