//! Nonces of an agreement.
use picky_asn1::wrapper::OctetStringAsn1;

/// A nonce by which a public value can be used again (RFC 4556, section 3.2.1).
///
/// ```text
/// DHNonce ::= OCTET STRING
/// ```
pub type DhNonce = OctetStringAsn1;
