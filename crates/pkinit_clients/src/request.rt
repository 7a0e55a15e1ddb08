//! The padata-value of a PA-PK-AS-REQ.
ghost use Rattle.std.specs.Prelude.{◌≡◌, IfOk, MatchOption, length};
ghost use Rattle.pkinit_clients.specs.Requests.{IsNoPkAsReq, IsPkAsReqOf, pk_as_req_bytes, pk_as_req_of};

use crate::auth_pack::auth_pack_bytes;
use crate::signed::signed_auth_pack;
use krb_messages::messages::KdcReqBody;
use krb_time::Moment;
use picky_asn1::wrapper::OctetStringAsn1;
use picky_asn1_der::{ImplicitContextTag, Optional, encoding_of};
use pkinit_messages::PaPkAsReq;
use std::alloc::{AllocError, Global};
use x509_keys::KeyFunctions;

/// The data of the padata PA-PK-AS-REQ for a request with this body, at the moment (RFC 4556, section 3.2.1). The holder of the
/// certificate signs the client's public value, which is of the 64 random bytes, with the SHA-1 digest of the body.
///
/// `None` if the key functions have no public value or no signature, or the bytes are no certificate.
pub fn pk_as_req<K: KeyFunctions>(
    alloc: Global,
    keys: &K,
    certificate: &[u8],
    body: &KdcReqBody,
    moment: Moment,
    words: &[u8],
) -> Result<Option<Vec<u8>>, AllocError>
    requires { length words.now ≡ 64 }
    ensures { IfOk result (λ made. MatchOption made
        (IsNoPkAsReq (K.functions keys.now) certificate.now body.now moment words.now)
        (λ bytes. IsPkAsReqOf (K.functions keys.now) certificate.now body.now moment words.now bytes.items)) }
{
    let Some(value) = keys.public_value(alloc, words)? else {
        return Ok(None);
    };
    let second = moment.second();
    let pack = auth_pack_bytes(alloc, body, second, moment.microsecond(), value)?;
    let Some(signed) = signed_auth_pack(alloc, keys, certificate, &pack)? else {
        return Ok(None);
    };
    let bytes = pk_as_req_bytes(alloc, signed)?;
    Ok(Some(bytes))
}

/// The encoding of a PA-PK-AS-REQ with this signed data.
#[tactic(auto, unfolding(crate::specs::Requests::pk_as_req_bytes))]
pub(crate) fn pk_as_req_bytes(alloc: Global, signed: Vec<u8>) -> Result<Vec<u8>, AllocError>
    ensures { IfOk result (λ bytes. bytes.items ≡ pk_as_req_bytes (pk_as_req_of signed.items)) }
{
    let request = PaPkAsReq {
        signed_auth_pack: ImplicitContextTag(OctetStringAsn1::from(signed)),
        trusted_certifiers: Optional(None),
        kdc_pk_id: Optional(None),
    };
    encoding_of(alloc, request)
}
