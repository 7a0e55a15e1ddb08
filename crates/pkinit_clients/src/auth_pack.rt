//! The AuthPack that a client signs.
ghost use Rattle.std.specs.Prelude.{◌≡◌, IfOk};
ghost use Rattle.sha1.specs.Sha1.{sha1};
ghost use Rattle.krb_messages.specs.Bodies.{body_bytes};
ghost use Rattle.pkinit_clients.specs.AuthPacks.{auth_pack_bytes, auth_pack_of, authenticator_of};

use krb_messages::body_bytes;
use krb_messages::messages::KdcReqBody;
use picky_asn1::date::GeneralizedTime;
use picky_asn1::wrapper::{GeneralizedTimeAsn1, IntegerAsn1, OctetStringAsn1};
use picky_asn1_der::{Asn1RawDer, ExplicitContextTag, Optional, both, encoding_of};
use pkinit_messages::{AuthPack, PkAuthenticator};
use sha1::Sha1;
use std::alloc::{AllocError, Global};

/// The encoding of the AuthPack with this public value, for a request with this body at a time.
#[tactic(auto, unfolding(crate::specs::AuthPacks::auth_pack_bytes))]
pub(crate) fn auth_pack_bytes(
    alloc: Global,
    body: &KdcReqBody,
    second: GeneralizedTime,
    microsecond: u32,
    value: Asn1RawDer,
) -> Result<Vec<u8>, AllocError>
    ensures { IfOk result (λ bytes. bytes.items ≡ auth_pack_bytes (auth_pack_of (authenticator_of body.now second microsecond) value)) }
{
    let authenticator = authenticator_of(alloc, body, second, microsecond)?;
    let pack = AuthPack {
        pk_authenticator: ExplicitContextTag(authenticator),
        client_public_value: Optional(Some(ExplicitContextTag(value))),
        supported_cms_types: Optional(None),
        client_dh_nonce: Optional(None),
    };
    encoding_of(alloc, pack)
}

/// The PKAuthenticator of a request with this body.
pub(crate) fn authenticator_of(
    alloc: Global,
    body: &KdcReqBody,
    second: GeneralizedTime,
    microsecond: u32,
) -> Result<PkAuthenticator, AllocError>
    ensures { IfOk result (λ authenticator. authenticator ≡ authenticator_of body.now second microsecond) }
{
    let microsecond = IntegerAsn1::from_u64(alloc, u64::from(microsecond));
    let nonce: Result<_, AllocError> = body.nonce.0.clone();
    let checksum = checksum_of(alloc, body);
    let (microsecond, (nonce, checksum)) = both(microsecond, both(nonce, checksum))?;
    Ok(PkAuthenticator {
        cusec: ExplicitContextTag(microsecond),
        ctime: ExplicitContextTag(GeneralizedTimeAsn1(second)),
        nonce: ExplicitContextTag(nonce),
        pa_checksum: Optional(Some(ExplicitContextTag(checksum))),
    })
}

// The paChecksum: the SHA-1 digest of the KDC-REQ-BODY.
fn checksum_of(alloc: Global, body: &KdcReqBody) -> Result<OctetStringAsn1, AllocError>
    ensures { IfOk result (λ checksum. checksum ≡ sha1 (body_bytes body.now)) }
{
    let bytes = body_bytes(alloc, body)?;
    let digest = Sha1::digest(&bytes);
    let octets = Vec::from_slice(alloc, digest.as_slice())?;
    Ok(OctetStringAsn1::from(octets))
}
