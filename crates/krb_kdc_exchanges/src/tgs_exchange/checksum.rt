//! The checksum of a request's body in its authenticator.
ghost use Rattle.std.specs.Prelude.{◌≡◌, IfOk};
ghost use Rattle.std.specs.Option.{option_copied};
ghost use Rattle.krb_crypto.specs.Suites.{cipher_checksum};
ghost use Rattle.krb_messages.specs.Bodies.{body_bytes};
ghost use Rattle.krb_kdc_exchanges.specs.TgsTable.{checksum_in, covered, is_known_checksum, is_of_body};
ghost use Rattle.krb_messages.specs.Refusals.{IsJudged};

use krb_constants::{error_codes, key_usages};
use krb_crypto::{ChecksumSuite, Cipher, Key};
use krb_messages::data_types::{AuthenticatorInner, Checksum};
use krb_messages::messages::KdcReqBody;
use krb_messages::{Refusal, body_bytes, is_number};
use picky_asn1::wrapper::IntegerAsn1;
use std::alloc::{AllocError, Global};

/// Judges whether the authenticator's checksum covers the request's body. It has to be of the session key's suite, under the
/// session key, and of the body's DER encoding (RFC 4120, section 3.3.3).
pub(crate) fn check_covered(
    alloc: Global,
    key: &Key,
    authenticator: &AuthenticatorInner,
    body: &KdcReqBody,
) -> Result<(), Refusal>
    ensures { IsJudged (covered key.now.suite key.now.bytes authenticator.now body.now).gives result }
{
    let Some(checksum) = checksum_in(authenticator) else {
        return Err(Refusal::Krb(error_codes::KRB_AP_ERR_INAPP_CKSUM));
    };
    if !is_known_checksum(&checksum.cksumtype.0) {
        return Err(Refusal::Krb(error_codes::KDC_ERR_SUMTYPE_NOSUPP));
    }
    let kind = key.suite().checksum_type();
    if !is_number(&checksum.cksumtype.0, u32::from(&kind)) {
        return Err(Refusal::Krb(error_codes::KRB_AP_ERR_INAPP_CKSUM));
    }
    if !is_of_body(alloc, key, body, checksum)? {
        return Err(Refusal::Krb(error_codes::KRB_AP_ERR_MODIFIED));
    }
    Ok(())
}

// The authenticator's `cksum`.
fn checksum_in(authenticator: &AuthenticatorInner) -> Option<&Checksum>
    ensures { option_copied result ≡ checksum_in authenticator.now }
{
    match &authenticator.cksum.0 {
        Some(tagged) => Some(&tagged.0),
        None => None,
    }
}

// Whether the checksum type is a suite's (RFC 3961, section 6.3.2; RFC 3962, section 7; RFC 8009, section 6).
fn is_known_checksum(kind: &IntegerAsn1) -> bool
    ensures { result ≡ is_known_checksum kind.now }
{
    ChecksumSuite::all()
        .iter()
        .any(|suite| is_number(kind, u32::from(suite)))
}

// Whether the checksum is that of the body's encoding, for key usage 6. It fails only if memory runs out.
fn is_of_body(
    alloc: Global,
    key: &Key,
    body: &KdcReqBody,
    checksum: &Checksum,
) -> Result<bool, AllocError>
    ensures { IfOk result (λ is. is ≡ is_of_body (cipher_checksum key.now.suite) key.now.bytes body.now checksum.now) }
{
    let bytes = body_bytes(alloc, body)?;
    let sum = key.checksum(
        alloc,
        key_usages::TGS_REQ_PA_DATA_AP_REQ_AUTHENTICATOR_CKSUM,
        &bytes,
    )?;
    Ok(checksum.checksum.0.as_bytes() == sum.as_slice())
}
