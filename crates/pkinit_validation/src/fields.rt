//! Reads the fields of an AuthPack by which the KDC judges it.
ghost use Rattle.std.specs.Prelude.{◌≡◌, IfOk};
ghost use Rattle.std.specs.Option.{option_copied, option_map};
ghost use Rattle.krb_messages.specs.Refusals.{IsJudged};
ghost use Rattle.krb_messages.specs.Bodies.{body_bytes};
ghost use Rattle.pkinit_validation.specs.AuthPacks.{covers, is_sha1_of, time_in, value_in};
ghost use Rattle.pkinit_validation.specs.PkinitTable.{auth_pack_fields};

use crate::parts::AuthPackFields;
use krb_constants::error_codes;
use krb_messages::messages::KdcReqBody;
use krb_messages::{Refusal, body_bytes};
use krb_time::{Moment, moment_at};
use picky_asn1::wrapper::OctetStringAsn1;
use picky_asn1_der::Asn1RawDer;
use pkinit_messages::AuthPack;
use sha1::Sha1;
use std::alloc::{AllocError, Global};

/// Reads clientPublicValue, and the time and the nonce of pkAuthenticator. Refuses an AuthPack whose paChecksum isn't that of the
/// body.
pub(crate) fn auth_pack_fields<'a>(
    alloc: Global,
    body: &KdcReqBody,
    pack: &'a AuthPack<Asn1RawDer>,
) -> Result<AuthPackFields<'a>, Refusal>
    ensures { IsJudged (auth_pack_fields body.now pack.now).gives result }
{
    let Some(value) = value_in(pack) else {
        return Err(Refusal::Krb(error_codes::KDC_ERR_PREAUTH_FAILED));
    };
    let Some(time) = time_in(pack) else {
        return Err(Refusal::Krb(error_codes::KDC_ERR_PREAUTH_FAILED));
    };
    if !covers(alloc, body, pack)? {
        return Err(Refusal::Krb(error_codes::KDC_ERR_PREAUTH_FAILED));
    }
    let nonce = &pack.pk_authenticator.0.nonce.0;
    Ok(AuthPackFields { value, time, nonce })
}

/// The element of clientPublicValue.
pub(crate) fn value_in(pack: &AuthPack<Asn1RawDer>) -> Option<&Asn1RawDer>
    ensures { option_copied result ≡ value_in pack.now }
{
    match &pack.client_public_value.0 {
        Some(tagged) => Some(&tagged.0),
        None => None,
    }
}

/// The time of ctime and cusec, or none where cusec is no part of a second.
#[tactic(auto, unfolding(crate::specs::AuthPacks::time_in))]
pub(crate) fn time_in(pack: &AuthPack<Asn1RawDer>) -> Option<Moment>
    ensures { result ≡ time_in pack.now }
{
    let authenticator = &pack.pk_authenticator.0;
    moment_at(authenticator.ctime.0.0, &authenticator.cusec.0)
}

/// Whether paChecksum is the SHA-1 digest of the KDC-REQ-BODY.
pub(crate) fn covers(
    alloc: Global,
    body: &KdcReqBody,
    pack: &AuthPack<Asn1RawDer>,
) -> Result<bool, AllocError>
    ensures { IfOk result (λ is. is ≡ covers body.now pack.now) }
{
    let bytes = body_bytes(alloc, body)?;
    Ok(is_sha1_of(&bytes, checksum_in(pack)))
}

fn checksum_in(pack: &AuthPack<Asn1RawDer>) -> Option<&OctetStringAsn1>
    ensures { option_copied result ≡ option_map (λ tagged. tagged.0) pack.now.pk_authenticator.0.pa_checksum.0 }
{
    match &pack.pk_authenticator.0.pa_checksum.0 {
        Some(tagged) => Some(&tagged.0),
        None => None,
    }
}

fn is_sha1_of(bytes: &[u8], checksum: Option<&OctetStringAsn1>) -> bool
    ensures { result ≡ is_sha1_of bytes.now (option_copied checksum.entry) }
{
    match checksum {
        Some(checksum) => {
            let digest = Sha1::digest(bytes);
            checksum.as_bytes() == digest.as_slice()
        }
        None => false,
    }
}
