//! Reads the fields of an AuthPack by which the KDC judges it.
ghost use Rattle.std.specs.Prelude.{◌≡◌};
ghost use Rattle.std.specs.Option.{option_copied};
ghost use Rattle.krb_messages.specs.Refusals.{IsJudged};
ghost use Rattle.krb_messages.specs.Bodies.{body_bytes};
ghost use Rattle.pkinit_validation.specs.AuthPacks.{is_sha1_of};
ghost use Rattle.pkinit_validation.specs.GeneralFields.{covers, general_fields, second_checksum};

use crate::policies::checksum::{read_checksum, second_checksum};
use crate::policies::parts::GeneralFields;
use krb_constants::error_codes;
use krb_messages::messages::KdcReqBody;
use krb_messages::{Refusal, body_bytes};
use picky_asn1::wrapper::OctetStringAsn1;
use pkinit_messages::agility::{ExtensibleAuthPack, FurtherField};
use sha1::Sha1;
use std::alloc::Global;

/// Reads clientPublicValue, the time and the nonce of pkAuthenticator, and the key derivation function. Refuses an AuthPack whose
/// checksums aren't those of the body.
pub(crate) fn general_fields<'a>(
    alloc: Global,
    body: &KdcReqBody,
    pack: &'a ExtensibleAuthPack,
) -> Result<GeneralFields<'a>, Refusal>
    ensures { IsJudged (general_fields body.now pack.now).gives result }
{
    if !pack.are_in_order() {
        return Err(Refusal::Krb(error_codes::KDC_ERR_PREAUTH_FAILED));
    }
    let Some(value) = pack.value() else {
        return Err(Refusal::Krb(error_codes::KDC_ERR_PREAUTH_FAILED));
    };
    let Some(time) = pack.time() else {
        return Err(Refusal::Krb(error_codes::KDC_ERR_PREAUTH_FAILED));
    };
    check_covers(alloc, body, pack)?;
    Ok(GeneralFields {
        value,
        time,
        nonce: pack.nonce(),
        kdf: pack.kdf(),
    })
}

// Judges whether paChecksum, and paChecksum2 where it is there, are those of the body.
fn check_covers(alloc: Global, body: &KdcReqBody, pack: &ExtensibleAuthPack) -> Result<(), Refusal>
    ensures { IsJudged (covers body.now pack.now).gives result }
{
    let bytes = body_bytes(alloc, body)?;
    let octets = bytes.as_slice();
    if !is_sha1_of(octets, pack.checksum()) {
        return Err(Refusal::Krb(error_codes::KDC_ERR_PREAUTH_FAILED));
    }
    check_second(alloc, octets, second_checksum(pack))
}

fn is_sha1_of(bytes: &[u8], checksum: Option<&OctetStringAsn1>) -> bool
    ensures { result ≡ is_sha1_of bytes.now (option_copied checksum.entry) }
{
    match checksum {
        Some(checksum) => {
            let digest = Sha1::digest(bytes);
            checksum.as_bytes() == digest.as_slice()
        }
        None => false,
    }
}

// Judges paChecksum2, where it is there.
fn check_second(alloc: Global, bytes: &[u8], field: Option<&FurtherField>) -> Result<(), Refusal>
    ensures { IsJudged (second_checksum bytes.now (option_copied field.entry)).gives result }
{
    let Some(field) = field else {
        return Ok(());
    };
    let Some(checksum) = read_checksum(alloc, field)? else {
        return Err(Refusal::Krb(error_codes::KDC_ERR_PREAUTH_FAILED));
    };
    if !checksum.0.is_checksum_of(bytes) {
        return Err(Refusal::Krb(error_codes::KDC_ERR_PREAUTH_FAILED));
    }
    Ok(())
}
