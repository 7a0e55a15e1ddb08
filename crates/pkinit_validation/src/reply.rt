//! The padata-value of a PA-PK-AS-REP.
ghost use Rattle.std.specs.Prelude.{◌≡◌, IfOk};
ghost use Rattle.krb_messages.specs.RandomBytes.{AreEnoughForReply};
ghost use Rattle.picky_asn1_der.specs.Found.{IsFound};
ghost use Rattle.krb_messages.specs.Refusals.{IsJudged};
ghost use Rattle.pkinit_validation.specs.PublicKeys.{IsPublicKey};
ghost use Rattle.pkinit_validation.specs.Replies.{as_bytes, dh_reply_bytes, dh_reply_of, pk_as_rep};

use crate::public_key::AgreementPublicKey;
use crate::signed::{key_info_bytes, signed_key_info};
use krb_constants::error_codes;
use krb_messages::Refusal;
use krb_messages::random_bytes::{AGREEMENT_SIZE, REALM_AGREEMENT};
use picky_asn1::wrapper::{IntegerAsn1, OctetStringAsn1};
use picky_asn1_der::{
    Asn1RawDer, ExplicitContextTag, ImplicitContextTag, Optional, encoding_of, read_whole, to_vec,
};
use pkinit_messages::{DhRepInfo, PaPkAsRep};
use std::alloc::{AllocError, Global};
use x509_keys::KeyFunctions;

/// The data of the padata PA-PK-AS-REP, in reply to an authenticator with this nonce: the realm's public value, which the holder
/// of the certificate signs (RFC 4556, section 3.2.3.1). Of the random bytes those from 64 to 127 make the value.
///
/// Refused with `KRB_ERR_GENERIC` (60) if the realm has no public value, or one that is no SubjectPublicKeyInfo, or doesn't sign.
pub fn pk_as_rep<K: KeyFunctions>(
    alloc: Global,
    keys: &K,
    certificate: &[u8],
    nonce: &IntegerAsn1,
    words: &[u8],
) -> Result<Vec<u8>, Refusal>
    requires { AreEnoughForReply words.now }
    ensures { IsJudged (pk_as_rep (K.functions keys.now) certificate.now nonce.now words.now).gives (as_bytes result) }
{
    let Some(element) = keys.public_value(
        alloc,
        &words[REALM_AGREEMENT..REALM_AGREEMENT + AGREEMENT_SIZE],
    )?
    else {
        return Err(Refusal::Krb(error_codes::KRB_ERR_GENERIC));
    };
    let Some(key) = public_key_of(alloc, &element)? else {
        return Err(Refusal::Krb(error_codes::KRB_ERR_GENERIC));
    };
    let info = key_info_bytes(alloc, &key.subject_public_key, nonce)?;
    let Some(signed) = signed_key_info(alloc, keys, certificate, &info)? else {
        return Err(Refusal::Krb(error_codes::KRB_ERR_GENERIC));
    };
    let reply = dh_reply_bytes(alloc, signed)?;
    Ok(reply)
}

/// The public key that the element is the encoding of, or `None`.
#[tactic(auto, unfolding(crate::specs::PublicKeys::IsPublicKey))]
pub fn public_key_of(
    alloc: Global,
    element: &Asn1RawDer,
) -> Result<Option<AgreementPublicKey>, AllocError>
    ensures { IfOk result (IsFound (IsPublicKey element.now)) }
{
    let Ok(bytes) = to_vec(alloc, element) else {
        return Err(AllocError);
    };
    read_whole(alloc, &bytes)
}

#[tactic(auto, unfolding(crate::specs::Replies::dh_reply_bytes))]
fn dh_reply_bytes(alloc: Global, signed: Vec<u8>) -> Result<Vec<u8>, AllocError>
    ensures { IfOk result (λ bytes. bytes.items ≡ dh_reply_bytes (dh_reply_of signed.items)) }
{
    let info = DhRepInfo {
        dh_signed_data: ImplicitContextTag(OctetStringAsn1::from(signed)),
        server_dh_nonce: Optional(None),
    };
    encoding_of(alloc, PaPkAsRep::DhInfo(ExplicitContextTag(info)))
}
