//! Judges the padata-value of a PA-PK-AS-REQ, part by part.
ghost use Rattle.std.specs.Prelude.{◌≡◌};
ghost use Rattle.krb_time.specs.Skew.{IsWithinDay};
ghost use Rattle.krb_messages.specs.RandomBytes.{AreEnoughForReply};
ghost use Rattle.krb_messages.specs.Refusals.{IsJudged};
ghost use Rattle.krb_kdc_exchanges.specs.PkinitCalls.{agreed_as};
ghost use Rattle.pkinit_validation.specs.Judging.{judging_of};
ghost use Rattle.pkinit_validation.specs.PkinitTable.{agreed_on, is_auth_data, of_auth_pack, of_content, of_request, of_signed};

use crate::fields::auth_pack_fields;
use crate::judging::Judging;
use crate::parts::AuthPackFields;
use crate::reading::{read_auth_pack, read_pa_pk_as_req};
use crate::reply::pk_as_rep;
use crate::signer::check_signed;
use cms_signed_data::{SignedContent, SignedFault};
use krb_constants::error_codes;
use krb_constants::error_codes::KDC_ERR_KEY_TOO_WEAK;
use krb_kdc_exchanges::Agreed;
use krb_messages::Refusal;
use krb_messages::random_bytes::{AGREEMENT_SIZE, REALM_AGREEMENT};
use picky_asn1_der::Asn1RawDer;
use pkinit_messages::AuthPack;
use std::alloc::Global;
use x509_keys::{KeyFunctions, Theirs};

/// The content octets of id-pkinit-authData, 1.3.6.1.5.2.3.1.
pub(crate) const AUTH_DATA: [u8; 7] = [0x2B, 0x06, 0x01, 0x05, 0x02, 0x03, 0x01];

/// Judges the padata-value of a PA-PK-AS-REQ: it has to be the one DER encoding of it.
pub(crate) fn judge_request<K: KeyFunctions>(
    alloc: Global,
    keys: &K,
    judging: &Judging<'_>,
    padata: &[u8],
) -> Result<Agreed, Refusal>
    requires long { AreEnoughForReply judging.now.words.now }
    requires near { IsWithinDay judging.now.skew }
    ensures { IsJudged (of_request (K.functions keys.now) (judging_of judging.now) padata.now).gives (agreed_as result) }
{
    let Some(request) = read_pa_pk_as_req(alloc, padata)? else {
        return Err(Refusal::Krb(error_codes::KDC_ERR_PREAUTH_FAILED));
    };
    let judged = judge_signed(alloc, keys, judging, request.signed_auth_pack.0.as_bytes());
    drop(request);
    judged
}

// Judges the octets of signedAuthPack: they have to be SignedData of the one form.
fn judge_signed<K: KeyFunctions>(
    alloc: Global,
    keys: &K,
    judging: &Judging<'_>,
    bytes: &[u8],
) -> Result<Agreed, Refusal>
    requires long { AreEnoughForReply judging.now.words.now }
    requires near { IsWithinDay judging.now.skew }
    ensures { IsJudged (of_signed (K.functions keys.now) (judging_of judging.now) bytes.now).gives (agreed_as result) }
{
    match SignedContent::read(alloc, bytes) {
        Ok(content) => {
            let judged = judge_content(alloc, keys, judging, &content);
            content.release();
            judged
        }
        Err(fault) => {
            if fault == SignedFault::Memory {
                return Err(Refusal::Memory);
            }
            Err(Refusal::Krb(error_codes::KDC_ERR_PREAUTH_FAILED))
        }
    }
}

// Judges the SignedData: its eContent has to be an AuthPack, by its type and by its octets.
fn judge_content<K: KeyFunctions>(
    alloc: Global,
    keys: &K,
    judging: &Judging<'_>,
    content: &SignedContent<'_>,
) -> Result<Agreed, Refusal>
    requires long { AreEnoughForReply judging.now.words.now }
    requires near { IsWithinDay judging.now.skew }
    ensures { IsJudged (of_content (K.functions keys.now) (judging_of judging.now) content.now).gives (agreed_as result) }
{
    if !is_auth_data(content) {
        return Err(Refusal::Krb(error_codes::KDC_ERR_PREAUTH_FAILED));
    }
    let Some(pack) = read_auth_pack(alloc, content.content())? else {
        return Err(Refusal::Krb(error_codes::KDC_ERR_PREAUTH_FAILED));
    };
    let judged = judge_auth_pack(alloc, keys, judging, content, &pack);
    drop(pack);
    judged
}

/// Whether the eContentType is id-pkinit-authData.
pub(crate) fn is_auth_data(content: &SignedContent<'_>) -> bool
    ensures { result ≡ is_auth_data content.now }
{
    content.content_type().as_bytes() == AUTH_DATA.as_slice()
}

// Judges the AuthPack: first its fields with paChecksum, then its signer, then its time and its public value.
fn judge_auth_pack<K: KeyFunctions>(
    alloc: Global,
    keys: &K,
    judging: &Judging<'_>,
    content: &SignedContent<'_>,
    pack: &AuthPack<Asn1RawDer>,
) -> Result<Agreed, Refusal>
    requires long { AreEnoughForReply judging.now.words.now }
    requires near { IsWithinDay judging.now.skew }
    ensures { IsJudged (of_auth_pack (K.functions keys.now) (judging_of judging.now) content.now pack.now).gives (agreed_as result) }
{
    let fields = auth_pack_fields(alloc, judging.body, pack)?;
    check_signed(alloc, keys, &judging.expected, content)?;
    agree_on(alloc, keys, judging, &fields)
}

// Judges the time of pkAuthenticator, agrees on a secret by clientPublicValue, and makes the reply.
fn agree_on<K: KeyFunctions>(
    alloc: Global,
    keys: &K,
    judging: &Judging<'_>,
    fields: &AuthPackFields<'_>,
) -> Result<Agreed, Refusal>
    requires long { AreEnoughForReply judging.now.words.now }
    requires near { IsWithinDay judging.now.skew }
    ensures { IsJudged (agreed_on (K.functions keys.now) (judging_of judging.now) fields.now).gives (agreed_as result) }
{
    if judging
        .expected
        .moment
        .is_far_from(fields.time, judging.skew)
    {
        return Err(Refusal::Krb(error_codes::KRB_AP_ERR_SKEW));
    }
    let theirs = Theirs::Whole(fields.value);
    let words = &judging.words[REALM_AGREEMENT..REALM_AGREEMENT + AGREEMENT_SIZE];
    let Some(secret) = keys.agree(alloc, theirs, words)? else {
        return Err(Refusal::Krb(KDC_ERR_KEY_TOO_WEAK));
    };
    let reply = pk_as_rep(
        alloc,
        keys,
        judging.certificate,
        fields.nonce,
        judging.words,
    )?;
    Ok(Agreed {
        secret,
        kdf: None,
        reply,
    })
}
