//! Judges the padata-value of a PA-PK-AS-REQ by a policy, part by part.
ghost use Rattle.std.specs.Prelude.{◌≡◌};
ghost use Rattle.krb_time.specs.Skew.{IsWithinDay};
ghost use Rattle.krb_messages.specs.RandomBytes.{AreEnoughForReply};
ghost use Rattle.krb_messages.specs.Refusals.{IsJudged};
ghost use Rattle.krb_kdc_exchanges.specs.PkinitCalls.{agreed_as};
ghost use Rattle.pkinit_validation.specs.Judging.{judging_of};
ghost use Rattle.pkinit_validation.specs.GeneralTable.{general_agreed, is_general_auth_data, of_general_content, of_general_pack, of_general_request, of_general_signed};

use crate::judging::Judging;
use crate::policies::fields::general_fields;
use crate::policies::parts::GeneralFields;
use crate::policies::policy::GeneralPolicy;
use crate::policies::reply::general_reply;
use crate::policies::signer::check_general_signer;
use crate::reading::read_pa_pk_as_req;
use crate::table::AUTH_DATA;
use cms_signed_data::SignedFault;
use cms_signed_data::general_form::GeneralContent;
use krb_constants::error_codes;
use krb_constants::error_codes::KDC_ERR_KEY_TOO_WEAK;
use krb_kdc_exchanges::Agreed;
use krb_messages::Refusal;
use krb_messages::random_bytes::{AGREEMENT_SIZE, REALM_AGREEMENT};
use pkinit_messages::agility::{ExtensibleAuthPack, read_auth_pack};
use std::alloc::Global;
use x509_keys::{KeyFunctions, Theirs};

/// Judges the padata-value of a PA-PK-AS-REQ: it has to be the one DER encoding of it.
pub(crate) fn judge_request<K: KeyFunctions>(
    alloc: Global,
    keys: &K,
    policy: GeneralPolicy,
    judging: &Judging<'_>,
    padata: &[u8],
) -> Result<Agreed, Refusal>
    requires long { AreEnoughForReply judging.now.words.now }
    requires near { IsWithinDay judging.now.skew }
    ensures { IsJudged (of_general_request (K.functions keys.now) policy (judging_of judging.now) padata.now).gives (agreed_as result) }
{
    let Some(request) = read_pa_pk_as_req(alloc, padata)? else {
        return Err(Refusal::Krb(error_codes::KDC_ERR_PREAUTH_FAILED));
    };
    let judged = judge_signed(
        alloc,
        keys,
        policy,
        judging,
        request.signed_auth_pack.0.as_bytes(),
    );
    drop(request);
    judged
}

// Judges the octets of signedAuthPack.
fn judge_signed<K: KeyFunctions>(
    alloc: Global,
    keys: &K,
    policy: GeneralPolicy,
    judging: &Judging<'_>,
    bytes: &[u8],
) -> Result<Agreed, Refusal>
    requires long { AreEnoughForReply judging.now.words.now }
    requires near { IsWithinDay judging.now.skew }
    ensures { IsJudged (of_general_signed (K.functions keys.now) policy (judging_of judging.now) bytes.now).gives (agreed_as result) }
{
    match GeneralContent::read(alloc, bytes) {
        Ok(content) => {
            let judged = judge_content(alloc, keys, policy, judging, &content);
            content.release();
            judged
        }
        Err(fault) => {
            if fault == SignedFault::Memory {
                return Err(Refusal::Memory);
            }
            Err(Refusal::Krb(error_codes::KDC_ERR_PREAUTH_FAILED))
        }
    }
}

// Judges the SignedData: its eContent has to be an AuthPack, by its type and by its octets.
fn judge_content<K: KeyFunctions>(
    alloc: Global,
    keys: &K,
    policy: GeneralPolicy,
    judging: &Judging<'_>,
    content: &GeneralContent,
) -> Result<Agreed, Refusal>
    requires long { AreEnoughForReply judging.now.words.now }
    requires near { IsWithinDay judging.now.skew }
    ensures { IsJudged (of_general_content (K.functions keys.now) policy (judging_of judging.now) content.now).gives (agreed_as result) }
{
    if !is_auth_data(content) {
        return Err(Refusal::Krb(error_codes::KDC_ERR_PREAUTH_FAILED));
    }
    let Some(pack) = read_auth_pack(alloc, content.content())? else {
        return Err(Refusal::Krb(error_codes::KDC_ERR_PREAUTH_FAILED));
    };
    let judged = judge_auth_pack(alloc, keys, policy, judging, content, &pack);
    drop(pack);
    judged
}

// Whether the eContentType is id-pkinit-authData.
fn is_auth_data(content: &GeneralContent) -> bool
    ensures { result ≡ is_general_auth_data content.now }
{
    content.content_type().as_bytes() == AUTH_DATA.as_slice()
}

// Judges the AuthPack: first its fields with its checksums, then its signer, then its time and its public value.
fn judge_auth_pack<K: KeyFunctions>(
    alloc: Global,
    keys: &K,
    policy: GeneralPolicy,
    judging: &Judging<'_>,
    content: &GeneralContent,
    pack: &ExtensibleAuthPack,
) -> Result<Agreed, Refusal>
    requires long { AreEnoughForReply judging.now.words.now }
    requires near { IsWithinDay judging.now.skew }
    ensures { IsJudged (of_general_pack (K.functions keys.now) policy (judging_of judging.now) content.now pack.now).gives (agreed_as result) }
{
    let fields = general_fields(alloc, judging.body, pack)?;
    check_general_signer(alloc, keys, policy, &judging.expected, content)?;
    agree_on(alloc, keys, judging, &fields)
}

// Judges the time of pkAuthenticator, agrees on a secret by clientPublicValue, and makes the reply.
fn agree_on<K: KeyFunctions>(
    alloc: Global,
    keys: &K,
    judging: &Judging<'_>,
    fields: &GeneralFields<'_>,
) -> Result<Agreed, Refusal>
    requires long { AreEnoughForReply judging.now.words.now }
    requires near { IsWithinDay judging.now.skew }
    ensures { IsJudged (general_agreed (K.functions keys.now) (judging_of judging.now) fields.now).gives (agreed_as result) }
{
    if judging
        .expected
        .moment
        .is_far_from(fields.time, judging.skew)
    {
        return Err(Refusal::Krb(error_codes::KRB_AP_ERR_SKEW));
    }
    let theirs = Theirs::Whole(fields.value);
    let words = &judging.words[REALM_AGREEMENT..REALM_AGREEMENT + AGREEMENT_SIZE];
    let Some(secret) = keys.agree(alloc, theirs, words)? else {
        return Err(Refusal::Krb(KDC_ERR_KEY_TOO_WEAK));
    };
    let kdf = fields.kdf;
    let reply = general_reply(
        alloc,
        keys,
        judging.certificate,
        fields.nonce,
        judging.words,
        kdf,
    )?;
    Ok(Agreed { secret, kdf, reply })
}
