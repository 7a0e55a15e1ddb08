//! The padata-value of a PA-PK-AS-REP with or without a key derivation function.
ghost use Rattle.krb_messages.specs.RandomBytes.{AreEnoughForReply};
ghost use Rattle.krb_messages.specs.Refusals.{IsJudged};
ghost use Rattle.pkinit_validation.specs.Replies.{as_bytes};
ghost use Rattle.pkinit_validation.specs.GeneralReplies.{agile_reply, general_reply};

use crate::signed::{key_info_bytes, signed_key_info};
use crate::{pk_as_rep, public_key_of};
use krb_constants::error_codes;
use krb_messages::Refusal;
use krb_messages::random_bytes::{AGREEMENT_SIZE, REALM_AGREEMENT};
use picky_asn1::wrapper::IntegerAsn1;
use pkinit_messages::agility::{Kdf, agile_reply_bytes};
use std::alloc::Global;
use x509_keys::KeyFunctions;

/// The data of the padata PA-PK-AS-REP, in reply to an authenticator with this nonce, which names the key derivation function if there is
/// one.
pub(crate) fn general_reply<K: KeyFunctions>(
    alloc: Global,
    keys: &K,
    certificate: &[u8],
    nonce: &IntegerAsn1,
    words: &[u8],
    kdf: Option<Kdf>,
) -> Result<Vec<u8>, Refusal>
    requires { AreEnoughForReply words.now }
    ensures { IsJudged (general_reply (K.functions keys.now) certificate.now nonce.now words.now kdf).gives (as_bytes result) }
{
    match kdf {
        Some(kdf) => agile_reply(alloc, keys, certificate, nonce, words, kdf),
        None => pk_as_rep(alloc, keys, certificate, nonce, words),
    }
}

// The same as `pk_as_rep`, with the key derivation function in the reply.
fn agile_reply<K: KeyFunctions>(
    alloc: Global,
    keys: &K,
    certificate: &[u8],
    nonce: &IntegerAsn1,
    words: &[u8],
    kdf: Kdf,
) -> Result<Vec<u8>, Refusal>
    requires { AreEnoughForReply words.now }
    ensures { IsJudged (agile_reply (K.functions keys.now) certificate.now nonce.now words.now kdf).gives (as_bytes result) }
{
    let Some(element) = keys.public_value(
        alloc,
        &words[REALM_AGREEMENT..REALM_AGREEMENT + AGREEMENT_SIZE],
    )?
    else {
        return Err(Refusal::Krb(error_codes::KRB_ERR_GENERIC));
    };
    let Some(key) = public_key_of(alloc, &element)? else {
        return Err(Refusal::Krb(error_codes::KRB_ERR_GENERIC));
    };
    let info = key_info_bytes(alloc, &key.subject_public_key, nonce)?;
    let Some(signed) = signed_key_info(alloc, keys, certificate, &info)? else {
        return Err(Refusal::Krb(error_codes::KRB_ERR_GENERIC));
    };
    let reply = agile_reply_bytes(alloc, signed, kdf)?;
    Ok(reply)
}
