//! Judges AS requests by the rows of a realm's table, part by part.
ghost use Rattle.std.specs.Prelude.{◌≡◌, ◌≤◌, Some, IfOk};
ghost use Rattle.krb_kdc_exchanges.specs.Times.{last_second};
ghost use Rattle.krb_messages.specs.RandomBytes.{AreEnoughForReply};
ghost use Rattle.krb_kdc_exchanges.specs.AgreedKeys.{as_req_bytes, kdf_context, key_by};
ghost use Rattle.krb_kdc_exchanges.specs.AsTable.{authenticated, authenticated_by, is_later, is_listed, possible, timestamped};
ghost use Rattle.krb_kdc_exchanges.specs.Preauthentication.{reply_key_as};
ghost use Rattle.krb_kdc_exchanges.specs.Call.{call_of};
ghost use Rattle.krb_kdc_exchanges.specs.Requests.{body_of, has_refused_option, header_rows};
ghost use Rattle.krb_messages.specs.Refusals.{IsJudged};

use crate::requests::has_refused_option;
use crate::{
    Agreed, Call, Pkinit, PkinitCall, Span, check_header, client_of, lasting, moment_of,
    open_encrypted_timestamp, service_of,
};
use krb_constants::error_codes;
use krb_constants::padata_types::{PA_ENC_TIMESTAMP, PA_PK_AS_REQ};
use krb_constants::types::AS_REQ_MSG_TYPE;
use krb_crypto::diffie_hellman::agreed_key;
use krb_crypto::{CipherSuite, Key};
use krb_messages::data_types::PaData;
use krb_messages::messages::{KdcReq, KdcReqBody};
use krb_messages::{Refusal, first_of, is_number, padata_in};
use krb_realm_accounts::Account;
use picky_asn1::wrapper::GeneralStringAsn1;
use picky_asn1_der::{Lent, tagged_encoding};
use pkinit_messages::agility::{Kdf, KdfContext, derived_key};
use std::alloc::{AllocError, Global};

/// Judges the request's header, by the options that an AS request can't have.
pub(crate) fn check_request(realm: &GeneralStringAsn1, request: &KdcReq) -> Result<(), Refusal>
    ensures { IsJudged (header_rows AS_REQ_MSG_TYPE realm.now (has_refused_option (body_of request.now).kdc_options.0) request.now).gives result }
{
    let is_refused = has_refused_option(&request.req_body.0.kdc_options.0);
    check_header(AS_REQ_MSG_TYPE, realm, is_refused, request)
}

/// Judges the ticket's times, and whether `etype` lists the suite of the client's key.
pub(crate) fn check_possible(
    call: &Call<'_>,
    lifetime: u64,
    suite: CipherSuite,
    body: &KdcReqBody,
) -> Result<Span, Refusal>
    requires { lifetime ≤ last_second }
    ensures { IsJudged (possible (call_of call.now) lifetime suite body.now).gives result }
{
    if is_later(call, body) {
        return Err(Refusal::Krb(error_codes::KDC_ERR_CANNOT_POSTDATE));
    }
    let span = lasting(lifetime, call.moment, None, body)?;
    if !is_listed(suite, body) {
        return Err(Refusal::Krb(error_codes::KDC_ERR_ETYPE_NOSUPP));
    }
    Ok(span)
}

// Whether `from` is later than the moment by more than the skew.
fn is_later(call: &Call<'_>, body: &KdcReqBody) -> bool
    ensures { result ≡ is_later (call_of call.now) body.now }
{
    match &body.from.0 {
        Some(from) => call.moment.is_before(from.0.0, call.skew()),
        None => false,
    }
}

// Whether `etype` lists the suite.
fn is_listed(suite: CipherSuite, body: &KdcReqBody) -> bool
    ensures { result ≡ is_listed suite body.now }
{
    let number = u32::from(&suite);
    body.etype
        .0
        .as_slice()
        .iter()
        .any(|etype| is_number(etype, number))
}

/// The preauthentication by which a client was authenticated.
#[derive(Drop)]
pub(crate) enum Preauthentication {
    /// The client sent an encrypted timestamp (RFC 4120, section 5.2.7.2).
    ByTimestamp,
    /// The client sent a certificate (RFC 4556). The key is the one that client and KDC agreed on, and the bytes are PA-PK-AS-REP's data.
    ByCertificate(Key, Vec<u8>),
}

/// Authenticates the client: by PA-PK-AS-REQ where it is there, else by PA-ENC-TIMESTAMP.
pub(crate) fn authenticate<P: Pkinit>(
    alloc: Global,
    call: &Call<'_>,
    pkinit: &P,
    client: &Account,
    name: &[GeneralStringAsn1],
    request: &KdcReq,
) -> Result<Preauthentication, Refusal>
    requires { AreEnoughForReply call.now.words.now }
    ensures { IsJudged (authenticated (call_of call.now) (P.rows pkinit.now) client.now name.now request.now).gives (reply_key_as client.now result) }
{
    let padata = padata_in(request);
    let Some(pk_as_req) = first_of(padata, PA_PK_AS_REQ) else {
        check_timestamp(alloc, call, client, padata)?;
        return Ok(Preauthentication::ByTimestamp);
    };
    agree_by(
        alloc,
        call,
        pkinit,
        client,
        name,
        request,
        pk_as_req.as_bytes(),
    )
}

// Authenticates the client by the data of PA-PK-AS-REQ, and derives the key that both agreed on (RFC 4556, section 3.2.3.1).
fn agree_by<P: Pkinit>(
    alloc: Global,
    call: &Call<'_>,
    pkinit: &P,
    client: &Account,
    name: &[GeneralStringAsn1],
    request: &KdcReq,
    padata: &[u8],
) -> Result<Preauthentication, Refusal>
    requires { AreEnoughForReply call.now.words.now }
    ensures { IsJudged (authenticated_by (call_of call.now) (P.rows pkinit.now) client.now name.now request.now (Some padata.now)).gives (reply_key_as client.now result) }
{
    let pkinit_call = PkinitCall {
        realm: call.realm,
        skew: call.skew(),
        client: name,
        body: &request.req_body.0,
        moment: call.moment,
        words: call.words,
    };
    let agreed = pkinit.judge(alloc, &pkinit_call, padata)?;
    let (secret, kdf, reply) = parts_of(agreed);
    let key = key_by(alloc, call, client.suite(), request, kdf, secret, &reply)?;
    Ok(Preauthentication::ByCertificate(key, reply))
}

// The secret, the key derivation function, and the data of PA-PK-AS-REP.
fn parts_of(agreed: Agreed) -> (Vec<u8>, Option<Kdf>, Vec<u8>)
    ensures { (result.0 ≡ agreed.secret) × (result.1 ≡ agreed.kdf) × (result.2 ≡ agreed.reply) }
{
    (agreed.secret, agreed.kdf, agreed.reply)
}

// The key that a shared secret gives: by the key derivation function, if there is one.
fn key_by(
    alloc: Global,
    call: &Call<'_>,
    suite: CipherSuite,
    request: &KdcReq,
    kdf: Option<Kdf>,
    secret: Vec<u8>,
    reply: &[u8],
) -> Result<Key, AllocError>
    ensures { IfOk result (λ key. key ≡ record { suite = suite; bytes = key_by suite kdf secret.items (kdf_context (call_of call.now) request.now reply.now) }) }
{
    let Some(kdf) = kdf else {
        return agreed_key(alloc, suite, secret);
    };
    let as_req = as_req_bytes(alloc, request)?;
    let body = &request.req_body.0;
    let context = KdfContext {
        realm: call.realm,
        client: client_of(body),
        service: service_of(body),
        as_req: &as_req,
        pk_as_rep: reply,
    };
    derived_key(alloc, suite, kdf, secret, &context)
}

// The one encoding of the AS request.
fn as_req_bytes(alloc: Global, request: &KdcReq) -> Result<Vec<u8>, AllocError>
    ensures { IfOk result (λ bytes. bytes.items ≡ as_req_bytes request.now) }
{
    tagged_encoding::<Lent<'_, KdcReq>, AS_REQ_MSG_TYPE>(alloc, Lent::new(request))
}

// Judges whether the client proves that it has its key, by an encrypted timestamp near the moment (RFC 4120, section 5.2.7.2).
fn check_timestamp(
    alloc: Global,
    call: &Call<'_>,
    client: &Account,
    padata: &[PaData],
) -> Result<(), Refusal>
    ensures { IsJudged (timestamped (call_of call.now) client.now padata.now).gives result }
{
    let Some(value) = first_of(padata, PA_ENC_TIMESTAMP) else {
        return Err(Refusal::Krb(error_codes::KDC_ERR_PREAUTH_REQUIRED));
    };
    let Some(timestamp) = open_encrypted_timestamp(alloc, client, value.as_bytes())? else {
        return Err(Refusal::Krb(error_codes::KDC_ERR_PREAUTH_FAILED));
    };
    let moment = moment_of(&timestamp);
    drop(timestamp);
    let Some(time) = moment else {
        return Err(Refusal::Krb(error_codes::KDC_ERR_PREAUTH_FAILED));
    };
    if call.moment.is_far_from(time, call.skew()) {
        return Err(Refusal::Krb(error_codes::KRB_AP_ERR_SKEW));
    }
    Ok(())
}
