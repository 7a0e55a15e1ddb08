//! The means of a client with algorithm agility.
ghost use Rattle.std.specs.Prelude.{◌≡◌, ◌⊎◌, IfErr, IfOk};
ghost use Rattle.krb_messages.specs.RandomBytes.{AreEnoughForRequest};
ghost use Rattle.krb_client.specs.Refusals.{IsTaken};
ghost use Rattle.krb_kdc_exchanges.specs.AgreedKeys.{key_by};
ghost use Rattle.pkinit_clients.specs.AgileMeans.{IsAgilePadata, IsNoAgilePadata, agile_key_in, agile_reply_key, asked_context, found_key};
ghost use Rattle.pkinit_clients.specs.AgileReplies.{agile_secret, as_found};
ghost use Rattle.pkinit_clients.specs.Faults.{IsTakenAs};
ghost use Rattle.pkinit_clients.specs.Means.{pkinit_asked};

use crate::agility::asking::agile_pk_as_req;
use crate::agility::reply::agile_secret;
use crate::asked::PkinitAsked;
use crate::fault::ReplyFault;
use crate::means::{ByCertificate, pk_as_rep_in};
use krb_client::{AsAsked, AskRefusal, Client, Means, TakeRefusal, agreement_part};
use krb_constants::padata_types::PA_PK_AS_REQ;
use krb_crypto::Key;
use krb_crypto::diffie_hellman::agreed_key;
use krb_kdc_exchanges::{client_of, read_as_req, service_of};
use krb_messages::data_types::PaData;
use krb_messages::messages::{KdcRep, KdcReq, KdcReqBody};
use krb_tickets::pa_data;
use krb_time::Moment;
use pkinit_messages::agility::{Kdf, KdfContext, derived_key};
use std::alloc::{AllocError, Global};
use x509_keys::KeyFunctions;

/// The means of a client that authenticates by certificate with algorithm agility (RFC 8636): it lists CMS types and key derivation
/// functions, and takes signed replies as KDCs send them.
#[derive(Clone, Copy)]
pub struct AgileCertificate<'a, K: KeyFunctions> {
    /// The client's certificate, its anchor and its key functions.
    pub own: ByCertificate<'a, K>,
    /// The AS request whose reply is taken. None is needed to ask.
    pub as_req: &'a [u8],
}

impl<'a, K: KeyFunctions> Means for AgileCertificate<'a, K> {
    ghost use Rattle.pkinit_clients.specs.AgileMeans.{by_agile_certificate};

    ghost means = { λ agile. by_agile_certificate agile.own.certificate.now agile.own.anchor.now (K.functions agile.own.keys.now) agile.as_req.now };

    fn padata(
        &self,
        alloc: Global,
        body: &KdcReqBody,
        moment: Moment,
        words: &[u8],
    ) -> Result<PaData, AskRefusal> {
        agile_padata(
            alloc,
            self.own.keys,
            self.own.certificate,
            body,
            moment,
            words,
        )
    }

    fn reply_key(
        &self,
        alloc: Global,
        client: &Client,
        asked: &AsAsked,
        reply: &KdcRep,
    ) -> Result<Key, TakeRefusal> {
        agile_reply_key(alloc, self, client, asked, reply)
    }
}

// The padata PA-PK-AS-REQ. The client has none if its key functions have no public value or no signature.
fn agile_padata<K: KeyFunctions>(
    alloc: Global,
    keys: &K,
    certificate: &[u8],
    body: &KdcReqBody,
    moment: Moment,
    words: &[u8],
) -> Result<PaData, AskRefusal>
    requires { AreEnoughForRequest words.now }
    ensures shown { IfOk result (IsAgilePadata (K.functions keys.now) certificate.now body.now moment words.now) }
    ensures refusal { IfErr result (λ refusal. (refusal ≡ AskRefusal.Memory)
        ⊎ ((refusal ≡ AskRefusal.NoKeyFunction) × IsNoAgilePadata (K.functions keys.now) certificate.now body.now moment words.now)) }
{
    let agreement = agreement_part(words);
    let made = agile_pk_as_req(alloc, keys, certificate, body, moment, agreement)?;
    let Some(value) = made else {
        return Err(AskRefusal::NoKeyFunction);
    };
    let padata = pa_data(alloc, PA_PK_AS_REQ, value)?;
    Ok(padata)
}

// The reply key, by the reply's PA-PK-AS-REP.
fn agile_reply_key<K: KeyFunctions>(
    alloc: Global,
    agile: &AgileCertificate<'_, K>,
    client: &Client,
    asked: &AsAsked,
    reply: &KdcRep,
) -> Result<Key, TakeRefusal>
    ensures { IsTaken (agile_reply_key (K.functions agile.now.own.keys.now) agile.now.own.anchor.now agile.now.as_req.now client.now asked.now reply.now) result }
{
    let Some(padata) = pk_as_rep_in(reply) else {
        return Err(TakeRefusal::NotTrusted);
    };
    agile_key_in(alloc, agile, client, asked, padata.as_bytes())
}

// The reply key that this padata-value gives.
fn agile_key_in<K: KeyFunctions>(
    alloc: Global,
    agile: &AgileCertificate<'_, K>,
    client: &Client,
    asked: &AsAsked,
    padata: &[u8],
) -> Result<Key, TakeRefusal>
    ensures { IsTaken (agile_key_in (K.functions agile.now.own.keys.now) agile.now.own.anchor.now client.now asked.now agile.now.as_req.now padata.now) result }
{
    match found_in(alloc, &agile.own, client, asked, padata) {
        Ok((secret, kdf)) => found_key(alloc, client, agile.as_req, padata, secret, kdf),
        Err(ReplyFault::NotTrusted) => Err(TakeRefusal::NotTrusted),
        Err(ReplyFault::Memory) => Err(TakeRefusal::Memory),
    }
}

// The secret and the key derivation function that this padata-value gives.
fn found_in<K: KeyFunctions>(
    alloc: Global,
    own: &ByCertificate<'_, K>,
    client: &Client,
    asked: &AsAsked,
    padata: &[u8],
) -> Result<(Vec<u8>, Option<Kdf>), ReplyFault>
    ensures { IsTakenAs (agile_secret (K.functions own.now.keys.now) (pkinit_asked own.now.anchor.now client.now asked.now) padata.now).gives (as_found result) }
{
    let held = PkinitAsked {
        realm: client.realm(),
        anchor: own.anchor,
        moment: asked.moment(),
        nonce: asked.nonce(),
        words: asked.agreement(),
    };
    agile_secret(alloc, own.keys, &held, padata)
}

// The reply key by what was found, if these bytes are an AS request.
fn found_key(
    alloc: Global,
    client: &Client,
    as_req: &[u8],
    padata: &[u8],
    secret: Vec<u8>,
    kdf: Option<Kdf>,
) -> Result<Key, TakeRefusal>
    ensures { IsTaken (found_key client.now as_req.now padata.now (secret.items, kdf)) result }
{
    let Some(request) = read_as_req(alloc, as_req)? else {
        return Err(TakeRefusal::NotTrusted);
    };
    let key = key_for(alloc, client, &request, as_req, padata, secret, kdf);
    drop(request);
    Ok(key?)
}

// The key that a secret gives for this request: by the key derivation function, if there is one.
fn key_for(
    alloc: Global,
    client: &Client,
    request: &KdcReq,
    as_req: &[u8],
    padata: &[u8],
    secret: Vec<u8>,
    kdf: Option<Kdf>,
) -> Result<Key, AllocError>
    ensures { IfOk result (λ key. key ≡ record { suite = client.now.suite; bytes = key_by client.now.suite kdf secret.items (asked_context client.now request.now as_req.now padata.now) }) }
{
    let suite = client.suite();
    let Some(kdf) = kdf else {
        return agreed_key(alloc, suite, secret);
    };
    let body = &request.req_body.0;
    let context = KdfContext {
        realm: client.realm(),
        client: client_of(body),
        service: service_of(body),
        as_req,
        pk_as_rep: padata,
    };
    derived_key(alloc, suite, kdf, secret, &context)
}
